//! The end of a run, a crash, and the opening of the next run.
ghost use Rattle.named_files.specs.Leftovers.{LeavesTheSame, MayLeaveOf};
ghost use Rattle.named_files.specs.Restarts.{HasOpenCause, HoldsListed, LeaveOneOf};
ghost use Rattle.named_files.specs.Restarts.{LeaveSealedOneOf, ShowsOpened};
ghost use Rattle.sqlite.specs.Effect.{Database};
ghost use Rattle.sqlite.specs.Files.{Finds, HoldsDatabase, IsCleanLeft, IsOpened, LeavesFiles};
ghost use Rattle.sqlite.specs.Files.{file_state, image_of};
ghost use Rattle.sqlite.specs.Held.{AreDatabases, IsNew};
ghost use Rattle.sqlite.specs.Recovery.{Image};
ghost use Rattle.sqlite.specs.State.{HasCleanDisk};
ghost use Rattle.sqlite.specs.Tree.{Trees};
ghost use Rattle.sqlite.specs.WalFiles.{outcomes};
ghost use Rattle.sqlite.specs.WalReads.{AreClean};
ghost use Rattle.sqlite_store.specs.FileStore.{faults, is_shielded, recovers, view};
ghost use Rattle.sqlite_trees.specs.View.{IsClean, IsQuiet, IsRolledBack};
ghost use Rattle.std.specs.Prelude.{IfErr, IfOk, IsTrue};

use sqlite::{Connection, Error, FileStore, Files, Leftover, Options};
use sqlite_disk::{Crash, Disk};
use std::alloc::Global;

/// `Connection::into_store` of a connection to files: it rolls back a transaction that is open, and
/// returns the store. What a crash leaves of that is what it could leave of the connection, and it
/// obeys its own schema.
///
/// Callers use this one. The proof of a call over any store, made with the store over files, takes
/// 20 seconds; the proof of a call of this function takes one.
pub fn into_store<D: Disk + Drop>(connection: Connection<FileStore<D>>) -> FileStore<D>
    ensures numbered { IsClean (view result) → IsTrue (view result).is_numbered }
    ensures sound { IsClean (view result) → AreDatabases (recovers result) }
    ensures undone { IsRolledBack (view connection.store) (view result) }
    ensures quiet { IsQuiet view faults recovers is_shielded connection.store result }
{
    connection.into_store()
}

/// Drops a connection to files. Callers use it for the same reason.
pub fn drop_connection<D: Disk + Drop>(connection: Connection<FileStore<D>>) {
    drop(connection)
}

/// Ends the use of a connection without writing: a transaction that is open is rolled back. Returns
/// the files.
///
/// What a crash leaves of them is what it could leave of the connection. That is so whatever came
/// before, also if the disk failed and the connection is closed.
pub fn into_files<D: Disk + Drop>(connection: Connection<FileStore<D>>) -> Files<D>
    ensures leaves { LeaveOneOf D.Disk result (file_state connection).may_leave }
    ensures sealed { LeaveSealedOneOf D.Disk result (file_state connection).may_leave }
    ensures clean { AreClean D.Disk result.log result.db → HasCleanDisk (file_state connection) }
{
    into_store(connection).close()
}

/// The files after a crash.
pub fn crash_files<D: Crash>(files: Files<D>) -> Files<D>
    ensures crash { outcomes D.Disk files.log files.db (image_of D.Disk result) }
    ensures again { (image : Image) → outcomes D.Disk result.log result.db image
        → outcomes D.Disk files.log files.db image }
    ensures clean { AreClean D.Disk result.log result.db → AreClean D.Disk files.log files.db }
    ensures log { IsTrue (D.Disk.is_usable result.log) }
    ensures db { IsTrue (D.Disk.is_usable result.db) }
{
    let Files { mut log, mut db } = files;
    log.crash();
    db.crash();
    Files { log, db }
}

/// The files after a crash of what an opening that failed left of them.
pub fn crash_left<D: Crash>(left: Leftover<D>) -> Files<D>
    ensures crash { MayLeaveOf left (image_of D.Disk result) }
    ensures again { (image : Image) → outcomes D.Disk result.log result.db image
        → MayLeaveOf left image }
    ensures clean { AreClean D.Disk result.log result.db → IsCleanLeft left }
    ensures log { IsTrue (D.Disk.is_usable result.log) }
    ensures db { IsTrue (D.Disk.is_usable result.db) }
{
    crash_files(left.into_files())
}

/// Opens the files. If they hold a database, the connection shows it, with the schema that it
/// lists; and an error has a cause.
pub fn open_again<D: Disk + Drop>(
    alloc: Global,
    files: Files<D>,
    options: Options,
) -> Result<Connection<FileStore<D>>, (Error, Leftover<D>)>
    requires log { IsTrue (D.Disk.is_usable files.log) }
    requires db { IsTrue (D.Disk.is_usable files.db) }
    ensures fresh { IfOk result IsNew }
    ensures honest { IfOk result (λ c. HasCleanDisk (file_state c)
        → AreClean D.Disk files.log files.db) }
    ensures opened { IfOk result (λ c. HasCleanDisk (file_state c) → IsOpened c) }
    ensures found { IfOk result (λ c. HasCleanDisk (file_state c) → Finds files c) }
    ensures opens { (db : Database) → HoldsListed (image_of D.Disk files) db
        → IfOk result (λ c. HasCleanDisk (file_state c) → ShowsOpened (file_state c) db) }
    ensures cause { (db : Trees) → HoldsDatabase (image_of D.Disk files) db
        → IfErr result (λ refused. IsCleanLeft refused.1
        → HasOpenCause files refused.1 refused.0) }

    // An error harms nothing: what is left of the files stands for what they stood for.
    ensures unharmed { IfErr result (λ refused. IsCleanLeft refused.1
        → LeavesFiles files refused.1) }

    // So a crash of it leaves what a crash of the files left, or the same database.
    ensures leaves { IfErr result (λ refused. LeavesTheSame files refused.1) }
{
    Connection::open_files(alloc, files, options)
}
