//! The end of a run of a store in files, and the opening by the next run.
ghost use Rattle.book_model.specs.Books.{Books};
ghost use Rattle.book_store.specs.Restarts.{FailsAgain, HasCrashCause, HasRestartCause, HoldsStore};
ghost use Rattle.book_store.specs.Restarts.{LeaveStores, LeftStore, OpensLeft, declared_over};
ghost use Rattle.book_store.specs.StoreViews.{LeftTrees, table_model};
ghost use Rattle.named_files.specs.Leftovers.{LeavesTheSame};
ghost use Rattle.named_files.specs.Restarts.{LeaveSealedOneOf};
ghost use Rattle.sqlite.specs.Files.{IsCleanLeft, LeavesFiles, file_state, image_of, over_files};
ghost use Rattle.sqlite.specs.State.{HasCleanDisk};
ghost use Rattle.sqlite.specs.WalReads.{AreClean};
ghost use Rattle.store_lookups.specs.StoredBooks.{IsOpenOnHonestDisk, stored_books};
ghost use Rattle.store_schema.specs.OpenFaults.{IsErrorFault};
ghost use Rattle.store_writes.specs.TableChanges.{TreesHold};
ghost use Rattle.sync_core.specs.StoreCrashes.{IsSettled, RestartsFrom};
ghost use Rattle.std.specs.Prelude.{◌≡◌, IfErr, IfOk, IsTrue};

use crate::over_files::{assert_settled, into_connection, try_adopt};
use crate::sql_store::SqlStore;
use book_model::Limits;
use named_files as runs;
use sqlite::{Alter, FileStore, Files, Leftover, Options};
use sqlite_disk::{Crash, Disk};
use std::alloc::Global;
use store_schema::{OpenFault, open_fault_of};

impl<D: Disk + Drop> SqlStore<FileStore<D>> {
    /// Ends the use of the store without writing, and returns its files. Whatever a crash leaves of
    /// them holds a store, which opens again (`left_stores_open`), as long as the disk has returned
    /// what was written. That is so also if the connection was closed. If it was open, the books
    /// are those of the store.
    pub fn into_files(self) -> Files<D>
        ensures leaves { LeaveSealedOneOf D.Disk result (LeftTrees (file_state self.conn)) }
        ensures books { IsOpenOnHonestDisk (file_state self.conn)
            → LeaveSealedOneOf D.Disk result (TreesHold (stored_books (file_state self.conn))) }
        ensures clean { AreClean D.Disk result.log result.db → HasCleanDisk (file_state self.conn) }
    {
        runs::into_files(into_connection(self))
    }

    /// Opens the store that an earlier run left in its files.
    ///
    /// If they hold a store, it has their books. Then an opening fails only with `Memory` if memory
    /// runs out, and with `Store` if the disk fails or the files are as long as their format
    /// allows.
    pub fn open_again(
        alloc: Global,
        files: Files<D>,
        options: Options,
        limits: Limits,
    ) -> Result<SqlStore<FileStore<D>>, (OpenFault, Leftover<D>)>
        requires log { IsTrue (D.Disk.is_usable files.log) }
        requires db { IsTrue (D.Disk.is_usable files.db) }
        ensures limits { IfOk result (λ store. store.limits ≡ limits) }
        ensures honest { IfOk result (λ store. HasCleanDisk (file_state store.conn)
            → AreClean D.Disk files.log files.db × IsTrue (file_state store.conn).is_open) }
        ensures opens { (books : Books) → HoldsStore (image_of D.Disk files) books
            → IfOk result (λ store. IsOpenOnHonestDisk (file_state store.conn)
            → stored_books (file_state store.conn) ≡ books) }
        ensures cause { (books : Books) → (holds : HoldsStore (image_of D.Disk files) books)
            → IfErr result (λ refused. IsCleanLeft refused.1
            → HasRestartCause (declared_over holds.trees) files refused.1 refused.0) }

        // So it is never refused as damaged, or as a store of another kind.
        ensures kind { (books : Books) → HoldsStore (image_of D.Disk files) books
            → IfErr result (λ refused. IsCleanLeft refused.1 → IsErrorFault refused.0) }

        // A refusal harms nothing: what is left of the files stands for what they stood for.
        ensures unharmed { IfErr result (λ refused. IsCleanLeft refused.1
            → LeavesFiles files refused.1) }
        ensures leaves { IfErr result (λ refused. LeavesTheSame files refused.1) }
    {
        match runs::open_again(alloc, files, options) {
            Ok(connection) => match try_adopt(alloc, connection, limits) {
                Ok(store) => Ok(store),
                Err((fault, connection)) => Err((
                    fault,
                    Leftover::Store(runs::into_store(connection)),
                )),
            },
            Err((error, left)) => Err((open_fault_of(error), left)),
        }
    }
}

impl<D: Crash + Drop> SqlStore<FileStore<D>> {
    /// The files after a crash at this moment. They hold a store, with books that the crash may
    /// leave, as long as the disk has returned what was written.
    pub fn crash(self) -> Files<D>
        ensures leaves { AreClean D.Disk result.log result.db
            → ∥ LeftStore (file_state self.conn) (image_of D.Disk result) ∥₁ }
        ensures again { LeaveStores D.Disk (file_state self.conn) result }
        ensures log { IsTrue (D.Disk.is_usable result.log) }
        ensures db { IsTrue (D.Disk.is_usable result.db) }
    {
        runs::crash_files(self.into_files())
    }

    /// Crashes at this moment, and opens the store again, with the same limits. That fails only for
    /// a cause that `open_again` gives, over the files that `crash` leaves.
    pub fn restart(
        self,
        alloc: Global,
        options: Options,
    ) -> Result<SqlStore<FileStore<D>>, (OpenFault, Leftover<D>)>
        ensures restarts { IfOk result (RestartsFrom (table_model over_files) self) }
        ensures cause { IfErr result (λ refused.
            HasCrashCause (file_state self.conn) refused.1 refused.0) }
    {
        let limits = self.limits;
        let store = match SqlStore::open_again(alloc, self.crash(), options, limits) {
            Ok(store) => store,
            Err(refused) => return Err(refused),
        };
        assert_settled(&store);
        Ok(store)
    }
}

/// Opens a store from what an opening that failed left of its files, after one more crash. If the
/// two facts of `IsTold` hold of each opening that failed, it has books that a crash of the store
/// before them may leave, however many these openings were. It fails as `open_again` does.
pub fn open_left<D: Crash + Drop>(
    alloc: Global,
    left: Leftover<D>,
    options: Options,
    limits: Limits,
) -> Result<SqlStore<FileStore<D>>, (OpenFault, Leftover<D>)>
    ensures restarts { IfOk result (OpensLeft left limits) }
    ensures again { IfErr result (λ refused. FailsAgain left refused.1 refused.0) }
{
    let files = runs::crash_left(left);
    let store = match SqlStore::open_again(alloc, files, options, limits) {
        Ok(store) => store,
        Err(refused) => return Err(refused),
    };
    assert_settled(&store);
    Ok(store)
}

impl<S: Alter> SqlStore<S> {
    /// Proves for its caller that a crash of an open store leaves its books, as `live` asks of the
    /// store that it begins with. It has no other effect.
    pub fn assert_settled(&self)
        ensures { IsSettled (table_model S.Store) self.now }
    {
        // A field that is read gives the proof the store's invariant.
        let _connection = &self.conn;
    }
}
