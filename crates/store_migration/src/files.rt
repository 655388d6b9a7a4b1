//! Migrates stores in files.
ghost use Rattle.named_files.specs.FileOpenings.{OpensFound};
ghost use Rattle.sqlite.specs.Files.{file_state};
ghost use Rattle.sqlite.specs.State.{HasCleanDisk};
ghost use Rattle.std.specs.Prelude.{IfErr, IfOk};
ghost use Rattle.store_migration.specs.Migration.{
  IsFaultAfter,
  IsFileMigrationRefusal,
  MigratesFrom,
};

use crate::migrating::migrate_connection;
use named_files::{NamedFiles, SystemFiles, connect_found, drop_connection, into_store};
use sqlite::{Connection, Error, ErrorCode, FileStore, Leftover};
use sqlite_std_file::{FileFrom, Start, Unknown};
use std::alloc::Global;
use store_schema::{FileRefusal, OpenFault, fault_of_first_leftover, open_fault_of};

/// Returns why files are not migrated over which opening a connection failed with the error. `left`
/// is what is left of them.
fn fault_after<S: Start>(alloc: Global, error: Error, left: &mut Leftover<FileFrom<S>>) -> OpenFault
    ensures { IsFaultAfter error left.old left.new result }
{
    match error {
        Error::SqliteFailure(ErrorCode::NotADatabase) => fault_of_first_leftover(alloc, left),
        error => open_fault_of(error),
    }
}

/// Migrates the store in the file from the first schema to the second, in one transaction. Returns
/// the number of books, and the connection to the file. `start` represents the octets that the file
/// and its log held; no code can read it.
///
/// Fails as [`migrate_connection`] does for the tables in the file, with `Damaged` also if their
/// rows break their declarations; with `NotOurs` if the file is not a database or is empty; with
/// `Memory` if memory runs out; and with `Store` if there is no file or it can't be used: another
/// process has it open, it has two names, or the disk fails. An error returns what is left of the
/// files, if they were opened.
pub fn migrate_in<S: Start, F: NamedFiles<S>>(
    files: &mut F,
    alloc: Global,
    path: &str,
    start: S,
) -> Result<(u64, Connection<FileStore<FileFrom<S>>>), FileRefusal<S>>
    // If something is at this path, one connection is opened to it; nothing else is asked.
    ensures calls { OpensFound path.now result (F.log files.old) (F.log files.new) }
    ensures migrates { IfOk result (λ done. HasCleanDisk (file_state done.1)
        → MigratesFrom file_state (F.image files.old path.now) done.0 done.1) }

    // The fault is right for what the file and its log held.
    ensures refused { IfErr result (λ refused.
        IsFileMigrationRefusal (F.image files.old path.now) refused.0 refused.1) }
{
    match connect_found(files, path, start) {
        Ok(connection) => {
            let mut conn = connection;
            match migrate_connection(alloc, &mut conn) {
                Ok(books) => Ok((books, conn)),
                Err(fault) => Err((fault, Some(Leftover::Store(into_store(conn))))),
            }
        }
        Err((error, Some(left))) => {
            let mut left = left;
            let fault = fault_after(alloc, error, &mut left);
            Err((fault, Some(left)))
        }
        Err((error, None)) => Err((open_fault_of(error), None)),
    }
}

/// `migrate_in` over the files of the system, for a program that proves nothing about what the file
/// holds. Returns the number of books.
pub fn migrate(rt: &HostRuntime, path: &str) -> Result<u64, OpenFault> {
    let mut files = SystemFiles::new(rt);
    match migrate_in(&mut files, rt.alloc(), path, Unknown) {
        Ok((books, connection)) => {
            drop_connection(connection);
            Ok(books)
        }
        Err((fault, _left)) => Err(fault),
    }
}
