//! Closes the store in a file, and copies a store into a new file.
ghost use Rattle.book_store.specs.StoreViews.{table_model};
ghost use Rattle.book_store.specs.ClosedFiles.{AreBooksAlone, AreTreesAlone};
ghost use Rattle.sqlite.specs.Files.{file_state, over_files};
ghost use Rattle.sqlite.specs.WalReads.{AreClean};
ghost use Rattle.store_lookups.specs.OnConnections.{IsOpenOnHonestDisk, stored_books};
ghost use Rattle.store_tables.specs.OnConnections.{OnlyReads};
ghost use Rattle.store_tables.specs.SchemaCreation.{empty_schema};
ghost use Rattle.sync_core.specs.StoreModels.{KeepsBooks, KeepsTerms};
ghost use Rattle.std.specs.Prelude.{◌≡◌, IfOk, OnOk, false};

use crate::over_files::into_connection;
use crate::real_files::{OpensFiles, RealFiles};
use crate::schema_creation::is_schema_empty;
use crate::sql_store::SqlStore;
use named_files::{drop_connection, log_name};
use sqlite::{Alter, Connection, FileStore, Files};
use sqlite_disk::Disk;
use sqlite_std_file::{FileFrom, Unknown};
use std::fs;
use store_schema::{OpenFault, open_fault_of};
use sync_core::BookStore;

impl<D: Disk + Drop> SqlStore<FileStore<D>> {
    /// Closes the store and copies its log into the file, which then holds the books without the
    /// log, and all other rows of the store's tables as they were.
    ///
    /// Fails with `Memory` if memory runs out, and with `Store` if the disk fails. An error drops
    /// the files. What they hold then, or after a crash on the way, is only tested.
    pub fn close(self) -> Result<Files<D>, OpenFault>
        ensures whole { IfOk result (λ files. AreClean D.Disk files.log files.db
            → AreTreesAlone D.Disk files (file_state self.conn).now.trees) }
        ensures alone { IfOk result (λ files. AreClean D.Disk files.log files.db
            → AreBooksAlone D.Disk files (stored_books over_files self.conn)) }
        ensures was_open { IfOk result (λ files. AreClean D.Disk files.log files.db
            → IsOpenOnHonestDisk over_files self.conn) }
    {
        match into_connection(self).close_files() {
            Ok(files) => Ok(files),
            Err((error, _store)) => Err(open_fault_of(error)),
        }
    }
}

impl<S: Alter> SqlStore<S> {
    /// Copies all books into the files of the connection, whose database must have no tables, and
    /// closes them: the file then holds the copy without its log. The connection must be outside a
    /// transaction.
    ///
    /// Fails as `copy_into` and `close` do.
    pub fn copy_to<D: Disk + Drop>(
        &mut self,
        target: Connection<FileStore<D>>,
    ) -> Result<Files<D>, OpenFault>
        requires { target.in_transaction ≡ false }
        ensures alone { IfOk result (λ files. IsOpenOnHonestDisk S.Store self.new.conn
            → AreClean D.Disk files.log files.db
            → AreBooksAlone D.Disk files (stored_books S.Store self.old.conn)) }

        // A copy is made only where there were no tables.
        ensures was_empty { OnOk result (target.schema ≡ empty_schema) }

        // This store is only read.
        ensures terms { KeepsTerms (table_model S.Store) self.old self.new }
        ensures keeps_books { KeepsBooks (table_model S.Store) self.old self.new }
        ensures reads_only { OnlyReads S.Store self.old.conn self.new.conn }
    {
        let rows = match self.list_rows() {
            Ok(rows) => rows,
            Err(fault) => {
                drop_connection(target);
                return Err(fault);
            }
        };
        let copy = self.copy_rows_to_files(rows, &[], target)?;
        copy.close()
    }
}

// ---- the files of a program

/// Fails with `NotEmpty` if something is at the path, and with `Store` if the host can't tell.
fn check_free(rt: &HostRuntime, path: &str) -> Result<(), OpenFault> {
    match fs::exists(rt, path) {
        Ok(false) => Ok(()),
        Ok(true) => Err(OpenFault::NotEmpty),
        Err(_) => Err(OpenFault::Store),
    }
}

/// `check_free` for the path of a new file and for that of its log.
pub(crate) fn check_both_free(rt: &HostRuntime, target: &str) -> Result<(), OpenFault> {
    let log = log_of(rt, target)?;
    check_free(rt, target)?;
    check_free(rt, log.as_str())
}

/// Removes the new file and its log if no copy was made in them. An error is ignored: then what is
/// left doesn't open as a store.
pub(crate) fn remove_new(rt: &HostRuntime, target: &str, log: &str) {
    let _removed = fs::remove_file(rt, target);
    let _removed_log = fs::remove_file(rt, log);
}

/// Copies the books into the new file of the connection, which needs no log.
fn fill_new<S: Alter, D: Disk + Drop>(
    rt: &HostRuntime,
    books: &mut SqlStore<S>,
    connection: Connection<FileStore<D>>,
    target: &str,
    log: &str,
) -> Result<(), OpenFault>
    requires { connection.in_transaction ≡ false }
{
    match books.copy_to(connection) {
        Ok(_files) => {
            let _removed = fs::remove_file(rt, log);
            Ok(())
        }
        Err(fault) => {
            remove_new(rt, target, log);
            Err(fault)
        }
    }
}

/// Copies the books into the new file of the connection, unless it has tables.
fn fill_if_empty<S: Alter, D: Disk + Drop>(
    rt: &HostRuntime,
    books: &mut SqlStore<S>,
    connection: Connection<FileStore<D>>,
    target: &str,
    log: &str,
) -> Result<(), OpenFault>
    requires { connection.in_transaction ≡ false }
{
    if !is_schema_empty(connection.schema()) {
        drop_connection(connection);
        return Err(OpenFault::NotEmpty);
    }
    fill_new(rt, books, connection, target, log)
}

/// Copies the books of the file at the path into a new file.
fn copy_to_new<S: Alter, D: Disk + Drop, F: OpensFiles<D>>(
    rt: &HostRuntime,
    files: &F,
    books: &mut SqlStore<S>,
    path: &str,
    target: &str,
    log: &str,
) -> Result<(), OpenFault> {
    let connection = files.open_new(rt, path, target, log)?;
    fill_if_empty(rt, books, connection, target, log)
}

/// The number of the books.
fn book_count<S: Alter>(books: &mut SqlStore<S>) -> Result<u64, OpenFault> {
    match books.books() {
        Ok(lines) => Ok(lines.len() as u64),
        Err(_) => Err(OpenFault::Store),
    }
}

/// Copies the books of the file at the path into a new file, and returns their number.
fn copy_books<S: Alter, D: Disk + Drop, F: OpensFiles<D>>(
    rt: &HostRuntime,
    files: &F,
    books: &mut SqlStore<S>,
    path: &str,
    target: &str,
    log: &str,
) -> Result<u64, OpenFault> {
    let count = book_count(books)?;
    copy_to_new(rt, files, books, path, target, log)?;
    Ok(count)
}

/// The name of a file's log.
pub(crate) fn log_of(rt: &HostRuntime, path: &str) -> Result<String, OpenFault> {
    match log_name(rt.alloc(), path) {
        Ok(log) => Ok(log),
        Err(_) => Err(OpenFault::Memory),
    }
}

/// The octets of the smallest page. A log with fewer holds no change.
const PAGE_OCTETS_MIN: u64 = 512;

/// Whether the log may hold a change.
fn may_hold_change(rt: &HostRuntime, log: &str) -> bool {
    match fs::metadata(rt, log) {
        Ok(metadata) => metadata.len() >= PAGE_OCTETS_MIN,
        Err(_) => true,
    }
}

/// Removes a log that the opening of the file made: the file had none before, and it holds no
/// change. The file must be held meanwhile, so that nobody else writes the log.
pub(crate) fn forget_log(rt: &HostRuntime, had_log: bool, log: &str) {
    if !had_log && !may_hold_change(rt, log) {
        let _removed = fs::remove_file(rt, log);
    }
}

/// Copies the books of the file at the path, which is open. Leaves no log that the opening made.
fn copy_held<S: Alter + Drop, D: Disk + Drop, F: OpensFiles<D>>(
    rt: &HostRuntime,
    files: &F,
    books: SqlStore<S>,
    path: &str,
    had_log: bool,
    old_log: &str,
    target: &str,
    log: &str,
) -> Result<u64, OpenFault> {
    let mut books = books;
    let copied = copy_books(rt, files, &mut books, path, target, log);
    forget_log(rt, had_log, old_log);
    copied
}

/// Opens the file at the path, and copies its books.
fn copy_opened<D: Disk + Drop, F: OpensFiles<D>>(
    rt: &HostRuntime,
    files: &F,
    path: &str,
    old_log: &str,
    target: &str,
    log: &str,
) -> Result<u64, OpenFault> {
    let had_log = fs::exists(rt, old_log).unwrap_or(true);
    let books = files.open_standard(rt, path)?;
    copy_held(rt, files, books, path, had_log, old_log, target, log)
}

impl SqlStore<FileStore<FileFrom<Unknown>>> {
    /// Copies the store in the file at the path into a new file, and returns the number of books.
    /// The new file needs no log, and none stays beside it. It holds no text that the tables don't
    /// hold: none of a card that was removed or replaced. It has the mode of the old file. If that
    /// had no log, none stays beside it either.
    ///
    /// Fails with `NotEmpty` if something is at the path `target`, or at that of its log; as `open`
    /// does for the file; and as `copy_to` does. An error removes the new file, but for one: if the
    /// disk is full at the first pages, some octets may stay there, which are no store.
    pub fn copy_file(rt: &HostRuntime, path: &str, target: &str) -> Result<u64, OpenFault> {
        check_both_free(rt, target)?;
        let log = log_of(rt, target)?;
        let old_log = log_of(rt, path)?;
        copy_opened(rt, &RealFiles, path, old_log.as_str(), target, log.as_str())
    }
}
