//! Copies the books of a store but some of them into a new file.
ghost use Rattle.book_store.specs.Copies.{AreRestarted, AreRestWithout};
ghost use Rattle.book_store.specs.StoreViews.{table_model};
ghost use Rattle.sqlite.specs.Files.{over_files};
ghost use Rattle.sqlite.specs.WalReads.{AreClean};
ghost use Rattle.store_copy.specs.BooksWithout.{HaveBooks};
ghost use Rattle.store_lookups.specs.OnConnections.{IsOpenOnHonestDisk, stored_books};
ghost use Rattle.store_tables.specs.OnConnections.{OnlyReads};
ghost use Rattle.store_tables.specs.SchemaCreation.{empty_schema};
ghost use Rattle.sync_core.specs.StoreModels.{KeepsBooks, KeepsTerms};
ghost use Rattle.std.specs.Prelude.{◌≡◌, ◌≤◌, IfOk, OnOk, false};

use crate::closing::{check_both_free, forget_log, log_of, remove_new};
use crate::copy_fault::{CopyFault, fault_of};
use crate::over_files::{into_connection, resync};
use crate::real_files::{OpensFiles, RealFiles};
use crate::sql_store::SqlStore;
use base_types::Text;
use book_model::Refusal;
use named_files::drop_connection;
use sqlite::{Alter, Connection, FileStore, Files};
use sqlite_disk::Disk;
use sqlite_std_file::{FileFrom, Unknown};
use std::fs;
use store_copy::{has_books, restarting_pairs};
use store_schema::OpenFault;
use sync_core::BookStore;

/// Makes every device of the copy start again, and closes it. Returns its files, and the number of
/// its books.
fn restart_copy<D: Disk + Drop>(
    copy: SqlStore<FileStore<D>>,
    pairs: u64,
) -> Result<(Files<D>, u64), CopyFault>
    requires some { 1 ≤ pairs }
    ensures was_open { IfOk result (λ made. AreClean D.Disk made.0.log made.0.db
        → IsOpenOnHonestDisk over_files copy.conn) }
    ensures restarted { IfOk result (λ made. AreClean D.Disk made.0.log made.0.db
        → AreRestarted D.Disk made.0 copy.limits (stored_books over_files copy.conn) pairs) }
{
    let mut copy = copy;
    match resync(&mut copy, pairs) {
        Ok(books) => {
            let files = copy.close()?;
            Ok((files, books))
        }
        Err(denied) => {
            drop_connection(into_connection(copy));
            Err(fault_of(denied))
        }
    }
}

impl<S: Alter> SqlStore<S> {
    /// Copies the books but those with these names into the files of the connection, as `copy_to`
    /// does. The others keep their names, and their ids close up. So a book may get the id of
    /// another one, and every device is made to start again before the files are closed: each book
    /// takes so many numbers that no token of this store counts in the copy. Returns the files, and
    /// the number of books in them.
    ///
    /// Refused with `NoSuchBook` if a name isn't that of a book; and as `resync` is. Fails as
    /// `copy_to` does.
    pub fn copy_without<D: Disk + Drop>(
        &mut self,
        names: &[Text],
        target: Connection<FileStore<D>>,
    ) -> Result<(Files<D>, u64), CopyFault>
        requires { target.in_transaction ≡ false }
        ensures rest { IfOk result (λ made. IsOpenOnHonestDisk S.Store self.new.conn
            → AreClean D.Disk made.0.log made.0.db → AreRestWithout D.Disk made.0
            self.old.limits names.now (stored_books S.Store self.old.conn)) }
        ensures named { OnOk result (IsOpenOnHonestDisk S.Store self.new.conn
            → HaveBooks names.now (stored_books S.Store self.old.conn)) }

        // A copy is made only where there were no tables.
        ensures was_empty { OnOk result (target.schema ≡ empty_schema) }

        // This store is only read.
        ensures terms { KeepsTerms (table_model S.Store) self.old self.new }
        ensures keeps_books { KeepsBooks (table_model S.Store) self.old self.new }
        ensures reads_only { OnlyReads S.Store self.old.conn self.new.conn }
    {
        let rows = match self.list_rows() {
            Ok(rows) => rows,
            Err(fault) => {
                drop_connection(target);
                return Err(CopyFault::Open(fault));
            }
        };
        if !has_books(&rows, names) {
            drop_connection(target);
            return Err(CopyFault::Refused(Refusal::NoSuchBook));
        }
        let pairs = restarting_pairs(&rows);
        let copy = self.copy_rows_to_files(rows, names, target)?;
        restart_copy(copy, pairs)
    }
}

// ---- the files of a program

/// Refused with `NoSuchBook` if a name isn't that of a book. `copy_without` tests it too, but then
/// there is a new file.
fn check_names<S: Alter>(books: &mut SqlStore<S>, names: &[Text]) -> Result<(), CopyFault> {
    for name in names {
        match books.book(name.as_str()) {
            Ok(_line) => {}
            Err(denied) => return Err(fault_of(denied)),
        }
    }
    Ok(())
}

/// Whether both paths lead to one file.
fn are_same_file(rt: &HostRuntime, a: &str, b: &str) -> bool {
    match (fs::canonicalize(rt, a), fs::canonicalize(rt, b)) {
        (Ok(a), Ok(b)) => a.as_str() == b.as_str(),
        _ => false,
    }
}

/// Copies the books but those with these names into the file of the connection, and returns their
/// number.
fn fill_opened<S: Alter, D: Disk + Drop>(
    books: &mut SqlStore<S>,
    names: &[Text],
    connection: Connection<FileStore<D>>,
) -> Result<u64, CopyFault>
    requires { connection.in_transaction ≡ false }
{
    let (_files, count) = books.copy_without(names, connection)?;
    Ok(count)
}

/// Copies the books but those with these names into a new file at `making`, with the mode of the
/// file at the path, and returns their number. An error may leave that file.
fn fill_new<S: Alter, D: Disk + Drop, F: OpensFiles<D>>(
    rt: &HostRuntime,
    files: &F,
    books: &mut SqlStore<S>,
    names: &[Text],
    path: &str,
    making: &str,
    log: &str,
) -> Result<u64, CopyFault> {
    let connection = files.open_new(rt, path, making, log)?;
    fill_opened(books, names, connection)
}

/// Gives the finished file its name, without its log. After an error nothing is at either name.
fn name_new(rt: &HostRuntime, making: &str, log: &str, target: &str) -> Result<(), CopyFault> {
    let _removed = fs::remove_file(rt, log);
    match fs::rename(rt, making, target) {
        Ok(()) => Ok(()),
        Err(_) => {
            remove_new(rt, making, log);
            Err(CopyFault::Open(OpenFault::Store))
        }
    }
}

/// Makes the file at `making`, and then gives it the name `target`. After an error nothing is at
/// either name.
fn make_file<S: Alter, D: Disk + Drop, F: OpensFiles<D>>(
    rt: &HostRuntime,
    files: &F,
    books: &mut SqlStore<S>,
    names: &[Text],
    path: &str,
    making: &str,
    target: &str,
) -> Result<u64, CopyFault> {
    let log = log_of(rt, making)?;
    // What a copy left that was stopped.
    remove_new(rt, making, log.as_str());
    match fill_new(rt, files, books, names, path, making, log.as_str()) {
        Ok(count) => {
            name_new(rt, making, log.as_str(), target)?;
            Ok(count)
        }
        Err(fault) => {
            // A disk that is full may have taken some octets of it.
            remove_new(rt, making, log.as_str());
            Err(fault)
        }
    }
}

/// Tests the names, and makes the file.
fn copy_rest<S: Alter, D: Disk + Drop, F: OpensFiles<D>>(
    rt: &HostRuntime,
    files: &F,
    books: &mut SqlStore<S>,
    names: &[Text],
    path: &str,
    making: &str,
    target: &str,
) -> Result<u64, CopyFault> {
    check_names(books, names)?;
    make_file(rt, files, books, names, path, making, target)
}

/// Makes the new file. Leaves no log that the opening of the old one made.
fn copy_held<S: Alter + Drop, D: Disk + Drop, F: OpensFiles<D>>(
    rt: &HostRuntime,
    files: &F,
    books: SqlStore<S>,
    path: &str,
    had_log: bool,
    old_log: &str,
    names: &[Text],
    making: &str,
    target: &str,
) -> Result<u64, CopyFault> {
    let mut books = books;
    let copied = copy_rest(rt, files, &mut books, names, path, making, target);
    forget_log(rt, had_log, old_log);
    copied
}

/// Opens the file at the path, and makes the new one.
fn copy_opened<D: Disk + Drop, F: OpensFiles<D>>(
    rt: &HostRuntime,
    files: &F,
    path: &str,
    old_log: &str,
    names: &[Text],
    making: &str,
    target: &str,
) -> Result<u64, CopyFault> {
    let had_log = fs::exists(rt, old_log).unwrap_or(true);
    let books = files.open_standard(rt, path)?;
    copy_held(
        rt, files, books, path, had_log, old_log, names, making, target,
    )
}

/// Makes the new file by way of `making`, which must not be the old one.
fn copy_by(
    rt: &HostRuntime,
    path: &str,
    names: &[Text],
    making: &str,
    target: &str,
) -> Result<u64, CopyFault> {
    if are_same_file(rt, path, making) {
        return Err(CopyFault::Open(OpenFault::NotEmpty));
    }
    let old_log = log_of(rt, path)?;
    copy_opened(
        rt,
        &RealFiles,
        path,
        old_log.as_str(),
        names,
        making,
        target,
    )
}

/// The name of the new file until it is finished.
fn making_name(rt: &HostRuntime, target: &str) -> Result<String, OpenFault> {
    match format!(in rt.alloc(); "{target}.copying") {
        Ok(name) => Ok(name),
        Err(_) => Err(OpenFault::Memory),
    }
}

impl SqlStore<FileStore<FileFrom<Unknown>>> {
    /// `copy_file` without the books with these names, as `copy_without` copies them. Returns the
    /// number of books in the new file. Without a name it is `copy_file`.
    ///
    /// The new file gets its name once it is finished: until then it is at `target` with the ending
    /// `.copying`. So a program that is stopped leaves nothing at `target`.
    ///
    /// Refused with `NoSuchBook` if a name isn't that of a book, before anything is written. An
    /// error removes the new file, but as `copy_file` does.
    pub fn copy_file_without(
        rt: &HostRuntime,
        path: &str,
        target: &str,
        names: &[Text],
    ) -> Result<u64, CopyFault> {
        if names.is_empty() {
            return Ok(SqlStore::copy_file(rt, path, target)?);
        }
        check_both_free(rt, target)?;
        let making = making_name(rt, target)?;
        copy_by(rt, path, names, making.as_str(), target)
    }
}
