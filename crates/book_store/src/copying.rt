//! Copies the books of a store into a database without tables.
ghost use Rattle.book_store.specs.OnConnections.{HasStoreRows, IsMade, IsMadeWithout};
ghost use Rattle.book_store.specs.StoreViews.{table_model};
ghost use Rattle.store_copy.specs.OnConnections.{CommitsWhole};
ghost use Rattle.store_lookups.specs.OnConnections.{IsOpenOnHonestDisk, stored_books};
ghost use Rattle.store_tables.specs.OnConnections.{OnlyReads, ShowsTheSame, SurvivesAsBefore};
ghost use Rattle.store_tables.specs.SchemaCreation.{empty_schema};
ghost use Rattle.sync_core.specs.StoreModels.{KeepsBooks, KeepsTerms};
ghost use Rattle.std.specs.Prelude.{◌≡◌, IfOk, IsTrue, OnOk, false};

use crate::schema_creation::is_schema_empty;
use crate::sql_store::SqlStore;
use base_types::Text;
use book_model::Limits;
use sqlite::{Alter, Connection, Error};
use std::alloc::Global;
use store_copy::{StoredRows, holds_rows, ids_named, leave_out, list_tables, write_tables};
use store_schema::{OpenFault, open_fault_of};
use store_tables::settled::assert_no_pending_writes;

// ---- the source

impl<S: Alter> SqlStore<S> {
    /// All rows of the store's tables.
    pub(crate) fn list_rows(&mut self) -> Result<StoredRows, OpenFault>
        ensures lists { IfOk result (λ rows. IsOpenOnHonestDisk S.Store self.new.conn
            → HasStoreRows S.Store self.old.conn rows) }
        ensures terms { KeepsTerms (table_model S.Store) self.old self.new }
        ensures keeps_books { KeepsBooks (table_model S.Store) self.old self.new }
        ensures reads_only { OnlyReads S.Store self.old.conn self.new.conn }
    {
        let rows = match list_tables(&mut self.conn) {
            Ok(rows) => rows,
            Err(error) => return Err(open_fault_of(error)),
        };
        Ok(rows)
    }
}

// ---- the copy

impl<T: Alter> SqlStore<T> {
    /// Whether the store's tables hold exactly these rows. The ids of its books are those after the
    /// books with these ids were left out.
    fn holds(&mut self, rows: &StoredRows, left: &[i64]) -> Result<bool, Error>
        ensures holds { IfOk result (λ same. IsTrue same
            → IsOpenOnHonestDisk T.Store self.new.conn
            → IsMade T.Store self.new.conn left.now rows.now) }
        ensures limits { self.new.limits ≡ self.old.limits }
        ensures premise { IsOpenOnHonestDisk T.Store self.new.conn
            → IsOpenOnHonestDisk T.Store self.old.conn }
        ensures shows { IsOpenOnHonestDisk T.Store self.new.conn
            → ShowsTheSame T.Store self.old.conn self.new.conn }
        ensures survives { IsOpenOnHonestDisk T.Store self.new.conn
            → SurvivesAsBefore T.Store self.old.conn self.new.conn }
    {
        holds_rows(&mut self.conn, rows, left)
    }
}

/// Opens the store over tables that were written, if they hold these rows.
fn open_copy<T: Alter + Drop>(
    alloc: Global,
    limits: Limits,
    rows: &StoredRows,
    left: &[i64],
    conn: Connection<T>,
) -> Result<SqlStore<T>, OpenFault>
    requires { conn.in_transaction ≡ false }
    ensures holds { IfOk result (λ copy. IsOpenOnHonestDisk T.Store copy.conn
        → IsMade T.Store copy.conn left.now rows.now) }
    ensures limits { IfOk result (λ copy. copy.limits ≡ limits) }
    ensures shows { IfOk result (λ copy. IsOpenOnHonestDisk T.Store copy.conn
        → ShowsTheSame T.Store conn copy.conn) }
    ensures survives { IfOk result (λ copy. IsOpenOnHonestDisk T.Store copy.conn
        → SurvivesAsBefore T.Store conn copy.conn) }
{
    assert_no_pending_writes(&conn);
    let mut copy = SqlStore::adopt(alloc, conn, limits)?;
    match copy.holds(rows, left) {
        Ok(true) => Ok(copy),
        Ok(false) => Err(OpenFault::Store),
        Err(error) => Err(open_fault_of(error)),
    }
}

/// Writes the rows into the database, which must have no tables, and opens the store over it. The
/// ids of its books are those after the books with these ids were left out.
fn make_copy<T: Alter + Drop>(
    alloc: Global,
    limits: Limits,
    rows: &StoredRows,
    left: &[i64],
    target: Connection<T>,
) -> Result<SqlStore<T>, OpenFault>
    requires { target.in_transaction ≡ false }
    ensures holds { IfOk result (λ copy. IsOpenOnHonestDisk T.Store copy.conn
        → IsMade T.Store copy.conn left.now rows.now) }
    ensures limits { IfOk result (λ copy. copy.limits ≡ limits) }
    ensures was_empty { OnOk result (target.schema ≡ empty_schema) }
    ensures crash { IfOk result (λ copy. IsOpenOnHonestDisk T.Store copy.conn
        → CommitsWhole T.Store target copy.conn) }
{
    let mut conn = target;
    if !is_schema_empty(conn.schema()) {
        return Err(OpenFault::NotEmpty);
    }
    match write_tables(&mut conn, rows, left) {
        Ok(()) => open_copy(alloc, limits, rows, left, conn),
        Err(error) => Err(open_fault_of(error)),
    }
}

/// Makes the copy of a store of which these are all rows, without the books with these names.
fn make_rest<T: Alter + Drop>(
    alloc: Global,
    limits: Limits,
    rows: StoredRows,
    names: &[Text],
    target: Connection<T>,
) -> Result<SqlStore<T>, OpenFault>
    requires { target.in_transaction ≡ false }
    ensures rest { IfOk result (λ copy. IsOpenOnHonestDisk T.Store copy.conn
        → IsMadeWithout T.Store copy.conn names.now rows) }
    ensures limits { IfOk result (λ copy. copy.limits ≡ limits) }
    ensures was_empty { OnOk result (target.schema ≡ empty_schema) }
    ensures crash { IfOk result (λ copy. IsOpenOnHonestDisk T.Store copy.conn
        → CommitsWhole T.Store target copy.conn) }
{
    let Ok(left) = ids_named(alloc, &rows, names) else {
        return Err(OpenFault::Memory);
    };
    let kept = leave_out(rows, left.as_slice());
    make_copy(alloc, limits, &kept, left.as_slice(), target)
}

impl<S: Alter> SqlStore<S> {
    /// Copies the books but those with these names. These are all rows of this store.
    pub(crate) fn copy_rows<T: Alter + Drop>(
        &self,
        rows: StoredRows,
        names: &[Text],
        target: Connection<T>,
    ) -> Result<SqlStore<T>, OpenFault>
        requires { target.in_transaction ≡ false }
        ensures rest { IfOk result (λ copy. IsOpenOnHonestDisk T.Store copy.conn
            → IsMadeWithout T.Store copy.conn names.now rows) }
        ensures limits { IfOk result (λ copy. copy.limits ≡ self.now.limits) }
        ensures was_empty { OnOk result (target.schema ≡ empty_schema) }
        ensures crash { IfOk result (λ copy. IsOpenOnHonestDisk T.Store copy.conn
            → CommitsWhole T.Store target copy.conn) }
    {
        make_rest(self.alloc, self.limits, rows, names, target)
    }
}

impl<S: Alter> SqlStore<S> {
    /// Copies all books, with their tombstones, imports and keeps, into the database of the
    /// connection, and returns the store over it. The database must have no tables, and the
    /// connection must be outside a transaction.
    ///
    /// The rows are written in one transaction. Then the copy is opened as any store, which tests
    /// all its rows, and these are compared with those of this store, the members one at a time.
    /// The rows of this store are held in memory.
    ///
    /// Fails with `NotEmpty` if there is a table, an index or a view; with `Memory` if memory runs
    /// out; and with `Store` for any other error of either database, or if the copy isn't equal. An
    /// error drops the connection of the copy. What its database has then is only tested.
    pub fn copy_into<T: Alter + Drop>(
        &mut self,
        target: Connection<T>,
    ) -> Result<SqlStore<T>, OpenFault>
        requires { target.in_transaction ≡ false }
        ensures books { IfOk result (λ copy. IsOpenOnHonestDisk S.Store self.new.conn
            → IsOpenOnHonestDisk T.Store copy.conn
            → stored_books T.Store copy.conn ≡ stored_books S.Store self.old.conn) }
        ensures limits { IfOk result (λ copy. copy.limits ≡ self.old.limits) }

        // A copy is made only where there were no tables.
        ensures was_empty { OnOk result (target.schema ≡ empty_schema) }

        // A crash leaves what it could leave before the call, or the whole copy.
        ensures crash { IfOk result (λ copy. IsOpenOnHonestDisk T.Store copy.conn
            → CommitsWhole T.Store target copy.conn) }

        // This store is only read.
        ensures terms { KeepsTerms (table_model S.Store) self.old self.new }
        ensures keeps_books { KeepsBooks (table_model S.Store) self.old self.new }
        ensures reads_only { OnlyReads S.Store self.old.conn self.new.conn }
    {
        let rows = self.list_rows()?;
        self.copy_rows(rows, &[], target)
    }
}
