//! The statements that create the tables, each inside a transaction.
ghost use Rattle.store_tables.specs.SchemaCreation.{
  HasFirstTables,
  empty_schema,
  with_books,
  first_schema,
  with_members,
  with_meta,
};
ghost use Rattle.store_tables.specs.Meta.{IsEmptyStore, schema_number};
ghost use Rattle.store_tables.specs.Tables.{
  book_schema,
  book_tree,
  import_tree,
  keep_tree,
  member_tree,
  meta_tree,
};
ghost use Rattle.store_tables.specs.OnConnections.{
  FailsFromOutsideOver,
  HasOutsideCauseOfError,
  HoldsInTx,
  HoldsNow,
  InsideTx,
  StaysInTxOnOk,
  StaysUncommitted,
};
ghost use Rattle.store_tables.specs.Writes.{CreatesTable};
ghost use Rattle.std.specs.Prelude.{◌≡◌, OnOk};

use crate::meta::{SCHEMA_NUMBER, insert_schema};
use sqlite::{Alter, Error, Transaction, params};

/// Creates the table `meta` in a database without tables, within the transaction. A failure has no
/// effect, or undoes the whole transaction.
pub fn create_meta<S: Alter>(tx: &mut Transaction<'_, S>) -> Result<usize, Error>
    ensures { CreatesTable S.Store tx.old tx.new empty_schema with_meta meta_tree result }
{
    tx.execute(
        "CREATE TABLE meta (name TEXT NOT NULL PRIMARY KEY, val INTEGER NOT NULL) STRICT",
        params![],
    )
}

/// Creates the table `book` where `meta` is the only table, within the transaction. A failure has
/// no effect, or undoes the whole transaction.
pub fn create_books<S: Alter>(tx: &mut Transaction<'_, S>) -> Result<usize, Error>
    ensures { CreatesTable S.Store tx.old tx.new with_meta with_books book_tree result }
{
    tx.execute(
        "CREATE TABLE book (id INTEGER PRIMARY KEY, name TEXT NOT NULL UNIQUE, number INTEGER \
         NOT NULL, horizon INTEGER NOT NULL, created INTEGER NOT NULL, edited INTEGER NOT \
         NULL, imported INTEGER NOT NULL, import_edited INTEGER NOT NULL, moved_in INTEGER \
         NOT NULL, deleted INTEGER NOT NULL, moved_out INTEGER NOT NULL) STRICT",
        params![],
    )
}

/// Creates the table `member` where `meta` and `book` are the only tables, within the transaction.
/// A failure has no effect, or undoes the whole transaction.
pub fn create_members<S: Alter>(tx: &mut Transaction<'_, S>) -> Result<usize, Error>
    ensures { CreatesTable S.Store tx.old tx.new with_books with_members member_tree result }
{
    tx.execute(
        "CREATE TABLE member (book INTEGER NOT NULL REFERENCES book(id), uid TEXT NOT NULL, \
         changed INTEGER NOT NULL, card TEXT, PRIMARY KEY (book, uid), UNIQUE (book, \
         changed)) STRICT",
        params![],
    )
}

/// Creates the table `import_key` where `meta`, `book` and `member` are the only tables, within the
/// transaction. A failure has no effect, or undoes the whole transaction.
pub fn create_imports<S: Alter>(tx: &mut Transaction<'_, S>) -> Result<usize, Error>
    ensures { CreatesTable S.Store tx.old tx.new with_members first_schema import_tree result }
{
    tx.execute(
        "CREATE TABLE import_key (book INTEGER NOT NULL REFERENCES book(id), ikey TEXT NOT \
         NULL, added INTEGER NOT NULL, edited INTEGER NOT NULL, same INTEGER NOT NULL, number \
         INTEGER NOT NULL, PRIMARY KEY (book, ikey)) STRICT",
        params![],
    )
}

/// Creates the table `keeping`; the four other tables exist. It turns the tables of schema 1 into
/// those of schema 2.
pub fn create_keeps<S: Alter>(tx: &mut Transaction<'_, S>) -> Result<usize, Error>
    ensures { CreatesTable S.Store tx.old tx.new first_schema book_schema keep_tree result }
{
    tx.execute(
        "CREATE TABLE keeping (book INTEGER PRIMARY KEY REFERENCES book(id), keep INTEGER NOT \
         NULL) STRICT",
        params![],
    )
}

fn create_first_tables<S: Alter>(tx: &mut Transaction<'_, S>) -> Result<usize, Error>
    ensures same_reference { tx.new.conn.ghost_name ≡ tx.old.conn.ghost_name }
    ensures creates { InsideTx S.Store tx.old.conn.now tx.new.conn.now
        (tx.old.conn.now.schema ≡ empty_schema
        → OnOk result (HoldsInTx S.Store tx.new.conn.now HasFirstTables)) }
    ensures stays_in_tx { StaysInTxOnOk S.Store tx.old.conn.now tx.new.conn.now result }
    ensures no_commit { StaysUncommitted S.Store tx.old.conn.now tx.new.conn.now }
    ensures fails_from_outside { FailsFromOutsideOver S.Store
        tx.old.conn.now tx.new.conn.now empty_schema result }
{
    create_meta(tx)?;
    create_books(tx)?;
    create_members(tx)
}

fn create_remaining_tables<S: Alter>(tx: &mut Transaction<'_, S>) -> Result<usize, Error>
    ensures same_reference { tx.new.conn.ghost_name ≡ tx.old.conn.ghost_name }
    ensures creates { InsideTx S.Store tx.old.conn.now tx.new.conn.now
        (HoldsNow S.Store tx.old.conn.now HasFirstTables
        → OnOk result (HoldsInTx S.Store tx.new.conn.now (IsEmptyStore schema_number))) }
    ensures no_commit { StaysUncommitted S.Store tx.old.conn.now tx.new.conn.now }
    ensures fails_from_outside { InsideTx S.Store tx.old.conn.now tx.new.conn.now
        (HoldsNow S.Store tx.old.conn.now HasFirstTables
        → HasOutsideCauseOfError S.Store tx.old.conn.now tx.new.conn.now result) }
{
    create_imports(tx)?;
    create_keeps(tx)?;
    insert_schema(tx, SCHEMA_NUMBER)
}

/// Creates the five tables of schema 2 in a database without tables, and writes the schema number.
/// They hold no other row.
///
/// On an error some of the tables may exist inside the transaction; nothing is committed.
pub fn create_tables<S: Alter>(tx: &mut Transaction<'_, S>) -> Result<(), Error>
    ensures same_reference { tx.new.conn.ghost_name ≡ tx.old.conn.ghost_name }

    // After a success in a database without tables, the five are declared, hold the schema number
    // and nothing else, and the transaction is open.
    ensures creates { InsideTx S.Store tx.old.conn.now tx.new.conn.now
        (tx.old.conn.now.schema ≡ empty_schema
        → OnOk result (HoldsInTx S.Store tx.new.conn.now (IsEmptyStore schema_number))) }
    ensures no_commit { StaysUncommitted S.Store tx.old.conn.now tx.new.conn.now }

    // In a database without tables, an error but for lack of memory has an outside cause.
    ensures fails_from_outside { FailsFromOutsideOver S.Store
        tx.old.conn.now tx.new.conn.now empty_schema result }
{
    create_first_tables(tx)?;
    create_remaining_tables(tx)?;
    Ok(())
}
