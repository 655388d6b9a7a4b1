//! Writes the tables of a copy, in one transaction.
//!
//! No clause says what is written: `holds_rows` reads it back and compares it.
ghost use Rattle.store_copy.specs.OnConnections.{CommitsWhole};
ghost use Rattle.store_tables.specs.OnConnections.{SurvivesAsBefore};
ghost use Rattle.std.specs.Prelude.{◌≡◌, OnOk, false};

use crate::left_out::id_after;
use crate::reading::StoredRows;
use sqlite::types::ValueRef;
use sqlite::{Alter, Connection, Error, Row, Transaction};
use store_check::cells::number_or_zero_at;
use store_tables::creation::create_tables;

/// The value of the column; null past the end of the row.
fn value_at(row: &Row, at: usize) -> ValueRef<'_> {
    match row.get_ref(at) {
        Ok(value) => value,
        Err(_) => ValueRef::Null,
    }
}

/// The new id of the book whose old one is in the column.
fn new_id(row: &Row, at: usize, left: &[i64]) -> ValueRef<'static> {
    ValueRef::Int(id_after(left, number_or_zero_at(row, at)))
}

// ---- one row

fn insert_book_row<S: Alter>(
    tx: &mut Transaction<'_, S>,
    row: &Row,
    left: &[i64],
) -> Result<usize, Error>
    ensures same_reference { tx.new.conn.ghost_name ≡ tx.old.conn.ghost_name }
    ensures survives { SurvivesAsBefore S.Store tx.old.conn.now tx.new.conn.now }
{
    let values = [
        new_id(row, 0, left),
        value_at(row, 1),
        value_at(row, 2),
        value_at(row, 3),
        value_at(row, 4),
        value_at(row, 5),
        value_at(row, 6),
        value_at(row, 7),
        value_at(row, 8),
        value_at(row, 9),
        value_at(row, 10),
    ];
    tx.execute(
        "INSERT INTO book (id, name, number, horizon, created, edited, imported, import_edited, \
         moved_in, deleted, moved_out) VALUES (?1, ?2, ?3, ?4, ?5, ?6, ?7, ?8, ?9, ?10, ?11)",
        &values,
    )
}

fn insert_member_row<S: Alter>(
    tx: &mut Transaction<'_, S>,
    row: &Row,
    left: &[i64],
) -> Result<usize, Error>
    ensures same_reference { tx.new.conn.ghost_name ≡ tx.old.conn.ghost_name }
    ensures survives { SurvivesAsBefore S.Store tx.old.conn.now tx.new.conn.now }
{
    let values = [
        value_at(row, 0),
        new_id(row, 1, left),
        value_at(row, 2),
        value_at(row, 3),
        value_at(row, 4),
    ];
    tx.execute(
        "INSERT INTO member (rowid, book, uid, changed, card) VALUES (?1, ?2, ?3, ?4, ?5)",
        &values,
    )
}

fn insert_import_row<S: Alter>(
    tx: &mut Transaction<'_, S>,
    row: &Row,
    left: &[i64],
) -> Result<usize, Error>
    ensures same_reference { tx.new.conn.ghost_name ≡ tx.old.conn.ghost_name }
    ensures survives { SurvivesAsBefore S.Store tx.old.conn.now tx.new.conn.now }
{
    let values = [
        value_at(row, 0),
        new_id(row, 1, left),
        value_at(row, 2),
        value_at(row, 3),
        value_at(row, 4),
        value_at(row, 5),
        value_at(row, 6),
    ];
    tx.execute(
        "INSERT INTO import_key (rowid, book, ikey, added, edited, same, number) \
         VALUES (?1, ?2, ?3, ?4, ?5, ?6, ?7)",
        &values,
    )
}

fn insert_keep_row<S: Alter>(
    tx: &mut Transaction<'_, S>,
    row: &Row,
    left: &[i64],
) -> Result<usize, Error>
    ensures same_reference { tx.new.conn.ghost_name ≡ tx.old.conn.ghost_name }
    ensures survives { SurvivesAsBefore S.Store tx.old.conn.now tx.new.conn.now }
{
    let values = [new_id(row, 0, left), value_at(row, 1)];
    tx.execute("INSERT INTO keeping (book, keep) VALUES (?1, ?2)", &values)
}

// ---- all rows of a table

fn insert_books<S: Alter>(
    tx: &mut Transaction<'_, S>,
    rows: &[Row],
    left: &[i64],
) -> Result<(), Error>
    ensures same_reference { tx.new.conn.ghost_name ≡ tx.old.conn.ghost_name }
    ensures survives { SurvivesAsBefore S.Store tx.old.conn.now tx.new.conn.now }
{
    for row in rows {
        insert_book_row(tx, row, left)?;
    }
    Ok(())
}

fn insert_members<S: Alter>(
    tx: &mut Transaction<'_, S>,
    rows: &[Row],
    left: &[i64],
) -> Result<(), Error>
    ensures same_reference { tx.new.conn.ghost_name ≡ tx.old.conn.ghost_name }
    ensures survives { SurvivesAsBefore S.Store tx.old.conn.now tx.new.conn.now }
{
    for row in rows {
        insert_member_row(tx, row, left)?;
    }
    Ok(())
}

fn insert_imports<S: Alter>(
    tx: &mut Transaction<'_, S>,
    rows: &[Row],
    left: &[i64],
) -> Result<(), Error>
    ensures same_reference { tx.new.conn.ghost_name ≡ tx.old.conn.ghost_name }
    ensures survives { SurvivesAsBefore S.Store tx.old.conn.now tx.new.conn.now }
{
    for row in rows {
        insert_import_row(tx, row, left)?;
    }
    Ok(())
}

fn insert_keeps<S: Alter>(
    tx: &mut Transaction<'_, S>,
    rows: &[Row],
    left: &[i64],
) -> Result<(), Error>
    ensures same_reference { tx.new.conn.ghost_name ≡ tx.old.conn.ghost_name }
    ensures survives { SurvivesAsBefore S.Store tx.old.conn.now tx.new.conn.now }
{
    for row in rows {
        insert_keep_row(tx, row, left)?;
    }
    Ok(())
}

/// Inserts the rows into the tables. A row of a member, an import or a keep refers to one of a
/// book, so the books come first.
fn insert_rows<S: Alter>(
    tx: &mut Transaction<'_, S>,
    rows: &StoredRows,
    left: &[i64],
) -> Result<(), Error>
    ensures same_reference { tx.new.conn.ghost_name ≡ tx.old.conn.ghost_name }
    ensures survives { SurvivesAsBefore S.Store tx.old.conn.now tx.new.conn.now }
{
    insert_books(tx, rows.others.books.as_slice(), left)?;
    insert_members(tx, rows.members.as_slice(), left)?;
    insert_imports(tx, rows.others.imports.as_slice(), left)?;
    insert_keeps(tx, rows.others.keeps.as_slice(), left)
}

// ---- the transaction

/// Creates the tables and inserts the rows, in one transaction. The id of each book is less by as
/// many of the ids that were left out as are smaller. The database must have no tables,
/// and the connection must be outside a transaction. After an error no transaction is open; that
/// none of it was committed then is only tested.
pub fn write_tables<S: Alter>(
    conn: &mut Connection<S>,
    rows: &StoredRows,
    left: &[i64],
) -> Result<(), Error>
    requires { conn.old.in_transaction ≡ false }
    ensures settled { conn.new.in_transaction ≡ false }

    // A crash leaves what it could leave before the call, or all that was written.
    ensures crash { OnOk result (CommitsWhole S.Store conn.old conn.new) }
{
    let mut tx = conn.transaction();
    create_tables(&mut tx)?;
    insert_rows(&mut tx, rows, left)?;
    tx.commit()
}
