//! Tests whether tables hold the rows of a store, with the new ids of its books.
ghost use Rattle.store_tables.specs.Tables.{member_tree};
ghost use Rattle.store_copy.specs.OnConnections.{HasNewRows};
ghost use Rattle.store_copy.specs.RowsWithout.{HasNewId, HaveNewBooks, HaveNewIds, id_after};
ghost use Rattle.store_tables.specs.Members.{member_cells};
ghost use Rattle.store_tables.specs.OnConnections.{GivenTables, OnlyReads, table_rows};
ghost use Rattle.sqlite.specs.declared.types.Value.TheVariants.{Int};
ghost use Rattle.sqlite.specs.Order.{Row, column};
ghost use Rattle.sqlite.specs.Value.{owned};
ghost use Rattle.std.specs.List.Sorted.{IsPermutation};
ghost use Rattle.std.specs.Prelude.{[], ◌+◌, ◌++◌, ◌<◌, ◌∷◌, ◌≡◌, IfOk, IsTrue, List, length, map};
ghost use Rattle.std.specs.Prelude.{take};

use crate::left_out::id_after;
use crate::reading::{BookRows, StoredRows, list_others};
use sqlite::types::ValueRef;
use sqlite::{Alter, Connection, Error, ErrorCode, Row};
use store_check::cells::number_or_zero_at;

/// Whether two values are both null, the same integer or the same text. The tables of a store hold
/// no others.
fn is_same_value(a: ValueRef<'_>, b: ValueRef<'_>) -> bool
    ensures { IsTrue result → owned a.entry ≡ owned b.entry }
{
    match (a, b) {
        (ValueRef::Null, ValueRef::Null) => true,
        (ValueRef::Int(a), ValueRef::Int(b)) => a == b,
        (ValueRef::Text(a), ValueRef::Text(b)) => a == b,
        _ => false,
    }
}

/// Whether two rows have the same value in the column; not past the end of one.
fn is_same_column(a: &Row, b: &Row, at: usize) -> bool
    ensures { IsTrue result → column a.now at ≡ column b.now at }
{
    match (a.get_ref(at), b.get_ref(at)) {
        (Ok(a), Ok(b)) => is_same_value(a, b),
        _ => false,
    }
}

/// Whether the row has this integer in the column.
fn has_int(row: &Row, at: usize, int: i64) -> bool
    ensures { IsTrue result → column row.now at ≡ Int int }
{
    match row.get_ref(at) {
        Ok(ValueRef::Int(own)) => own == int,
        _ => false,
    }
}

/// Whether the found row is the other one with its book's new id, in the column `at`. A row has so
/// many columns.
fn has_new_id(found: &Row, row: &Row, at: usize, columns: usize, left: &[i64]) -> bool
    ensures { IsTrue result → HasNewId at columns left.now found.now row.now }
{
    for k in 0..columns {
        if k != at && !is_same_column(found, row, k) {
            return false;
        }
    }
    has_int(found, at, id_after(left, number_or_zero_at(row, at)))
}

/// Whether the found row is the one at the place with its new id.
fn is_new_row_at(
    rows: &[Row],
    place: usize,
    found: &Row,
    at: usize,
    columns: usize,
    left: &[i64],
) -> bool
    ensures within { IsTrue result → place < length rows.now }
    ensures next { IsTrue result → (so_far : List Row)
        → HaveNewIds at columns left.now so_far (take place rows.now)
        → HaveNewIds at columns left.now (so_far ++ found.now ∷ []) (take (place + 1) rows.now) }
{
    if place >= rows.len() {
        return false;
    }
    has_new_id(found, &rows[place], at, columns, left)
}

/// Whether each found row is the row at its place with its new id.
fn have_new_ids(found: &[Row], rows: &[Row], at: usize, columns: usize, left: &[i64]) -> bool
    ensures { IsTrue result → HaveNewIds at columns left.now found.now rows.now }
{
    let count = found.len();
    if rows.len() != count {
        return false;
    }
    for place in 0..count {
        if !is_new_row_at(rows, place, &found[place], at, columns, left) {
            return false;
        }
    }
    true
}

/// Whether the rows of each of the three tables are the other ones with their new ids, in the same
/// order.
fn have_new_books(found: &BookRows, rows: &BookRows, left: &[i64]) -> bool
    ensures { IsTrue result → HaveNewBooks left.now found.now rows.now }
{
    have_new_ids(found.books.as_slice(), rows.books.as_slice(), 0, 11, left)
        && have_new_ids(
            found.imports.as_slice(),
            rows.imports.as_slice(),
            1,
            7,
            left,
        )
        && have_new_ids(found.keeps.as_slice(), rows.keeps.as_slice(), 0, 2, left)
}

/// Whether the table of the members holds exactly these rows with their new ids, in the same order.
/// Reads one row at a time.
fn holds_members<S: Alter>(
    conn: &mut Connection<S>,
    members: &[Row],
    left: &[i64],
) -> Result<bool, Error>
    ensures same { GivenTables S.Store conn.old conn.new (IfOk result (λ same. IsTrue same
        → (found : List Row)
        × IsPermutation (map member_cells (table_rows S.Store conn.old member_tree)) found
        × HaveNewIds 1 5 left.now found members.now)) }
    ensures reads_only { OnlyReads S.Store conn.old conn.new }
{
    let mut place = 0usize;
    let mut rows = conn.query("SELECT rowid, book, uid, changed, card FROM member", &[])?;
    'rows: for _ in 0..u64::MAX {
        let Some(row) = rows.next()? else {
            return Ok(place == members.len());
        };
        if !is_new_row_at(members, place, row, 1, 5, left) {
            return Ok(false);
        }
        place += 1;
    }
    // No table has as many rows.
    Err(Error::SqliteFailure(ErrorCode::OutOfMemory))
}

/// Whether the tables hold exactly these rows, in the same order. The id of each book is less by as
/// many of the ids that were left out as are smaller.
pub fn holds_rows<S: Alter>(
    conn: &mut Connection<S>,
    rows: &StoredRows,
    left: &[i64],
) -> Result<bool, Error>
    ensures same { GivenTables S.Store conn.old conn.new
        (IfOk result (λ same. IsTrue same → HasNewRows S.Store left.now conn.old rows.now)) }
    ensures reads_only { OnlyReads S.Store conn.old conn.new }
{
    let found = list_others(conn)?;
    if !have_new_books(&found, &rows.others, left) {
        return Ok(false);
    }
    holds_members(conn, rows.members.as_slice(), left)
}
