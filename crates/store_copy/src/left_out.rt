//! Which books a copy leaves out, and the ids of the others.
ghost use Rattle.store_copy.specs.BooksWithout.{is_named};
ghost use Rattle.store_copy.specs.RowsWithout.{LeavesOut, id_after, ids_named, is_left_out};
ghost use Rattle.store_copy.specs.RowsWithout.{kept_rows, named_ids};
ghost use Rattle.store_check.specs.RowChecks.{decode_book};
ghost use Rattle.store_rows.specs.Values.{natural, text_or_empty};
ghost use Rattle.store_tables.specs.Books.{has_name};
ghost use Rattle.sqlite.specs.Order.{column};
ghost use Rattle.std.specs.List.{AllByRecursion, count_by, list_any};
ghost use Rattle.std.specs.Prelude.{◌-◌, ◌≡◌, IfOk, IsTrue, map, nat_lt, pos, true};

use crate::reading::{BookRows, StoredRows};
use base_types::Text;
use sqlite::Row;
use sqlite::types::ValueRef;
use std::alloc::{AllocError, Global};
use store_check::cells::number_or_zero_at;

// ---- names

/// The text in the column, or an empty one if it has none.
fn text_at(row: &Row, at: usize) -> &[u8]
    ensures { result.now ≡ text_or_empty (column row.now at) }
{
    match row.get_ref(at) {
        Ok(ValueRef::Text(text)) => text,
        _ => &[],
    }
}

/// Whether the name is one of these.
fn is_named(names: &[Text], name: &[u8]) -> bool
    ensures { result ≡ is_named names.now name.now }
{
    names.iter().any(|each| each.as_str().as_bytes() == name)
}

/// Whether the book has the name.
fn has_name(book: &Row, name: &str) -> bool
    ensures { result ≡ has_name name.now (decode_book book.now) }
{
    text_at(book, 1) == name.as_bytes()
}

/// Whether one of the books has the name.
fn has_book(books: &[Row], name: &str) -> bool
    ensures { result ≡ list_any (has_name name.now) (map decode_book books.now) }
{
    for i in 0..books.len() {
        if has_name(&books[i], name) {
            return true;
        }
    }
    false
}

/// Whether each of the names is that of a book.
pub fn has_books(rows: &StoredRows, names: &[Text]) -> bool
    ensures { IsTrue result → AllByRecursion (λ name. list_any (has_name name)
        (map decode_book rows.now.others.books.items) ≡ true) names.now }
{
    for i in 0..names.len() {
        if !has_book(rows.others.books.as_slice(), names[i].as_str()) {
            return false;
        }
    }
    true
}

/// The ids of the books with these names. A name that no book has is ignored.
fn named_ids(alloc: Global, books: &[Row], names: &[Text]) -> Result<Vec<i64>, AllocError>
    ensures { IfOk result (λ ids. ids.items ≡ named_ids names.now (map decode_book books.now)) }
{
    let mut ids = Vec::new(alloc);
    for book in books {
        if is_named(names, text_at(book, 1)) {
            ids.push(number_or_zero_at(book, 0))?;
        }
    }
    Ok(ids)
}

/// The ids of the books with these names. A name that no book has is ignored. `AllocError` if the
/// list can't be allocated.
pub fn ids_named(alloc: Global, rows: &StoredRows, names: &[Text]) -> Result<Vec<i64>, AllocError>
    ensures { IfOk result (λ ids. ids.items ≡ ids_named names.now rows.now) }
{
    named_ids(alloc, rows.others.books.as_slice(), names)
}

// ---- ids

/// Whether the id is one of these.
fn is_left_out(left: &[i64], id: i64) -> bool
    ensures { result ≡ is_left_out left.now id }
{
    left.iter().any(|each| *each == id)
}

/// Whether the first id is smaller than the second. A negative one is taken for 0.
fn is_smaller(first: i64, second: i64) -> bool
    ensures { result ≡ nat_lt (natural first) (natural second) }
{
    second > 0 && first < second
}

/// How many of these ids are smaller.
fn count_smaller(left: &[i64], id: i64) -> u64
    ensures { result ≡ count_by (λ each. nat_lt (natural each) (natural id)) left.now }
{
    let mut count = 0u64;
    for i in 0..left.len() {
        if is_smaller(left[i], id) {
            count += 1;
        }
    }
    count
}

/// The id less the count, or 0 if the count is greater.
fn less(id: i64, count: u64) -> i64
    ensures { result ≡ pos (natural id - count) }
{
    match i64::try_from(count) {
        Ok(count) => if id > count { id - count } else { 0 },
        Err(_) => 0,
    }
}

/// The id of a book after the books with these ids are left out: it is less by as many of them as
/// are smaller.
pub(crate) fn id_after(left: &[i64], id: i64) -> i64
    ensures { result ≡ id_after left.now id }
{
    less(id, count_smaller(left, id))
}

// ---- rows

/// The rows of the books that aren't left out. The column `at` has the id of the book.
fn kept_rows(rows: Vec<Row>, at: usize, left: &[i64]) -> Vec<Row>
    ensures { result.items ≡ kept_rows at left.now rows.items }
{
    let mut rows = rows;
    rows.retain(|row| !is_left_out(left, number_or_zero_at(row, at)));
    rows
}

/// The rows of all books but those with the ids `left`, each table's in the same order.
pub fn leave_out(rows: StoredRows, left: &[i64]) -> StoredRows
    ensures { LeavesOut left.now rows result }
{
    let StoredRows { others, members } = rows;
    let BookRows {
        books,
        imports,
        keeps,
    } = others;
    let others = BookRows {
        books: kept_rows(books, 0, left),
        imports: kept_rows(imports, 1, left),
        keeps: kept_rows(keeps, 0, left),
    };
    StoredRows {
        others,
        members: kept_rows(members, 1, left),
    }
}
