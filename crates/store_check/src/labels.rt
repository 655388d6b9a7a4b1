//! Labels a faulty row, so that a reader can find it.
ghost use Rattle.store_check.specs.RowChecks.{int_cell};
ghost use Rattle.store_check.specs.RowFaults.{IsLabelled, book_label, key_label, name_in};
ghost use Rattle.std.specs.Prelude.{◌≡◌, IfOk};

use crate::books::book_with_id;
use crate::cells::{number_or_zero_at, text_at};
use crate::faults::{FaultyRow, RowFault};
use sqlite::Row;
use std::alloc::Global;
use vcard_text::NoMemory;

/// The name of the book with this id, as stored. Empty if there is none.
fn name_with_id(books: &[Row], id: i64) -> &[u8]
    ensures { result.now ≡ name_in books.now id }
{
    match book_with_id(books, id) {
        Some(book) => text_at(book, 1),
        None => &[],
    }
}

/// The name of the book, or of the row's book. A keep's row id is that of its book.
fn book_label<'a>(books: &'a [Row], row: &'a Row, fault: RowFault) -> &'a [u8]
    ensures { result.now ≡ book_label books.now row.now fault }
{
    match fault {
        RowFault::Book(_) => text_at(row, 1),
        RowFault::Member(_) | RowFault::Import(_) => name_with_id(books, number_or_zero_at(row, 1)),
        RowFault::Keep(_) => name_with_id(books, number_or_zero_at(row, 0)),
    }
}

/// The UID of a member or the key of an import.
fn key_label(row: &Row, fault: RowFault) -> &[u8]
    ensures { result.now ≡ key_label row.now fault }
{
    match fault {
        RowFault::Member(_) | RowFault::Import(_) => text_at(row, 2),
        RowFault::Book(_) | RowFault::Keep(_) => &[],
    }
}

fn copy_octets(alloc: Global, octets: &[u8]) -> Result<Vec<u8>, NoMemory>
    ensures { IfOk result (λ copy. copy.items ≡ octets.now) }
{
    let mut copy = Vec::new(alloc);
    copy.extend_from_slice(octets)?;
    Ok(copy)
}

/// The row with this fault: its id, the name of its book and its key.
pub(crate) fn label_row(
    alloc: Global,
    books: &[Row],
    row: &Row,
    fault: RowFault,
) -> Result<FaultyRow, NoMemory>
    ensures { IfOk result (IsLabelled books.now row.now fault) }
{
    let book = copy_octets(alloc, book_label(books, row, fault))?;
    let key = copy_octets(alloc, key_label(row, fault))?;
    Ok(FaultyRow {
        row: number_or_zero_at(row, 0),
        book,
        key,
        fault,
    })
}
