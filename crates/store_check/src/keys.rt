//! Tests whether the keys of each table are unique.
ghost use Rattle.store_check.specs.RowChecks.{book_and_number, book_and_text, decode_book};
ghost use Rattle.store_check.specs.RowChecks.{decode_keep, int_cell, text_cell};
ghost use Rattle.store_check.specs.BookChecks.{HaveDistinctChanges};
ghost use Rattle.store_rows.specs.SoundTables.{HasBookId};
ghost use Rattle.store_rows.specs.TableRows.{load_import, load_member};
ghost use Rattle.store_tables.specs.Books.{AreBooks};
ghost use Rattle.store_tables.specs.Imports.{AreImports};
ghost use Rattle.store_tables.specs.Keeps.{AreKeeps};
ghost use Rattle.store_tables.specs.Members.{AreMembers};
ghost use Rattle.std.specs.List.{AllByRecursion};
ghost use Rattle.sqlite_trees.specs.Tree.{IsAscending};
ghost use Rattle.std.specs.Ordering.{int_eq};
ghost use Rattle.sqlite_rules.specs.Lists.{Has};
ghost use Rattle.std.specs.Prelude.{◌≡◌, ◌↔◌, ◌&&◌, IfOk, IfSome, IsTrue, None, bytes_eq, false};
ghost use Rattle.std.specs.Prelude.{map};

use crate::books::book_with_id;
use crate::cells::{number_or_zero_at, text_at};
use crate::distinct::are_distinct;
use sqlite::Row;
use std::alloc::Global;
use vcard_text::NoMemory;

fn number_column(alloc: Global, rows: &[Row], at: usize) -> Result<Vec<i64>, NoMemory>
    ensures { IfOk result (λ keys. keys.items ≡ map (int_cell at) rows.now) }
{
    let mut keys = Vec::new(alloc);
    for row in rows {
        keys.push(number_or_zero_at(row, at))?;
    }
    Ok(keys)
}

fn text_column(alloc: Global, rows: &[Row], at: usize) -> Result<Vec<&[u8]>, NoMemory>
    ensures { IfOk result
        (λ keys. map (λ key. key.now) keys.items ≡ map (text_cell at) rows.now) }
{
    let mut keys = Vec::new(alloc);
    for row in rows {
        keys.push(text_at(row, at))?;
    }
    Ok(keys)
}

/// For each row, the book (column 1) and the integer in the column `at`.
fn book_number_column(alloc: Global, rows: &[Row], at: usize) -> Result<Vec<(i64, i64)>, NoMemory>
    ensures { IfOk result (λ keys. keys.items ≡ map (book_and_number at) rows.now) }
{
    let mut keys = Vec::new(alloc);
    for row in rows {
        keys.push((number_or_zero_at(row, 1), number_or_zero_at(row, at)))?;
    }
    Ok(keys)
}

/// For each row, the book (column 1) and the text in the column `at`.
fn book_text_column(alloc: Global, rows: &[Row], at: usize) -> Result<Vec<(i64, &[u8])>, NoMemory>
    ensures { IfOk result
        (λ keys. map (λ key. (key.0, key.1.now)) keys.items ≡ map (book_and_text at) rows.now) }
{
    let mut keys = Vec::new(alloc);
    for row in rows {
        keys.push((number_or_zero_at(row, 1), text_at(row, at)))?;
    }
    Ok(keys)
}

/// Whether no two rows have the same integer in the column.
fn have_distinct_numbers(alloc: Global, rows: &[Row], at: usize) -> Result<bool, NoMemory>
    ensures { IfOk result (λ yes. IsTrue yes ↔
        IsAscending (λ a b. int_eq (int_cell at a) (int_cell at b) ≡ false) rows.now) }
{
    are_distinct(alloc, number_column(alloc, rows, at)?)
}

/// Whether no two rows have the same text in the column.
fn have_distinct_texts(alloc: Global, rows: &[Row], at: usize) -> Result<bool, NoMemory>
    ensures { IfOk result (λ yes. IsTrue yes ↔
        IsAscending (λ a b. bytes_eq (text_cell at b) (text_cell at a) ≡ false) rows.now) }
{
    are_distinct(alloc, text_column(alloc, rows, at)?)
}

/// Whether no two rows of the same book have the same integer in the column.
fn have_distinct_book_numbers(alloc: Global, rows: &[Row], at: usize) -> Result<bool, NoMemory>
    ensures { IfOk result (λ yes. IsTrue yes ↔
        IsAscending (λ a b. (int_eq (int_cell 1 b) (int_cell 1 a)
        && int_eq (int_cell at b) (int_cell at a)) ≡ false) rows.now) }
{
    are_distinct(alloc, book_number_column(alloc, rows, at)?)
}

/// Whether no two rows of the same book have the same text in the column.
fn have_distinct_book_texts(alloc: Global, rows: &[Row], at: usize) -> Result<bool, NoMemory>
    ensures { IfOk result (λ yes. IsTrue yes ↔
        IsAscending (λ a b. (int_eq (int_cell 1 b) (int_cell 1 a)
        && bytes_eq (text_cell at b) (text_cell at a)) ≡ false) rows.now) }
{
    are_distinct(alloc, book_text_column(alloc, rows, at)?)
}

fn are_both(first: bool, second: bool) -> bool
    ensures { result ≡ (first && second) }
{
    first && second
}

/// Whether no two books have the same id or the same name.
pub(crate) fn have_book_keys(alloc: Global, books: &[Row]) -> Result<bool, NoMemory>
    ensures { IfOk result (λ yes. IsTrue yes ↔ AreBooks (map decode_book books.now)) }
{
    let have_ids = have_distinct_numbers(alloc, books, 0)?;
    let have_names = have_distinct_texts(alloc, books, 1)?;
    Ok(are_both(have_ids, have_names))
}

/// Whether no two members have the same id, or the same UID in the same book.
pub(crate) fn have_member_keys(alloc: Global, members: &[Row]) -> Result<bool, NoMemory>
    ensures { IfOk result (λ yes. IsTrue yes ↔ AreMembers (map load_member members.now)) }
{
    let have_ids = have_distinct_numbers(alloc, members, 0)?;
    let have_uids = have_distinct_book_texts(alloc, members, 2)?;
    Ok(are_both(have_ids, have_uids))
}

/// Whether no change of a book wrote two members.
pub(crate) fn have_distinct_changes(alloc: Global, members: &[Row]) -> Result<bool, NoMemory>
    ensures { IfOk result (λ yes. IsTrue yes ↔ HaveDistinctChanges (map load_member members.now)) }
{
    have_distinct_book_numbers(alloc, members, 3)
}

/// Whether no two imports have the same id, or the same key in the same book.
pub(crate) fn have_import_keys(alloc: Global, imports: &[Row]) -> Result<bool, NoMemory>
    ensures { IfOk result (λ yes. IsTrue yes ↔ AreImports (map load_import imports.now)) }
{
    let have_ids = have_distinct_numbers(alloc, imports, 0)?;
    let have_unique_keys = have_distinct_book_texts(alloc, imports, 2)?;
    Ok(are_both(have_ids, have_unique_keys))
}

/// Whether no two keeps are of the same book.
pub(crate) fn have_keep_keys(alloc: Global, keeps: &[Row]) -> Result<bool, NoMemory>
    ensures { IfOk result (λ yes. IsTrue yes ↔ AreKeeps (map decode_keep keeps.now)) }
{
    have_distinct_numbers(alloc, keeps, 0)
}

/// Whether the keep's book is one of these.
fn is_keep_listed(keep: &Row, books: &[Row]) -> bool
    ensures { IsTrue result ↔ HasBookId (map decode_book books.now) (decode_keep keep.now).book }
{
    book_with_id(books, number_or_zero_at(keep, 0)).is_some()
}

/// The first keep whose book isn't one of these.
pub(crate) fn first_unlisted_keep<'a>(keeps: &'a [Row], books: &[Row]) -> Option<&'a Row>
    ensures good { result ≡ None → AllByRecursion
        (λ k. HasBookId (map decode_book books.now) k.book) (map decode_keep keeps.now) }
    ensures bad { IfSome result (λ row. Has keeps.now row.now
        × ¬ HasBookId (map decode_book books.now) (decode_keep row.now).book) }
{
    for keep in keeps {
        if !is_keep_listed(keep, books) {
            return Some(keep);
        }
    }
    None
}

/// Whether each keep is of one of the books.
pub(crate) fn are_keeps_listed(keeps: &[Row], books: &[Row]) -> bool
    ensures { IsTrue result ↔ AllByRecursion
        (λ k. HasBookId (map decode_book books.now) k.book) (map decode_keep keeps.now) }
{
    first_unlisted_keep(keeps, books).is_none()
}
