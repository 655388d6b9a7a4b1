//! Finds faults in the rows of books, imports and keeps for which no member need be read.
ghost use Rattle.store_check.specs.RowChecks.{AreValidImports, IsBookRow, IsImportRow, IsKeepRow};
ghost use Rattle.store_check.specs.RowChecks.{decode_book, decode_keep};
ghost use Rattle.store_check.specs.RowFaults.{IsAmong};
ghost use Rattle.store_rows.specs.SoundTables.{HasBookId};
ghost use Rattle.store_rows.specs.TableRows.{load_import};
ghost use Rattle.store_check.specs.StoredTests.{PassRowTests};
ghost use Rattle.book_model.specs.Bounds.{Bounds};
ghost use Rattle.sqlite.specs.Order.{Row};
ghost use Rattle.sqlite_rules.specs.Lists.{Has};
ghost use Rattle.std.specs.List.{AllByRecursion};
ghost use Rattle.std.specs.Prelude.{◌≡◌, ◌<◌, ◌≤◌, IfSome, List, None, length, map};

use crate::books::{first_bad_book, first_bad_keep};
use crate::faults::{BookFault, ImportFault, KeepFault, RowFault};
use crate::imports::{first_bad_import, first_faulty_import};
use crate::keys::first_unlisted_keep;
use book_model::Limits;
use sqlite::Row;

/// The first row that doesn't have the columns of its table.
fn first_bad_columns<'a>(
    books: &'a [Row],
    imports: &'a [Row],
    keeps: &'a [Row],
) -> Option<(&'a Row, RowFault)>
    ensures good { result ≡ None → AllByRecursion IsBookRow books.now
        × AllByRecursion IsImportRow imports.now × AllByRecursion IsKeepRow keeps.now }
    ensures bad { (limits : Bounds) (members : List Row) → IfSome result
        (λ found. IsAmong limits books.now members imports.now keeps.now found.0.now found.1) }
{
    if let Some(row) = first_bad_book(books) {
        return Some((row, RowFault::Book(BookFault::Columns)));
    }
    if let Some(row) = first_bad_import(imports) {
        return Some((row, RowFault::Import(ImportFault::Columns)));
    }
    match first_bad_keep(keeps) {
        Some(row) => Some((row, RowFault::Keep(KeepFault::Columns))),
        None => None,
    }
}

/// One of the books, if there are more than the limit.
fn one_of_too_many(limits: Limits, books: &[Row]) -> Option<&Row>
    ensures good { result ≡ None → length books.now ≤ limits.books_max }
    ensures bad { IfSome result
        (λ row. Has books.now row.now × (limits.books_max < length books.now)) }
{
    if books.len() as u64 > limits.books_max() {
        books.first()
    } else {
        None
    }
}

/// One of the books if there are too many, the first import that is not valid in its book, or the
/// first keep without a book.
fn first_bad_reference<'a>(
    limits: Limits,
    books: &'a [Row],
    imports: &'a [Row],
    keeps: &'a [Row],
) -> Option<(&'a Row, RowFault)>
    ensures good { result ≡ None → (length (map decode_book books.now) ≤ limits.books_max)
        × AreValidImports (map decode_book books.now) (map load_import imports.now)
        × AllByRecursion (λ k. HasBookId (map decode_book books.now) k.book)
        (map decode_keep keeps.now) }
    ensures bad { (members : List Row) → IfSome result
        (λ found. IsAmong limits books.now members imports.now keeps.now found.0.now found.1) }
{
    if let Some(row) = one_of_too_many(limits, books) {
        return Some((row, RowFault::Book(BookFault::TooMany)));
    }
    if let Some((row, fault)) = first_faulty_import(imports, books) {
        return Some((row, RowFault::Import(fault)));
    }
    match first_unlisted_keep(keeps, books) {
        Some(row) => Some((row, RowFault::Keep(KeepFault::NoBook))),
        None => None,
    }
}

/// The first of the rows with a fault that shows without the members.
pub(crate) fn first_faulty_listed<'a>(
    limits: Limits,
    books: &'a [Row],
    imports: &'a [Row],
    keeps: &'a [Row],
) -> Option<(&'a Row, RowFault)>
    ensures good { result ≡ None → PassRowTests limits books.now imports.now keeps.now }
    ensures bad { (members : List Row) → IfSome result
        (λ found. IsAmong limits books.now members imports.now keeps.now found.0.now found.1) }
{
    if let Some((row, fault)) = first_bad_columns(books, imports, keeps) {
        return Some((row, fault));
    }
    first_bad_reference(limits, books, imports, keeps)
}
