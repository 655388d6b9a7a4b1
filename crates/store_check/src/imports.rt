//! Checks the rows of `import_key`.
ghost use Rattle.store_check.specs.BookChecks.{IsCheckedImport};
ghost use Rattle.store_check.specs.RowChecks.{AreValidImports, IsBookAnd, IsImportRow, decode_book};
ghost use Rattle.store_check.specs.RowFaults.{HasImportFault, JudgesImport, JudgesImportOf};
ghost use Rattle.store_rows.specs.TableRows.{load_import};
ghost use Rattle.std.specs.List.{AllByRecursion};
ghost use Rattle.sqlite_rules.specs.Lists.{Has};
ghost use Rattle.std.specs.Prelude.{◌≡◌, ◌↔◌, IfSome, IsTrue, None, map};

use crate::books::book_with_id;
use crate::cells::{has_natural, has_number, has_text, natural_at, number_or_zero_at, text_at};
use crate::faults::ImportFault;
use crate::names::is_key_text;
use sqlite::Row;

/// What is wrong with the import in this book, if anything is.
fn fault_in_book(import: &Row, book: &Row) -> Option<ImportFault>
    ensures { JudgesImportOf import.now (decode_book book.now) result }
{
    if !is_key_text(text_at(import, 2)) {
        return Some(ImportFault::Key);
    }
    if natural_at(import, 6) > natural_at(book, 2) {
        return Some(ImportFault::Number);
    }
    None
}

/// What is wrong with the import, if anything is.
fn import_fault(import: &Row, books: &[Row]) -> Option<ImportFault>
    ensures { JudgesImport (map decode_book books.now) import.now result }
{
    match book_with_id(books, number_or_zero_at(import, 1)) {
        Some(book) => fault_in_book(import, book),
        None => Some(ImportFault::NoBook),
    }
}

/// The first import whose book isn't listed or that is not valid there, and what is wrong with it.
pub(crate) fn first_faulty_import<'a>(
    imports: &'a [Row],
    books: &[Row],
) -> Option<(&'a Row, ImportFault)>
    ensures good { result ≡ None
        → AreValidImports (map decode_book books.now) (map load_import imports.now) }
    ensures bad { IfSome result (λ found. Has imports.now found.0.now
        × ¬ IsBookAnd (map decode_book books.now) (load_import found.0.now).book
        (IsCheckedImport (load_import found.0.now))
        × HasImportFault (map decode_book books.now) found.0.now found.1) }
{
    for import in imports {
        if let Some(fault) = import_fault(import, books) {
            return Some((import, fault));
        }
    }
    None
}

/// Whether each import's book is listed and the import is valid in it.
pub(crate) fn are_valid_imports(imports: &[Row], books: &[Row]) -> bool
    ensures { IsTrue result
        ↔ AreValidImports (map decode_book books.now) (map load_import imports.now) }
{
    first_faulty_import(imports, books).is_none()
}

/// Whether the row has an import's columns: its id, its book's id, a key, and four numbers that are
/// not negative.
fn is_import_row(row: &Row) -> bool
    ensures { IsTrue result ↔ IsImportRow row.now }
{
    let is_keyed = has_number(row, 0) && has_number(row, 1) && has_text(row, 2);
    let has_cards = has_natural(row, 3) && has_natural(row, 4) && has_natural(row, 5);
    is_keyed && has_cards && has_natural(row, 6)
}

/// The first row that doesn't have an import's columns.
pub(crate) fn first_bad_import(rows: &[Row]) -> Option<&Row>
    ensures good { result ≡ None → AllByRecursion IsImportRow rows.now }
    ensures bad { IfSome result (λ row. Has rows.now row.now × ¬ IsImportRow row.now) }
{
    for row in rows {
        if !is_import_row(row) {
            return Some(row);
        }
    }
    None
}

/// Whether each row has an import's columns.
pub(crate) fn are_import_rows(rows: &[Row]) -> bool
    ensures { IsTrue result ↔ AllByRecursion IsImportRow rows.now }
{
    first_bad_import(rows).is_none()
}
