//! Checks the rows of all four tables together.
ghost use Rattle.store_check.specs.RowChecks.{AreWellStored, IsBookRow, IsImportRow, IsKeepRow};
ghost use Rattle.store_check.specs.RowChecks.{AreValidImports, decode_book, decode_keep};
ghost use Rattle.store_check.specs.MemberTallies.{HaveDistinctIds};
ghost use Rattle.store_check.specs.StoredTests.{HaveMemberKeys, PassBookTests, PassMemberTests};
ghost use Rattle.store_rows.specs.SoundTables.{HasBookId};
ghost use Rattle.store_rows.specs.TableRows.{load_import};
ghost use Rattle.store_tables.specs.Books.{AreBooks};
ghost use Rattle.store_tables.specs.Imports.{AreImports};
ghost use Rattle.store_tables.specs.Keeps.{AreKeeps};
ghost use Rattle.std.specs.List.{AllByRecursion};
ghost use Rattle.std.specs.Prelude.{◌↔◌, ◌≤◌, IfOk, IsTrue, length, map};

use crate::books::{are_book_rows, are_keep_rows, are_valid_books};
use crate::imports::{are_import_rows, are_valid_imports};
use crate::keys::{
    are_keeps_listed, have_book_keys, have_distinct_changes, have_import_keys, have_keep_keys,
    have_member_keys,
};
use crate::tallies::{start_tallies, tally_members};
use book_model::Limits;
use sqlite::Row;
use std::alloc::Global;
use vcard_text::NoMemory;

/// Whether each row has the columns of its table.
fn are_table_rows(books: &[Row], imports: &[Row], keeps: &[Row]) -> bool
    ensures { IsTrue result ↔ AllByRecursion IsBookRow books.now
        × AllByRecursion IsImportRow imports.now × AllByRecursion IsKeepRow keeps.now }
{
    are_book_rows(books) && are_import_rows(imports) && are_keep_rows(keeps)
}

/// Whether the keys of each table are unique.
pub(crate) fn have_unique_keys(
    alloc: Global,
    books: &[Row],
    imports: &[Row],
    keeps: &[Row],
) -> Result<bool, NoMemory>
    ensures { IfOk result (λ yes. IsTrue yes ↔ AreBooks (map decode_book books.now)
        × AreImports (map load_import imports.now) × AreKeeps (map decode_keep keeps.now)) }
{
    if !have_book_keys(alloc, books)? || !have_import_keys(alloc, imports)? {
        return Ok(false);
    }
    have_keep_keys(alloc, keeps)
}

/// Whether the books are few enough, each import is valid in its book, and each keep is of a book.
fn are_valid_references(limits: Limits, books: &[Row], imports: &[Row], keeps: &[Row]) -> bool
    ensures { IsTrue result ↔ (length (map decode_book books.now) ≤ limits.books_max)
        × AreValidImports (map decode_book books.now) (map load_import imports.now)
        × AllByRecursion (λ k. HasBookId (map decode_book books.now) k.book)
        (map decode_keep keeps.now) }
{
    let are_few = books.len() as u64 <= limits.books_max();
    are_few && are_valid_imports(imports, books) && are_keeps_listed(keeps, books)
}

/// Whether the rows of books, imports and keeps pass the tests that need no member.
pub(crate) fn pass_book_tests(
    alloc: Global,
    limits: Limits,
    books: &[Row],
    imports: &[Row],
    keeps: &[Row],
) -> Result<bool, NoMemory>
    ensures { IfOk result
        (λ yes. IsTrue yes ↔ PassBookTests limits books.now imports.now keeps.now) }
{
    if !are_table_rows(books, imports, keeps) {
        return Ok(false);
    }
    if !have_unique_keys(alloc, books, imports, keeps)? {
        return Ok(false);
    }
    Ok(are_valid_references(limits, books, imports, keeps))
}

/// Whether the keys of the members are unique, and no change of a book wrote two members.
fn have_all_member_keys(alloc: Global, members: &[Row]) -> Result<bool, NoMemory>
    ensures { IfOk result (λ yes. IsTrue yes ↔ HaveMemberKeys members.now) }
{
    if !have_member_keys(alloc, members)? {
        return Ok(false);
    }
    have_distinct_changes(alloc, members)
}

/// Whether each member is good, and each book agrees with its members.
fn pass_member_tests(
    alloc: Global,
    limits: Limits,
    books: &[Row],
    members: &[Row],
    keeps: &[Row],
) -> Result<bool, NoMemory>
    ensures { IfOk result (λ yes. HaveDistinctIds (map decode_book books.now)
        → IsTrue yes ↔ PassMemberTests limits books.now members.now keeps.now) }
{
    let mut tallies = start_tallies(alloc, books)?;
    if !tally_members(alloc, tallies.as_mut_slice(), members)? {
        return Ok(false);
    }
    Ok(are_valid_books(limits, books.len(), books, tallies.as_slice(), keeps))
}

/// Whether the rows of the four tables represent well-formed books within the limits. The rows are
/// those that `all_books` and its like return, in any order.
///
/// Each card is parsed once, the members are gone through once, and keys are put into sets, so the
/// time is nearly linear in the number of rows.
pub fn are_well_stored(
    alloc: Global,
    limits: Limits,
    books: &[Row],
    members: &[Row],
    imports: &[Row],
    keeps: &[Row],
) -> Result<bool, NoMemory>
    ensures { IfOk result (λ yes. IsTrue yes
        ↔ AreWellStored limits books.now members.now imports.now keeps.now) }
{
    if !pass_book_tests(alloc, limits, books, imports, keeps)? {
        return Ok(false);
    }
    if !have_all_member_keys(alloc, members)? {
        return Ok(false);
    }
    pass_member_tests(alloc, limits, books, members, keeps)
}
