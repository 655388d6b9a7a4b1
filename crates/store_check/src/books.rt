//! Checks the rows of `book` and `keeping`.
ghost use Rattle.store_check.specs.BookChecks.{HasValidNumbers, IsCheckedBook};
ghost use Rattle.store_check.specs.MemberTallies.{AreCounted, tally_of};
ghost use Rattle.store_check.specs.RowFaults.{HasBookFault, JudgesBook, JudgesMembers};
ghost use Rattle.store_check.specs.RowChecks.{IsBookRow, IsKeepRow, decode_book, decode_keep};
ghost use Rattle.book_model.specs.Counting.{arrived_cards, departed_cards, total_changes};
ghost use Rattle.store_rows.specs.TableBooks.{row_counts, keep_of_book};
ghost use Rattle.store_rows.specs.TableRows.{load_member};
ghost use Rattle.store_tables.specs.Books.{has_id};
ghost use Rattle.store_tables.specs.Members.{MemberRow, is_removed_above};
ghost use Rattle.std.specs.Option.{option_map};
ghost use Rattle.std.specs.List.{AllByRecursion};
ghost use Rattle.sqlite_rules.specs.Lists.{Has};
ghost use Rattle.std.specs.Prelude.{◌≡◌, ◌+◌, ◌↔◌, IfSome, IsTrue, List, None, filter, find};
ghost use Rattle.std.specs.Prelude.{length, map};

use crate::cells::{
    has_natural, has_number, has_text, natural_at, number_or_zero_at, text_at, text_if_any_at,
};
use crate::faults::BookFault;
use crate::names::is_name_text;
use crate::tallies::BookTally;
use book_model::{Counts, Limits};
use sqlite::Row;

/// The row of the book `id`.
pub(crate) fn book_with_id(books: &[Row], id: i64) -> Option<&Row>
    ensures { option_map (λ row. decode_book row.now) result
        ≡ find (has_id id) (map decode_book books.now) }
{
    for book in books {
        if number_or_zero_at(book, 0) == id {
            return Some(book);
        }
    }
    None
}

fn counts_at(book: &Row) -> Counts
    ensures { result ≡ row_counts (decode_book book.now).numbers }
{
    Counts {
        created: natural_at(book, 4),
        edited: natural_at(book, 5),
        imported: natural_at(book, 6),
        import_edited: natural_at(book, 7),
        moved_in: natural_at(book, 8),
        deleted: natural_at(book, 9),
        moved_out: natural_at(book, 10),
    }
}

/// The number of cards that were added: created, imported or moved in.
fn arrivals_of(counts: Counts) -> u128
    ensures { result ≡ arrived_cards counts }
{
    counts.created as u128 + counts.imported as u128 + counts.moved_in as u128
}

/// The number of cards that left: deleted or moved out.
fn departures_of(counts: Counts) -> u128
    ensures { result ≡ departed_cards counts }
{
    counts.deleted as u128 + counts.moved_out as u128
}

fn total_of(counts: Counts) -> u128
    ensures { result ≡ total_changes counts }
{
    let edits = counts.edited as u128 + counts.import_edited as u128;
    arrivals_of(counts) + edits + departures_of(counts)
}

/// Whether the counts add up to the book's number, the number is within the limit, and the horizon
/// is at most the number.
fn has_valid_numbers(limits: Limits, book: &Row) -> bool
    ensures { IsTrue result ↔ HasValidNumbers limits (decode_book book.now) }
{
    let number = natural_at(book, 2);
    let is_counted = total_of(counts_at(book)) == number as u128;
    is_counted && number <= limits.changes_max() && natural_at(book, 3) <= number
}

/// Whether the row is a tombstone of the book `id` above the horizon.
fn is_removed(member: &Row, id: i64, horizon: i64) -> bool
    ensures { result ≡ is_removed_above id horizon (load_member member.now) }
{
    let is_gone = text_if_any_at(member, 4).is_none();
    number_or_zero_at(member, 1) == id && is_gone && horizon < number_or_zero_at(member, 3)
}

/// The number of tombstones of the book `id` above the horizon.
pub fn count_removed(members: &[Row], id: i64, horizon: i64) -> usize
    ensures { result ≡ length (filter (is_removed_above id horizon) (map load_member members.now)) }
{
    let mut count: usize = 0;
    for member in members {
        if is_removed(member, id, horizon) {
            count += 1;
        }
    }
    count
}

/// The keep of the book `id`: the most tombstones that it keeps. 0 if it has no row.
fn keep_of(keeps: &[Row], id: i64) -> u64
    ensures { result ≡ keep_of_book id (map decode_keep keeps.now) }
{
    for keep in keeps {
        if number_or_zero_at(keep, 0) == id {
            return natural_at(keep, 1);
        }
    }
    0
}

/// What is wrong with the book's keep or its number of live members, if anything is.
fn members_fault(book: &Row, tally: BookTally, keeps: &[Row]) -> Option<BookFault>
    ensures { (ms : List MemberRow) → tally ≡ tally_of ms (decode_book book.now)
        → JudgesMembers ms (map decode_keep keeps.now) book.now result }
{
    let counts = counts_at(book);
    let keep = keep_of(keeps, number_or_zero_at(book, 0));
    if keep < 1 || tally.removed > keep {
        return Some(BookFault::Keep);
    }
    if tally.live as u128 + departures_of(counts) == arrivals_of(counts) {
        None
    } else {
        Some(BookFault::Cards)
    }
}

/// What is wrong with the book, one of `books`, if anything is. Its members were counted.
fn book_fault(
    limits: Limits,
    books: usize,
    tally: BookTally,
    keeps: &[Row],
    book: &Row,
) -> Option<BookFault>
    ensures { (ms : List MemberRow) → tally ≡ tally_of ms (decode_book book.now)
        → JudgesBook limits books ms (map decode_keep keeps.now) book.now result }
{
    let id = natural_at(book, 0);
    if id < 1 || id > books as u64 {
        return Some(BookFault::Id);
    }
    if !is_name_text(text_at(book, 1)) {
        return Some(BookFault::Name);
    }
    if !has_valid_numbers(limits, book) {
        return Some(BookFault::Numbers);
    }
    members_fault(book, tally, keeps)
}

/// The first of these books, of `count`, that is not valid, and what is wrong with it. Beside each
/// stands the tally of its members.
pub(crate) fn first_faulty_book<'a>(
    limits: Limits,
    count: usize,
    books: &'a [Row],
    tallies: &[BookTally],
    keeps: &[Row],
) -> Option<(&'a Row, BookFault)>
    ensures good { (ms : List MemberRow) → AreCounted ms (map decode_book books.now) tallies.now
        → result ≡ None → AllByRecursion
        (IsCheckedBook limits count ms (map decode_keep keeps.now)) (map decode_book books.now) }
    ensures bad { (ms : List MemberRow) → AreCounted ms (map decode_book books.now) tallies.now
        → IfSome result (λ found. Has books.now found.0.now
        × ¬ IsCheckedBook limits count ms (map decode_keep keeps.now) (decode_book found.0.now)
        × HasBookFault limits count ms (map decode_keep keeps.now) found.0.now found.1) }
{
    let Some((book, others)) = books.split_first() else {
        return None;
    };
    let Some((tally, rest)) = tallies.split_first() else {
        return None;
    };
    match book_fault(limits, count, *tally, keeps, book) {
        Some(fault) => Some((book, fault)),
        None => first_faulty_book(limits, count, others, rest, keeps),
    }
}

/// Whether each of these books, of `count`, is valid. Beside each stands the tally of its members.
pub(crate) fn are_valid_books(
    limits: Limits,
    count: usize,
    books: &[Row],
    tallies: &[BookTally],
    keeps: &[Row],
) -> bool
    ensures { (ms : List MemberRow) → AreCounted ms (map decode_book books.now) tallies.now
        → IsTrue result ↔ AllByRecursion
        (IsCheckedBook limits count ms (map decode_keep keeps.now)) (map decode_book books.now) }
{
    first_faulty_book(limits, count, books, tallies, keeps).is_none()
}

/// Whether the row has a book's columns: an id, a name and nine numbers, none of them negative.
fn is_book_row(row: &Row) -> bool
    ensures { IsTrue result ↔ IsBookRow row.now }
{
    let is_keyed = has_natural(row, 0) && has_text(row, 1);
    let has_numbers = has_natural(row, 2) && has_natural(row, 3);
    let has_stores = has_natural(row, 4) && has_natural(row, 5) && has_natural(row, 6);
    let has_more = has_natural(row, 7) && has_natural(row, 8);
    let has_removals = has_natural(row, 9) && has_natural(row, 10);
    is_keyed && has_numbers && has_stores && has_more && has_removals
}

/// Whether the row has a keep's columns: its book's id, and a number that is not negative.
fn is_keep_row(row: &Row) -> bool
    ensures { IsTrue result ↔ IsKeepRow row.now }
{
    has_number(row, 0) && has_natural(row, 1)
}

/// The first row that doesn't have a book's columns.
pub(crate) fn first_bad_book(rows: &[Row]) -> Option<&Row>
    ensures good { result ≡ None → AllByRecursion IsBookRow rows.now }
    ensures bad { IfSome result (λ row. Has rows.now row.now × ¬ IsBookRow row.now) }
{
    for row in rows {
        if !is_book_row(row) {
            return Some(row);
        }
    }
    None
}

/// The first row that doesn't have a keep's columns.
pub(crate) fn first_bad_keep(rows: &[Row]) -> Option<&Row>
    ensures good { result ≡ None → AllByRecursion IsKeepRow rows.now }
    ensures bad { IfSome result (λ row. Has rows.now row.now × ¬ IsKeepRow row.now) }
{
    for row in rows {
        if !is_keep_row(row) {
            return Some(row);
        }
    }
    None
}

/// Whether each row has a book's columns.
pub(crate) fn are_book_rows(rows: &[Row]) -> bool
    ensures { IsTrue result ↔ AllByRecursion IsBookRow rows.now }
{
    first_bad_book(rows).is_none()
}

/// Whether each row has a keep's columns.
pub(crate) fn are_keep_rows(rows: &[Row]) -> bool
    ensures { IsTrue result ↔ AllByRecursion IsKeepRow rows.now }
{
    first_bad_keep(rows).is_none()
}
