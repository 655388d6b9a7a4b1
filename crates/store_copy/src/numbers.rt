//! How many numbers each book has to take, so that no token of a store counts in its copy.
ghost use Rattle.store_check.specs.RowChecks.{decode_book, int_cell};
ghost use Rattle.store_rows.specs.Values.{natural};
ghost use Rattle.std.specs.List.{AllByRecursion};
ghost use Rattle.std.specs.Prelude.{◌*◌, ◌≡◌, ◌<◌, ◌≤◌, map};

use crate::reading::StoredRows;
use sqlite::Row;
use store_check::cells::number_or_zero_at;

/// The number, or 0 if it is negative.
fn natural_of(number: i64) -> u64
    ensures { result ≡ natural number }
{
    match u64::try_from(number) {
        Ok(number) => number,
        Err(_) => 0,
    }
}

/// The number of the book, or the other one if that is greater.
fn greater_number(book: &Row, other: u64) -> u64
    ensures own { natural (int_cell 2 book.now) ≤ result }
    ensures other { other ≤ result }
{
    let number = natural_of(number_or_zero_at(book, 2));
    if number > other { number } else { other }
}

/// The greatest number of a book, or 0 if there is none.
fn greatest_number(books: &[Row]) -> u64
    ensures { AllByRecursion (λ book. natural book.numbers.number ≤ result)
        (map decode_book books.now) }
{
    let mut greatest = 0u64;
    for i in 0..books.len() {
        greatest = greater_number(&books[i], greatest);
    }
    greatest
}

/// As many pairs more than are needed: as many as a resync takes by default, for changes that a
/// store accepts after it was copied.
const SPARE_PAIRS: u64 = 500_000;

/// A number of pairs that take more numbers than this.
fn pairs_above(number: u64) -> u64
    ensures above { number < 2 * result }
    ensures some { 1 ≤ result }
{
    number / 2 + SPARE_PAIRS
}

/// The number of pairs of a resync after which each book's number is above the numbers that the
/// books have now; at least 1. A book's number is the number of its changes. A pair is two of them:
/// it creates a card and removes it, or the other way round.
pub fn restarting_pairs(rows: &StoredRows) -> u64
    // A pair takes two numbers: each book's number is below what the pairs take. A negative one
    // counts as 0.
    ensures above { AllByRecursion (λ book. natural book.numbers.number < 2 * result)
        (map decode_book rows.now.others.books.items) }
    ensures some { 1 ≤ result }
{
    pairs_above(greatest_number(rows.others.books.as_slice()))
}
