//! The number of tombstones that a store keeps of a book, after a change of the book was committed.
ghost use Rattle.book_model.specs.Counts.{AreCountsOf};
ghost use Rattle.book_model.specs.BookQueries.{tombstone_count};
ghost use Rattle.book_model.specs.Books.{Book, Books};
ghost use Rattle.book_model.specs.Counting.{one_if};
ghost use Rattle.book_model.specs.Forgetting.{book_after_forget, dropped_row_count};
ghost use Rattle.std.specs.FinMap as finite;
ghost use Rattle.std.specs.Prelude.{◌≡◌, ◌≤◌, ◌+◌, Some, ℕ};

use book_model::TombstoneCounts;

/// Lowers the number of the named book by the number of tombstones that stored cards replaced.
pub fn count_replaced(counts: &mut TombstoneCounts, name: &str, replaced: u64)
    ensures { (books : Books) (before after : Book) → AreCountsOf counts.old books
        → finite.get books name.now ≡ Some before
        → tombstone_count after + replaced ≡ tombstone_count before
        → AreCountsOf counts.new (finite.insert books name.now after) }
{
    if replaced == 0 {
        return;
    }
    if let Some(number) = counts.get(name) {
        counts.set(name, number.saturating_sub(replaced));
    }
}

/// Lowers the number of the named book by one if a stored card has taken the place of a tombstone.
pub fn count_stored(counts: &mut TombstoneCounts, name: &str, was_tombstone: bool)
    ensures { (books : Books) (before after : Book) → AreCountsOf counts.old books
        → finite.get books name.now ≡ Some before
        → tombstone_count after + one_if was_tombstone ≡ tombstone_count before
        → AreCountsOf counts.new (finite.insert books name.now after) }
{
    count_replaced(counts, name, u64::from(was_tombstone));
}

/// Removes the number of the named book if forgetting dropped rows of it. They may include rows at
/// or below the old horizon, which were no tombstones, so the new number isn't known.
pub(crate) fn count_forgotten(counts: &mut TombstoneCounts, name: &str, dropped: u64)
    ensures { (books : Books) (before : Book) (upto : ℕ) → AreCountsOf counts.old books
        → finite.get books name.now ≡ Some before
        → before.horizon ≤ upto
        → dropped ≡ dropped_row_count before.members upto
        → AreCountsOf counts.new (finite.insert books name.now (book_after_forget before upto)) }
{
    if dropped > 0 {
        counts.clear(name);
    }
}
