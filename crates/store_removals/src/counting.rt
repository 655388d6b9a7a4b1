//! The number of tombstones that a store keeps of a book, after a removal from it was committed.
ghost use Rattle.book_model.specs.Counts.{AreCountsOf};
ghost use Rattle.book_model.specs.BookQueries.{tombstone_count};
ghost use Rattle.book_model.specs.Books.{Book, Books};
ghost use Rattle.std.specs.FinMap as finite;
ghost use Rattle.std.specs.Prelude.{◌≡◌, IfSome};

use book_model::TombstoneCounts;

/// Sets the number of the named book, or forgets it if it is not known.
pub(crate) fn set_count(counts: &mut TombstoneCounts, name: &str, number: Option<u64>)
    ensures { (books : Books) (after : Book) → AreCountsOf counts.old books
        → IfSome number (λ n. tombstone_count after ≡ n)
        → AreCountsOf counts.new (finite.insert books name.now after) }
{
    match number {
        Some(number) => counts.set(name, number),
        None => counts.clear(name),
    }
}
