//! Stores that have the calls of administrators.
ghost use Rattle.book_resync.specs.Resyncs.{Resyncs};
ghost use Rattle.book_model.specs.BookQueries.{keep_step};
ghost use Rattle.book_model.specs.CallOutcomes.{IfFault};
ghost use Rattle.sync_core.specs.StoreModels.{AnswersExactly, KeepsTerms};
ghost use Rattle.sync_core.specs.StoreCrashes.{LeavesNoMore};

use sync_core::{BookStore, Denied};

/// A store that also has the calls that only administrators need.
pub trait AdminStore: BookStore {
    /// The most tombstones that the book keeps, 1 to 10,000. Refused with `NoSuchBook`.
    fn keep(&mut self, book: &str) -> Result<u64, Denied>
        ensures terms { KeepsTerms Self.model self.old self.new }
        ensures fault { IfFault result Self.model.may_fault }
        ensures step { AnswersExactly Self.model self.old self.new result
            (λ _ books. keep_step books book.now) }
        ensures crash { LeavesNoMore Self.model self.old self.new result };

    /// Makes every device start again: each book takes the numbers of this many pairs of a creation
    /// and a removal, and forgets every removal. No pairs count as one. Returns the number of
    /// books. Refused with `ChangesSpent` if a book would pass the limit of changes, and with
    /// `BookFull` if it has more cards than the limit.
    fn resync_books(&mut self, pairs: u64) -> Result<u64, Denied>
        ensures fault { IfFault result Self.model.may_fault }
        ensures resyncs { Resyncs Self.model self.old pairs result self.new };
}
