//! The resync: every device starts again.
ghost use Rattle.book_store.specs.StoreResyncs.{ResyncsStore};
ghost use Rattle.std.specs.Prelude.{◌≤◌};

use crate::answering::outcome_if_open;
use crate::sql_store::SqlStore;
use book_model::Denied;
use sqlite::Alter;
use store_resync::resync_call::resync_in_tables;

impl<S: Alter> SqlStore<S> {
    /// Makes every device start again, after the store was put back from a copy. Each book takes
    /// the numbers of this many pairs of a creation and a removal, and forgets every removal; all
    /// books do so in one transaction. `pairs` is at least 1. Returns the number of books.
    ///
    /// Refused with `ChangesSpent` if a book would pass the limit of changes, and with `BookFull`
    /// if it has more live cards than the limit; for the first book in the order of their names
    /// that one of them is true of. Fails with `Memory` if memory runs out, and with `Store` if a
    /// row is malformed or on any other error of the database.
    pub fn resync(&mut self, pairs: u64) -> Result<u64, Denied>
        requires some { 1 ≤ pairs }
        ensures changes { ResyncsStore S.Store self.old self.new pairs result }
    {
        let outcome = resync_in_tables(
            self.alloc,
            &mut self.conn,
            &mut self.counts,
            self.limits,
            pairs,
        );
        outcome_if_open(&mut self.conn, outcome)
    }
}
