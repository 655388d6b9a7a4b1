//! The most tombstones that a book keeps.
ghost use Rattle.book_model.specs.BookQueries.{keep_step};
ghost use Rattle.book_store.specs.StoreViews.{table_model};
ghost use Rattle.store_lookups.specs.CallResults.{IsExactly};
ghost use Rattle.store_lookups.specs.OnConnections.{HasOutsideCauseOfFault};
ghost use Rattle.store_lookups.specs.ChangeFaults.{HaveFreeIds};
ghost use Rattle.store_tables.specs.OnConnections.{HasCleanDisk, OnlyReads, table_rows};
ghost use Rattle.sync_core.specs.StoreModels.{AnswersQuery, KeepsTerms};
ghost use Rattle.sync_core.specs.StoreCrashes.{LeavesNoMore};

use crate::answering::answer_if_open;
use crate::sql_store::SqlStore;
use book_model::Denied;
use sqlite::Alter;
use store_queries::book_queries::keep_of_book;

impl<S: Alter> SqlStore<S> {
    /// Returns the most tombstones that the book keeps, 1 to 10,000. Reads the book's row and that
    /// of its keep. Refused with `NoSuchBook`; fails with `Memory` if memory runs out, and with
    /// `Store` if a row is malformed or on any other error of the database.
    pub fn keep_of(&mut self, book: &str) -> Result<u64, Denied>
        ensures terms { KeepsTerms (table_model S.Store) self.old self.new }
        ensures answers { AnswersQuery (table_model S.Store) IsExactly self.old self.new result
            (λ _ books. keep_step books book.now) }
        ensures leaves_no_more { LeavesNoMore (table_model S.Store) self.old self.new result }
        ensures reads_only { OnlyReads S.Store self.old.conn self.new.conn }
        ensures store_fault { HasCleanDisk S.Store self.new.conn
            → HaveFreeIds (table_rows S.Store self.old.conn)
            → HasOutsideCauseOfFault S.Store self.old.conn self.new.conn result }
    {
        let answer = keep_of_book(&mut self.conn, book);
        answer_if_open(&mut self.conn, answer)
    }
}
