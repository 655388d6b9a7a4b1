//! The calls of `BookStore` over tables. The clause of each states what the trait requires, and
//! also what a crash can leave: after a call that changes books, what it could leave before or the
//! whole change; after a call that reads, what it could leave before. Both hold of any connection:
//! the change is made only if it was open on an honest disk before the call. A call that leaves a
//! closed connection returns a fault.
ghost use Rattle.base_types.specs.TextMaps.{octet_map};
ghost use Rattle.book_model.specs.BookQueries.{book_line_step, book_lines, cards_step, get_step};
ghost use Rattle.book_model.specs.BookQueries.{tally_step};
ghost use Rattle.book_model.specs.Creating.{create_step};
ghost use Rattle.book_model.specs.Forgetting.{forget_step};
ghost use Rattle.book_model.specs.ImportLaws.{HaveDistinctUids};
ghost use Rattle.book_model.specs.Importing.{import_step, kept_import_step};
ghost use Rattle.book_model.specs.Moving.{move_step};
ghost use Rattle.book_model.specs.Pages.{IsReport, report_step};
ghost use Rattle.book_model.specs.Putting.{put_step};
ghost use Rattle.book_model.specs.Removing.{remove_step};
ghost use Rattle.book_store.specs.StoreViews.{ChangesStore, ReadsStore, table_model};
ghost use Rattle.store_lookups.specs.CallResults.{IsExactly};
ghost use Rattle.std.specs.Prelude.{◌≡◌, Ok};

use crate::answering::{answer_if_open, outcome_if_open};
use crate::sql_store::SqlStore;
use book_model::{BookLine, Denied, ImportTally, Moved, Page, PutAnswer, Stored, Tally, Token};
use sqlite::Alter;
use std::collections::BTreeMap;
use store_inserts::creating::create_in_tables;
use store_inserts::importing::import_in_book;
use store_queries::book_queries::{import_of_book, line_of_book, stored_of_book, tally_of_book};
use store_queries::list_queries::{cards_of_book, lines_of_books};
use store_queries::report_queries::page_of_book;
use store_removals::move_call::move_in_tables;
use store_removals::remove_call::remove_in_book;
use store_writes::forgetting::forget_in_book;
use store_writes::put_call::put_in_book;
use sync_core::BookStore;
use vcard_text::Card;

impl<S: Alter> BookStore for SqlStore<S> {
    ghost model = { table_model S.Store };

    fn create_book(&mut self, name: &str) -> Result<u64, Denied>
        ensures changes { ChangesStore S.Store self.old self.new result
            (λ limits books. create_step limits books name.now) }
    {
        let outcome = create_in_tables(&mut self.conn, self.limits, name);
        outcome_if_open(&mut self.conn, outcome)
    }

    fn put(&mut self, book: &str, card: &Card, expect: Option<u64>) -> Result<PutAnswer, Denied>
        ensures changes { ChangesStore S.Store self.old self.new result
            (λ limits books. put_step limits books book.now card.now expect) }
    {
        let outcome = put_in_book(
            self.alloc,
            &mut self.conn,
            &mut self.counts,
            self.limits,
            book,
            card,
            expect,
        );
        outcome_if_open(&mut self.conn, outcome)
    }

    fn remove(&mut self, book: &str, uid: &str, expect: Option<u64>) -> Result<u64, Denied>
        ensures changes { ChangesStore S.Store self.old self.new result
            (λ limits books. remove_step limits books book.now uid.now expect) }
    {
        let outcome = remove_in_book(
            self.alloc,
            &mut self.conn,
            &mut self.counts,
            self.limits,
            book,
            uid,
            expect,
        );
        outcome_if_open(&mut self.conn, outcome)
    }

    fn move_card(
        &mut self,
        from: &str,
        to: &str,
        uid: &str,
        expect: Option<u64>,
    ) -> Result<Moved, Denied>
        ensures changes { ChangesStore S.Store self.old self.new result
            (λ limits books. move_step limits books from.now to.now uid.now expect) }
    {
        let outcome = move_in_tables(
            self.alloc,
            &mut self.conn,
            &mut self.counts,
            self.limits,
            from,
            to,
            uid,
            expect,
        );
        outcome_if_open(&mut self.conn, outcome)
    }

    fn forget(&mut self, book: &str, upto: u64) -> Result<u64, Denied>
        ensures changes { ChangesStore S.Store self.old self.new result
            (λ _ books. forget_step books book.now upto) }
    {
        let outcome = forget_in_book(&mut self.conn, &mut self.counts, book, upto);
        outcome_if_open(&mut self.conn, outcome)
    }

    fn kept_import(&mut self, book: &str, key: &str) -> Result<Option<ImportTally>, Denied>
        ensures reads { ReadsStore S.Store IsExactly self.old self.new result
            (λ _ books. kept_import_step books book.now key.now) }
    {
        let answer = import_of_book(&mut self.conn, book, key);
        answer_if_open(&mut self.conn, answer)
    }

    fn import(&mut self, book: &str, key: &str, cards: &[Card]) -> Result<ImportTally, Denied>
        requires distinct { HaveDistinctUids cards.now }
        ensures changes { ChangesStore S.Store self.old self.new result
            (λ limits books. import_step limits books book.now key.now cards.now) }
    {
        let outcome = import_in_book(
            self.alloc,
            &mut self.conn,
            &mut self.counts,
            self.limits,
            book,
            key,
            cards,
        );
        outcome_if_open(&mut self.conn, outcome)
    }

    fn get(&mut self, book: &str, uid: &str) -> Result<Stored, Denied>
        ensures reads { ReadsStore S.Store IsExactly self.old self.new result
            (λ _ books. get_step books book.now uid.now) }
    {
        let answer = stored_of_book(self.alloc, &mut self.conn, book, uid);
        answer_if_open(&mut self.conn, answer)
    }

    fn books(&mut self) -> Result<Vec<BookLine>, Denied>
        ensures reads { ReadsStore S.Store (λ expected lines. lines.items ≡ expected)
            self.old self.new result (λ _ books. Ok (book_lines books)) }
    {
        let answer = lines_of_books(self.alloc, &mut self.conn);
        answer_if_open(&mut self.conn, answer)
    }

    fn book(&mut self, name: &str) -> Result<BookLine, Denied>
        ensures reads { ReadsStore S.Store IsExactly self.old self.new result
            (λ _ books. book_line_step books name.now) }
    {
        let answer = line_of_book(self.alloc, &mut self.conn, name);
        answer_if_open(&mut self.conn, answer)
    }

    fn cards(&mut self, book: &str) -> Result<BTreeMap<String, Stored>, Denied>
        ensures reads { ReadsStore S.Store (λ expected cards. octet_map cards ≡ expected)
            self.old self.new result (λ _ books. cards_step books book.now) }
    {
        let answer = cards_of_book(self.alloc, &mut self.conn, book);
        answer_if_open(&mut self.conn, answer)
    }

    fn tally(&mut self, book: &str) -> Result<Tally, Denied>
        ensures reads { ReadsStore S.Store IsExactly self.old self.new result
            (λ _ books. tally_step books book.now) }
    {
        let answer = tally_of_book(&mut self.conn, &mut self.counts, book);
        answer_if_open(&mut self.conn, answer)
    }

    fn report(
        &mut self,
        book: &str,
        token: Option<Token>,
        limit: Option<u64>,
    ) -> Result<Page, Denied>
        ensures reads { ReadsStore S.Store IsReport self.old self.new result
            (λ limits books. report_step limits books book.now token limit) }
    {
        let answer = page_of_book(self.alloc, &mut self.conn, self.limits, book, token, limit);
        answer_if_open(&mut self.conn, answer)
    }
}
