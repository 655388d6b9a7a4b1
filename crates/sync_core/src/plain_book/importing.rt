//! Imports into a book in memory: all cards are stored, or none.
ghost use Rattle.std.specs.Prelude.{◌≡◌, ◌+◌, ◌<◌, ◌≤◌, ◌^◌, ℕ, IfOk, OnOk, OnErr, fold, length};
ghost use Rattle.std.specs.Prelude.{string_bytes, take};
ghost use Rattle.std.specs.FinMap as finite;
ghost use Rattle.book_model.specs.Books.{live_at};
ghost use Rattle.book_model.specs.BookChanges.{card_after};
ghost use Rattle.book_model.specs.Importing.{import_cards, import_state, import_tally};
ghost use Rattle.book_model.specs.Importing.{book_after_store, book_import_tally};
ghost use Rattle.book_model.specs.Importing.{book_with_kept_import};
ghost use Rattle.book_model.specs.ImportLaws.{CountsImportedCards, HaveDistinctUids};
ghost use Rattle.book_model.specs.Counting.{live_count, total_changes};
ghost use Rattle.sync_core.specs.ImportedRows.{NumberFits, capped_live_count, row_restored};
ghost use Rattle.sync_core.specs.ImportedRows.{rows_restored, with_imported};

use super::PlainBook;
use book_model::decisions::{reason_to_import, tally_of_import};
use book_model::laws::imports_count_cards;
use book_model::{Change, Counts, ImportTally, Limits, Refusal, Row, StoreReason};
use std::alloc::Global;
use vcard_text::{Card, NoMemory, TextMap};

/// The row of a UID before an import overwrote it, for the rollback.
#[derive(Drop)]
struct SavedRow<'a> {
    uid: &'a str,
    row: Option<Row>,
}

/// The numbers of cards that an import adds, edits and leaves the same.
#[derive(Clone, Copy)]
struct ImportCounts {
    added: u64,
    edited: u64,
    same: u64,
}

/// The member's row after the change.
fn row_after(changed: u64, change: Change) -> Row
    ensures { result ≡ record { changed = changed; card = card_after change } }
{
    let card = match change {
        Change::Stores(card, _) => Some(card),
        Change::TakesAway(_) => None,
    };
    Row { changed, card }
}

/// The number of live cards after `added` more, capped at the largest `u64`.
fn live_after_adding(counts: Counts, added: u64) -> u64
    requires { total_changes counts < 2 ^ 64 }
    ensures { result ≡ capped_live_count counts added }
{
    let arrivals = counts.created + counts.imported + counts.moved_in;
    let departures = counts.deleted + counts.moved_out;
    if arrivals >= departures {
        (arrivals - departures).saturating_add(added)
    } else {
        added.saturating_sub(departures - arrivals)
    }
}

/// Restores the earlier row of a UID. Allocates nothing.
fn restore_row(rows: &mut TextMap<Row>, before: SavedRow)
    ensures { rows.new ≡ row_restored rows.old before.entry.uid.now before.entry.row }
{
    let SavedRow { uid, row } = before;
    match row {
        Some(row) => {
            rows.replace(uid, row);
        }
        None => {
            rows.remove(uid);
        }
    }
}

/// Restores the earlier rows, the last one first. Allocates nothing.
fn restore_rows(rows: &mut TextMap<Row>, written: Vec<SavedRow>)
    ensures { rows.new ≡ rows_restored written.entry.items rows.old }
{
    let mut written = written;
    while let Some(before) = written.pop() {
        restore_row(rows, before);
    }
}

/// Writes the row of the UID and returns the earlier one. On `Err` the rows are unchanged.
fn replace_row(
    alloc: Global,
    rows: &mut TextMap<Row>,
    uid: &str,
    row: Row,
) -> Result<Option<Row>, NoMemory>
    ensures before { IfOk result (λ before. before ≡ finite.get rows.old uid.now) }
    ensures ok { OnOk result (rows.new ≡ finite.insert rows.old uid.now row) }
    ensures err { OnErr result (rows.new ≡ rows.old) }
{
    if rows.get(uid).is_some() {
        return Ok(rows.replace(uid, row));
    }
    rows.insert(String::from_str(alloc, uid)?, row)?;
    Ok(None)
}

/// Writes the row of the UID and saves the earlier one in `written`. On `Err` the rows are
/// unchanged and nothing is saved.
fn write_row<'a>(
    alloc: Global,
    rows: &mut TextMap<Row>,
    written: &mut Vec<SavedRow<'a>>,
    uid: &'a str,
    row: Row,
) -> Result<(), NoMemory>
    ensures ok { OnOk result (rows.new ≡ finite.insert rows.old uid.now row) }
    ensures err { OnErr result (rows.new ≡ rows.old) }
    ensures restorable { rows_restored written.new.items rows.new
        ≡ rows_restored written.old.items rows.old }
{
    let before = replace_row(alloc, rows, uid, row)?;
    match written.push(SavedRow { uid, row: before }) {
        Ok(()) => Ok(()),
        Err(failed) => {
            restore_row(rows, failed.value);
            Err(NoMemory)
        }
    }
}

impl PlainBook {
    /// Counts the cards that an import would add, edit and leave the same, judged by the live cards
    /// before it. Allocates nothing.
    fn count_import(&self, cards: &[Card]) -> ImportCounts
        ensures counted { CountsImportedCards live_at self.now cards.now
            (import_state self.now result.added result.edited result.same) }
        ensures all { result.added + result.edited + result.same ≡ length cards.now }
    {
        let mut counts = ImportCounts {
            added: 0,
            edited: 0,
            same: 0,
        };
        for card in cards {
            match reason_to_import(self.live(card.uid()), card) {
                Some(StoreReason::Import) => counts.added += 1,
                Some(_) => counts.edited += 1,
                None => counts.same += 1,
            }
        }
        counts
    }

    /// The result of importing the cards, before anything is written. Allocates nothing.
    ///
    /// Refused with `BookFull`, then `ChangesSpent`.
    pub fn answer_to_import(&self, limits: Limits, cards: &[Card]) -> Result<ImportTally, Refusal>
        requires { HaveDistinctUids cards.now }
        ensures tally { result
            ≡ book_import_tally limits (import_cards live_at book_after_store self.now
            cards.now) }
        ensures room { OnOk result (NumberFits self.now
            (import_cards live_at book_after_store self.now cards.now).book) }
    {
        // A law, no code: the live cards before the import determine its result.
        imports_count_cards();

        let counts = self.count_import(cards);
        let ImportCounts {
            added,
            edited,
            same,
        } = counts;
        let number = self.number.saturating_add(added + edited);
        let cards = live_after_adding(self.counts, added);
        tally_of_import(limits, added, edited, same, cards, number)
    }

    /// Stores the card unless an equal one is live, and saves the earlier row. On `Err` the book is
    /// unchanged.
    fn import_card<'a>(
        &mut self,
        alloc: Global,
        written: &mut Vec<SavedRow<'a>>,
        card: &'a Card,
    ) -> Result<(), NoMemory>
        requires { NumberFits self.old (with_imported self.old card.now) }
        ensures ok { OnOk result (self.new ≡ with_imported self.old card.now) }
        ensures err { OnErr result (self.new ≡ self.old) }
        ensures restorable { rows_restored written.new.items self.new.members
            ≡ rows_restored written.old.items self.old.members }
    {
        let Some(reason) = reason_to_import(self.live(card.uid()), card) else {
            return Ok(());
        };
        let changed = self.number + 1;
        let mut counts = self.counts;
        let change = Change::Stores(card.try_copy()?, reason);
        counts.add(&change);
        let row = row_after(changed, change);
        write_row(alloc, &mut self.members, written, card.uid(), row)?;
        self.number = changed;
        self.counts = counts;
        Ok(())
    }

    /// Stores the cards in order and saves the earlier rows. On `Err` a prefix of them is stored.
    fn write_cards<'a>(
        &mut self,
        alloc: Global,
        written: &mut Vec<SavedRow<'a>>,
        cards: &'a [Card],
    ) -> Result<(), NoMemory>
        requires { NumberFits self.old (fold with_imported self.old cards.now) }
        ensures ok { OnOk result (self.new ≡ fold with_imported self.old cards.now) }
        ensures err { OnErr result ((count : ℕ)
            × (self.new ≡ fold with_imported self.old (take count cards.now))) }
        ensures restorable { rows_restored written.new.items self.new.members
            ≡ rows_restored written.old.items self.old.members }
    {
        for card in cards {
            self.import_card(alloc, written, card)?;
        }
        Ok(())
    }

    /// Stores the cards in order, saves the earlier rows, and stores the result under the key. On
    /// `Err` a prefix of the cards is stored.
    fn write_import<'a>(
        &mut self,
        alloc: Global,
        written: &mut Vec<SavedRow<'a>>,
        key: String,
        tally: ImportTally,
        cards: &'a [Card],
    ) -> Result<(), NoMemory>
        requires { NumberFits self.old (fold with_imported self.old cards.now) }
        ensures ok { OnOk result (self.new
            ≡ book_with_kept_import (fold with_imported self.old cards.now)
            (string_bytes key) tally) }
        ensures err { OnErr result ((count : ℕ)
            × (self.new ≡ fold with_imported self.old (take count cards.now))) }
        ensures restorable { rows_restored written.new.items self.new.members
            ≡ rows_restored written.old.items self.old.members }
    {
        self.write_cards(alloc, written, cards)?;
        self.imports.insert(key, tally)?;
        Ok(())
    }

    /// Stores the cards in order and stores the result under the key. On `Err` the book is
    /// unchanged.
    ///
    /// Each stored card costs one copy, three look-ups of its UID and a write. The earlier rows are
    /// held until all cards are stored, so that they can be restored.
    pub fn import(
        &mut self,
        alloc: Global,
        key: String,
        tally: ImportTally,
        cards: &[Card],
    ) -> Result<(), NoMemory>
        requires { NumberFits self.old
            (import_cards live_at book_after_store self.old cards.now).book }
        ensures ok { OnOk result (self.new ≡ book_with_kept_import
            (import_cards live_at book_after_store self.old cards.now).book
            (string_bytes key) tally) }
        ensures err { OnErr result (self.new ≡ self.old) }
    {
        let number = self.number;
        let counts = self.counts;
        let bound = self.remembered_bound;
        let mut written = Vec::new(alloc);
        let Err(error) = self.write_import(alloc, &mut written, key, tally, cards) else {
            return Ok(());
        };
        restore_rows(&mut self.members, written);
        self.number = number;
        self.counts = counts;
        self.remembered_bound = bound;
        Err(error)
    }
}
