//! A book held in memory: one row per member, change counts, and the results of imports.
ghost use Rattle.std.specs.Prelude.{◌≡◌, ◌+◌, ◌<◌, ◌≤◌, ◌↔◌, ◌^◌, IfOk, IfSome, IsSome, IsTrue};
ghost use Rattle.std.specs.Prelude.{OnOk, OnErr, [], min, string_bytes};
ghost use Rattle.std.specs.FinMap as finite;
ghost use Rattle.std.specs.Option.{option_map_or};
ghost use Rattle.book_model.specs.Books.{fresh_book, live_at, as_stored};
ghost use Rattle.book_model.specs.BookChanges.{book_after_drop, forced_horizon, least};
ghost use Rattle.book_model.specs.BookChanges.{book_after_change, book_with_row};
ghost use Rattle.book_model.specs.Counting.{live_count};
ghost use Rattle.book_model.specs.declared.change.Change.{Change};
ghost use Rattle.book_model.specs.declared.change.Change.TheVariants.{Stores, TakesAway};
ghost use Rattle.book_model.specs.declared.change.RemovalReason.{RemovalReason};
ghost use Rattle.book_model.specs.declared.change.RemovalReason.TheVariants.{MoveOut};
ghost use Rattle.book_model.specs.declared.change.StoreReason.TheVariants.{MoveIn};
ghost use Rattle.book_model.specs.Forgetting.{book_after_forget, dropped_row_count};
ghost use Rattle.book_model.specs.Forgetting.{rows_after_forget};
ghost use Rattle.book_model.specs.Pages.{due_rows};
ghost use Rattle.book_model.specs.Putting.{as_found_member, found_in_book};
ghost use Rattle.book_model.specs.BookQueries.{is_tombstone_after, tombstone_count_after};
ghost use Rattle.book_model.specs.BookQueries.{book_tally, live_cards, with_live};
ghost use Rattle.book_model.specs.Counting.{one_if};
ghost use Rattle.sync_core.specs.BookInvariants.{card_at, removal_numbers};
ghost use Rattle.base_types.specs.TextMaps.{octet_map};

mod importing;

use book_model::decisions::{MemberLookup, is_row_kept};
use book_model::{
    Change, Counts, ImportTally, Mark, RemovalReason, Row, StoreReason, Stored, Tally,
};
use std::alloc::Global;
use std::collections::BTreeMap;
use std::marker::Model;
use std::mem;
use vcard_text::{Card, NoMemory, TextMap};

/// A book in memory, with a row for each member.
#[derive(Drop)]
pub struct PlainBook {
    id: u64,
    number: u64,
    horizon: u64,
    keep: u64,
    /// Upper bound on the number of tombstones above the horizon.
    remembered_bound: u64,
    counts: Counts,
    members: TextMap<Row>,
    imports: TextMap<ImportTally>,
}

impl Model for PlainBook {
    ghost use Rattle.std.specs.Prelude.{◌≤◌};
    ghost use Rattle.book_model.specs.internal.BookCodes.{coded_book};
    ghost use Rattle.book_model.specs.Books.{Book};
    ghost use Rattle.book_model.specs.BookQueries.{tombstone_count_after};
    ghost use Rattle.sync_core.specs.BookInvariants.{HasSoundNumbers};

    ghost Value = { Book };

    ghost coded = { coded_book };

    ghost view = { λ b. record {
      id = b.id;
      number = b.number;
      horizon = b.horizon;
      keep = b.keep;
      counts = b.counts;
      members = b.members;
      imports = b.imports;
    } };

    // No count exceeds the number, so none overflows. A report at the current number reads no row,
    // and neither does a removal while the bound is at most `keep`.
    ghost invariant = { λ b. HasSoundNumbers b.number b.counts b.members
        × (tombstone_count_after b.members b.horizon ≤ b.remembered_bound) };
}

/// Whether the row is a tombstone above the horizon.
fn is_tombstone_after(row: &Row, horizon: u64) -> bool
    ensures { result ≡ is_tombstone_after horizon row.now }
{
    row.card.is_none() && row.changed > horizon
}

/// Counts the tombstones above the horizon. Allocates nothing.
fn count_removed(rows: &BTreeMap<String, Row>, horizon: u64) -> u64
    ensures { result ≡ tombstone_count_after (octet_map rows.now) horizon }
{
    let mut count: usize = 0;
    for (_uid, row) in rows.iter() {
        if is_tombstone_after(row, horizon) {
            count += 1;
        }
    }
    count as u64
}

/// The smaller of the two numbers, or `number` if there is no other.
fn lesser(first: Option<u64>, number: u64) -> u64
    ensures { result ≡ option_map_or (min number) first number }
{
    match first {
        Some(first) => number.min(first),
        None => number,
    }
}

/// The number of the oldest removal above the horizon. Reads all rows and allocates nothing.
fn oldest_removal(rows: &BTreeMap<String, Row>, horizon: u64) -> Option<u64>
    ensures { result ≡ least (removal_numbers (octet_map rows.now) horizon) }
{
    let mut first = None;
    for (_uid, row) in rows.iter() {
        if is_tombstone_after(row, horizon) {
            first = Some(lesser(first, row.changed));
        }
    }
    first
}

/// The new bound on the tombstones after a change that leaves `rows` rows.
fn bound_after(bound: u64, is_removal: bool, rows: usize) -> u64
    ensures { result ≡ min (bound + one_if is_removal) rows }
{
    let more = if is_removal { 1 } else { 0 };
    bound.saturating_add(more).min(rows as u64)
}

/// Drops the tombstones up to the horizon and returns how many there were. Reads all rows once and
/// allocates nothing.
fn drop_rows(rows: &mut BTreeMap<String, Row>, horizon: u64) -> u64
    ensures dropped { result ≡ dropped_row_count (octet_map rows.old) horizon }
    ensures rows { octet_map rows.new ≡ rows_after_forget (octet_map rows.old) horizon }
{
    let before = rows.len();
    rows.retain(|_uid, row| is_row_kept(row, horizon));
    (before - rows.len()) as u64
}

/// Inserts a copy of the member's card under its UID if the member is live.
fn put_live(
    alloc: Global,
    cards: &mut TextMap<Stored>,
    uid: &str,
    row: &Row,
) -> Result<(), NoMemory>
    ensures { OnOk result (cards.new ≡ with_live cards.old (uid.now, row.now)) }
{
    let Some(card) = &row.card else {
        return Ok(());
    };
    let card = card.try_copy()?;
    let version = row.changed;
    cards.insert(String::from_str(alloc, uid)?, Stored { version, card })
}

impl PlainBook {
    /// An empty book, which keeps at most `keep` tombstones. Allocates nothing.
    pub fn new(alloc: Global, id: u64, keep: u64) -> PlainBook
        ensures { result ≡ fresh_book id keep }
    {
        PlainBook {
            id,
            number: 0,
            horizon: 0,
            keep,
            remembered_bound: 0,
            counts: Counts::none(),
            members: TextMap::new(alloc),
            imports: TextMap::new(alloc),
        }
    }

    /// The book's id in its store, counted from 1.
    pub fn id(&self) -> u64
        ensures { result ≡ self.now.id }
    {
        self.id
    }

    /// The number of the last change; 0 for a new book.
    pub fn number(&self) -> u64
        ensures { result ≡ self.now.number }
    {
        self.number
    }

    /// The horizon: tombstones up to this number have been dropped.
    pub fn horizon(&self) -> u64
        ensures { result ≡ self.now.horizon }
    {
        self.horizon
    }

    /// The member rows by UID, tombstones included.
    pub fn members(&self) -> &TextMap<Row>
        ensures { result.now ≡ self.now.members }
    {
        &self.members
    }

    /// The stored result of the import with this key, if any.
    pub fn kept_import(&self, key: &str) -> Option<ImportTally>
        ensures { result ≡ finite.get self.now.imports key.now }
    {
        match self.imports.get(key) {
            Some(tally) => Some(*tally),
            None => None,
        }
    }

    /// The live card with this UID and its version, if any.
    pub fn live(&self, uid: &str) -> Option<(u64, &Card)>
        ensures { as_stored result ≡ live_at self.now uid.now }
    {
        let row = self.members.get(uid)?;
        match &row.card {
            Some(card) => Some((row.changed, card)),
            None => None,
        }
    }

    /// The number of live cards.
    fn cards(&self) -> u64
        ensures { result ≡ live_count self.now.counts }
    {
        // The counts sum to the number, so no partial sum overflows.
        let _number = self.number;
        self.counts.live()
    }

    /// What a change to this UID is checked against: the live card, the card count and the number.
    pub fn lookup(&self, uid: &str) -> MemberLookup<'_>
        ensures { as_found_member result ≡ found_in_book self.now uid.now }
    {
        MemberLookup {
            live: self.live(uid),
            cards: self.cards(),
            number: self.number,
        }
    }

    /// Whether the book has no change after the mark, so that no member is due. Reads no row.
    pub fn is_unchanged_since(&self, mark: Mark) -> bool
        ensures number { IsTrue result ↔ (self.now.number ≤ mark.at) }
        ensures none_due { IsTrue result → due_rows self.now.members mark ≡ [] }
    {
        mark.at >= self.number
    }

    /// The book's statistics. Reads all rows to count the tombstones, and allocates nothing.
    pub fn tally(&self) -> Tally
        ensures { result ≡ book_tally self.now }
    {
        let remembered = count_removed(self.members.as_map(), self.horizon);
        Tally::of(self.number, self.horizon, self.counts, remembered)
    }

    /// Copies of all live cards, by UID. Reads all rows. `NoMemory` if an allocation fails.
    pub fn live_cards(&self, alloc: Global) -> Result<TextMap<Stored>, NoMemory>
        ensures { IfOk result (λ cards. cards ≡ live_cards self.now) }
    {
        let rows = self.members.as_map();
        let mut cards = TextMap::new(alloc);
        for (uid, row) in rows.iter() {
            put_live(alloc, &mut cards, uid.as_str(), row)?;
        }
        Ok(cards)
    }

    /// Applies the change under the next number and drops no tombstone. The cost is one look-up of
    /// the row. On `Err` the book is unchanged.
    pub fn apply(&mut self, uid: String, change: Change) -> Result<(), NoMemory>
        requires { self.old.number < 2 ^ 63 }
        ensures ok { OnOk result (self.new ≡ book_with_row self.old (string_bytes uid) change) }
        ensures err { OnErr result (self.new ≡ self.old) }
    {
        let changed = self.number + 1;
        let mut counts = self.counts;
        counts.add(&change);
        let card = match change {
            Change::Stores(card, _) => Some(card),
            Change::TakesAway(_) => None,
        };
        let is_removal = card.is_none();
        self.members.insert(uid, Row { changed, card })?;
        self.number = changed;
        self.counts = counts;
        self.remembered_bound = bound_after(self.remembered_bound, is_removal, self.members.len());
        Ok(())
    }

    /// Applies the change to an existing row under the next number, drops no tombstone, and returns
    /// the card that the row had. It overwrites the row, so it allocates nothing and can't fail.
    fn overwrite(&mut self, uid: &str, change: Change) -> Option<Card>
        requires { self.old.number < 2 ^ 63 }
        ensures written { IsSome (finite.get self.old.members uid.now) →
            self.new ≡ book_with_row self.old uid.now change }
        ensures card { result ≡ card_at self.old uid.now }
    {
        let changed = self.number + 1;
        let mut counts = self.counts;
        counts.add(&change);
        let card = match change {
            Change::Stores(card, _) => Some(card),
            Change::TakesAway(_) => None,
        };
        let is_removal = card.is_none();
        let Row { card, .. } = self.members.replace(uid, Row { changed, card })?;
        self.number = changed;
        self.counts = counts;
        self.remembered_bound = bound_after(self.remembered_bound, is_removal, self.members.len());
        card
    }

    /// Removes the card of the UID from its row and returns it, then drops the oldest tombstone if
    /// there are more than the book keeps. Allocates nothing and can't fail. Call it only for a UID
    /// with a row: without one the result is `None`, and nothing is said of the book.
    pub fn remove_card(&mut self, alloc: Global, uid: &str, why: RemovalReason) -> Option<Card>
        requires { self.old.number < 2 ^ 63 }
        ensures written { IsSome (finite.get self.old.members uid.now) →
            self.new ≡ book_after_change self.old uid.now (TakesAway why) }
        ensures card { result ≡ card_at self.old uid.now }
    {
        let card = self.overwrite(uid, Change::TakesAway(why));
        self.drop_oldest_removal(alloc);
        card
    }

    /// Drops the oldest tombstone if the book has more than it keeps. Reads no row while the bound
    /// is at most `keep`; otherwise reads all rows once to count, and twice more to drop. Allocates
    /// nothing.
    fn drop_oldest_removal(&mut self, alloc: Global)
        ensures { (why : RemovalReason) →
            self.new ≡ book_after_drop self.old (forced_horizon (TakesAway why) self.old) }
    {
        if self.remembered_bound <= self.keep {
            return;
        }
        self.remembered_bound = count_removed(self.members.as_map(), self.horizon);
        if self.remembered_bound <= self.keep {
            return;
        }
        if let Some(upto) = oldest_removal(self.members.as_map(), self.horizon) {
            self.forget(alloc, upto);
        }
    }

    /// Sets the horizon, drops the tombstones up to it, and returns how many there were. Reads all
    /// rows once and allocates nothing.
    pub fn forget(&mut self, alloc: Global, upto: u64) -> u64
        ensures dropped { result ≡ dropped_row_count self.old.members upto }
        ensures book { self.new ≡ book_after_forget self.old upto }
    {
        let members = mem::replace(&mut self.members, TextMap::new(alloc));
        let mut rows = members.into_map();
        let dropped = drop_rows(&mut rows, upto);
        self.members = TextMap::from_map(rows);
        self.horizon = upto;
        self.remembered_bound = self.members.len() as u64;
        dropped
    }

    /// Inserts an empty row for the UID if there is none, so that a later change of it can't fail.
    /// On `Err` the book is unchanged.
    fn reserve_row(&mut self, uid: String) -> Result<(), NoMemory>
        ensures row { OnOk result (IsSome (finite.get self.new.members (string_bytes uid))) }
        ensures number { self.new.number ≡ self.old.number }
        ensures change { (change : Change) → book_with_row self.new (string_bytes uid) change
            ≡ book_with_row self.old (string_bytes uid) change }
        ensures err { OnErr result (self.new ≡ self.old) }
    {
        if self.members.get(uid.as_str()).is_some() {
            return Ok(());
        }
        let empty = Row {
            changed: 0,
            card: None,
        };
        self.members.insert(uid, empty)?;
        Ok(())
    }
}

/// Moves the live card of the UID from one book to the other without copying it. `key` is the same
/// UID, owned by the target book afterwards. Whatever can fail is done first: on `Err` both books
/// are unchanged.
pub fn move_between(
    alloc: Global,
    source: &mut PlainBook,
    target: &mut PlainBook,
    uid: &str,
    key: String,
) -> Result<(), NoMemory>
    requires live { IsSome (live_at source.old uid.now) }
    requires from_room { source.old.number < 2 ^ 63 }
    requires to_room { target.old.number < 2 ^ 63 }
    requires key { string_bytes key ≡ uid.now }
    ensures source { OnOk result
        (source.new ≡ book_after_change source.old uid.now (TakesAway MoveOut)) }
    ensures target { OnOk result (IfSome (live_at source.old uid.now) (λ stored.
        target.new ≡ book_after_change target.old uid.now (Stores stored.card MoveIn))) }
    ensures source_unchanged { OnErr result (source.new ≡ source.old) }
    ensures target_unchanged { OnErr result (target.new ≡ target.old) }
{
    target.reserve_row(key)?;
    if let Some(card) = source.remove_card(alloc, uid, RemovalReason::MoveOut) {
        target.overwrite(uid, Change::Stores(card, StoreReason::MoveIn));
    }
    Ok(())
}
