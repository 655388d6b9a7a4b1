//! Imports cards into a book: all of them in one transaction, or none.
ghost use Rattle.book_model.specs.ImportLaws.{HaveDistinctUids};
ghost use Rattle.book_model.specs.Importing.{import_step, book_with_kept_import};
ghost use Rattle.book_model.specs.declared.answers.ImportTally.{ImportTally};
ghost use Rattle.book_model.specs.declared.change.Change.TheVariants.{Stores};
ghost use Rattle.store_lookups.specs.Faults.{IsDeniedFault};
ghost use Rattle.store_rows.specs.ChangeLaws.{header_after};
ghost use Rattle.store_rows.specs.TableBooks.{row_book, books_of, line_row};
ghost use Rattle.store_rows.specs.TableRows.{TableRows};
ghost use Rattle.store_writes.specs.TableChanges.{HoldsBooks, TreesHold};
ghost use Rattle.store_inserts.specs.internal.Importing.{HasColumnTally, IsImportKeyFree};
ghost use Rattle.store_inserts.specs.internal.Importing.{book_with_pair, planned_pair};
ghost use Rattle.store_inserts.specs.internal.Importing.{book_with_import, book_with_stored};
ghost use Rattle.store_inserts.specs.internal.Importing as internals;
ghost use Rattle.store_inserts.specs.internal.OnConnections.{
  AcceptsCards,
  AcceptsImportOf,
  AcceptsKey,
  InWrittenBookTx,
  KeepsCommitInWrittenBook,
  ObeysInWrittenBook,
  TakesIds,
  WritesBook,
};
ghost use Rattle.book_model.specs.Books.{Book};
ghost use Rattle.store_lookups.specs.OnConnections.{
  ChangeFaultsFromOutside,
  HasOutsideCauseOfFault,
  KeepsCounts,
  WriteFaultsFromOutside,
};
ghost use Rattle.store_tables.specs.Acceptance.{IsShort};
ghost use Rattle.store_tables.specs.OnConnections.{
  CountsFaults,
  HasCleanDisk,
  HoldsInTx,
  KeepsCommit,
  Survives,
  SurvivesAsBefore,
};
ghost use Rattle.store_tables.specs.Writes.{PutsMemberInSteps};
ghost use Rattle.store_writes.specs.OnConnections.{
  AppliesStep,
  CommitsOnce,
  GivenBookRow,
  HasBookRow,
  InTxWithBook,
  IsAtomic,
  with_book_after,
};
ghost use Rattle.std.specs.FinMap as finite;
ghost use Rattle.std.specs.Prelude.{◌≡◌, ◌+◌, ◌<◌, ◌^◌, IfErr, IfOk, List, OnErr, OnOk, false};
ghost use Rattle.std.specs.Prelude.{length, option_copied, ℕ};

use crate::import_plan::{ImportDecision, PlannedCard, plan_import};
use book_model::{Denied, ImportTally, Limits, StoreReason, TombstoneCounts};
use sqlite::{Alter, Connection, Error, Transaction};
use std::alloc::Global;
use store_lookups::{BookHeader, column_of, fault_of};
use store_tables::books::renumber_book;
use store_tables::imports::insert_import;
use store_tables::members::{put_with_hint, update_or_put};
use store_tables::settled::assert_no_pending_writes;
use store_writes::columns::{columns_of, text_of_card};
use store_writes::counting::count_replaced;
use vcard_text::Card;

/// Puts the member as [`update_or_put`] does. If it is likely new, an INSERT is tried first.
fn put_planned<S: Alter>(
    tx: &mut Transaction<'_, S>,
    book: i64,
    uid: &str,
    changed: i64,
    card: Option<&str>,
    likely_new: bool,
) -> Result<(), Error>
    ensures { PutsMemberInSteps S.Store tx.old tx.new book uid.now changed
        (option_copied card.entry) result }
{
    if !likely_new {
        return update_or_put(tx, book, uid, changed, card);
    }
    match put_with_hint(tx, book, uid, changed, card, likely_new) {
        Ok(_) => Ok(()),
        Err(error) => Err(error),
    }
}

/// Writes the card as the next change of the book and returns the header after it. The book's own
/// row is written later, by `write_book_row`.
fn write_next_card<S: Alter>(
    alloc: Global,
    tx: &mut Transaction<'_, S>,
    header: BookHeader,
    stored: PlannedCard,
) -> Result<BookHeader, Denied>
    requires { header.number + 1 < 2 ^ 63 }
    ensures same_reference { tx.new.conn.ghost_name ≡ tx.old.conn.ghost_name }
    ensures book_after { InWrittenBookTx S.Store tx.old.conn.now tx.new.conn.now header
        (λ rows name book. IfOk result
        (λ next. HoldsInTx S.Store tx.new.conn.now
        (λ db. internals.WritesBook db rows name next
        (book_with_pair book (planned_pair stored.entry))))) }
    ensures next_header { IfOk result (λ next.
        next ≡ header_after (Stores stored.entry.card.now stored.entry.why) header) }
    ensures obeys { ObeysInWrittenBook S.Store tx.old.conn.now tx.new.conn.now header result }
    ensures takes_ids { TakesIds S.Store tx.old.conn.now tx.new.conn.now header 1 result }
    ensures store_fault { (rows : TableRows) (name : List ℕ) (book : Book)
        → AcceptsCards S.Store tx.old.conn.now rows name header book 1
        → WriteFaultsFromOutside S.Store tx.old.conn.now tx.new.conn.now result }
    ensures keeps_commit { KeepsCommitInWrittenBook S.Store tx.old.conn.now tx.new.conn.now header }
    ensures fault { IfErr result IsDeniedFault }
    ensures survives { SurvivesAsBefore S.Store tx.old.conn.now tx.new.conn.now }
{
    // The proof needs the rules of a card, which this call ensures.
    let _lines = stored.card.lines();
    let text = text_of_card(alloc, stored.card)?;
    let id = column_of(header.id())?;
    let changed = column_of(header.number() + 1)?;
    let likely_new = stored.why == StoreReason::Import && !stored.over_tombstone;
    match put_planned(
        tx,
        id,
        stored.card.uid(),
        changed,
        Some(text.as_str()),
        likely_new,
    ) {
        Ok(()) => Ok(header.after_storing(stored.why)),
        Err(error) => Err(fault_of(error)),
    }
}

/// Writes the cards in order, each as the next change of the book, and returns the header after
/// them. The book's own row is written later, by `write_book_row`.
fn write_next_cards<S: Alter>(
    alloc: Global,
    tx: &mut Transaction<'_, S>,
    header: BookHeader,
    stored: &[PlannedCard],
) -> Result<BookHeader, Denied>
    requires { header.number + length stored.now < 2 ^ 63 }
    ensures same_reference { tx.new.conn.ghost_name ≡ tx.old.conn.ghost_name }
    ensures book_after { InWrittenBookTx S.Store tx.old.conn.now tx.new.conn.now header
        (λ rows name book. IfOk result
        (λ next. HoldsInTx S.Store tx.new.conn.now
        (λ db. internals.WritesBook db rows name next (book_with_stored book stored.now)))) }
    ensures same_id { IfOk result (λ next. next.id ≡ header.id) }
    ensures next_number { IfOk result (λ next.
        next.number ≡ header.number + length stored.now) }
    ensures obeys { ObeysInWrittenBook S.Store tx.old.conn.now tx.new.conn.now header result }
    ensures takes_ids { TakesIds S.Store tx.old.conn.now tx.new.conn.now header (length stored.now)
        result }
    ensures store_fault { (rows : TableRows) (name : List ℕ) (book : Book)
        → AcceptsCards S.Store tx.old.conn.now rows name header book (length stored.now)
        → WriteFaultsFromOutside S.Store tx.old.conn.now tx.new.conn.now result }
    ensures keeps_commit { KeepsCommitInWrittenBook S.Store tx.old.conn.now tx.new.conn.now header }
    ensures fault { IfErr result IsDeniedFault }
    ensures survives { SurvivesAsBefore S.Store tx.old.conn.now tx.new.conn.now }
{
    let mut so_far = header;
    for card in stored {
        so_far = write_next_card(alloc, tx, so_far, *card)?;
    }
    Ok(so_far)
}

/// Inserts the answer under the key. The book's own row is written later, by `write_book_row`.
fn insert_kept_import<S: Alter>(
    tx: &mut Transaction<'_, S>,
    header: BookHeader,
    key: &str,
    tally: ImportTally,
) -> Result<(), Denied>
    ensures same_reference { tx.new.conn.ghost_name ≡ tx.old.conn.ghost_name }
    ensures book_after { InWrittenBookTx S.Store tx.old.conn.now tx.new.conn.now header
        (λ rows name book. IsImportKeyFree book key.now
        → OnOk result (HoldsInTx S.Store tx.new.conn.now
        (λ db. internals.WritesBook db rows name header
        (book_with_kept_import book key.now tally)))) }
    ensures obeys { ObeysInWrittenBook S.Store tx.old.conn.now tx.new.conn.now header result }
    ensures store_fault { tally.added < 2 ^ 63 → tally.edited < 2 ^ 63 → tally.same < 2 ^ 63
        → tally.number < 2 ^ 63 → (rows : TableRows) (name : List ℕ) (book : Book)
        → AcceptsKey S.Store tx.old.conn.now rows name header book key.now
        → WriteFaultsFromOutside S.Store tx.old.conn.now tx.new.conn.now result }
    ensures keeps_commit { KeepsCommitInWrittenBook S.Store tx.old.conn.now tx.new.conn.now header }
    ensures fault { IfErr result IsDeniedFault }
    ensures survives { SurvivesAsBefore S.Store tx.old.conn.now tx.new.conn.now }
{
    let id = column_of(header.id())?;
    let added = column_of(tally.added)?;
    let edited = column_of(tally.edited)?;
    let same = column_of(tally.same)?;
    let number = column_of(tally.number)?;
    match insert_import(tx, id, key, added, edited, same, number) {
        Ok(_) => Ok(()),
        Err(error) => Err(fault_of(error)),
    }
}

/// Writes the header into the book's own row.
fn write_book_row<S: Alter>(tx: &mut Transaction<'_, S>, header: BookHeader) -> Result<(), Denied>
    ensures same_reference { tx.new.conn.ghost_name ≡ tx.old.conn.ghost_name }
    ensures books_after { InWrittenBookTx S.Store tx.old.conn.now tx.new.conn.now header
        (λ rows name book. OnOk result (HoldsInTx S.Store tx.new.conn.now
        (λ db. HoldsBooks db (finite.insert (books_of rows) name book)))) }
    ensures store_fault { header.id < 2 ^ 63 → header.number < 2 ^ 63
        → (rows : TableRows) (name : List ℕ) (book : Book)
        → WritesBook S.Store tx.old.conn.now rows name header book → IsShort name
        → WriteFaultsFromOutside S.Store tx.old.conn.now tx.new.conn.now result }
    ensures keeps_commit { KeepsCommitInWrittenBook S.Store tx.old.conn.now tx.new.conn.now header }
    ensures fault { IfErr result IsDeniedFault }
    ensures survives { SurvivesAsBefore S.Store tx.old.conn.now tx.new.conn.now }
{
    let id = column_of(header.id())?;
    let numbers = columns_of(header.number(), header.horizon(), header.counts())?;
    match renumber_book(tx, id, numbers) {
        Ok(_) => Ok(()),
        Err(error) => Err(fault_of(error)),
    }
}

/// Writes the cards, the kept answer and the book's own row.
fn import_rows<S: Alter>(
    alloc: Global,
    tx: &mut Transaction<'_, S>,
    header: BookHeader,
    key: &str,
    stored: &[PlannedCard],
    tally: ImportTally,
) -> Result<(), Denied>
    requires { header.number + length stored.now < 2 ^ 63 }
    ensures same_reference { tx.new.conn.ghost_name ≡ tx.old.conn.ghost_name }
    ensures books_after { InTxWithBook S.Store tx.old.conn.now tx.new.conn.now header
        (λ rows name. IsImportKeyFree (row_book rows (line_row name header)) key.now
        → OnOk result (HoldsInTx S.Store tx.new.conn.now
        (λ db. HoldsBooks db (with_book_after rows name header
        (λ book. book_with_import book stored.now key.now tally))))) }
    ensures keeps_commit { InTxWithBook S.Store tx.old.conn.now tx.new.conn.now header
        (λ rows name. IsImportKeyFree (row_book rows (line_row name header)) key.now
        → KeepsCommit S.Store tx.old.conn.now tx.new.conn.now) }
    ensures fault { IfErr result IsDeniedFault }
    ensures store_fault { HasColumnTally tally → length stored.now < 2 ^ 62
        → (rows : TableRows) (name : List ℕ) → AcceptsImportOf S.Store tx.old.conn.now rows name
        header key.now
        → WriteFaultsFromOutside S.Store tx.old.conn.now tx.new.conn.now result }
    ensures survives { SurvivesAsBefore S.Store tx.old.conn.now tx.new.conn.now }
{
    let after = write_next_cards(alloc, tx, header, stored)?;
    insert_kept_import(tx, after, key, tally)?;
    write_book_row(tx, after)
}

/// Writes the import in one transaction.
fn commit_import<S: Alter>(
    alloc: Global,
    conn: &mut Connection<S>,
    header: BookHeader,
    key: &str,
    stored: &[PlannedCard],
    tally: ImportTally,
) -> Result<(), Denied>
    requires settled { conn.old.in_transaction ≡ false }
    requires room { header.number + length stored.now < 2 ^ 63 }
    ensures atomic { GivenBookRow S.Store conn.old conn.new header
        (λ rows name. IsImportKeyFree (row_book rows (line_row name header)) key.now
        → IsAtomic S.Store conn.old conn.new result
        (λ _ db. HoldsBooks db (with_book_after rows name header
        (λ book. book_with_import book stored.now key.now tally)))) }
    ensures fault { IfErr result IsDeniedFault }
    ensures store_fault { HasColumnTally tally → length stored.now < 2 ^ 62
        → (rows : TableRows) (name : List ℕ) → HasCleanDisk S.Store conn.new
        → AcceptsImportOf S.Store conn.old rows name header key.now
        → HasOutsideCauseOfFault S.Store conn.old conn.new result }
    ensures settled { conn.new.in_transaction ≡ false }
    ensures survives { CountsFaults S.Store conn.old conn.new }
    ensures crash { (rows : TableRows) (name : List ℕ)
        → HasBookRow S.Store conn.old rows name header
        → IsImportKeyFree (row_book rows (line_row name header)) key.now
        → Survives S.Store conn.old conn.new (TreesHold (with_book_after rows name header
        (λ book. book_with_import book stored.now key.now tally))) }
{
    assert_no_pending_writes(conn);

    // The proof needs the tables to obey their constraints, which this call ensures.
    let _tables = conn.schema();
    let mut tx = conn.transaction();
    import_rows(alloc, &mut tx, header, key, stored, tally)?;
    match tx.commit() {
        Ok(()) => Ok(()),
        Err(error) => Err(fault_of(error)),
    }
}

/// Imports the cards, which have distinct UIDs, into the named book, and keeps the answer under the
/// key. If the book already keeps an answer under the key, returns that one and changes nothing.
/// The connection must be outside a transaction. `counts` are the numbers of tombstones that the
/// store keeps of its books; each card that takes the place of a tombstone lowers its book's.
///
/// Refused, in this order, with `NoSuchBook`; `BadKey`; and if no answer is kept under the key,
/// `BookFull`; `ChangesSpent`.
pub fn import_in_book<S: Alter>(
    alloc: Global,
    conn: &mut Connection<S>,
    counts: &mut TombstoneCounts,
    limits: Limits,
    name: &str,
    key: &str,
    cards: &[Card],
) -> Result<ImportTally, Denied>
    requires settled { conn.old.in_transaction ≡ false }
    requires distinct { HaveDistinctUids cards.now }
    ensures changes { AppliesStep S.Store conn.old conn.new result
        (λ books. import_step limits books name.now key.now cards.now) }
    ensures counts { KeepsCounts S.Store conn.old conn.new counts.old counts.new }
    ensures same_counts_on_err { OnErr result (counts.new ≡ counts.old) }
    ensures store_fault { ChangeFaultsFromOutside S.Store conn.old conn.new result }
    ensures crash { CommitsOnce S.Store conn.old conn.new
        (λ books. import_step limits books name.now key.now cards.now) }
{
    assert_no_pending_writes(conn);
    let (header, order) = plan_import(alloc, conn, limits, name, key, cards)?;
    let (plan, tally) = match order {
        ImportDecision::Kept(tally) => return Ok(tally),
        ImportDecision::New(plan, tally) => (plan, tally),
    };
    commit_import(alloc, conn, header, key, plan.stored.as_slice(), tally)?;
    count_replaced(counts, name, plan.replaced);
    Ok(tally)
}
