//! Writes a move: the member is removed from one book and stored in another.
ghost use Rattle.store_tables.specs.Tables.{member_tree};
ghost use Rattle.book_model.specs.BookChanges.{book_after_drop, book_with_row};
ghost use Rattle.book_model.specs.Counting.{counts_after_change};
ghost use Rattle.book_model.specs.Forgetting.{book_after_forget};
ghost use Rattle.book_model.specs.declared.change.Change.TheVariants.{Stores, TakesAway};
ghost use Rattle.book_model.specs.declared.change.RemovalReason.TheVariants.{MoveOut};
ghost use Rattle.book_model.specs.declared.change.StoreReason.TheVariants.{MoveIn};
ghost use Rattle.store_lookups.specs.Faults.{IsDeniedFault};
ghost use Rattle.store_lookups.specs.StoreFaults.{FailsOnlyForMemory};
ghost use Rattle.store_rows.specs.TableBooks.{numbers_row};
ghost use Rattle.store_rows.specs.Values.{IsLegalUid, IsTextOf};
ghost use Rattle.store_writes.specs.TableChanges.{HoldsBooks};
ghost use Rattle.store_tables.specs.Books.{numbers_of};
ghost use Rattle.store_removals.specs.internal.Moves.{table_books_after_move};
ghost use Rattle.store_removals.specs.internal.OnConnections.{
  CommitsMove,
  CommitsMoveOnce,
  InTxWithBothBooks,
  MoveFaultsFromOutside,
  MoveFaultsFromOutsideTx,
  NextMemberFaultsFromOutside,
};
ghost use Rattle.store_tables.specs.Acceptance.{HasFreeIds, IsShort};
ghost use Rattle.store_tables.specs.OnConnections.{
  CountsFaults,
  HoldsInTx,
  KeepsCommit,
  ObeyTables,
  SurvivesAsBefore,
  table_rows,
};
ghost use Rattle.store_writes.specs.OnConnections.{
  ChangesBookInTx,
  InTxWithBook,
  KeepsCommitWithBook,
};
ghost use Rattle.std.specs.Prelude.{◌≡◌, ◌+◌, ◌<◌, ◌^◌, IfErr, IfOk, IfSome, None, OnOk};
ghost use Rattle.std.specs.Prelude.{Some, false, ℕ};

use crate::removing::write_removal_with_drop;
use book_model::{Change, Denied, RemovalReason, StoreReason};
use sqlite::{Alter, Connection, Transaction};
use std::alloc::Global;
use store_lookups::{BookHeader, column_of, fault_of};
use store_tables::books::BookNumbers;
use store_tables::settled::assert_no_pending_writes;
use store_writes::columns::{columns_of, text_of_card};
use store_writes::putting::{columns_after, write_member};
use vcard_text::Card;

/// Stores the card, whose text is given, as the next change of the target book.
fn add_to_target<S: Alter>(
    tx: &mut Transaction<'_, S>,
    header: BookHeader,
    uid: &str,
    card: &Card,
    text: &str,
) -> Result<(), Denied>
    requires { header.number < 2 ^ 63 }
    ensures same_reference { tx.new.conn.ghost_name ≡ tx.old.conn.ghost_name }
    ensures books_after { IsLegalUid uid.now → IsTextOf text.now card.now
        → ChangesBookInTx S.Store tx.old.conn.now tx.new.conn.now header result
        (λ book. book_with_row book uid.now (Stores card.now MoveIn)) }
    ensures obeys { InTxWithBook S.Store tx.old.conn.now tx.new.conn.now header
        (λ _ _. OnOk result (ObeyTables S.Store tx.new.conn.now)) }
    ensures takes_one_id { InTxWithBook S.Store tx.old.conn.now tx.new.conn.now header
        (λ _ _. (count : ℕ)
        → HasFreeIds (count + 1) (table_rows S.Store tx.old.conn.now member_tree)
        → OnOk result (HasFreeIds count (table_rows S.Store tx.new.conn.now member_tree))) }
    ensures store_fault { header.number + 1 < 2 ^ 63 → NextMemberFaultsFromOutside S.Store
        tx.old.conn.now tx.new.conn.now header uid.now (Some text.now) result }
    ensures keeps_commit { KeepsCommitWithBook S.Store tx.old.conn.now tx.new.conn.now header }
    ensures survives { SurvivesAsBefore S.Store tx.old.conn.now tx.new.conn.now }
    ensures fault { IfErr result IsDeniedFault }
{
    let change = Change::Stores(card.try_copy()?, StoreReason::MoveIn);
    let numbers = columns_after(header, &change)?;
    let id = column_of(header.id())?;
    let changed = column_of(header.number() + 1)?;
    match write_member(tx, id, uid, changed, Some(text), numbers) {
        Ok(()) => Ok(()),
        Err(error) => Err(fault_of(error)),
    }
}

/// The column values of the book's numbers after a card moved out of it, with this horizon.
fn columns_after_leaving(header: BookHeader, horizon: u64) -> Result<BookNumbers, Denied>
    requires { header.number < 2 ^ 63 }
    ensures numbers { IfOk result (λ columns. numbers_of columns ≡ numbers_row
        (header.number + 1) horizon (counts_after_change (TakesAway MoveOut) header.counts)) }
    ensures fault { IfErr result IsDeniedFault }
    ensures memory { header.number + 1 < 2 ^ 63 → horizon < 2 ^ 63 → FailsOnlyForMemory result }
{
    let mut counts = header.counts();
    counts.add(&Change::TakesAway(RemovalReason::MoveOut));
    columns_of(header.number() + 1, horizon, counts)
}

/// Removes the member by the next change of the source book, whose horizon stays.
fn remove_keeping_horizon<S: Alter>(
    tx: &mut Transaction<'_, S>,
    header: BookHeader,
    uid: &str,
) -> Result<(), Denied>
    requires { header.number < 2 ^ 63 }
    ensures same_reference { tx.new.conn.ghost_name ≡ tx.old.conn.ghost_name }
    ensures books_after { IsLegalUid uid.now
        → ChangesBookInTx S.Store tx.old.conn.now tx.new.conn.now header result
        (λ book. book_with_row book uid.now (TakesAway MoveOut)) }
    ensures store_fault { header.number + 1 < 2 ^ 63 → NextMemberFaultsFromOutside S.Store
        tx.old.conn.now tx.new.conn.now header uid.now None result }
    ensures keeps_commit { KeepsCommitWithBook S.Store tx.old.conn.now tx.new.conn.now header }
    ensures survives { SurvivesAsBefore S.Store tx.old.conn.now tx.new.conn.now }
    ensures fault { IfErr result IsDeniedFault }
{
    let numbers = columns_after_leaving(header, header.horizon())?;
    let id = column_of(header.id())?;
    let changed = column_of(header.number() + 1)?;
    match write_member(tx, id, uid, changed, None, numbers) {
        Ok(()) => Ok(()),
        Err(error) => Err(fault_of(error)),
    }
}

/// Removes the member by the next change of the source book, and forgets its tombstones up to the
/// number.
fn remove_raising_horizon<S: Alter>(
    tx: &mut Transaction<'_, S>,
    header: BookHeader,
    uid: &str,
    upto: u64,
) -> Result<(), Denied>
    requires { header.number < 2 ^ 63 }
    ensures same_reference { tx.new.conn.ghost_name ≡ tx.old.conn.ghost_name }
    ensures books_after { IsLegalUid uid.now
        → ChangesBookInTx S.Store tx.old.conn.now tx.new.conn.now header result
        (λ book. book_after_forget (book_with_row book uid.now (TakesAway MoveOut)) upto) }
    ensures store_fault { header.number + 1 < 2 ^ 63 → upto < 2 ^ 63
        → NextMemberFaultsFromOutside S.Store
        tx.old.conn.now tx.new.conn.now header uid.now None result }
    ensures keeps_commit { KeepsCommitWithBook S.Store tx.old.conn.now tx.new.conn.now header }
    ensures survives { SurvivesAsBefore S.Store tx.old.conn.now tx.new.conn.now }
    ensures fault { IfErr result IsDeniedFault }
{
    let numbers = columns_after_leaving(header, upto)?;
    let id = column_of(header.id())?;
    let changed = column_of(header.number() + 1)?;
    let last = column_of(upto)?;
    match write_removal_with_drop(tx, id, uid, changed, last, numbers) {
        Ok(()) => Ok(()),
        Err(error) => Err(fault_of(error)),
    }
}

/// Removes the member by the next change of the source book, and forgets its tombstones up to
/// `drop`, if it is some.
fn remove_from_source<S: Alter>(
    tx: &mut Transaction<'_, S>,
    header: BookHeader,
    uid: &str,
    drop: Option<u64>,
) -> Result<(), Denied>
    requires { header.number < 2 ^ 63 }
    ensures same_reference { tx.new.conn.ghost_name ≡ tx.old.conn.ghost_name }
    ensures books_after { IsLegalUid uid.now
        → ChangesBookInTx S.Store tx.old.conn.now tx.new.conn.now header result
        (λ book. book_after_drop (book_with_row book uid.now (TakesAway MoveOut)) drop) }
    ensures store_fault { header.number + 1 < 2 ^ 63 → IfSome drop (λ upto. upto < 2 ^ 63)
        → NextMemberFaultsFromOutside S.Store
        tx.old.conn.now tx.new.conn.now header uid.now None result }
    ensures keeps_commit { KeepsCommitWithBook S.Store tx.old.conn.now tx.new.conn.now header }
    ensures survives { SurvivesAsBefore S.Store tx.old.conn.now tx.new.conn.now }
    ensures fault { IfErr result IsDeniedFault }
{
    match drop {
        None => remove_keeping_horizon(tx, header, uid),
        Some(upto) => remove_raising_horizon(tx, header, uid, upto),
    }
}

/// Writes the move of the card, whose text is given, as the next change of each book.
fn move_rows<S: Alter>(
    tx: &mut Transaction<'_, S>,
    source: BookHeader,
    target: BookHeader,
    uid: &str,
    card: &Card,
    text: &str,
    drop: Option<u64>,
) -> Result<(), Denied>
    requires from { source.number < 2 ^ 63 }
    requires to { target.number < 2 ^ 63 }
    ensures same_reference { tx.new.conn.ghost_name ≡ tx.old.conn.ghost_name }
    ensures books_after { InTxWithBothBooks S.Store tx.old.conn.now tx.new.conn.now source target
        (λ rows from to. IsLegalUid uid.now → IsTextOf text.now card.now
        → OnOk result (HoldsInTx S.Store tx.new.conn.now
        (λ db. HoldsBooks db
        (table_books_after_move rows from source to target uid.now card.now drop)))) }
    ensures keeps_commit { InTxWithBothBooks S.Store tx.old.conn.now tx.new.conn.now source target
        (λ rows from to. IsLegalUid uid.now → IsTextOf text.now card.now
        → KeepsCommit S.Store tx.old.conn.now tx.new.conn.now) }
    ensures survives { SurvivesAsBefore S.Store tx.old.conn.now tx.new.conn.now }
    ensures fault { IfErr result IsDeniedFault }
    ensures store_fault { source.number + 1 < 2 ^ 63 → target.number + 1 < 2 ^ 63
        → IfSome drop (λ upto. upto < 2 ^ 63) → IsLegalUid uid.now → IsShort text.now
        → IsTextOf text.now card.now
        → MoveFaultsFromOutsideTx S.Store tx.old.conn.now tx.new.conn.now source target result }
{
    add_to_target(tx, target, uid, card, text)?;
    remove_from_source(tx, source, uid, drop)
}

/// Writes the move in one transaction.
fn commit_move<S: Alter>(
    conn: &mut Connection<S>,
    source: BookHeader,
    target: BookHeader,
    uid: &str,
    card: &Card,
    text: &str,
    drop: Option<u64>,
) -> Result<(), Denied>
    requires settled { conn.old.in_transaction ≡ false }
    requires from { source.number < 2 ^ 63 }
    requires to { target.number < 2 ^ 63 }
    ensures atomic { IsLegalUid uid.now → IsTextOf text.now card.now
        → CommitsMove S.Store conn.old conn.new source target result uid.now card.now drop }
    ensures fault { IfErr result IsDeniedFault }
    ensures store_fault { source.number + 1 < 2 ^ 63 → target.number + 1 < 2 ^ 63
        → IfSome drop (λ upto. upto < 2 ^ 63) → IsLegalUid uid.now → IsShort text.now
        → IsTextOf text.now card.now
        → MoveFaultsFromOutside S.Store conn.old conn.new source target result }
    ensures settled { conn.new.in_transaction ≡ false }
    ensures survives { CountsFaults S.Store conn.old conn.new }
    ensures crash { IsLegalUid uid.now → IsTextOf text.now card.now
        → CommitsMoveOnce S.Store conn.old conn.new source target uid.now card.now drop }
{
    assert_no_pending_writes(conn);

    // The proof needs the tables to obey their constraints, which this call ensures.
    let _tables = conn.schema();
    let mut tx = conn.transaction();
    move_rows(&mut tx, source, target, uid, card, text, drop)?;
    match tx.commit() {
        Ok(()) => Ok(()),
        Err(error) => Err(fault_of(error)),
    }
}

/// Writes the move of the card as the next change of each book.
pub(crate) fn write_move<S: Alter>(
    alloc: Global,
    conn: &mut Connection<S>,
    source: BookHeader,
    target: BookHeader,
    uid: &str,
    card: &Card,
    drop: Option<u64>,
) -> Result<(), Denied>
    requires settled { conn.old.in_transaction ≡ false }
    requires from { source.number < 2 ^ 63 }
    requires to { target.number < 2 ^ 63 }
    ensures atomic { IsLegalUid uid.now
        → CommitsMove S.Store conn.old conn.new source target result uid.now card.now drop }
    ensures fault { IfErr result IsDeniedFault }
    ensures store_fault { source.number + 1 < 2 ^ 63 → target.number + 1 < 2 ^ 63
        → IfSome drop (λ upto. upto < 2 ^ 63) → IsLegalUid uid.now
        → MoveFaultsFromOutside S.Store conn.old conn.new source target result }
    ensures settled { conn.new.in_transaction ≡ false }
    ensures survives { CountsFaults S.Store conn.old conn.new }
    ensures crash { IsLegalUid uid.now
        → CommitsMoveOnce S.Store conn.old conn.new source target uid.now card.now drop }
{
    assert_no_pending_writes(conn);

    // The proof needs the rules of a card, which this call ensures.
    let _lines = card.lines();
    let text = text_of_card(alloc, card)?;
    commit_move(conn, source, target, uid, card, text.as_str(), drop)
}
