//! Writes one member of a book together with the book's numbers.
ghost use Rattle.store_tables.specs.Tables.{member_tree};
ghost use Rattle.book_model.specs.BookChanges.{book_with_row};
ghost use Rattle.book_model.specs.Counting.{counts_after_change};
ghost use Rattle.book_model.specs.declared.change.Change.TheVariants.{Stores};
ghost use Rattle.store_lookups.specs.Faults.{IsDeniedFault};
ghost use Rattle.store_rows.specs.TableBooks.{HeaderRow, numbers_row};
ghost use Rattle.store_rows.specs.TableRows.{TableRows};
ghost use Rattle.store_lookups.specs.OnConnections.{ChangeFaultsFromOutsideInBook};
ghost use Rattle.store_lookups.specs.StoreFaults.{FailsOnlyForMemory};
ghost use Rattle.store_writes.specs.TableChanges.{GivenChange};
ghost use Rattle.store_tables.specs.Books.{numbers_of};
ghost use Rattle.store_tables.specs.OnConnections.{
  CountsFaults,
  FailsFromOutside,
  ObeyTables,
  SurvivesAsBefore,
  WriteFailsFromOutside,
  table_rows,
};
ghost use Rattle.store_tables.specs.Acceptance.{HasFreeIds};
ghost use Rattle.store_writes.specs.OnConnections.{
  AcceptsMemberOf,
  ChangesBookInTx,
  CommitsBook,
  CommitsBookOnce,
  InTxWithBook,
  KeepsCommitWithBook,
};
ghost use Rattle.std.specs.Prelude.{◌≡◌, ◌+◌, ◌<◌, ◌^◌, IfErr, IfOk, List, OnOk, false, ℕ};
ghost use Rattle.std.specs.Prelude.{option_copied, pos};
ghost use Rattle.vcard_text.specs.Cards.{uid_of};

use crate::columns::{columns_of, text_of_card};
use book_model::{Change, Denied, StoreReason};
use sqlite::{Alter, Connection, Error, Transaction};
use std::alloc::Global;
use store_lookups::{BookHeader, column_of, fault_of};
use store_tables::books::{BookNumbers, renumber_book};
use store_tables::members::update_or_put;
use store_tables::settled::assert_no_pending_writes;
use vcard_text::Card;

/// Writes the member of the book `id` that has the UID, and updates the book's numbers. Without a
/// card it is a removed member. After an error some of it may be written, so the caller rolls the
/// transaction back.
///
/// Each statement sets the connection's `changes` and `last_insert_rowid`, as SQLite does: an
/// UPDATE that finds no row sets `changes` to 0. No clause states them, and no crate reads them.
pub fn write_member<S: Alter>(
    tx: &mut Transaction<'_, S>,
    id: i64,
    uid: &str,
    changed: i64,
    card: Option<&str>,
    numbers: BookNumbers,
) -> Result<(), Error>
    ensures same_reference { tx.new.conn.ghost_name ≡ tx.old.conn.ghost_name }
    ensures books_after { GivenChange id uid.now changed (option_copied card.entry) numbers
        (λ header change. ChangesBookInTx S.Store tx.old.conn.now tx.new.conn.now header result
        (λ book. book_with_row book uid.now change)) }
    ensures obeys { (header : HeaderRow) → id ≡ pos header.id
        → InTxWithBook S.Store tx.old.conn.now tx.new.conn.now header
        (λ _ _. OnOk result (ObeyTables S.Store tx.new.conn.now)) }
    ensures takes_one_id { (header : HeaderRow) → id ≡ pos header.id
        → InTxWithBook S.Store tx.old.conn.now tx.new.conn.now header
        (λ _ _. (count : ℕ)
        → HasFreeIds (count + 1) (table_rows S.Store tx.old.conn.now member_tree)
        → OnOk result (HasFreeIds count (table_rows S.Store tx.new.conn.now member_tree))) }
    ensures keeps_commit { (header : HeaderRow) → id ≡ pos header.id
        → KeepsCommitWithBook S.Store tx.old.conn.now tx.new.conn.now header }
    ensures survives { SurvivesAsBefore S.Store tx.old.conn.now tx.new.conn.now }
    ensures fails_from_outside { (rows : TableRows) (name : List ℕ) (header : HeaderRow)
        → id ≡ pos header.id
        → AcceptsMemberOf S.Store tx.old.conn.now rows name header uid.now changed
        (option_copied card.entry)
        → WriteFailsFromOutside S.Store tx.old.conn.now tx.new.conn.now result }
{
    update_or_put(tx, id, uid, changed, card)?;
    renumber_book(tx, id, numbers)?;
    Ok(())
}

/// Writes the row of the member and the numbers of the book in one transaction. `changed` is the
/// book's next number, and `card` the canonical text; `None` makes a tombstone. On an error, and
/// after a crash, both are written or neither.
pub fn commit_member<S: Alter>(
    conn: &mut Connection<S>,
    id: i64,
    uid: &str,
    changed: i64,
    card: Option<&str>,
    numbers: BookNumbers,
) -> Result<(), Error>
    requires { conn.old.in_transaction ≡ false }
    ensures atomic { GivenChange id uid.now changed (option_copied card.entry) numbers
        (λ header change. CommitsBook S.Store conn.old conn.new header result
        (λ book. book_with_row book uid.now change)) }
    ensures settled { conn.new.in_transaction ≡ false }
    ensures survives { CountsFaults S.Store conn.old conn.new }
    ensures crash { GivenChange id uid.now changed (option_copied card.entry) numbers
        (λ header change. CommitsBookOnce S.Store conn.old conn.new header
        (λ book. book_with_row book uid.now change)) }
    ensures fails_from_outside { GivenChange id uid.now changed (option_copied card.entry) numbers
        (λ header _. (rows : TableRows) (name : List ℕ)
        → AcceptsMemberOf S.Store conn.old rows name header uid.now changed
        (option_copied card.entry)
        → FailsFromOutside S.Store conn.old conn.new result) }
{
    assert_no_pending_writes(conn);

    // The proof needs the tables to obey their constraints, which this call ensures.
    let _tables = conn.schema();
    let mut tx = conn.transaction();
    write_member(&mut tx, id, uid, changed, card, numbers)?;
    tx.commit()?;
    Ok(())
}

/// The column values of the book's numbers after the change: the number is one more, and so is the
/// count of the change's reason. Fails with `Store` if one of them is 2^63 or more, which no stored
/// number is.
pub fn columns_after(header: BookHeader, change: &Change) -> Result<BookNumbers, Denied>
    requires { header.number < 2 ^ 63 }
    ensures numbers { IfOk result (λ columns. numbers_of columns
        ≡ numbers_row (header.number + 1) header.horizon
        (counts_after_change change.now header.counts)) }
    ensures fault { IfErr result IsDeniedFault }
    ensures memory { header.number + 1 < 2 ^ 63 → FailsOnlyForMemory result }
{
    let mut counts = header.counts();
    counts.add(change);
    columns_of(header.number() + 1, header.horizon(), counts)
}

/// Writes the card as the next change of the book.
pub(crate) fn write_put<S: Alter>(
    alloc: Global,
    conn: &mut Connection<S>,
    header: BookHeader,
    card: &Card,
    why: StoreReason,
) -> Result<(), Denied>
    requires settled { conn.old.in_transaction ≡ false }
    requires room { header.number < 2 ^ 63 }
    ensures atomic { CommitsBook S.Store conn.old conn.new header result
        (λ book. book_with_row book (uid_of card.now) (Stores card.now why)) }
    ensures fault { IfErr result IsDeniedFault }
    ensures store_fault { header.number + 1 < 2 ^ 63
        → ChangeFaultsFromOutsideInBook S.Store conn.old conn.new header result }
    ensures settled { conn.new.in_transaction ≡ false }
    ensures survives { CountsFaults S.Store conn.old conn.new }
    ensures crash { CommitsBookOnce S.Store conn.old conn.new header
        (λ book. book_with_row book (uid_of card.now) (Stores card.now why)) }
{
    assert_no_pending_writes(conn);

    // The proof needs the rules of a card, which this call ensures.
    let _lines = card.lines();
    let text = text_of_card(alloc, card)?;
    let change = Change::Stores(card.try_copy()?, why);
    let numbers = columns_after(header, &change)?;
    let id = column_of(header.id())?;
    let changed = column_of(header.number() + 1)?;
    commit_member(conn, id, card.uid(), changed, Some(text.as_str()), numbers).map_err(
        |error| fault_of(error),
    )
}
