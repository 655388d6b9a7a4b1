//! Writes a removal, and deletes the tombstones that its book forgets by it.
ghost use Rattle.book_model.specs.BookChanges.{book_after_drop, book_with_row};
ghost use Rattle.book_model.specs.Counting.{counts_after_change};
ghost use Rattle.book_model.specs.Forgetting.{book_after_forget};
ghost use Rattle.book_model.specs.declared.change.Change.TheVariants.{TakesAway};
ghost use Rattle.book_model.specs.declared.change.RemovalReason.TheVariants.{Deletion};
ghost use Rattle.store_lookups.specs.Faults.{IsDeniedFault};
ghost use Rattle.store_rows.specs.TableBooks.{HeaderRow, numbers_row};
ghost use Rattle.store_removals.specs.internal.Removals.{GivenRemoval};
ghost use Rattle.store_tables.specs.Books.{numbers_of};
ghost use Rattle.store_lookups.specs.OnConnections.{ChangeFaultsFromOutsideInBook};
ghost use Rattle.store_lookups.specs.StoreFaults.{FailsOnlyForMemory};
ghost use Rattle.store_rows.specs.TableRows.{TableRows};
ghost use Rattle.store_rows.specs.Values.{IsLegalUid};
ghost use Rattle.store_tables.specs.OnConnections.{
  CountsFaults,
  FailsFromOutside,
  SurvivesAsBefore,
  WriteFailsFromOutside,
};
ghost use Rattle.store_writes.specs.OnConnections.{
  AcceptsMemberOf,
  ChangesBookInTx,
  CommitsBook,
  CommitsBookOnce,
  KeepsCommitWithBook,
};
ghost use Rattle.std.specs.Prelude.{◌≡◌, ◌+◌, ◌<◌, ◌^◌, IfErr, IfOk, IfSome, List, Option, Some};
ghost use Rattle.std.specs.Prelude.{None, false, pos, ℕ};

use book_model::{Change, Denied, RemovalReason};
use sqlite::{Alter, Connection, Error, Transaction};
use store_lookups::{BookHeader, column_of, fault_of};
use store_tables::books::{BookNumbers, renumber_book};
use store_tables::members::{forget_members, put_member};
use store_tables::settled::assert_no_pending_writes;
use store_writes::columns::columns_of;
use store_writes::putting::commit_member;

/// Removes the member of the book `id` that has the UID, deletes the book's tombstones up to the
/// number `upto`, and updates the book's numbers.
pub(crate) fn write_removal_with_drop<S: Alter>(
    tx: &mut Transaction<'_, S>,
    id: i64,
    uid: &str,
    changed: i64,
    upto: i64,
    numbers: BookNumbers,
) -> Result<(), Error>
    ensures same_reference { tx.new.conn.ghost_name ≡ tx.old.conn.ghost_name }
    ensures books_after { GivenRemoval id uid.now changed upto numbers
        (λ header why last. ChangesBookInTx S.Store tx.old.conn.now tx.new.conn.now header result
        (λ book. book_after_forget (book_with_row book uid.now (TakesAway why)) last)) }
    ensures keeps_commit { (header : HeaderRow) → id ≡ pos header.id
        → KeepsCommitWithBook S.Store tx.old.conn.now tx.new.conn.now header }
    ensures survives { SurvivesAsBefore S.Store tx.old.conn.now tx.new.conn.now }
    ensures fails_from_outside { (rows : TableRows) (name : List ℕ) (header : HeaderRow)
        → id ≡ pos header.id
        → AcceptsMemberOf S.Store tx.old.conn.now rows name header uid.now changed None
        → WriteFailsFromOutside S.Store tx.old.conn.now tx.new.conn.now result }
{
    put_member(tx, id, uid, changed, None)?;
    forget_members(tx, id, upto)?;
    renumber_book(tx, id, numbers)?;
    Ok(())
}

/// Removes the member and deletes the tombstones in one transaction.
fn commit_removal_with_drop<S: Alter>(
    conn: &mut Connection<S>,
    id: i64,
    uid: &str,
    changed: i64,
    upto: i64,
    numbers: BookNumbers,
) -> Result<(), Error>
    requires { conn.old.in_transaction ≡ false }
    ensures atomic { GivenRemoval id uid.now changed upto numbers
        (λ header why last. CommitsBook S.Store conn.old conn.new header result
        (λ book. book_after_forget (book_with_row book uid.now (TakesAway why)) last)) }
    ensures settled { conn.new.in_transaction ≡ false }
    ensures survives { CountsFaults S.Store conn.old conn.new }
    ensures crash { GivenRemoval id uid.now changed upto numbers
        (λ header why last. CommitsBookOnce S.Store conn.old conn.new header
        (λ book. book_after_forget (book_with_row book uid.now (TakesAway why)) last)) }
    ensures fails_from_outside { GivenRemoval id uid.now changed upto numbers
        (λ header _ _. (rows : TableRows) (name : List ℕ)
        → AcceptsMemberOf S.Store conn.old rows name header uid.now changed None
        → FailsFromOutside S.Store conn.old conn.new result) }
{
    assert_no_pending_writes(conn);

    // The proof needs the tables to obey their constraints, which this call ensures.
    let _tables = conn.schema();
    let mut tx = conn.transaction();
    write_removal_with_drop(&mut tx, id, uid, changed, upto, numbers)?;
    tx.commit()?;
    Ok(())
}

/// The column values of the book's numbers after a deletion, with this horizon.
fn columns_after_deletion(header: BookHeader, horizon: u64) -> Result<BookNumbers, Denied>
    requires { header.number < 2 ^ 63 }
    ensures numbers { IfOk result (λ columns. numbers_of columns ≡ numbers_row
        (header.number + 1) horizon (counts_after_change (TakesAway Deletion) header.counts)) }
    ensures fault { IfErr result IsDeniedFault }
    ensures memory { header.number + 1 < 2 ^ 63 → horizon < 2 ^ 63 → FailsOnlyForMemory result }
{
    let mut counts = header.counts();
    counts.add(&Change::TakesAway(RemovalReason::Deletion));
    columns_of(header.number() + 1, horizon, counts)
}

/// Deletes the member by the next change of the book, whose horizon stays.
fn write_deletion<S: Alter>(
    conn: &mut Connection<S>,
    header: BookHeader,
    uid: &str,
) -> Result<(), Denied>
    requires settled { conn.old.in_transaction ≡ false }
    requires room { header.number < 2 ^ 63 }
    ensures atomic { IsLegalUid uid.now → CommitsBook S.Store conn.old conn.new header result
        (λ book. book_with_row book uid.now (TakesAway Deletion)) }
    ensures fault { IfErr result IsDeniedFault }
    ensures store_fault { header.number + 1 < 2 ^ 63 → IsLegalUid uid.now
        → ChangeFaultsFromOutsideInBook S.Store conn.old conn.new header result }
    ensures settled { conn.new.in_transaction ≡ false }
    ensures survives { CountsFaults S.Store conn.old conn.new }
    ensures crash { IsLegalUid uid.now → CommitsBookOnce S.Store conn.old conn.new header
        (λ book. book_with_row book uid.now (TakesAway Deletion)) }
{
    assert_no_pending_writes(conn);
    let numbers = columns_after_deletion(header, header.horizon())?;
    let id = column_of(header.id())?;
    let changed = column_of(header.number() + 1)?;
    commit_member(conn, id, uid, changed, None, numbers).map_err(|error| fault_of(error))
}

/// Deletes the member by the next change of the book, and forgets its tombstones up to the number.
fn write_drop<S: Alter>(
    conn: &mut Connection<S>,
    header: BookHeader,
    uid: &str,
    upto: u64,
) -> Result<(), Denied>
    requires settled { conn.old.in_transaction ≡ false }
    requires room { header.number < 2 ^ 63 }
    ensures atomic { IsLegalUid uid.now → CommitsBook S.Store conn.old conn.new header result
        (λ book. book_after_forget (book_with_row book uid.now (TakesAway Deletion)) upto) }
    ensures fault { IfErr result IsDeniedFault }
    ensures store_fault { header.number + 1 < 2 ^ 63 → upto < 2 ^ 63 → IsLegalUid uid.now
        → ChangeFaultsFromOutsideInBook S.Store conn.old conn.new header result }
    ensures settled { conn.new.in_transaction ≡ false }
    ensures survives { CountsFaults S.Store conn.old conn.new }
    ensures crash { IsLegalUid uid.now → CommitsBookOnce S.Store conn.old conn.new header
        (λ book. book_after_forget (book_with_row book uid.now (TakesAway Deletion)) upto) }
{
    assert_no_pending_writes(conn);
    let numbers = columns_after_deletion(header, upto)?;
    let id = column_of(header.id())?;
    let changed = column_of(header.number() + 1)?;
    let last = column_of(upto)?;
    commit_removal_with_drop(conn, id, uid, changed, last, numbers).map_err(|error| fault_of(error))
}

/// Deletes the member by the next change of the book, and forgets its tombstones up to `drop`, if
/// it is some.
pub(crate) fn write_remove<S: Alter>(
    conn: &mut Connection<S>,
    header: BookHeader,
    uid: &str,
    drop: Option<u64>,
) -> Result<(), Denied>
    requires settled { conn.old.in_transaction ≡ false }
    requires room { header.number < 2 ^ 63 }
    ensures atomic { IsLegalUid uid.now → CommitsBook S.Store conn.old conn.new header result
        (λ book. book_after_drop (book_with_row book uid.now (TakesAway Deletion)) drop) }
    ensures fault { IfErr result IsDeniedFault }
    ensures store_fault { header.number + 1 < 2 ^ 63 → IfSome drop (λ upto. upto < 2 ^ 63)
        → IsLegalUid uid.now
        → ChangeFaultsFromOutsideInBook S.Store conn.old conn.new header result }
    ensures settled { conn.new.in_transaction ≡ false }
    ensures survives { CountsFaults S.Store conn.old conn.new }
    ensures crash { IsLegalUid uid.now → CommitsBookOnce S.Store conn.old conn.new header
        (λ book. book_after_drop (book_with_row book uid.now (TakesAway Deletion)) drop) }
{
    match drop {
        None => write_deletion(conn, header, uid),
        Some(upto) => write_drop(conn, header, uid, upto),
    }
}
