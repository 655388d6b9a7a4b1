//! Forgetting: deletes the tombstones of a book up to a number.
ghost use Rattle.book_model.specs.Forgetting.{book_after_forget, dropped_row_count, forget_step};
ghost use Rattle.store_lookups.specs.Faults.{IsDeniedFault};
ghost use Rattle.store_rows.specs.TableBooks.{HeaderRow, row_book, line_row};
ghost use Rattle.store_rows.specs.TableRows.{TableRows};
ghost use Rattle.store_writes.specs.TableChanges.{AreHeaderColumns, GivenForget, HoldsBooks};
ghost use Rattle.store_tables.specs.OnConnections.{
  CountsFaults,
  FailsFromOutside,
  HoldsInTx,
  SurvivesAsBefore,
  WriteFailsFromOutside,
};
ghost use Rattle.store_lookups.specs.OnConnections.{
  ChangeFaultsFromOutside,
  ChangeFaultsFromOutsideInBook,
  KeepsCounts,
};
ghost use Rattle.store_writes.specs.OnConnections.{
  AcceptsHeader,
  AppliesStep,
  CommitsBookOnce,
  CommitsForget,
  CommitsOnce,
  InBookTx,
  KeepsCommitWithBook,
  with_book_after,
};
ghost use Rattle.std.specs.Prelude.{◌≡◌, ◌≤◌, IfErr, IfOk, List, OnErr, OnOk, false, pos, ℕ};

use crate::columns::columns_of;
use crate::counting::count_forgotten;
use crate::lookups::open_header;
use book_model::decisions::may_forget;
use book_model::{Denied, Refusal, TombstoneCounts};
use sqlite::{Alter, Connection, Error, Transaction};
use store_lookups::{BookHeader, column_of, fault_of};
use store_tables::books::{BookNumbers, renumber_book};
use store_tables::members::forget_members;
use store_tables::settled::assert_no_pending_writes;

/// Deletes the tombstones of the book `id` up to the number, and updates the book's numbers.
/// Returns how many were deleted.
fn forget_rows<S: Alter>(
    tx: &mut Transaction<'_, S>,
    id: i64,
    upto: i64,
    numbers: BookNumbers,
) -> Result<usize, Error>
    ensures same_reference { tx.new.conn.ghost_name ≡ tx.old.conn.ghost_name }
    ensures books_after { InBookTx S.Store tx.old.conn.now tx.new.conn.now
        (λ rows name header. (last : ℕ) → upto ≡ pos last
        → AreHeaderColumns (record header { horizon = last }) id numbers
        → OnOk result (HoldsInTx S.Store tx.new.conn.now
        (λ db. HoldsBooks db (with_book_after rows name header
        (λ book. book_after_forget book last))))) }
    ensures dropped { InBookTx S.Store tx.old.conn.now tx.new.conn.now
        (λ rows name header. (last : ℕ) → upto ≡ pos last
        → AreHeaderColumns (record header { horizon = last }) id numbers
        → IfOk result
        (λ count. count ≡ dropped_row_count (row_book rows (line_row name header)).members last)) }
    ensures keeps_commit { (header : HeaderRow) → id ≡ pos header.id
        → KeepsCommitWithBook S.Store tx.old.conn.now tx.new.conn.now header }
    ensures survives { SurvivesAsBefore S.Store tx.old.conn.now tx.new.conn.now }
    ensures fails_from_outside { (rows : TableRows) (name : List ℕ) (header : HeaderRow)
        → id ≡ pos header.id → AcceptsHeader S.Store tx.old.conn.now rows name header
        → WriteFailsFromOutside S.Store tx.old.conn.now tx.new.conn.now result }
{
    let dropped = forget_members(tx, id, upto)?;
    renumber_book(tx, id, numbers)?;
    Ok(dropped)
}

/// Deletes the tombstones in one transaction.
fn commit_forget<S: Alter>(
    conn: &mut Connection<S>,
    id: i64,
    upto: i64,
    numbers: BookNumbers,
) -> Result<usize, Error>
    requires { conn.old.in_transaction ≡ false }
    ensures atomic { GivenForget id upto numbers
        (λ header last. CommitsForget S.Store conn.old conn.new header result last) }
    ensures settled { conn.new.in_transaction ≡ false }
    ensures survives { CountsFaults S.Store conn.old conn.new }
    ensures crash { GivenForget id upto numbers
        (λ header last. CommitsBookOnce S.Store conn.old conn.new header
        (λ book. book_after_forget book last)) }
    ensures fails_from_outside { GivenForget id upto numbers
        (λ header _. (rows : TableRows) (name : List ℕ)
        → AcceptsHeader S.Store conn.old rows name header
        → FailsFromOutside S.Store conn.old conn.new result) }
{
    assert_no_pending_writes(conn);

    // The proof needs the tables to obey their constraints, which this call ensures.
    let _tables = conn.schema();
    let mut tx = conn.transaction();
    let dropped = forget_rows(&mut tx, id, upto, numbers)?;
    tx.commit()?;
    Ok(dropped)
}

/// Deletes the book's tombstones up to the number and makes that number its horizon. Returns how
/// many were deleted.
fn write_forget<S: Alter>(
    conn: &mut Connection<S>,
    header: BookHeader,
    upto: u64,
) -> Result<u64, Denied>
    requires { conn.old.in_transaction ≡ false }
    ensures atomic { CommitsForget S.Store conn.old conn.new header result upto }
    ensures fault { IfErr result IsDeniedFault }
    ensures store_fault { upto ≤ header.number
        → ChangeFaultsFromOutsideInBook S.Store conn.old conn.new header result }
    ensures settled { conn.new.in_transaction ≡ false }
    ensures survives { CountsFaults S.Store conn.old conn.new }
    ensures crash { CommitsBookOnce S.Store conn.old conn.new header
        (λ book. book_after_forget book upto) }
{
    assert_no_pending_writes(conn);
    let id = column_of(header.id())?;
    let last = column_of(upto)?;
    let numbers = columns_of(header.number(), upto, header.counts())?;
    match commit_forget(conn, id, last, numbers) {
        Ok(dropped) => Ok(dropped as u64),
        Err(error) => Err(fault_of(error)),
    }
}

/// Raises the horizon of the named book to the number, deletes the tombstones up to it, and returns
/// how many there were. The connection must be outside a transaction. `counts` are the numbers of
/// tombstones that the store keeps of its books; the book's is removed if tombstones were deleted.
///
/// Refused, in this order, with `NoSuchBook`; `BadForget` if the number is below the book's horizon
/// or above its number.
pub fn forget_in_book<S: Alter>(
    conn: &mut Connection<S>,
    counts: &mut TombstoneCounts,
    name: &str,
    upto: u64,
) -> Result<u64, Denied>
    requires { conn.old.in_transaction ≡ false }
    ensures changes { AppliesStep S.Store conn.old conn.new result
        (λ books. forget_step books name.now upto) }
    ensures counts { KeepsCounts S.Store conn.old conn.new counts.old counts.new }
    ensures same_counts_on_err { OnErr result (counts.new ≡ counts.old) }
    ensures store_fault { ChangeFaultsFromOutside S.Store conn.old conn.new result }
    ensures crash { CommitsOnce S.Store conn.old conn.new
        (λ books. forget_step books name.now upto) }
{
    assert_no_pending_writes(conn);
    let header = open_header(conn, name)?;
    if !may_forget(header.horizon(), header.number(), upto) {
        return Err(Denied::Refused(Refusal::BadForget));
    }
    let dropped = write_forget(conn, header, upto)?;
    count_forgotten(counts, name, dropped);
    Ok(dropped)
}
