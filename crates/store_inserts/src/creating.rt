//! Creates an empty book.
ghost use Rattle.book_model.specs.Books.{fresh_book};
ghost use Rattle.book_model.specs.Creating.{create_step};
ghost use Rattle.store_lookups.specs.Faults.{IsDeniedFault};
ghost use Rattle.store_rows.specs.TableBooks.{books_of};
ghost use Rattle.store_inserts.specs.internal.Creating.{
  AreNameAndCount,
  GivenNewBook,
  IsCreationPlanned,
  IsNameFound,
};
ghost use Rattle.store_lookups.specs.OnConnections.{
  ChangeFaultsFromOutside,
  FaultsFromOutside,
  GivenSoundRows,
};
ghost use Rattle.store_rows.specs.TableRows.{TableRows};
ghost use Rattle.store_tables.specs.OnConnections.{
  CountsFaults,
  FailsFromOutside,
  KeepsCommit,
  OnlyReads,
  SurvivesAsBefore,
  UnchangedOnOk,
  WasOpenOnOk,
  WriteFailsFromOutside,
};
ghost use Rattle.store_writes.specs.OnConnections.{AppliesStep, CommitsOnce};
ghost use Rattle.store_inserts.specs.internal.OnConnections.{
  AcceptsNewBook,
  AddsNewBookInTx,
  CommitsNewBook,
  CommitsNewBookOnce,
  CreationFaultsFromOutside,
  InTxWithoutBook,
};
ghost use Rattle.std.specs.FinMap as finite;
ghost use Rattle.std.specs.Prelude.{◌≡◌, ◌<◌, ◌^◌, IfErr, IfOk, false};

use book_model::decisions::id_of_new_book;
use book_model::{Denied, Limits};
use sqlite::{Alter, Connection, Error, Transaction};
use store_lookups::{column_of, exact_count, fault_of};
use store_tables::books::{count_books, find_book, insert_book};
use store_tables::keeps::insert_keep;
use store_tables::settled::assert_no_pending_writes;
use store_writes::lookups::check_open;

/// Inserts the row of the empty book and the row of its keep.
fn insert_book_rows<S: Alter>(
    tx: &mut Transaction<'_, S>,
    id: i64,
    name: &str,
    keep: i64,
) -> Result<(), Error>
    ensures same_reference { tx.new.conn.ghost_name ≡ tx.old.conn.ghost_name }
    ensures books_after { GivenNewBook id keep
        (λ book most. AddsNewBookInTx S.Store tx.old.conn.now tx.new.conn.now name.now result
        (fresh_book book most)) }
    ensures keeps_commit { InTxWithoutBook S.Store tx.old.conn.now tx.new.conn.now name.now
        (λ rows. KeepsCommit S.Store tx.old.conn.now tx.new.conn.now) }
    ensures survives { SurvivesAsBefore S.Store tx.old.conn.now tx.new.conn.now }
    ensures fails_from_outside { (rows : TableRows)
        → AcceptsNewBook S.Store tx.old.conn.now rows id name.now
        → WriteFailsFromOutside S.Store tx.old.conn.now tx.new.conn.now result }
{
    insert_book(tx, id, name)?;
    insert_keep(tx, id, keep)?;
    Ok(())
}

/// Creates the book in one transaction.
fn commit_create<S: Alter>(
    conn: &mut Connection<S>,
    id: i64,
    name: &str,
    keep: i64,
) -> Result<(), Error>
    requires { conn.old.in_transaction ≡ false }
    ensures atomic { GivenNewBook id keep
        (λ book most. CommitsNewBook S.Store conn.old conn.new name.now result
        (fresh_book book most)) }
    ensures settled { conn.new.in_transaction ≡ false }
    ensures survives { CountsFaults S.Store conn.old conn.new }
    ensures crash { GivenNewBook id keep
        (λ book most. CommitsNewBookOnce S.Store conn.old conn.new name.now
        (fresh_book book most)) }
    ensures fails_from_outside { GivenNewBook id keep
        (λ _ _. (rows : TableRows) → AcceptsNewBook S.Store conn.old rows id name.now
        → FailsFromOutside S.Store conn.old conn.new result) }
{
    assert_no_pending_writes(conn);

    // The proof needs the tables to obey their constraints, which this call ensures.
    let _tables = conn.schema();
    let mut tx = conn.transaction();
    insert_book_rows(&mut tx, id, name, keep)?;
    tx.commit()?;
    Ok(())
}

/// Writes the empty book, which keeps at most `keep` tombstones.
fn write_create<S: Alter>(
    conn: &mut Connection<S>,
    id: u64,
    name: &str,
    keep: u64,
) -> Result<(), Denied>
    requires { conn.old.in_transaction ≡ false }
    ensures atomic { CommitsNewBook S.Store conn.old conn.new name.now result (fresh_book id keep) }
    ensures fault { IfErr result IsDeniedFault }
    ensures store_fault { id < 2 ^ 63 → keep < 2 ^ 63
        → CreationFaultsFromOutside S.Store conn.old conn.new id name.now result }
    ensures settled { conn.new.in_transaction ≡ false }
    ensures survives { CountsFaults S.Store conn.old conn.new }
    ensures crash { CommitsNewBookOnce S.Store conn.old conn.new name.now (fresh_book id keep) }
{
    assert_no_pending_writes(conn);
    let book = column_of(id)?;
    let most = column_of(keep)?;
    match commit_create(conn, book, name, most) {
        Ok(()) => Ok(()),
        Err(error) => Err(fault_of(error)),
    }
}

/// Whether a book has the name. The contents of its row are not decoded.
fn has_book<S: Alter>(conn: &mut Connection<S>, name: &str) -> Result<bool, Denied>
    ensures found { GivenSoundRows S.Store conn.old conn.new
        (λ rows. IfOk result (IsNameFound rows name.now)) }
    ensures fault { IfErr result IsDeniedFault }
    ensures store_fault { FaultsFromOutside S.Store conn.old conn.new result }
    ensures unchanged { UnchangedOnOk S.Store conn.old conn.new result }
    ensures reads_only { OnlyReads S.Store conn.old conn.new }
{
    let _row = match find_book(conn, name) {
        Ok(row) => row,
        Err(Error::QueryReturnedNoRows) => return Ok(false),
        Err(error) => return Err(fault_of(error)),
    };
    Ok(true)
}

/// The number of books. Fails with `Store` if it is 2^63 - 1 or more.
fn number_of_books<S: Alter>(conn: &mut Connection<S>) -> Result<u64, Denied>
    ensures counted { GivenSoundRows S.Store conn.old conn.new
        (λ rows. IfOk result (λ count. finite.len (books_of rows) ≡ count)) }
    ensures fault { IfErr result IsDeniedFault }
    ensures store_fault { ChangeFaultsFromOutside S.Store conn.old conn.new result }
    ensures unchanged { UnchangedOnOk S.Store conn.old conn.new result }
    ensures reads_only { OnlyReads S.Store conn.old conn.new }
{
    match count_books(conn) {
        Ok(count) => exact_count(count),
        Err(error) => Err(fault_of(error)),
    }
}

/// Whether a book has the name, and the number of books.
fn name_and_count<S: Alter>(conn: &mut Connection<S>, name: &str) -> Result<(bool, u64), Denied>
    ensures found { GivenSoundRows S.Store conn.old conn.new
        (λ rows. IfOk result (AreNameAndCount rows name.now)) }
    ensures fault { IfErr result IsDeniedFault }
    ensures store_fault { ChangeFaultsFromOutside S.Store conn.old conn.new result }
    ensures unchanged { UnchangedOnOk S.Store conn.old conn.new result }
    ensures reads_only { OnlyReads S.Store conn.old conn.new }
{
    let has_name_already = has_book(conn, name)?;
    let books = number_of_books(conn)?;
    Ok((has_name_already, books))
}

/// The id that a new book with this name gets.
fn plan_create<S: Alter>(
    conn: &mut Connection<S>,
    limits: Limits,
    name: &str,
) -> Result<u64, Denied>
    ensures planned { GivenSoundRows S.Store conn.old conn.new
        (λ rows. IsCreationPlanned limits rows name.now result) }
    ensures id_fits { IfOk result (λ id. id < 2 ^ 63) }
    ensures store_fault { ChangeFaultsFromOutside S.Store conn.old conn.new result }
    ensures unchanged { UnchangedOnOk S.Store conn.old conn.new result }
    ensures was_open { WasOpenOnOk S.Store conn.old conn.new result }
    ensures reads_only { OnlyReads S.Store conn.old conn.new }
{
    // The proof needs the greatest limit of books, which this call ensures.
    let _most = limits.books_max();
    check_open(conn)?;
    let (has_name_already, books) = name_and_count(conn, name)?;
    let id = id_of_new_book(limits, name, has_name_already, books)?;
    Ok(id)
}

/// Creates an empty book with this name, which keeps at most `limits.keep()` tombstones, and
/// returns its id. The connection must be outside a transaction.
///
/// Refused, in this order, with `BadBookName`; `BookExists`; `TooManyBooks`.
pub fn create_in_tables<S: Alter>(
    conn: &mut Connection<S>,
    limits: Limits,
    name: &str,
) -> Result<u64, Denied>
    requires { conn.old.in_transaction ≡ false }
    ensures changes { AppliesStep S.Store conn.old conn.new result
        (λ books. create_step limits books name.now) }
    ensures store_fault { ChangeFaultsFromOutside S.Store conn.old conn.new result }
    ensures crash { CommitsOnce S.Store conn.old conn.new
        (λ books. create_step limits books name.now) }
{
    assert_no_pending_writes(conn);
    let id = plan_create(conn, limits, name)?;
    write_create(conn, id, name, limits.keep())?;
    Ok(id)
}
