//! Look-ups by key: the book with a name, and its member with a UID, its import with a key, its
//! keep and its number of remembered removals. Each reads one row, or counts rows, and writes
//! nothing. A malformed row is `Store`; an error of the database is `Memory` if it is out of
//! memory, otherwise `Store`.
ghost use Rattle.book_model.specs.Books.{live_at};
ghost use Rattle.book_model.specs.BookQueries.{tombstone_count};
ghost use Rattle.store_lookups.specs.CallResults.{FindsHeader};
ghost use Rattle.store_lookups.specs.Faults.{IsDeniedFault};
ghost use Rattle.store_lookups.specs.MemberStates.{member_state};
ghost use Rattle.store_lookups.specs.OnConnections.{
  ChangeFaultsFromOutsideInBook,
  FaultsFromOutside,
  FaultsFromOutsideInBook,
  GivenBook,
  GivenSoundRows,
};
ghost use Rattle.store_tables.specs.OnConnections.{OnlyReads, UnchangedOnOk};
ghost use Rattle.std.specs.FinMap as finite;
ghost use Rattle.std.specs.Prelude.{◌≡◌, IfErr, IfOk};

use crate::columns::number_in;
use crate::faults::{column_of, fault_of};
use crate::header::{BookHeader, header_in};
use crate::member_states::MemberState;
use crate::row_values::{exact_count, live_in, member_state_in, tally_in};
use book_model::{Denied, ImportTally, Refusal, Stored};
use sqlite::{Alter, Connection, Error};
use std::alloc::Global;
use store_tables::books::find_book;
use store_tables::imports::find_import;
use store_tables::keeps::find_keep;
use store_tables::members::{count_removed, find_member};

/// Returns the header of the book with this name. Refused with `NoSuchBook` if there is none; fails
/// with `Store` if its row is malformed.
pub fn find_header<S: Alter>(conn: &mut Connection<S>, name: &str) -> Result<BookHeader, Denied>
    ensures finds { GivenSoundRows S.Store conn.old conn.new
        (λ rows. FindsHeader rows name.now result) }
    ensures store_fault { FaultsFromOutside S.Store conn.old conn.new result }
    ensures unchanged { UnchangedOnOk S.Store conn.old conn.new result }
    ensures reads_only { OnlyReads S.Store conn.old conn.new }
{
    let row = match find_book(conn, name) {
        Ok(row) => row,
        Err(Error::QueryReturnedNoRows) => return Err(Denied::Refused(Refusal::NoSuchBook)),
        Err(error) => return Err(fault_of(error)),
    };
    header_in(&row)
}

/// Returns the live card of the UID in the book with this header; `None` if it was removed or never
/// existed. Fails with `Store` if its row is malformed.
pub fn find_live<S: Alter>(
    alloc: Global,
    conn: &mut Connection<S>,
    header: BookHeader,
    uid: &str,
) -> Result<Option<Stored>, Denied>
    ensures live { GivenBook S.Store conn.old conn.new header
        (λ book. IfOk result (λ live. live_at book uid.now ≡ live)) }
    ensures fault { IfErr result IsDeniedFault }
    ensures store_fault { FaultsFromOutsideInBook S.Store conn.old conn.new header result }
    ensures unchanged { UnchangedOnOk S.Store conn.old conn.new result }
    ensures reads_only { OnlyReads S.Store conn.old conn.new }
{
    let id = column_of(header.id())?;
    match find_member(conn, id, uid) {
        Ok(row) => live_in(alloc, &row),
        Err(Error::QueryReturnedNoRows) => Ok(None),
        Err(error) => Err(fault_of(error)),
    }
}

/// Returns what the book with this header has under the UID: a live card, a tombstone, or neither.
/// Fails with `Store` if its row is malformed.
pub fn find_member_state<S: Alter>(
    alloc: Global,
    conn: &mut Connection<S>,
    header: BookHeader,
    uid: &str,
) -> Result<MemberState, Denied>
    ensures state { GivenBook S.Store conn.old conn.new header
        (λ book. IfOk result (λ state. member_state book uid.now ≡ state)) }
    ensures fault { IfErr result IsDeniedFault }
    ensures store_fault { FaultsFromOutsideInBook S.Store conn.old conn.new header result }
    ensures unchanged { UnchangedOnOk S.Store conn.old conn.new result }
    ensures reads_only { OnlyReads S.Store conn.old conn.new }
{
    let id = column_of(header.id())?;
    match find_member(conn, id, uid) {
        Ok(row) => member_state_in(alloc, &row, header.horizon()),
        Err(Error::QueryReturnedNoRows) => Ok(MemberState::Missing),
        Err(error) => Err(fault_of(error)),
    }
}

/// Returns the stored result of the import with this key in the book with this header; `None` if
/// there is none. Fails with `Store` if its row is malformed.
pub fn find_import_tally<S: Alter>(
    conn: &mut Connection<S>,
    header: BookHeader,
    key: &str,
) -> Result<Option<ImportTally>, Denied>
    ensures tally { GivenBook S.Store conn.old conn.new header
        (λ book. IfOk result (λ kept. finite.get book.imports key.now ≡ kept)) }
    ensures fault { IfErr result IsDeniedFault }
    ensures store_fault { FaultsFromOutsideInBook S.Store conn.old conn.new header result }
    ensures unchanged { UnchangedOnOk S.Store conn.old conn.new result }
    ensures reads_only { OnlyReads S.Store conn.old conn.new }
{
    let id = column_of(header.id())?;
    let row = match find_import(conn, id, key) {
        Ok(row) => row,
        Err(Error::QueryReturnedNoRows) => return Ok(None),
        Err(error) => return Err(fault_of(error)),
    };
    let tally = tally_in(&row)?;
    Ok(Some(tally))
}

/// Returns the keep of the book with this header: how many removed members it remembers at most.
/// Fails with `Store` if its row is missing or malformed.
pub fn fetch_keep<S: Alter>(conn: &mut Connection<S>, header: BookHeader) -> Result<u64, Denied>
    ensures keep { GivenBook S.Store conn.old conn.new header
        (λ book. IfOk result (λ keep. book.keep ≡ keep)) }
    ensures fault { IfErr result IsDeniedFault }
    ensures store_fault { ChangeFaultsFromOutsideInBook S.Store conn.old conn.new header result }
    ensures unchanged { UnchangedOnOk S.Store conn.old conn.new result }
    ensures reads_only { OnlyReads S.Store conn.old conn.new }
{
    let id = column_of(header.id())?;
    match find_keep(conn, id) {
        Ok(row) => number_in(&row, 0),
        Err(error) => Err(fault_of(error)),
    }
}

/// Returns how many removed members the book with this header remembers: those above its horizon,
/// counted by the query. Fails with `Store` if there are 2^63 - 1 or more.
pub fn count_removals<S: Alter>(conn: &mut Connection<S>, header: BookHeader) -> Result<u64, Denied>
    ensures remembered { GivenBook S.Store conn.old conn.new header
        (λ book. IfOk result (λ count. tombstone_count book ≡ count)) }
    ensures fault { IfErr result IsDeniedFault }
    ensures store_fault { FaultsFromOutsideInBook S.Store conn.old conn.new header result }
    ensures unchanged { UnchangedOnOk S.Store conn.old conn.new result }
    ensures reads_only { OnlyReads S.Store conn.old conn.new }
{
    let id = column_of(header.id())?;
    let horizon = column_of(header.horizon())?;
    match count_removed(conn, id, horizon) {
        Ok(count) => exact_count(count),
        Err(error) => Err(fault_of(error)),
    }
}
