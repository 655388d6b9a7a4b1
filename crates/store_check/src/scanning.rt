//! Reads the members one at a time, and tests each.
ghost use Rattle.store_tables.specs.Tables.{member_tree};
ghost use Rattle.store_check.specs.MemberScans.{DoesTake, Scans, is_above};
ghost use Rattle.store_check.specs.RowChecks.{int_cell};
ghost use Rattle.store_tables.specs.Members.{AreMembers};
ghost use Rattle.store_tables.specs.OnConnections.{GivenMembers, GivenTables};
ghost use Rattle.store_tables.specs.OnConnections.{HasOutsideCauseOfError, OnlyReads, table_rows};
ghost use Rattle.sqlite.specs.declared.error.Error.TheVariants.{SqliteFailure};
ghost use Rattle.sqlite.specs.declared.error.ErrorCode.TheVariants.{OutOfMemory};
ghost use Rattle.std.specs.Prelude.{◌≡◌, ◌≢◌, IfErr, IfOk, false};

use crate::cells::number_or_zero_at;
use crate::faults::{FaultyRow, RowFault};
use crate::labels::label_row;
use crate::tallies::{BookTally, tally_member};
use sqlite::{Alter, Connection, Error, ErrorCode, Row};
use std::alloc::Global;
use vcard_text::NoMemory;

/// Whether the id is above the last one, if there is one.
fn is_above(last: Option<i64>, id: i64) -> bool
    ensures { result ≡ is_above last id }
{
    match last {
        Some(before) => before < id,
        None => true,
    }
}

/// Tests the member, and counts it in its book. Returns it with its fault if it isn't good.
///
/// Fails with `DatabaseCorrupt` if its row id is not above `last`, that of the member before: then
/// two members have the same one.
fn take_member(
    alloc: Global,
    books: &[Row],
    tallies: &mut [BookTally],
    last: &mut Option<i64>,
    member: &Row,
) -> Result<Option<FaultyRow>, Error>
    ensures takes { IfOk result
        (DoesTake books.now tallies.old tallies.new last.old last.new member.now) }
    ensures fails { IfErr result (λ e. e ≢ SqliteFailure OutOfMemory
        → is_above last.old (int_cell 0 member.now) ≡ false) }
{
    let Ok(fault) = tally_member(alloc, tallies, member) else {
        return Err(Error::SqliteFailure(ErrorCode::OutOfMemory));
    };
    if let Some(fault) = fault {
        return match label_row(alloc, books, member, RowFault::Member(fault)) {
            Ok(faulty) => Ok(Some(faulty)),
            Err(NoMemory) => Err(Error::SqliteFailure(ErrorCode::OutOfMemory)),
        };
    }
    let id = number_or_zero_at(member, 0);
    if !is_above(*last, id) {
        return Err(Error::SqliteFailure(ErrorCode::DatabaseCorrupt));
    }
    *last = Some(id);
    Ok(None)
}

/// Reads the members one at a time. Tests each against its book, and counts it there. Returns the
/// first that isn't good, and reads no more of them.
///
/// They are asked for in the order of their row ids, in which SQLite keeps them. So nothing is
/// sorted, nothing is kept of a row that was read but its id, and no id comes twice.
pub(crate) fn scan_members<S: Alter>(
    alloc: Global,
    conn: &mut Connection<S>,
    books: &[Row],
    tallies: &mut [BookTally],
) -> Result<Option<FaultyRow>, Error>
    ensures scans { GivenTables S.Store conn.old conn.new (IfOk result
        (Scans (table_rows S.Store conn.old member_tree) books.now tallies.old tallies.new)) }

    // Where no two members share an id, it fails only for lack of memory or for an outside cause.
    ensures fails_from_outside { GivenMembers S.Store conn.old conn.new (λ members.
        AreMembers members → HasOutsideCauseOfError S.Store conn.old conn.new result) }
    ensures reads_only { OnlyReads S.Store conn.old conn.new }
{
    let mut last = None;
    let mut rows = conn.query(
        "SELECT rowid, book, uid, changed, card FROM member ORDER BY rowid",
        &[],
    )?;
    'rows: for _ in 0..u64::MAX {
        let Some(row) = rows.next()? else {
            return Ok(None);
        };
        if let Some(faulty) = take_member(alloc, books, tallies, &mut last, row)? {
            return Ok(Some(faulty));
        }
    }
    // No table has as many rows.
    Err(Error::SqliteFailure(ErrorCode::OutOfMemory))
}
