//! Queries of one book. A call for a card looks it up by the name of its book and its UID. Each
//! other call looks up the name, and then reads at most one more row.
//!
//! Nothing is written, on success and on error. A malformed row among those read is `Store`; an
//! error of the database is `Memory` if it is out of memory, otherwise `Store`.
ghost use Rattle.book_model.specs.Importing.{kept_import_step};
ghost use Rattle.book_model.specs.BookQueries.{
  book_line_step,
  book_line_with,
  book_tally,
  get_step,
  keep_step,
  tally_step,
};
ghost use Rattle.book_model.specs.Counts.{AreCountsOf};
ghost use Rattle.store_rows.specs.LookupLaws.{IsBookNamed};
ghost use Rattle.store_rows.specs.TableBooks.{books_of, line_row, row_book};
ghost use Rattle.store_lookups.specs.CallResults.{FollowsStep, IsExactly};
ghost use Rattle.store_lookups.specs.Faults.{IsDeniedFault};
ghost use Rattle.store_lookups.specs.StoreFaults.{FailsOnlyForMemory};
ghost use Rattle.store_queries.specs.internal.QuerySteps.{import_tally_step, missing_card_step};
ghost use Rattle.store_lookups.specs.OnConnections.{
  ChangeFaultsFromOutside,
  FaultsFromOutside,
  FaultsFromOutsideInBook,
  GivenBook,
  GivenCounts,
  GivenSoundRows,
};
ghost use Rattle.store_tables.specs.OnConnections.{OnlyReads};
ghost use Rattle.std.specs.Prelude.{◌≡◌, IfErr, IfOk, Ok};

use crate::live_rows::live_in;
use book_model::decisions::is_import_key;
use book_model::{BookLine, Denied, ImportTally, Refusal, Stored, Tally, TombstoneCounts};
use sqlite::{Alter, Connection, Error};
use std::alloc::Global;
use store_lookups::{BookHeader, fault_of, fetch_keep, find_header, find_import_tally, remembered};
use store_tables::named_members::find_named_member;
use vcard_text::Text;

fn line_with(alloc: Global, name: &str, header: BookHeader) -> Result<BookLine, Denied>
    ensures line { IfOk result (λ line.
        line ≡ book_line_with name.now header.id header.number header.horizon) }
    ensures fault { IfErr result IsDeniedFault }
    ensures memory { FailsOnlyForMemory result }
{
    Ok(BookLine {
        name: Text::copy_of(alloc, name)?,
        id: header.id(),
        number: header.number(),
        horizon: header.horizon(),
    })
}

/// Returns the line of the book with this name: its id, its number and its horizon. Refused with
/// `NoSuchBook`. Over sound rows any other failure is a fault: `Memory`, or `Store` from an outside
/// cause.
pub fn line_of_book<S: Alter>(
    alloc: Global,
    conn: &mut Connection<S>,
    name: &str,
) -> Result<BookLine, Denied>
    ensures answers { GivenSoundRows S.Store conn.old conn.new
        (λ rows. FollowsStep IsExactly result (book_line_step (books_of rows) name.now)) }
    ensures store_fault { FaultsFromOutside S.Store conn.old conn.new result }
    ensures reads_only { OnlyReads S.Store conn.old conn.new }
{
    let header = find_header(conn, name)?;
    line_with(alloc, name, header)
}

/// Why no book with this name has a member: refused with `NoSuchBook` if there is no such book, and
/// otherwise with `NoSuchCard`.
fn refuse_missing<S: Alter>(conn: &mut Connection<S>, name: &str) -> Result<Stored, Denied>
    ensures answers { GivenSoundRows S.Store conn.old conn.new
        (λ rows. FollowsStep IsExactly result (missing_card_step (books_of rows) name.now)) }
    ensures store_fault { FaultsFromOutside S.Store conn.old conn.new result }
    ensures reads_only { OnlyReads S.Store conn.old conn.new }
{
    find_header(conn, name)?;
    Err(Denied::Refused(Refusal::NoSuchCard))
}

/// Returns the live card of the UID in the book with this name, with its version. Refused with
/// `NoSuchBook`, and with `NoSuchCard` if the UID has no live card.
///
/// One statement finds the card. Only if the UID has no member in the book, live or removed, a
/// second one looks up the book.
pub fn stored_of_book<S: Alter>(
    alloc: Global,
    conn: &mut Connection<S>,
    name: &str,
    uid: &str,
) -> Result<Stored, Denied>
    ensures answers { GivenSoundRows S.Store conn.old conn.new
        (λ rows. FollowsStep IsExactly result (get_step (books_of rows) name.now uid.now)) }
    ensures store_fault { FaultsFromOutside S.Store conn.old conn.new result }
    ensures reads_only { OnlyReads S.Store conn.old conn.new }
{
    let row = match find_named_member(conn, name, uid) {
        Ok(row) => row,
        Err(Error::QueryReturnedNoRows) => return refuse_missing(conn, name),
        Err(error) => return Err(fault_of(error)),
    };
    match live_in(alloc, &row)? {
        Some(stored) => Ok(stored),
        None => Err(Denied::Refused(Refusal::NoSuchCard)),
    }
}

fn import_at<S: Alter>(
    conn: &mut Connection<S>,
    header: BookHeader,
    key: &str,
) -> Result<Option<ImportTally>, Denied>
    ensures answers { GivenBook S.Store conn.old conn.new header
        (λ book. FollowsStep IsExactly result (import_tally_step key.now book)) }
    ensures store_fault { FaultsFromOutsideInBook S.Store conn.old conn.new header result }
    ensures reads_only { OnlyReads S.Store conn.old conn.new }
{
    if !is_import_key(key) {
        return Err(Denied::Refused(Refusal::BadKey));
    }
    find_import_tally(conn, header, key)
}

/// Returns the stored result of the import with this key in the book with this name; `None` if
/// there is none. Refused with `NoSuchBook`, and with `BadKey` if the key is not a legal import
/// key.
pub fn import_of_book<S: Alter>(
    conn: &mut Connection<S>,
    name: &str,
    key: &str,
) -> Result<Option<ImportTally>, Denied>
    ensures answers { GivenSoundRows S.Store conn.old conn.new
        (λ rows. FollowsStep IsExactly result (kept_import_step (books_of rows) name.now key.now)) }
    ensures store_fault { FaultsFromOutside S.Store conn.old conn.new result }
    ensures reads_only { OnlyReads S.Store conn.old conn.new }
{
    let header = find_header(conn, name)?;
    import_at(conn, header, key)
}

/// The tally of the named book, which has this header.
fn tally_at<S: Alter>(
    conn: &mut Connection<S>,
    counts: &mut TombstoneCounts,
    header: BookHeader,
    name: &str,
) -> Result<Tally, Denied>
    ensures answers { GivenCounts S.Store conn.old conn.new counts.old (λ rows.
        IsBookNamed rows name.now header → FollowsStep IsExactly result
        (Ok (book_tally (row_book rows (line_row name.now header))))) }
    ensures counts { GivenCounts S.Store conn.old conn.new counts.old (λ rows.
        IsBookNamed rows name.now header → AreCountsOf counts.new (books_of rows)) }
    ensures store_fault { FaultsFromOutsideInBook S.Store conn.old conn.new header result }
    ensures reads_only { OnlyReads S.Store conn.old conn.new }
{
    let tombstones = remembered(conn, counts, header, name)?;
    Ok(Tally::of(
        header.number(),
        header.horizon(),
        header.counts(),
        tombstones,
    ))
}

/// Returns the tally of the book with this name. The number of its tombstones is that of `counts`,
/// whose numbers must be right; if there is none, the query counts them, and the number is set. The
/// number of cards follows from the counts of changes. Refused with `NoSuchBook`.
pub fn tally_of_book<S: Alter>(
    conn: &mut Connection<S>,
    counts: &mut TombstoneCounts,
    name: &str,
) -> Result<Tally, Denied>
    ensures answers { GivenCounts S.Store conn.old conn.new counts.old
        (λ rows. FollowsStep IsExactly result (tally_step (books_of rows) name.now)) }
    ensures counts { GivenCounts S.Store conn.old conn.new counts.old
        (λ rows. AreCountsOf counts.new (books_of rows)) }
    ensures store_fault { FaultsFromOutside S.Store conn.old conn.new result }
    ensures reads_only { OnlyReads S.Store conn.old conn.new }
{
    let header = find_header(conn, name)?;
    tally_at(conn, counts, header, name)
}

/// Returns the keep of the book with this name: the most tombstones that it keeps. Refused with
/// `NoSuchBook`.
pub fn keep_of_book<S: Alter>(conn: &mut Connection<S>, name: &str) -> Result<u64, Denied>
    ensures answers { GivenSoundRows S.Store conn.old conn.new
        (λ rows. FollowsStep IsExactly result (keep_step (books_of rows) name.now)) }
    ensures store_fault { ChangeFaultsFromOutside S.Store conn.old conn.new result }
    ensures reads_only { OnlyReads S.Store conn.old conn.new }
{
    let header = find_header(conn, name)?;
    fetch_keep(conn, header)
}
