//! Queries of all books, and of all live cards of one book. These calls allocate for each row.
//!
//! Nothing is written, on success and on error. A malformed row is `Store`; running out of memory
//! is `Memory`, and any other error of the database is `Store`.
ghost use Rattle.base_types.specs.TextMaps.{octet_map};
ghost use Rattle.book_model.specs.BookQueries.{book_lines, cards_step, live_cards};
ghost use Rattle.store_rows.specs.TableBooks.{books_of};
ghost use Rattle.store_lookups.specs.CallResults.{FollowsStep};
ghost use Rattle.store_lookups.specs.Faults.{IsDeniedFault};
ghost use Rattle.store_lookups.specs.StoreFaults.{FailsOnlyForMemory, ShowsFaultlessMember};
ghost use Rattle.store_queries.specs.internal.RowLists.{ShowCards};
ghost use Rattle.store_lookups.specs.OnConnections.{
  FaultsFromOutside,
  FaultsFromOutsideInBook,
  GivenBook,
  GivenSoundRows,
};
ghost use Rattle.store_tables.specs.OnConnections.{OnlyReads, UnchangedOnOk};
ghost use Rattle.std.specs.List.{AllByRecursion};
ghost use Rattle.std.specs.Prelude.{◌≡◌, IfErr, IfOk, Ok};

use crate::row_lists::{cards_in, lines_in};
use book_model::{BookLine, Denied, Stored};
use sqlite::{Alter, Connection, Row};
use std::alloc::Global;
use std::collections::BTreeMap;
use store_lookups::{BookHeader, column_of, fault_of, find_header};
use store_tables::books::all_books;
use store_tables::members::members_of;

/// Returns the lines of all books, in the order of the octets of their names. Over sound rows it is
/// never refused; a failure is a fault: `Memory`, or `Store` from an outside cause.
pub fn lines_of_books<S: Alter>(
    alloc: Global,
    conn: &mut Connection<S>,
) -> Result<Vec<BookLine>, Denied>
    ensures answers { GivenSoundRows S.Store conn.old conn.new
        (λ rows. FollowsStep (λ wanted lines. lines.items ≡ wanted) result
        (Ok (book_lines (books_of rows)))) }
    ensures store_fault { FaultsFromOutside S.Store conn.old conn.new result }
    ensures unchanged { UnchangedOnOk S.Store conn.old conn.new result }
    ensures reads_only { OnlyReads S.Store conn.old conn.new }
{
    match all_books(conn) {
        Ok(rows) => lines_in(alloc, rows.as_slice()),
        Err(error) => Err(fault_of(error)),
    }
}

fn card_map(alloc: Global, rows: &[Row]) -> Result<BTreeMap<String, Stored>, Denied>
    ensures cards { IfOk result (λ cards. ShowCards rows.now (octet_map cards)) }
    ensures fault { IfErr result IsDeniedFault }
    ensures memory { AllByRecursion ShowsFaultlessMember rows.now → FailsOnlyForMemory result }
{
    let cards = cards_in(alloc, rows)?;
    Ok(cards.into_map())
}

fn cards_at<S: Alter>(
    alloc: Global,
    conn: &mut Connection<S>,
    header: BookHeader,
) -> Result<BTreeMap<String, Stored>, Denied>
    ensures answers { GivenBook S.Store conn.old conn.new header
        (λ book. FollowsStep (λ wanted cards. octet_map cards ≡ wanted) result
        (Ok (live_cards book))) }
    ensures store_fault { FaultsFromOutsideInBook S.Store conn.old conn.new header result }
    ensures unchanged { UnchangedOnOk S.Store conn.old conn.new result }
    ensures reads_only { OnlyReads S.Store conn.old conn.new }
{
    let id = column_of(header.id())?;
    match members_of(conn, id) {
        Ok(rows) => card_map(alloc, rows.as_slice()),
        Err(error) => Err(fault_of(error)),
    }
}

/// Returns all live cards of the book with this name, by UID. It is the only call that reads all
/// members of a book. Refused with `NoSuchBook`.
pub fn cards_of_book<S: Alter>(
    alloc: Global,
    conn: &mut Connection<S>,
    name: &str,
) -> Result<BTreeMap<String, Stored>, Denied>
    ensures answers { GivenSoundRows S.Store conn.old conn.new
        (λ rows. FollowsStep (λ wanted cards. octet_map cards ≡ wanted) result
        (cards_step (books_of rows) name.now)) }
    ensures store_fault { FaultsFromOutside S.Store conn.old conn.new result }
    ensures unchanged { UnchangedOnOk S.Store conn.old conn.new result }
    ensures reads_only { OnlyReads S.Store conn.old conn.new }
{
    let header = find_header(conn, name)?;
    cards_at(alloc, conn, header)
}
