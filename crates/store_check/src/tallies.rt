//! Tests the members one at a time, and counts those of each book.
ghost use Rattle.store_check.specs.MemberTallies.{AreCounted, DoesTally, FindsTally, IsTallyAt};
ghost use Rattle.store_check.specs.MemberTallies.{TallyAll, counted, one_more, tally_of};
ghost use Rattle.store_check.specs.RowChecks.{decode_book, int_cell};
ghost use Rattle.store_rows.specs.TableRows.{load_member};
ghost use Rattle.std.specs.Prelude.{[], ◌≡◌, IfOk, IfSome, map};

use crate::cells::{natural_at, natural_of, number_or_zero_at, text_if_any_at};
use crate::faults::MemberFault;
use crate::members::{fault_in_book, is_member_row};
use sqlite::Row;
use std::alloc::Global;
use vcard_text::NoMemory;

/// A book, as its members are tested against it, and how many of them were counted.
#[derive(Clone, Copy)]
pub(crate) struct BookTally {
    /// The book's id.
    id: i64,
    /// The number of the book's last change.
    number: u64,
    horizon: i64,
    /// The live members.
    pub(crate) live: u64,
    /// The tombstones above the horizon.
    pub(crate) removed: u64,
}

/// A book of which no member was counted.
fn start_tally(book: &Row) -> BookTally
    ensures { result ≡ tally_of [] (decode_book book.now) }
{
    BookTally {
        id: number_or_zero_at(book, 0),
        number: natural_at(book, 2),
        horizon: number_or_zero_at(book, 3),
        live: 0,
        removed: 0,
    }
}

/// The books, of which no member was counted.
pub(crate) fn start_tallies(alloc: Global, books: &[Row]) -> Result<Vec<BookTally>, NoMemory>
    ensures { IfOk result (λ tallies. AreCounted [] (map decode_book books.now) tallies.items) }
{
    let mut tallies = Vec::new(alloc);
    for book in books {
        tallies.push(start_tally(book))?;
    }
    Ok(tallies)
}

/// The tally at this place, if it is of the book with this id.
fn tally_at(tallies: &[BookTally], place: usize, id: i64) -> Option<BookTally>
    ensures { IfSome result (λ tally. IsTallyAt tallies.now place id tally) }
{
    match tallies.get(place) {
        Some(tally) => if tally.id == id { Some(*tally) } else { None },
        None => None,
    }
}

/// The first tally of the book with this id, and its place.
fn search_tally(tallies: &[BookTally], id: i64) -> Option<(usize, BookTally)>
    ensures { FindsTally id tallies.now result }
{
    for place in 0..tallies.len() {
        let tally = tallies[place];
        if tally.id == id {
            return Some((place, tally));
        }
    }
    None
}

/// The tally of the book with this id, and its place. Books have the ids 1, 2 and so on, and SQLite
/// lists them in this order, so it mostly stands at the place before its id.
fn find_tally(tallies: &[BookTally], id: i64) -> Option<(usize, BookTally)>
    ensures { FindsTally id tallies.now result }
{
    if let Some(before) = natural_of(id).checked_sub(1) {
        let place = before as usize;
        if let Some(tally) = tally_at(tallies, place, id) {
            return Some((place, tally));
        }
    }
    search_tally(tallies, id)
}

/// The count, with one more if `counts`. No table has as many rows as the greatest count.
fn count_more(count: u64, counts: bool) -> Result<u64, NoMemory>
    ensures { IfOk result (λ n. n ≡ one_more counts count) }
{
    if !counts {
        return Ok(count);
    }
    match count.checked_add(1) {
        Some(more) => Ok(more),
        None => Err(NoMemory),
    }
}

/// The tally, with one more member of the book counted.
fn count_in(tally: BookTally, member: &Row) -> Result<BookTally, NoMemory>
    requires { tally.id ≡ int_cell 1 member.now }
    ensures { IfOk result (λ next. next ≡ counted (load_member member.now) tally) }
{
    let is_live = text_if_any_at(member, 4).is_some();
    let is_kept = !is_live && tally.horizon < number_or_zero_at(member, 3);
    let live = count_more(tally.live, is_live)?;
    let removed = count_more(tally.removed, is_kept)?;
    Ok(BookTally {
        id: tally.id,
        number: tally.number,
        horizon: tally.horizon,
        live,
        removed,
    })
}

/// Tests the member against its book, and counts it there if it is good. Returns what is wrong with
/// it, if anything is.
pub(crate) fn tally_member(
    alloc: Global,
    tallies: &mut [BookTally],
    member: &Row,
) -> Result<Option<MemberFault>, NoMemory>
    ensures { IfOk result (DoesTally tallies.old tallies.new member.now) }
{
    if !is_member_row(member) {
        return Ok(Some(MemberFault::Columns));
    }
    let Some((place, tally)) = find_tally(tallies, number_or_zero_at(member, 1)) else {
        return Ok(Some(MemberFault::NoBook));
    };
    if let Some(fault) = fault_in_book(alloc, member, tally.number, tally.horizon)? {
        return Ok(Some(fault));
    }
    tallies[place] = count_in(tally, member)?;
    Ok(None)
}

/// Tests each of the members against its book, and counts it there. Each card is parsed once.
pub(crate) fn tally_members(
    alloc: Global,
    tallies: &mut [BookTally],
    members: &[Row],
) -> Result<bool, NoMemory>
    ensures { IfOk result (TallyAll tallies.old tallies.new members.now) }
{
    for member in members {
        if tally_member(alloc, tallies, member)?.is_some() {
            return Ok(false);
        }
    }
    Ok(true)
}
