//! How many tombstones each book has, as the opening counts them.
ghost use Rattle.store_check.specs.MemberTallies.{AreCounted};
ghost use Rattle.store_check.specs.RowChecks.{decode_book};
ghost use Rattle.store_check.specs.TombstoneCounts.{count_entry, removed_entry};
ghost use Rattle.book_model.specs.BookNames.{is_legal_name};
ghost use Rattle.store_schema.specs.OpenFaults.{IsErrorFault};
ghost use Rattle.store_schema.specs.declared.open_fault.OpenFault.TheVariants.{Memory};
ghost use Rattle.store_tables.specs.Members.{MemberRow};
ghost use Rattle.std.specs.List.{AllByRecursion};
ghost use Rattle.std.specs.Prelude.{◌≡◌, ◌++◌, IfErr, IfOk, List, OnOk, map, string_bytes, true};

use crate::cells::text_at;
use crate::tallies::BookTally;
use sqlite::Row;
use std::alloc::Global;
use store_schema::OpenFault;

/// A book and how many tombstones it has.
#[derive(Drop)]
pub struct TombstoneCount {
    /// The book's name.
    pub book: String,
    /// The tombstones above the book's horizon.
    pub tombstones: u64,
}

/// The book's name as a string. Fails with `Store` if it is not UTF-8, which no legal name is.
#[tactic(auto, using(crate::proofs::NameLemmas::no_name))]
fn name_of_book(alloc: Global, book: &Row) -> Result<String, OpenFault>
    ensures name { IfOk result (λ name. string_bytes name ≡ (decode_book book.now).name) }
    ensures fault { IfErr result IsErrorFault }
    ensures legal { is_legal_name (decode_book book.now).name ≡ true
        → IfErr result (λ fault. fault ≡ Memory) }
{
    let Ok(name) = str::from_utf8(text_at(book, 1)) else {
        return Err(OpenFault::Store);
    };
    match String::from_str(alloc, name) {
        Ok(name) => Ok(name),
        Err(_) => Err(OpenFault::Memory),
    }
}

/// Appends the count of each of the books, whose tallies these are.
fn push_counts(
    alloc: Global,
    counts: &mut Vec<TombstoneCount>,
    books: &[Row],
    tallies: &[BookTally],
) -> Result<(), OpenFault>
    ensures counts { OnOk result ((ms : List MemberRow)
        → AreCounted ms (map decode_book books.now) tallies.now
        → map count_entry counts.new.items ≡ map count_entry counts.old.items
        ++ map (removed_entry ms) (map decode_book books.now)) }
    ensures fault { IfErr result IsErrorFault }
    ensures legal { AllByRecursion (λ b. is_legal_name b.name ≡ true) (map decode_book books.now)
        → IfErr result (λ fault. fault ≡ Memory) }
{
    let Some((book, others)) = books.split_first() else {
        return Ok(());
    };
    let Some((tally, rest)) = tallies.split_first() else {
        return Ok(());
    };
    let count = TombstoneCount {
        book: name_of_book(alloc, book)?,
        tombstones: tally.removed,
    };
    if counts.push(count).is_err() {
        return Err(OpenFault::Memory);
    }
    push_counts(alloc, counts, others, rest)
}

/// The count of each of the books, whose tallies these are.
pub(crate) fn list_counts(
    alloc: Global,
    books: &[Row],
    tallies: &[BookTally],
) -> Result<Vec<TombstoneCount>, OpenFault>
    ensures counts { IfOk result (λ counts. (ms : List MemberRow)
        → AreCounted ms (map decode_book books.now) tallies.now
        → map count_entry counts.items ≡ map (removed_entry ms) (map decode_book books.now)) }
    ensures fault { IfErr result IsErrorFault }
    ensures legal { AllByRecursion (λ b. is_legal_name b.name ≡ true) (map decode_book books.now)
        → IfErr result (λ fault. fault ≡ Memory) }
{
    let mut counts = Vec::new(alloc);
    push_counts(alloc, &mut counts, books, tallies)?;
    Ok(counts)
}
