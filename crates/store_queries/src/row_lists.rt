//! Reads lists of rows: lines of books, live cards, and entries of a page.
ghost use Rattle.book_model.specs.Pages.{entry_of_row};
ghost use Rattle.book_model.specs.BookQueries.{with_live};
ghost use Rattle.store_rows.specs.ReadLaws.{ShowLines};
ghost use Rattle.store_lookups.specs.Faults.{IsDeniedFault};
ghost use Rattle.store_lookups.specs.StoreFaults.{
  FailsOnlyForMemory,
  ShowsFaultlessBook,
  ShowsFaultlessMember,
};
ghost use Rattle.store_queries.specs.internal.RowLists.{ShowCards, ShowEntries};
ghost use Rattle.std.specs.List.{AllByRecursion};
ghost use Rattle.std.specs.Prelude.{◌≡◌, IfErr, IfOk, OnOk};

use book_model::{BookLine, Denied, Entry, Row as Kept, Stored};
use sqlite::Row;
use std::alloc::Global;
use store_lookups::{line_in, member_in};
use vcard_text::{Items, Text, TextMap};

/// Reads the lines of rows of books.
pub(crate) fn lines_in(alloc: Global, rows: &[Row]) -> Result<Vec<BookLine>, Denied>
    ensures lines { IfOk result (λ lines. ShowLines rows.now lines.items) }
    ensures fault { IfErr result IsDeniedFault }
    ensures memory { AllByRecursion ShowsFaultlessBook rows.now → FailsOnlyForMemory result }
{
    let mut lines = Vec::with_capacity(alloc, rows.len())?;
    for row in rows {
        let line = line_in(row)?;
        lines.push(line)?;
    }
    Ok(lines)
}

fn insert_live(cards: &mut TextMap<Stored>, member: (Text, Kept)) -> Result<(), Denied>
    ensures ok { OnOk result (cards.new ≡ with_live cards.old member) }
    ensures fault { IfErr result IsDeniedFault }
    ensures memory { FailsOnlyForMemory result }
{
    let (uid, kept) = member;
    let Kept { changed, card } = kept;
    let Some(card) = card else {
        return Ok(());
    };
    let stored = Stored {
        version: changed,
        card,
    };
    cards.insert(uid.into_string(), stored)?;
    Ok(())
}

/// Reads the live cards of rows of members, by UID.
pub(crate) fn cards_in(alloc: Global, rows: &[Row]) -> Result<TextMap<Stored>, Denied>
    ensures cards { IfOk result (ShowCards rows.now) }
    ensures fault { IfErr result IsDeniedFault }
    ensures memory { AllByRecursion ShowsFaultlessMember rows.now → FailsOnlyForMemory result }
{
    let mut cards = TextMap::new(alloc);
    for row in rows {
        let member = member_in(alloc, row)?;
        insert_live(&mut cards, member)?;
    }
    Ok(cards)
}

fn entry_of(member: (Text, Kept)) -> Entry
    ensures { result ≡ entry_of_row member }
{
    let (uid, kept) = member;
    let Kept { changed, card } = kept;
    match card {
        Some(card) => Entry::Changed {
            uid,
            version: changed,
            card,
        },
        None => Entry::Removed { uid },
    }
}

/// Reads the page entries of rows of members. Returns them with the number of the last member; 0 if
/// there is none.
pub fn entries_in(alloc: Global, rows: &[Row]) -> Result<(Items<Entry>, u64), Denied>
    ensures entries { IfOk result (λ pair. ShowEntries rows.now pair.0 pair.1) }
    ensures fault { IfErr result IsDeniedFault }
    ensures memory { AllByRecursion ShowsFaultlessMember rows.now → FailsOnlyForMemory result }
{
    let mut entries = Vec::with_capacity(alloc, rows.len())?;
    let mut last = 0;
    for row in rows {
        let member = member_in(alloc, row)?;
        last = member.1.changed;
        entries.push(entry_of(member))?;
    }
    Ok((Items::from_vec(entries), last))
}
