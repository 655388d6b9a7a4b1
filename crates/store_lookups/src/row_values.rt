//! Reads the values in the result rows of `store_tables`.
ghost use Rattle.store_rows.specs.ReadLaws.{ShowsLine};
ghost use Rattle.store_rows.specs.ShownRows.{ShowsLive, ShowsMember, ShowsTally};
ghost use Rattle.store_rows.specs.SoundTables.{IsReadableImport, IsReadableMember};
ghost use Rattle.store_tables.specs.Imports.{ImportRow, import_shown};
ghost use Rattle.store_tables.specs.Members.{MemberRow, number_card_shown};
ghost use Rattle.store_tables.specs.QueryResults.{greatest_integer};
ghost use Rattle.store_lookups.specs.Faults.{IsDeniedFault};
ghost use Rattle.store_lookups.specs.MemberStates.{ShowsState};
ghost use Rattle.store_lookups.specs.StoreFaults.{
  FailsOnlyForMemory,
  ShowsFaultlessBook,
  ShowsFaultlessMember,
};
ghost use Rattle.std.specs.Prelude.{[], ◌∷◌, ◌≡◌, ◌<◌, ℕ, IfErr, IfOk};

use crate::columns::{card_in, number_in, text_in};
use crate::member_states::MemberState;
use book_model::{BookLine, Denied, Fault, ImportTally, Row as Kept, Stored};
use sqlite::Row;
use std::alloc::Global;
use vcard_text::Text;

/// The greatest count of a query, 2^63 - 1; greater counts are returned as this.
const COUNT_LIMIT: u64 = 9_223_372_036_854_775_807;

/// Reads the live card in a row of `find_member`, with its number; `None` if the member is removed.
/// Fails with `Store` if the row is malformed, and with `Memory` when out of memory.
pub(crate) fn live_in(alloc: Global, row: &Row) -> Result<Option<Stored>, Denied>
    ensures live { IfOk result (ShowsLive row.now) }
    ensures fault { IfErr result IsDeniedFault }
    ensures memory { (m : MemberRow) → IsReadableMember m → row.now ≡ number_card_shown m
        → FailsOnlyForMemory result }
{
    let version = number_in(row, 0)?;
    match card_in(alloc, row, 1)? {
        Some(card) => Ok(Some(Stored { version, card })),
        None => Ok(None),
    }
}

/// Reads the state of the member in a row of `find_member`, in a book with this horizon. Fails with
/// `Store` if the row is malformed, and with `Memory` when out of memory.
pub(crate) fn member_state_in(alloc: Global, row: &Row, horizon: u64) -> Result<MemberState, Denied>
    ensures state { IfOk result (ShowsState horizon row.now) }
    ensures fault { IfErr result IsDeniedFault }
    ensures memory { (m : MemberRow) → IsReadableMember m → row.now ≡ number_card_shown m
        → FailsOnlyForMemory result }
{
    let changed = number_in(row, 0)?;
    match card_in(alloc, row, 1)? {
        Some(card) => Ok(MemberState::Live(Stored {
            version: changed,
            card,
        })),
        None if horizon < changed => Ok(MemberState::Tombstone),
        None => Ok(MemberState::Missing),
    }
}

/// Reads the member in a row of `members_of` or `first_due`: its UID, its number, and its card,
/// `None` if it is removed. Fails with `Store` if the row is malformed, and with `Memory` when out
/// of memory.
pub fn member_in(alloc: Global, row: &Row) -> Result<(Text, Kept), Denied>
    ensures member { IfOk result (ShowsMember row.now) }
    ensures fault { IfErr result IsDeniedFault }
    ensures memory { ShowsFaultlessMember row.now → FailsOnlyForMemory result }
{
    let uid = Text::new(text_in(row, 0)?);
    let changed = number_in(row, 1)?;
    let card = card_in(alloc, row, 2)?;
    Ok((uid, Kept { changed, card }))
}

/// Reads the result of an import in a row of `find_import`. Fails with `Store` if the row is
/// malformed.
pub(crate) fn tally_in(row: &Row) -> Result<ImportTally, Denied>
    ensures tally { IfOk result (ShowsTally row.now) }
    ensures fault { IfErr result IsDeniedFault }
    ensures memory { (i : ImportRow) → IsReadableImport i → row.now ≡ import_shown i
        → FailsOnlyForMemory result }
{
    Ok(ImportTally {
        added: number_in(row, 0)?,
        edited: number_in(row, 1)?,
        same: number_in(row, 2)?,
        number: number_in(row, 3)?,
    })
}

/// Returns the count of a query. Fails with `Store` for 2^63 - 1, which the query also returns for
/// every greater count.
pub fn exact_count(count: u64) -> Result<u64, Denied>
    ensures count { IfOk result (λ exact. exact ≡ count) }
    ensures below { IfOk result (λ exact. exact < greatest_integer) }
    ensures fault { IfErr result IsDeniedFault }
    ensures memory { count < greatest_integer → FailsOnlyForMemory result }
{
    if count >= COUNT_LIMIT {
        return Err(Denied::Fault(Fault::Store));
    }
    Ok(count)
}

/// Reads the line of a book in a row of `all_books`. Fails with `Store` if the row is malformed,
/// and with `Memory` when out of memory.
pub fn line_in(row: &Row) -> Result<BookLine, Denied>
    ensures line { IfOk result (ShowsLine row.now) }
    ensures fault { IfErr result IsDeniedFault }
    ensures memory { ShowsFaultlessBook row.now → FailsOnlyForMemory result }
{
    let name = Text::new(text_in(row, 1)?);
    Ok(BookLine {
        name,
        id: number_in(row, 0)?,
        number: number_in(row, 2)?,
        horizon: number_in(row, 3)?,
    })
}
