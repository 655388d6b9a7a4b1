//! Reads the live card in a result row. Its text is read in place: it isn't copied out of the row.
ghost use Rattle.store_lookups.specs.Faults.{IsDeniedFault};
ghost use Rattle.store_lookups.specs.StoreFaults.{FailsOnlyForMemory};
ghost use Rattle.store_rows.specs.ShownRows.{ShowsLive};
ghost use Rattle.store_rows.specs.SoundTables.{IsReadableMember};
ghost use Rattle.store_rows.specs.Values.{IsCanonical};
ghost use Rattle.store_tables.specs.Members.{MemberRow, number_card_shown};
ghost use Rattle.std.specs.Prelude.{◌≡◌, IfErr, IfOk, Ok};
ghost use Rattle.vcard_text.specs.CardOfText.{card_of_text};
ghost use Rattle.vcard_text.specs.Cards.{canonical_text};

use book_model::{Denied, Fault, Stored};
use sqlite::Row;
use sqlite::types::ValueRef;
use std::alloc::Global;
use store_lookups::number_in;
use store_rows::canonical::is_canonical_text;
use vcard_text::{Card, CardFault, read_card};

/// Reads the card of a canonical text. Fails with `Store` if the octets are not the canonical text
/// of a card, and with `Memory` when out of memory.
fn canonical_card(alloc: Global, octets: &[u8]) -> Result<Card, Denied>
    ensures card { IfOk result (λ card. card_of_text octets.now ≡ Ok card) }
    ensures canonical { IfOk result (λ card. octets.now ≡ canonical_text card) }
    ensures fault { IfErr result IsDeniedFault }
    ensures memory { IsCanonical octets.now → FailsOnlyForMemory result }
{
    let Ok(text) = str::from_utf8(octets) else {
        return Err(Denied::Fault(Fault::Store));
    };
    let card = match read_card(alloc, text.as_bytes()) {
        Ok(card) => card,
        Err(CardFault::Memory) => return Err(Denied::Fault(Fault::Memory)),
        Err(_) => return Err(Denied::Fault(Fault::Store)),
    };
    if !is_canonical_text(alloc, text, &card)? {
        return Err(Denied::Fault(Fault::Store));
    }
    Ok(card)
}

/// Reads the live card in a row of `find_named_member`, with its number; `None` if the member is
/// removed. Fails with `Store` if the row is malformed, and with `Memory` when out of memory.
pub(crate) fn live_in(alloc: Global, row: &Row) -> Result<Option<Stored>, Denied>
    ensures live { IfOk result (ShowsLive row.now) }
    ensures fault { IfErr result IsDeniedFault }
    ensures memory { (m : MemberRow) → IsReadableMember m → row.now ≡ number_card_shown m
        → FailsOnlyForMemory result }
{
    let version = number_in(row, 0)?;
    match row.get_ref(1) {
        Ok(ValueRef::Null) => Ok(None),
        Ok(ValueRef::Text(octets)) => {
            let card = canonical_card(alloc, octets)?;
            Ok(Some(Stored { version, card }))
        }
        _ => Err(Denied::Fault(Fault::Store)),
    }
}
