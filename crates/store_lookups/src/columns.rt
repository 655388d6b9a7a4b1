//! Reads single columns of a row. Columns are numbered from 0.
ghost use Rattle.store_rows.specs.ShownRows.{ShowsCard};
ghost use Rattle.store_lookups.specs.Faults.{IsDeniedFault};
ghost use Rattle.store_lookups.specs.RowChecks.{ShowsCanonical};
ghost use Rattle.store_lookups.specs.StoreFaults.{FailsOnlyForMemory};
ghost use Rattle.store_rows.specs.Values.{IsCanonical};
ghost use Rattle.sqlite.specs.Order.{column};
ghost use Rattle.sqlite.specs.Values.{or_null};
ghost use Rattle.sqlite.specs.declared.types.Value.TheVariants.{Int, Text};
ghost use Rattle.std.specs.Prelude.{◌≡◌, ◌<◌, ℕ, List, Option, IfErr, IfOk, IfSome, IsUtf8, Ok};
ghost use Rattle.std.specs.Prelude.{length, pos, string_bytes};
ghost use Rattle.vcard_text.specs.CardOfText.{card_of_text};
ghost use Rattle.vcard_text.specs.Cards.{canonical_text};

use crate::faults::{fault_of, fault_of_card};
use book_model::{Denied, Fault};
use sqlite::Row;
use std::alloc::Global;
use store_rows::canonical::is_canonical_text;
use vcard_text::{Card, read_card};

/// Reads the number in the column. Fails with `Store` if the column is missing, or is not an
/// integer of at least 0.
pub fn number_in(row: &Row, at: usize) -> Result<u64, Denied>
    ensures number { IfOk result (λ n. column row.now at ≡ Int (pos n)) }
    ensures fault { IfErr result IsDeniedFault }
    ensures memory { (n : ℕ) → column row.now at ≡ Int (pos n) → FailsOnlyForMemory result }
{
    match row.get(at) {
        Ok(number) => Ok(number),
        Err(error) => Err(fault_of(error)),
    }
}

/// Reads the text in the column. Fails with `Store` if the column is missing or is not a text, and
/// with `Memory` when out of memory.
pub(crate) fn text_in(row: &Row, at: usize) -> Result<String, Denied>
    ensures text { IfOk result (λ text. column row.now at ≡ Text (string_bytes text)) }
    ensures fault { IfErr result IsDeniedFault }
    ensures memory { (text : List ℕ) → column row.now at ≡ Text text → IsUtf8 text
        → FailsOnlyForMemory result }
{
    match row.get(at) {
        Ok(text) => Ok(text),
        Err(error) => Err(fault_of(error)),
    }
}

/// Reads the card of a canonical text. Fails with `Store` if the text is not the canonical text of
/// a card, and with `Memory` when out of memory.
fn canonical_card(alloc: Global, text: &str) -> Result<Card, Denied>
    ensures card { IfOk result (λ card. card_of_text text.now ≡ Ok card) }
    ensures canonical { IfOk result (λ card. text.now ≡ canonical_text card) }
    ensures fault { IfErr result IsDeniedFault }
    ensures memory { IsCanonical text.now → FailsOnlyForMemory result }
{
    let card = match read_card(alloc, text.as_bytes()) {
        Ok(card) => card,
        Err(fault) => return Err(fault_of_card(fault)),
    };
    if !is_canonical_text(alloc, text, &card)? {
        return Err(Denied::Fault(Fault::Store));
    }
    Ok(card)
}

/// Reads the card in the column; `None` for null. Fails with `Store` if the column is missing, or
/// is neither null nor the canonical text of a card, and with `Memory` when out of memory.
pub(crate) fn card_in(alloc: Global, row: &Row, at: usize) -> Result<Option<Card>, Denied>
    ensures card { IfOk result (ShowsCard at row.now) }
    ensures canonical { IfOk result (ShowsCanonical at row.now) }
    ensures fault { IfErr result IsDeniedFault }
    ensures memory { (text : Option (List ℕ)) → at < length row.now
        → column row.now at ≡ or_null Text text → IfSome text IsCanonical
        → FailsOnlyForMemory result }
{
    let text: Option<String> = match row.get(at) {
        Ok(text) => text,
        Err(error) => return Err(fault_of(error)),
    };
    match text {
        Some(text) => Ok(Some(canonical_card(alloc, text.as_str())?)),
        None => Ok(None),
    }
}
