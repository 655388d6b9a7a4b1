//! Column values: the numbers of a book's row, and the text of a card.
ghost use Rattle.book_model.specs.Counting.{total_changes};
ghost use Rattle.store_rows.specs.TableBooks.{numbers_row};
ghost use Rattle.store_rows.specs.Values.{IsCanonical, text_card};
ghost use Rattle.store_lookups.specs.Faults.{IsDeniedFault};
ghost use Rattle.store_lookups.specs.StoreFaults.{FailsOnlyForMemory};
ghost use Rattle.store_tables.specs.Books.{numbers_of};
ghost use Rattle.std.specs.Prelude.{◌≡◌, ◌<◌, ◌^◌, IfErr, IfOk, string_bytes};
ghost use Rattle.vcard_text.specs.Cards.{canonical_text};

use book_model::{Counts, Denied, Fault};
use std::alloc::Global;
use store_lookups::column_of;
use store_tables::books::BookNumbers;
use vcard_text::laws::card_is_computed;
use vcard_text::{Card, write_card};

/// The column values of a book's number, horizon and counts. Fails with `Store` if one of them is
/// 2^63 or more, which no stored number is.
pub fn columns_of(number: u64, horizon: u64, counts: Counts) -> Result<BookNumbers, Denied>
    ensures numbers { IfOk result (λ numbers.
        numbers_of numbers ≡ numbers_row number horizon counts) }
    ensures fault { IfErr result IsDeniedFault }
    ensures memory { number < 2 ^ 63 → horizon < 2 ^ 63 → total_changes counts < 2 ^ 63
        → FailsOnlyForMemory result }
{
    Ok(BookNumbers {
        number: column_of(number)?,
        horizon: column_of(horizon)?,
        created: column_of(counts.created)?,
        edited: column_of(counts.edited)?,
        imported: column_of(counts.imported)?,
        import_edited: column_of(counts.import_edited)?,
        moved_in: column_of(counts.moved_in)?,
        deleted: column_of(counts.deleted)?,
        moved_out: column_of(counts.moved_out)?,
    })
}

/// The canonical text of the card, which parses back to the card. Fails with `Memory`
/// if memory runs out.
pub fn text_of_card(alloc: Global, card: &Card) -> Result<String, Denied>
    ensures canonical { IfOk result (λ text. string_bytes text ≡ canonical_text card.now) }
    ensures reads_back { IfOk result (λ text. text_card (string_bytes text) ≡ card.now) }
    ensures is_canonical { IfOk result (λ text. IsCanonical (string_bytes text)) }
    ensures fault { IfErr result IsDeniedFault }
    ensures memory { FailsOnlyForMemory result }
{
    card_is_computed();
    match String::from_utf8(write_card(alloc, card)?) {
        Ok(text) => Ok(text),
        Err(_) => Err(Denied::Fault(Fault::Store)),
    }
}
