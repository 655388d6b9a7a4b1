//! Reads a row, and decides what becomes of it.
ghost use Rattle.std.specs.Prelude.{◌≡◌, IfOk, Ok};
ghost use Rattle.vcard_text.specs.Cards.{IsCard};
ghost use Rattle.contact_csv.specs.Contacts.{IsReady, columns_of};
ghost use Rattle.card_conversion.specs.internal.ContactStates.{ReadsRow, TakesRow};

use crate::contacts::fate::RowFate;
use crate::moved::own_uid;
use crate::{CardSink, Outcome, deliver};
use base_types::{NoMemory, TextMap};
use contact_csv::{ContactFault, ContactReader, RowFault};
use convert_report::ConversionFault;
use std::alloc::Global;
use std::io::Read;
use vcard_changes::Conversion;

/// Reads the contact of the next row, or its fault; `None` after the last row.
pub(crate) fn next_row<R: Read + Drop>(
    alloc: Global,
    contacts: &mut ContactReader<R>,
) -> Result<Option<Result<Conversion, RowFault>>, ConversionFault>
    ensures row { IfOk result (λ row. IsReady contacts.old
        → ReadsRow R.remaining contacts.old contacts.new row) }
    ensures columns { columns_of contacts.new ≡ columns_of contacts.old }
    ensures ready { IfOk result (λ _. IsReady contacts.old → IsReady contacts.new) }
{
    match contacts.read_contact(alloc) {
        Ok(row) => Ok(row),
        Err(ContactFault::Memory) => Err(ConversionFault::Memory),
        Err(_) => Err(ConversionFault::Input),
    }
}

/// The UID of its own that the card of a row would have. It is carried without nothing.
fn row_own_uid(alloc: Global, made: &Conversion) -> Result<String, NoMemory> {
    own_uid(alloc, &[], made)
}

/// Whether the card is the same as an earlier one, but for a collision of SHA-1.
fn is_same(
    alloc: Global,
    uids: &TextMap<()>,
    row_cards: &TextMap<()>,
    made: &Conversion,
) -> Result<bool, NoMemory> {
    let own = row_own_uid(alloc, made)?;
    Ok(uids.get(own.as_str()).is_some() || row_cards.get(own.as_str()).is_some())
}

/// Writes a card, unless an earlier one has its UID.
fn deliver_row<O: CardSink>(
    alloc: Global,
    uids: &mut TextMap<()>,
    row_cards: &mut TextMap<()>,
    number: u64,
    conversion: Conversion,
    sink: &mut O,
) -> Result<RowFate, ConversionFault>
    ensures { IfOk result (λ fate. IsCard conversion.card → TakesRow O.writes (Ok conversion)
        uids.old uids.new sink.old sink.new fate) }
{
    match deliver(alloc, uids, number, &conversion.card, sink)? {
        Outcome::Repeated => {
            if is_same(alloc, uids, row_cards, &conversion)? {
                Ok(RowFate::Repeated(conversion))
            } else {
                Ok(RowFate::Taken(conversion))
            }
        }
        Outcome::Declined(words) => Ok(RowFate::Declined(conversion, words)),
        Outcome::Written => {
            row_cards.insert(row_own_uid(alloc, &conversion)?, ())?;
            Ok(RowFate::Written(conversion))
        }
    }
}

/// Writes the card of a row to the sink. `number` counts the rows, from 1.
pub(crate) fn take_row<O: CardSink>(
    alloc: Global,
    uids: &mut TextMap<()>,
    row_cards: &mut TextMap<()>,
    number: u64,
    row: Result<Conversion, RowFault>,
    sink: &mut O,
) -> Result<RowFate, ConversionFault>
    ensures { IfOk result (TakesRow O.writes row uids.old uids.new sink.old sink.new) }
{
    match row {
        Ok(conversion) => {
            // Its clause says that the lines keep the rules of a card.
            let _lines = conversion.card.lines();
            deliver_row(alloc, uids, row_cards, number, conversion, sink)
        }
        Err(fault) => Ok(RowFate::Refused(fault)),
    }
}
