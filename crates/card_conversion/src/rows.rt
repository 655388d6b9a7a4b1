//! The rows of an import: `uid,vcard`.
ghost use Rattle.std.specs.Prelude.{◌≡◌, IfOk, map};
ghost use Rattle.csv.specs.Writing.{default_writer, row_text as text_of_row};
ghost use Rattle.csv_cards.specs.Rows.{header};
ghost use Rattle.csv_cards.specs.Writing.{card_row};
ghost use Rattle.csv_cards.specs.declared.form.Form.TheVariants.{Cards};

use base_types::NoMemory;
use csv::WriterBuilder;
use std::alloc::Global;
use vcard_text::{Card, write_card};

/// The text of one row (RFC 4180).
fn fields_text(alloc: Global, fields: &[&[u8]]) -> Result<Vec<u8>, NoMemory>
    ensures { IfOk result (λ text. text.items
        ≡ text_of_row default_writer (map (λ row_field. row_field.now) fields.now)) }
{
    let mut writer = WriterBuilder::new().from_writer(Vec::new(alloc));
    if writer.write_fields(fields).is_err() {
        return Err(NoMemory);
    }
    match writer.into_inner() {
        Ok(text) => Ok(text),
        Err(_) => Err(NoMemory),
    }
}

/// The header of the rows of an import. The only `Err` is out of memory.
pub fn header_text(alloc: Global) -> Result<Vec<u8>, NoMemory>
    ensures { IfOk result (λ text. text.items ≡ text_of_row default_writer (header Cards)) }
{
    fields_text(alloc, &[b"uid", b"vcard"])
}

/// The row of a card: its UID and its canonical text. The only `Err` is out of memory.
pub fn row_text(alloc: Global, card: &Card) -> Result<Vec<u8>, NoMemory>
    ensures { IfOk result (λ text. text.items
        ≡ text_of_row default_writer (card_row Cards card.now)) }
{
    let text = write_card(alloc, card)?;
    fields_text(alloc, &[card.uid().as_bytes(), text.as_slice()])
}
