//! Writes cards as CSV text.
ghost use Rattle.std.specs.Prelude.{◌≡◌, ◌∷◌, [], IfOk, OnOk, map, string_bytes};
ghost use Rattle.std.specs.FinMap as finite;
ghost use Rattle.csv.specs.Writing.{default_writer, row_text};
ghost use Rattle.csv_cards.specs.Rows.{header};
ghost use Rattle.csv_cards.specs.Reading.{TextHasCards};
ghost use Rattle.csv_cards.specs.ReadBack.{AreUnderOwnUids};
ghost use Rattle.csv_cards.specs.Writing.{csv_text, first_component, first_text, first_value};
ghost use Rattle.csv_cards.specs.Writing.{card_row};
ghost use Rattle.csv_cards.specs.declared.form.Form.TheVariants.{Cards, Columns};
ghost use Rattle.csv_cards.specs.internal.WriterState.{AppendsOctets, IsAtRowStart};

use crate::form::Form;
use crate::laws::written_cards_are_read;
use crate::order::CardsInOrder;
use csv::{Writer, WriterBuilder};
use std::alloc::Global;
use vcard_text::{Card, NoMemory, components, unescape, write_card};

/// The value of the card's first line with the name, or an empty text if it has none.
fn first_value<'a>(card: &'a Card, name: &str) -> &'a str
    ensures { result.now ≡ first_value name.now card.now }
{
    match card.first(name) {
        Some(line) => line.value.as_str(),
        None => "",
    }
}

/// The text of the card's first line with the name.
fn first_text(alloc: Global, card: &Card, name: &str) -> Result<String, NoMemory>
    ensures { IfOk result (λ text. string_bytes text ≡ first_text name.now card.now) }
{
    unescape(alloc, first_value(card, name))
}

/// The component at the index of the card's first line with the name.
fn first_component(alloc: Global, card: &Card, name: &str, place: usize) -> Result<String, NoMemory>
    ensures { IfOk result (λ text. string_bytes text ≡ first_component name.now place card.now) }
{
    let parts = components(alloc, first_value(card, name))?;
    match parts.get(place) {
        Some(part) => Ok(String::from_str(alloc, part.as_str())?),
        None => Ok(String::new(alloc)),
    }
}

/// Writes a row.
fn write_fields(writer: &mut Writer<Vec<u8>>, fields: &[&[u8]]) -> Result<(), NoMemory>
    requires { IsAtRowStart writer.old }
    ensures row_start { OnOk result (IsAtRowStart writer.new) }
    ensures appends { OnOk result (AppendsOctets writer.old writer.new
        (row_text default_writer (map (λ row_field. row_field.now) fields.now))) }
{
    match writer.write_fields(fields) {
        Ok(()) => Ok(()),
        Err(_) => Err(NoMemory),
    }
}

fn write_header(writer: &mut Writer<Vec<u8>>, form: Form) -> Result<(), NoMemory>
    requires { IsAtRowStart writer.old }
    ensures row_start { OnOk result (IsAtRowStart writer.new) }
    ensures appends { OnOk result (AppendsOctets writer.old writer.new
        (row_text default_writer (header form))) }
{
    match form {
        Form::Cards => write_fields(writer, &[b"uid", b"vcard"]),
        Form::Columns => write_fields(
            writer,
            &[
                b"uid", b"fn", b"family", b"given", b"email", b"tel", b"org", b"note",
            ],
        ),
    }
}

/// Writes a row with the card's UID and text.
fn write_text(alloc: Global, writer: &mut Writer<Vec<u8>>, card: &Card) -> Result<(), NoMemory>
    requires { IsAtRowStart writer.old }
    ensures row_start { OnOk result (IsAtRowStart writer.new) }
    ensures appends { OnOk result (AppendsOctets writer.old writer.new
        (row_text default_writer (card_row Cards card.now))) }
{
    let text = write_card(alloc, card)?;
    write_fields(writer, &[card.uid().as_bytes(), text.as_slice()])
}

/// Writes a row with the card's parts in columns.
fn write_columns(alloc: Global, writer: &mut Writer<Vec<u8>>, card: &Card) -> Result<(), NoMemory>
    requires { IsAtRowStart writer.old }
    ensures row_start { OnOk result (IsAtRowStart writer.new) }
    ensures appends { OnOk result (AppendsOctets writer.old writer.new
        (row_text default_writer (card_row Columns card.now))) }
{
    let name = first_text(alloc, card, "FN")?;
    let family = first_component(alloc, card, "N", 0)?;
    let given = first_component(alloc, card, "N", 1)?;
    let email = first_text(alloc, card, "EMAIL")?;
    let telephone = first_text(alloc, card, "TEL")?;
    let organization = first_component(alloc, card, "ORG", 0)?;
    let note = first_text(alloc, card, "NOTE")?;
    write_fields(
        writer,
        &[
            card.uid().as_bytes(),
            name.as_bytes(),
            family.as_bytes(),
            given.as_bytes(),
            email.as_bytes(),
            telephone.as_bytes(),
            organization.as_bytes(),
            note.as_bytes(),
        ],
    )
}

/// Writes the row of a card in the form.
fn write_row(
    alloc: Global,
    writer: &mut Writer<Vec<u8>>,
    form: Form,
    card: &Card,
) -> Result<(), NoMemory>
    requires { IsAtRowStart writer.old }
    ensures row_start { OnOk result (IsAtRowStart writer.new) }
    ensures appends { OnOk result (AppendsOctets writer.old writer.new
        (row_text default_writer (card_row form card.now))) }
{
    match form {
        Form::Cards => write_text(alloc, writer, card),
        Form::Columns => write_columns(alloc, writer, card),
    }
}

/// The CSV text of the cards, in order. Besides the output only one row at a time is kept.
fn write_list(alloc: Global, cards: &[&Card], form: Form) -> Result<Vec<u8>, NoMemory>
    ensures { IfOk result (λ text. text.items
        ≡ csv_text form (map (λ card. card.now) cards.now)) }
{
    let mut writer = WriterBuilder::new().from_writer(Vec::new(alloc));
    write_header(&mut writer, form)?;
    for card in cards {
        write_row(alloc, &mut writer, form, *card)?;
    }
    match writer.into_inner() {
        Ok(text) => Ok(text),
        Err(_) => Err(NoMemory),
    }
}

/// Writes cards as CSV text (RFC 4180): the header of the form and a row for each card, in the
/// octet order of their UIDs. The library `csv` writes the rows, each ended by a line feed.
///
/// In form `Cards` a row is the card's UID and its canonical text. In form `Columns` it is the UID,
/// the text of the first FN line, the first two components of the first N line, the texts of the
/// first EMAIL and TEL lines, the first component of the first ORG line and the text of the first
/// NOTE line; each is empty if there is no such line. The only `Err` is out of memory.
pub fn write_rows<C: CardsInOrder>(
    alloc: Global,
    cards: &C,
    form: Form,
) -> Result<Vec<u8>, NoMemory>
    // The text is the header and the cards' rows.
    ensures text { IfOk result (λ text. text.items
        ≡ csv_text form (finite.values (C.cards cards.now))) }

    // In form `Cards`, cards under their own UIDs are read back as the same cards, in order.
    ensures read_back { IfOk result (λ text. form ≡ Cards → AreUnderOwnUids (C.cards cards.now)
        → TextHasCards text.items (finite.values (C.cards cards.now))) }
{
    // A law: what form `Cards` writes is read back as the cards.
    written_cards_are_read();

    let list = cards.in_order(alloc)?;
    write_list(alloc, list.as_slice(), form)
}
