//! Finds the card of a row, and the line at which the card has its first fault.
ghost use Rattle.std.specs.Prelude.{◌≡◌, ◌↔◌, ◌∷◌, ◌++◌, [], ℕ, List, IfOk};
ghost use Rattle.std.specs.Prelude.{IsTrue, false, true};
ghost use Rattle.cli_orders.specs.CardRows.{HasNoCardText, IsCardTextOfRow, IsLineInCard};
ghost use Rattle.cli_orders.specs.CardRows.{IsLineInRow};
ghost use Rattle.csv_cards.specs.internal.ReaderState.{HasReadRows};
ghost use Rattle.cli_orders.specs.internal.RowReaders.{HasFewerRows, SkipsRows};
ghost use Rattle.csv.specs.Records.{fields_of};
ghost use Rattle.csv_cards.specs.Rows.{AreRows, Row, header, row_field};
ghost use Rattle.csv_cards.specs.declared.form.Form.TheVariants as form;

use crate::fault_line::line_of_fault;
use csv::{ByteRecord, Reader, ReaderBuilder};
use csv_cards::{CsvCause, CsvFault};
use std::alloc::Global;
use vcard_text::{CardFault, NoMemory};

/// A reader of a text's rows, with any number of fields each. It treats no row as a header, and
/// skips a byte order mark.
fn reader_of(alloc: Global, text: &[u8]) -> Reader<&[u8]>
    ensures { HasReadRows result text.now [] }
{
    ReaderBuilder::new()
        .has_headers(false)
        .flexible(true)
        .from_reader(alloc, text)
}

/// Reads the next row and returns whether there is one. Reading from memory fails only if memory
/// runs out.
fn read_next(reader: &mut Reader<&[u8]>, row: &mut ByteRecord) -> Result<bool, NoMemory>
    ensures more { (text : List ℕ) (rows : List Row) → HasReadRows reader.old text rows
        → IfOk result (λ found. found ≡ true
        → HasReadRows reader.new text (rows ++ fields_of row.new ∷ [])) }
    ensures end { (text : List ℕ) (rows : List Row) → HasReadRows reader.old text rows
        → IfOk result (λ found. found ≡ false → AreRows text rows) }
{
    let Ok(found) = reader.read_byte_record(row) else {
        return Err(NoMemory);
    };
    Ok(found)
}

/// Reads this number of rows. Returns whether there are that many.
fn skip_rows(reader: &mut Reader<&[u8]>, row: &mut ByteRecord, count: u64) -> Result<bool, NoMemory>
    ensures more { (text : List ℕ) (rows : List Row) → HasReadRows reader.old text rows
        → IfOk result (λ found. found ≡ true → SkipsRows reader.new text rows count) }
    ensures end { (text : List ℕ) (rows : List Row) → HasReadRows reader.old text rows
        → IfOk result (λ found. found ≡ false → HasFewerRows text rows count) }
{
    for _row in 0..count {
        if !read_next(reader, row)? {
            return Ok(false);
        }
    }
    Ok(true)
}

/// The field at the index, or an empty one if there are fewer fields.
fn row_field(row: &ByteRecord, place: usize) -> &[u8]
    ensures { result.now ≡ row_field (fields_of row.now) place }
{
    match row.get(place) {
        Some(octets) => octets,
        None => b"",
    }
}

/// Whether the field at the index equals the name.
fn is_field(row: &ByteRecord, place: usize, name: &str) -> bool
    ensures { IsTrue result ↔ (row_field (fields_of row.now) place ≡ name.now) }
{
    row_field(row, place) == name.as_bytes()
}

/// Whether the row is the header `uid,vcard`.
fn is_card_header(row: &ByteRecord) -> bool
    ensures { IsTrue result ↔ (fields_of row.now ≡ header form.Cards) }
{
    if row.len() != 2 {
        return false;
    }
    if !is_field(row, 0, "uid") {
        return false;
    }
    is_field(row, 1, "vcard")
}

/// Reads the row with this number, counted from the header, which is row 0. Returns whether the
/// header is `uid,vcard` and there is such a row after it.
fn read_card_row(
    alloc: Global,
    octets: &[u8],
    number: u64,
    row: &mut ByteRecord,
) -> Result<bool, NoMemory>
    ensures found { IfOk result (λ found. found ≡ true
        → IsCardTextOfRow octets.now number (row_field (fields_of row.new) 1)) }
    ensures none { IfOk result (λ found. found ≡ false → HasNoCardText octets.now number) }
{
    if number == 0 {
        return Ok(false);
    }
    let mut reader = reader_of(alloc, octets);
    if !read_next(&mut reader, row)? {
        return Ok(false);
    }
    if !is_card_header(row) {
        return Ok(false);
    }
    if !skip_rows(&mut reader, row, number - 1)? {
        return Ok(false);
    }
    read_next(&mut reader, row)
}

/// The line in the card of this row at which the card has its fault.
fn line_in_card(
    alloc: Global,
    octets: &[u8],
    number: u64,
    fault: CardFault,
) -> Result<Option<u64>, NoMemory>
    ensures { IfOk result (IsLineInCard octets.now number fault) }
{
    let mut row = ByteRecord::new(alloc);
    if !read_card_row(alloc, octets, number, &mut row)? {
        return Ok(None);
    }
    line_of_fault(alloc, row_field(&row, 1), fault)
}

/// The line in the row's card at which the card has its first fault, counted from 1. `None` if the
/// row isn't faulty for its card, or its card is in columns, or the fault isn't one of a line.
///
/// It reads the rows again up to the faulty one. `NoMemory` if an allocation fails.
pub(crate) fn line_in_row(
    alloc: Global,
    octets: &[u8],
    fault: CsvFault,
) -> Result<Option<u64>, NoMemory>
    ensures { IfOk result (IsLineInRow octets.now fault) }
{
    match fault.cause {
        CsvCause::BadCard(card_fault) => line_in_card(alloc, octets, fault.row, card_fault),
        _ => Ok(None),
    }
}
