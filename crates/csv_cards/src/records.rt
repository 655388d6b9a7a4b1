//! Reads CSV records and their fields.
ghost use Rattle.std.specs.Prelude.{◌≡◌, ◌≢◌, ◌↔◌, ◌∷◌, ◌++◌, [], ℕ, List, IfOk, IfSome, IfNone};
ghost use Rattle.std.specs.Prelude.{IsTrue, IsUtf8, OnOk, map, true, false};
ghost use Rattle.csv.specs.Records.{AllText, fields_of};
ghost use Rattle.csv_cards.specs.Rows.{Row, AreRows, header, row_field};
ghost use Rattle.csv_cards.specs.internal.ReaderState.{HasReadRows};
ghost use Rattle.csv_cards.specs.declared.form.Form.{Form};

use crate::form::Form;
use csv::{ByteRecord, Reader, ReaderBuilder};
use std::alloc::Global;
use vcard_text::NoMemory;

/// A reader of a text's records, with any number of fields each. It treats no row as a header, and
/// skips a byte order mark.
pub(crate) fn reader_of(alloc: Global, text: &[u8]) -> Reader<&[u8]>
    ensures { HasReadRows result text.now [] }
{
    ReaderBuilder::new()
        .has_headers(false)
        .flexible(true)
        .from_reader(alloc, text)
}

/// Reads the next record and returns whether there is one. When reading from memory, the library
/// fails only by running out of memory. Its contract also allows an error of the underlying reader,
/// which is reported as out of memory too.
pub(crate) fn read_record(
    reader: &mut Reader<&[u8]>,
    row: &mut ByteRecord,
) -> Result<bool, NoMemory>
    ensures more { (text : List ℕ) (rows : List Row) → HasReadRows reader.old text rows
        → IfOk result (λ found. found ≡ true
        → HasReadRows reader.new text (rows ++ fields_of row.new ∷ [])) }
    ensures end { (text : List ℕ) (rows : List Row) → HasReadRows reader.old text rows
        → IfOk result (λ found. found ≡ false → AreRows text rows) }
{
    let Ok(found) = reader.read_byte_record(row) else {
        return Err(NoMemory);
    };
    Ok(found)
}

/// The field at the index, or an empty one if there are fewer fields.
pub(crate) fn row_field(row: &ByteRecord, place: usize) -> &[u8]
    ensures { result.now ≡ row_field (fields_of row.now) place }
{
    match row.get(place) {
        Some(row_field) => row_field,
        None => b"",
    }
}

fn is_utf8(octets: &[u8]) -> bool
    ensures { IsTrue result ↔ IsUtf8 octets.now }
{
    str::from_utf8(octets).is_ok()
}

/// Whether each field is UTF-8.
pub(crate) fn is_utf8_row(row: &ByteRecord) -> bool
    ensures { IsTrue result ↔ AllText (fields_of row.now) }
{
    for place in 0..row.len() {
        if !is_utf8(row_field(row, place)) {
            return false;
        }
    }
    true
}

/// Whether the field at the index equals the name.
fn is_field(row: &ByteRecord, place: usize, name: &str) -> bool
    ensures { IsTrue result ↔ (row_field (fields_of row.now) place ≡ name.now) }
{
    row_field(row, place) == name.as_bytes()
}

/// Whether the fields are exactly these names.
fn has_fields(row: &ByteRecord, names: &[&str]) -> bool
    ensures { IsTrue result ↔ (fields_of row.now ≡ map (λ name. name.now) names.now) }
{
    if row.len() != names.len() {
        return false;
    }
    for place in 0..names.len() {
        if !is_field(row, place, names[place]) {
            return false;
        }
    }
    true
}

/// The form whose header is this record.
pub(crate) fn form_of(row: &ByteRecord) -> Option<Form>
    ensures some { IfSome result (λ form. fields_of row.now ≡ header form) }
    ensures none { IfNone result ((form : Form) → fields_of row.now ≢ header form) }
{
    if has_fields(row, &["uid", "vcard"]) {
        return Some(Form::Cards);
    }
    let columns = [
        "uid", "fn", "family", "given", "email", "tel", "org", "note",
    ];
    if has_fields(row, &columns) {
        return Some(Form::Columns);
    }
    None
}
