//! Whether the first row of a file looks like a header, though its columns are given by number
//! alone.

use crate::cell::cell_text;
use crate::fields::row_field;
use crate::header::{first_row, is_missing};
use crate::headerless::find_rows;
use crate::wishes::{has_rows_entry, read_wishes};
use base_types::NoMemory;
use csv::ByteRecord;
use std::alloc::Global;

/// Whether a cell can't be a value of the property: an address of electronic mail has an `@`, and a
/// number or a date a digit.
fn is_no_value(property: &str, cell: &str) -> bool {
    let cell = cell.trim();
    match property {
        "EMAIL" => !cell.is_empty() && !cell.contains('@'),
        "TEL" | "BDAY" | "ANNIVERSARY" => {
            !cell.is_empty() && !cell.chars().any(|c| c.is_ascii_digit())
        }
        _ => false,
    }
}

/// Whether the file may have a header: what is wished names each column by its number and doesn't
/// say that there is none, no header is known, and the first row has a cell that can't be a value
/// of its column. So neither is a person lost, nor a header made one, without a word.
pub(crate) fn is_doubtful(alloc: Global, head: &[u8], wished: &str) -> Result<bool, NoMemory> {
    if has_rows_entry(wished) || !is_missing(alloc, head, wished)? {
        return Ok(false);
    }
    let Some(header) = find_rows(alloc, head, wished)? else {
        return Ok(false);
    };
    let rows = head.get(header.start..).unwrap_or(&[]);
    let row = first_row(alloc, rows, header.delimiter)?;
    has_no_value(alloc, &row, wished)
}

/// Whether the row has a cell that can't be a value of the property that its column is given.
fn has_no_value(alloc: Global, row: &ByteRecord, wished: &str) -> Result<bool, NoMemory> {
    for wish in &read_wishes(alloc, wished)? {
        if let Some(place) = wish.place() {
            let text = cell_text(alloc, row_field(row, place))?;
            if is_no_value(wish.target.property, text.as_str()) {
                return Ok(true);
            }
        }
    }
    Ok(false)
}
