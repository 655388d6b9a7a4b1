//! Finds in which order the dates of a file have their day and their month.

use crate::columns::{ContactColumns, read_columns};
use crate::dates::{DateOrder, DateSigns};
use crate::fields::row_field;
use crate::header::Header;
use base_types::NoMemory;
use csv::{ByteRecord, ErrorKind, Reader, ReaderBuilder};
use std::alloc::Global;
use std::io::Read;

/// The places of the columns with dates.
fn date_places(alloc: Global, columns: &ContactColumns) -> Result<Vec<usize>, NoMemory> {
    let mut places = Vec::new(alloc);
    for place in 0..columns.columns.len() {
        let property = columns.columns.as_slice()[place].property.as_str();
        if matches!(property, "BDAY" | "ANNIVERSARY" | "X-ABDATE") {
            places.push(place)?;
        }
    }
    Ok(places)
}

/// Notes the dates of a row.
fn note_dates(signs: &mut DateSigns, places: &[usize], row: &ByteRecord) {
    for place in places {
        if let Ok(text) = str::from_utf8(row_field(row, *place)) {
            signs.note(text);
        }
    }
}

/// Reads the next row, and returns whether there is one. None is read of a source that fails.
fn read_row<R: Read>(rows: &mut Reader<R>, row: &mut ByteRecord) -> Result<bool, NoMemory> {
    match rows.read_byte_record(row) {
        Ok(found) => Ok(found),
        Err(error) => match error.kind() {
            ErrorKind::OutOfMemory => Err(NoMemory),
            _ => Ok(false),
        },
    }
}

/// The places of the columns with dates, of a header that is read.
fn places_in_header<R: Read>(
    alloc: Global,
    rows: &mut Reader<R>,
    row: &mut ByteRecord,
    wished: &str,
) -> Result<Vec<usize>, NoMemory> {
    if !read_row(rows, row)? {
        return Ok(Vec::new(alloc));
    }
    match read_columns(alloc, row, wished)? {
        Some(columns) => date_places(alloc, &columns),
        None => Ok(Vec::new(alloc)),
    }
}

/// The order of day and month in the columns at these places, by all rows that are left.
fn order_below<R: Read>(
    rows: &mut Reader<R>,
    row: &mut ByteRecord,
    places: &[usize],
) -> Result<Option<DateOrder>, NoMemory> {
    let mut signs = DateSigns::new();
    for _row in 0..u64::MAX {
        if !read_row(rows, row)? {
            break;
        }
        note_dates(&mut signs, places, row);
    }
    Ok(signs.order())
}

/// The order of day and month in rows of which the first is the header.
fn order_in<R: Read>(
    alloc: Global,
    rows: &mut Reader<R>,
    wished: &str,
) -> Result<Option<DateOrder>, NoMemory> {
    let mut row = ByteRecord::new(alloc);
    let places = places_in_header(alloc, rows, &mut row, wished)?;
    if places.is_empty() {
        return Ok(Some(DateOrder::Unknown));
    }
    order_below(rows, &mut row, places.as_slice())
}

/// Whether the day or the month comes first in the dates of a file, by all its rows. `source`
/// begins with the header. `None` if there are dates that may be two, and none says which they are,
/// or some say the one and some the other. The only `Err` is out of memory.
pub fn read_date_order<R: Read + Drop>(
    alloc: Global,
    source: R,
    header: Header<'_>,
) -> Result<Option<DateOrder>, NoMemory> {
    let mut rows = ReaderBuilder::new()
        .has_headers(false)
        .flexible(true)
        .delimiter(header.delimiter)
        .from_reader(alloc, source);
    order_in(alloc, &mut rows, header.wished)
}
