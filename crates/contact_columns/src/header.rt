//! Where the header of a file of contacts is, and the delimiter of its cells.

use crate::above::{ABOVE_MAX, AboveLine, lines_above};
use crate::columns::read_columns;
use crate::dates::DateOrder;
use crate::headerless::find_rows;
use crate::recognized::unread_columns;
use crate::row_ends::rows_end_with_returns;
use crate::row_scan::mark_len;
use crate::wishes::{are_numbers, has_rows_entry, most_number};
use base_types::{NoMemory, Text};
use csv::{ByteRecord, ReaderBuilder};
use std::alloc::Global;

/// The header of a file of contacts.
#[derive(Clone, Copy)]
pub struct Header<'a> {
    /// The number of octets before it: those of a mark, of a line `sep=;`, of notes or of empty
    /// lines.
    pub start: usize,
    /// The number of lines before it.
    pub lines: u64,
    /// The lines before it, from the first on, and blank ones after them.
    pub above: [AboveLine; ABOVE_MAX],
    /// The octet between cells.
    pub delimiter: u8,
    /// The number of its cells.
    pub width: usize,
    /// The order of day and month in the dates below it, if it was found.
    pub dates: DateOrder,
    /// What the user says of its columns (see `read_columns`); empty for nothing.
    pub wished: &'a str,
    /// Whether the file has none. All else is said of its rows then, and `made_header` is read
    /// above them.
    pub is_missing: bool,
}

/// The delimiters between cells that are tried.
pub(crate) const DELIMITERS: [u8; 4] = [b',', b';', b'|', b'\t'];

/// The lines among which the header is looked for.
const LINES_MAX: u64 = 5;

/// The first row of the octets, with this delimiter.
pub(crate) fn first_row(
    alloc: Global,
    octets: &[u8],
    delimiter: u8,
) -> Result<ByteRecord, NoMemory> {
    let mut reader = ReaderBuilder::new()
        .has_headers(false)
        .flexible(true)
        .delimiter(delimiter)
        .from_reader(alloc, octets);
    let mut row = ByteRecord::new(alloc);
    match reader.read_byte_record(&mut row) {
        Ok(_) => Ok(row),
        Err(_) => Err(NoMemory),
    }
}

/// The delimiter with which the octets begin with a header of contacts, and the number of its
/// cells. Of several the one with the most cells.
fn header_at(alloc: Global, octets: &[u8], wished: &str) -> Result<Option<(u8, usize)>, NoMemory> {
    let mut found: Option<(u8, usize)> = None;
    for delimiter in DELIMITERS {
        let row = first_row(alloc, octets, delimiter)?;
        let most = found.map_or(0, |it| it.1);
        if row.len() > most && read_columns(alloc, &row, wished)?.is_some() {
            found = Some((delimiter, row.len()));
        }
    }
    Ok(found)
}

/// The number of octets of the first line. `are_returns` says that lines end with a carriage return
/// alone.
pub(crate) fn line_len(octets: &[u8], are_returns: bool) -> usize {
    let end = if are_returns { b'\r' } else { b'\n' };
    match octets.iter().position(|octet| *octet == end) {
        Some(place) => place.saturating_add(1),
        None => octets.len(),
    }
}

/// The number of octets of the empty lines at the front, perhaps after a byte order mark, and how
/// many lines they are. The library passes them with the header, which is the first row.
pub(crate) fn empty_lines(octets: &[u8], are_returns: bool) -> (usize, u64) {
    let mark = mark_len(octets);
    let rest = octets.get(mark..).unwrap_or(&[]);
    let count = rest
        .iter()
        .take_while(|octet| **octet == b'\r' || **octet == b'\n')
        .count();
    if count == 0 {
        return (0, 0);
    }
    let end = if are_returns { b'\r' } else { b'\n' };
    let ends = rest
        .iter()
        .take(count)
        .filter(|octet| **octet == end)
        .count();
    (mark.saturating_add(count), ends as u64)
}

/// Finds a header whose columns are known, or are all that are wished.
fn find_written<'a>(
    alloc: Global,
    head: &[u8],
    wished: &'a str,
) -> Result<Option<Header<'a>>, NoMemory> {
    let are_returns = rows_end_with_returns(head);
    let mut start: usize = 0;
    for lines in 0..LINES_MAX {
        let rest = head.get(start..).unwrap_or(&[]);
        if let Some((delimiter, width)) = header_at(alloc, rest, wished)? {
            let (empty, more) = empty_lines(rest, are_returns);
            let start = start.saturating_add(empty);
            let before = head.get(..start).unwrap_or(&[]);
            return Ok(Some(Header {
                start,
                lines: lines.saturating_add(more),
                above: lines_above(alloc, before, are_returns, delimiter, width)?,
                delimiter,
                width,
                dates: DateOrder::Unknown,
                wished,
                is_missing: false,
            }));
        }
        start = start.saturating_add(line_len(rest, are_returns));
    }
    Ok(None)
}

impl<'a> Header<'a> {
    /// This header, with an order of day and month that was found below it.
    pub fn with_dates(self, dates: DateOrder) -> Header<'a> {
        Header { dates, ..self }
    }
}

/// Whether the file has no header: what is wished names each column by its number, and no row among
/// the first lines is a header that is known. So a person isn't taken for one.
pub(crate) fn is_missing(alloc: Global, head: &[u8], wished: &str) -> Result<bool, NoMemory> {
    Ok(are_numbers(wished) && (has_rows_entry(wished) || find_written(alloc, head, "")?.is_none()))
}

/// Finds the header of a file of contacts: in the first line, or after up to four other lines. Its
/// cells have a comma, a semicolon, a tab or a vertical bar between them. `None` if there is none.
/// `head` is the beginning of the file, at least to the end of the header. `wished` says what its
/// columns become, and may be empty (see `read_columns`). If it names each by its number and no
/// header is known, the file has none, and each of its rows is a person. The only `Err` is out of
/// memory.
pub fn find_header<'a>(
    alloc: Global,
    head: &[u8],
    wished: &'a str,
) -> Result<Option<Header<'a>>, NoMemory> {
    if !are_numbers(wished) {
        return find_written(alloc, head, wished);
    }
    if has_rows_entry(wished) {
        return find_rows(alloc, head, wished);
    }
    match find_written(alloc, head, "")? {
        Some(known) if most_number(wished) <= known.width => {
            Ok(Some(Header { wished, ..known }))
        }
        Some(_) => Ok(None),
        None => find_rows(alloc, head, wished),
    }
}

/// The columns of the first row that should have names, addresses of electronic mail or numbers of
/// telephones by their names, and that aren't known. The only `Err` is out of memory.
pub fn unknown_columns(alloc: Global, head: &[u8]) -> Result<Text, NoMemory> {
    let mut names = String::new(alloc);
    for delimiter in DELIMITERS {
        let row = first_row(alloc, head, delimiter)?;
        if names.is_empty() && row.len() > 1 {
            names = unread_columns(alloc, &row)?;
        }
    }
    Ok(Text::new(names))
}
