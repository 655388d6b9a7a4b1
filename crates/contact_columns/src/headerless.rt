//! Files of contacts without a header, whose columns the user names by their numbers alone.
ghost use Rattle.std.specs.Prelude.{◌≡◌, [], IfOk, false};

use crate::above::{lines_above, named_octet, names_delimiter};
use crate::dates::DateOrder;
use crate::header::{DELIMITERS, Header, empty_lines, line_len};
use crate::row_ends::{first_end_place, rows_end_with_returns};
use crate::wishes::{CELLS_MAX, RowForm, most_number, wished_form};
use base_types::{Items, NoMemory, Text};
use csv::{ByteRecord, ReaderBuilder};
use std::alloc::Global;

/// The rows from which the delimiter and the number of cells are known.
const ROWS_TRIED: usize = 10;

/// The form of rows: the delimiter, the number of cells, and how many of the first rows have it.
#[derive(Clone, Copy)]
struct Form {
    delimiter: u8,
    width: usize,
    rows: usize,
}

/// The numbers of cells of the first rows, with this delimiter.
fn first_widths(alloc: Global, octets: &[u8], delimiter: u8) -> Result<Vec<usize>, NoMemory> {
    let mut reader = ReaderBuilder::new()
        .has_headers(false)
        .flexible(true)
        .delimiter(delimiter)
        .from_reader(alloc, octets);
    let mut row = ByteRecord::new(alloc);
    let mut widths = Vec::new(alloc);
    for _row in 0..ROWS_TRIED {
        match reader.read_byte_record(&mut row) {
            Ok(true) => widths.push(row.len())?,
            Ok(false) => break,
            Err(_) => return Err(NoMemory),
        }
    }
    Ok(widths)
}

/// Whether more rows have the one form, or as many have it with more cells.
fn is_better(one: Form, other: Option<Form>) -> bool {
    match other {
        Some(other) => {
            one.rows > other.rows || (one.rows == other.rows && one.width > other.width)
        }
        None => true,
    }
}

/// The form that most of the first rows have, of those with at least this number of cells. `named`
/// is the delimiter that a line above them names. A comma is tried last, since it is in many names
/// and addresses.
fn form_of(
    alloc: Global,
    octets: &[u8],
    least: usize,
    named: Option<u8>,
) -> Result<Option<Form>, NoMemory> {
    let mut found: Option<Form> = None;
    for delimiter in DELIMITERS.iter().rev() {
        let delimiter = *delimiter;
        if named.is_some() && named != Some(delimiter) {
            continue;
        }
        let widths = first_widths(alloc, octets, delimiter)?;
        for width in &widths {
            let width = *width;
            let form = Form {
                delimiter,
                width,
                rows: widths.as_slice().iter().filter(|it| **it == width).count(),
            };
            if width >= least && is_better(form, found) {
                found = Some(form);
            }
        }
    }
    Ok(found)
}

/// What is before the rows.
#[derive(Clone, Copy)]
struct RowsStart {
    octets: usize,
    lines: u64,
    /// The delimiter that it names, if it is one that is tried.
    named: Option<u8>,
}

/// The delimiter that a line names, if it is one that is tried.
fn named_delimiter(line: &[u8]) -> Option<u8> {
    let named = named_octet(line)?;
    if DELIMITERS.iter().any(|delimiter| *delimiter == named) {
        Some(named)
    } else {
        None
    }
}

/// The octets up to the end of a line that names the delimiter, perhaps after empty ones. Empty
/// lines before the first row belong to the rows: else those at the front of a later part of a file
/// would be none of its lines.
fn rows_start(head: &[u8], are_returns: bool) -> RowsStart {
    let (start, lines) = empty_lines(head, are_returns);
    let rest = head.get(start..).unwrap_or(&[]);
    if names_delimiter(rest) {
        RowsStart {
            octets: start.saturating_add(line_len(rest, are_returns)),
            lines: lines.saturating_add(1),
            named: named_delimiter(rest),
        }
    } else {
        RowsStart {
            octets: 0,
            lines: 0,
            named: None,
        }
    }
}

/// The form of these rows: the one that is wished, or else the one that most of them have, with the
/// delimiter that is named above them. `None` if none has all columns that are wished.
fn rows_form(
    alloc: Global,
    rows: &[u8],
    wished: &str,
    named: Option<u8>,
) -> Result<Option<RowForm>, NoMemory> {
    let least = most_number(wished);
    if let Some(form) = wished_form(wished) {
        return Ok(if least <= form.width {
            Some(form)
        } else {
            None
        });
    }
    match form_of(alloc, rows, least, named)? {
        Some(form) => Ok(Some(RowForm {
            delimiter: form.delimiter,
            width: form.width,
        })),
        None => Ok(None),
    }
}

/// Where the rows of a file without a header begin, and their form. `None` if it has no row, or if
/// more columns are wished than a file has.
pub(crate) fn find_rows<'a>(
    alloc: Global,
    head: &[u8],
    wished: &'a str,
) -> Result<Option<Header<'a>>, NoMemory> {
    let are_returns = rows_end_with_returns(head);
    let start = rows_start(head, are_returns);
    let rest = head.get(start.octets..).unwrap_or(&[]);
    let least = most_number(wished);
    let (delimiter, width) = match rows_form(alloc, rest, wished, start.named)? {
        Some(form) => (form.delimiter, form.width),
        None if !rest.is_empty() && least <= CELLS_MAX => (start.named.unwrap_or(b','), least),
        None => return Ok(None),
    };
    let before = head.get(..start.octets).unwrap_or(&[]);
    Ok(Some(Header {
        start: start.octets,
        lines: start.lines,
        above: lines_above(alloc, before, are_returns, delimiter, width)?,
        delimiter,
        width,
        dates: DateOrder::Unknown,
        wished,
        is_missing: true,
    }))
}

/// The names of the columns of a file without a header: `#1` and so on. `None` if none of its first
/// rows has all columns that are wished.
pub(crate) fn number_names(
    alloc: Global,
    head: &[u8],
    wished: &str,
) -> Result<Option<Items<Text>>, NoMemory> {
    let start = rows_start(head, rows_end_with_returns(head));
    let rest = head.get(start.octets..).unwrap_or(&[]);
    let Some(form) = rows_form(alloc, rest, wished, start.named)? else {
        return Ok(None);
    };
    let mut names = Items::new(alloc);
    for place in 0..form.width {
        names.push(number_name(alloc, place)?)?;
    }
    Ok(Some(names))
}

/// The number of columns of a file without a header: that of the form that is wished, or else of
/// the one that most of its first rows have. 0 if it has no rows.
pub(crate) fn row_width(alloc: Global, head: &[u8], wished: &str) -> Result<usize, NoMemory> {
    if let Some(form) = wished_form(wished) {
        return Ok(form.width);
    }
    let start = rows_start(head, rows_end_with_returns(head));
    let rest = head.get(start.octets..).unwrap_or(&[]);
    let form = form_of(alloc, rest, 0, start.named)?;
    Ok(form.map_or(0, |it| it.width))
}

/// The name of the column at the index: its number, counted from 1.
fn number_name(alloc: Global, place: usize) -> Result<Text, NoMemory> {
    let number = (place as u64).saturating_add(1);
    Ok(Text::new(format!(in alloc; "#{number}")?))
}

/// The end of the first line of the octets. One in quotes belongs to a cell.
fn first_line_end(octets: &[u8]) -> &'static [u8] {
    if rows_end_with_returns(octets) {
        return b"\r";
    }
    match first_end_place(octets) {
        Some(place) if octets.get(place).copied() == Some(b'\r') => b"\r\n",
        _ => b"\n",
    }
}

/// The header that is read in place of one that is missing, above the rows that begin with these
/// octets: the numbers of the columns, as `#1,#2`, and the end that lines have. Empty if the file
/// has a header. The only `Err` is out of memory.
pub fn made_header(alloc: Global, header: Header<'_>, rows: &[u8]) -> Result<Vec<u8>, NoMemory>
    // The names and the line end are only tested.
    ensures { IfOk result (λ made. header.entry.is_missing ≡ false → made.items ≡ []) }
{
    let mut made = Vec::new(alloc);
    if !header.is_missing {
        return Ok(made);
    }
    for place in 0..header.width {
        if place > 0 {
            made.push(header.delimiter)?;
        }
        let name = number_name(alloc, place)?;
        made.extend_from_slice(name.as_str().as_bytes())?;
    }
    made.extend_from_slice(first_line_end(rows))?;
    Ok(made)
}
