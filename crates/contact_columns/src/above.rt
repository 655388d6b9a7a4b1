//! The lines above the header of a file of contacts.

use crate::cell::{cell_text, is_void};
use crate::fields::row_field;
use crate::header::{first_row, line_len};
use base_types::NoMemory;
use csv::ByteRecord;
use import_text::begins_with_word;
use std::alloc::Global;

/// The most lines above the header.
pub(crate) const ABOVE_MAX: usize = 4;

/// A line above the header.
#[derive(Clone, Copy, PartialEq, Eq)]
pub enum AboveLine {
    /// It says nothing of a person: it is blank, or names the delimiter, as `sep=;`.
    Blank,
    /// It has text, as notes have.
    Note,
    /// It has as many cells as the header, so it may be a person.
    Row,
}

/// The word that is before the delimiter in a line that names it.
const SEPARATOR_WORD: &[u8] = b"sep=";

/// The line without a byte order mark and a quote before it.
fn bare_line(line: &[u8]) -> &[u8] {
    let text = line.strip_prefix(b"\xEF\xBB\xBF").unwrap_or(line);
    text.strip_prefix(b"\"").unwrap_or(text)
}

/// Whether a line names the delimiter of the file, perhaps after a byte order mark.
pub(crate) fn names_delimiter(line: &[u8]) -> bool {
    begins_with_word(bare_line(line), SEPARATOR_WORD)
}

/// The octet that such a line names.
pub(crate) fn named_octet(line: &[u8]) -> Option<u8> {
    bare_line(line).get(SEPARATOR_WORD.len()).copied()
}

/// Whether no cell of a row has a value.
fn is_blank(alloc: Global, row: &ByteRecord) -> Result<bool, NoMemory> {
    for place in 0..row.len() {
        let text = cell_text(alloc, row_field(row, place))?;
        if !is_void(text.as_str()) {
            return Ok(false);
        }
    }
    Ok(true)
}

/// What a line above a header is that has this delimiter and this number of cells.
fn above_line(
    alloc: Global,
    line: &[u8],
    delimiter: u8,
    width: usize,
) -> Result<AboveLine, NoMemory> {
    if names_delimiter(line) {
        return Ok(AboveLine::Blank);
    }
    let row = first_row(alloc, line, delimiter)?;
    if is_blank(alloc, &row)? {
        Ok(AboveLine::Blank)
    } else if width > 1 && row.len() == width {
        Ok(AboveLine::Row)
    } else {
        Ok(AboveLine::Note)
    }
}

/// What the lines are that are above a header with this delimiter and this number of cells. After
/// the last of them come blank ones. `are_returns` says that lines end with a carriage return
/// alone. The only `Err` is out of memory.
pub(crate) fn lines_above(
    alloc: Global,
    octets: &[u8],
    are_returns: bool,
    delimiter: u8,
    width: usize,
) -> Result<[AboveLine; ABOVE_MAX], NoMemory> {
    let mut lines = [AboveLine::Blank; ABOVE_MAX];
    let mut rest = octets;
    for place in 0..ABOVE_MAX {
        let len = line_len(rest, are_returns);
        let line = rest.get(..len).unwrap_or(rest);
        lines[place] = above_line(alloc, line, delimiter, width)?;
        rest = rest.get(len..).unwrap_or(&[]);
    }
    Ok(lines)
}
