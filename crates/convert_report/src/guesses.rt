//! Octets that were read as Windows-1252, since they aren't UTF-8 and nothing says what they are.

use crate::form_changes::counted;
use crate::line_cursor::{PieceLines, without_returns};
use base_types::NoMemory;
use contact_columns::row_field;
use csv::ByteRecord;
use import_text::{is_encoded_as, is_guessed, read_quoted_printable};
use std::alloc::Global;
use vcard_changes::{Change, ChangeKind};

/// The words for so many things that were read as Windows-1252.
pub fn guess_words(alloc: Global, count: u64, thing: &str) -> Result<String, NoMemory> {
    let things = counted(alloc, count, thing)?;
    let are = if count == 1 { "isn't" } else { "aren't" };
    Ok(format!(in alloc; "read as Windows-1252: {things} that {are} UTF-8")?)
}

/// Whether the head of a line says that its value is quoted-printable.
fn is_quoted(line: &[u8]) -> bool {
    is_encoded_as(line, b"QUOTED-PRINTABLE")
}

/// Whether the head of a line ends with a CHARSET that has no name.
fn ends_unnamed(line: &[u8]) -> bool {
    let head = line.len().saturating_sub(value_of(line).len());
    let end = line.get(head.saturating_sub(8)..head).unwrap_or(&[]);
    end.eq_ignore_ascii_case(b"CHARSET=")
}

/// Whether the head of a line names UTF-8.
fn names_utf8(line: &[u8]) -> bool {
    is_encoded_as(line, b"CHARSET=UTF") || is_encoded_as(line, b"CHARSET=\"UTF")
}

/// Whether the head of a line names a character set other than UTF-8.
fn names_charset(line: &[u8]) -> bool {
    is_encoded_as(line, b"CHARSET")
        && !names_utf8(line)
        && !is_encoded_as(line, b"CHARSET=;")
        && !is_encoded_as(line, b"CHARSET=US-ASCII")
        && !ends_unnamed(line)
}

/// The line without the ends of the physical lines that it is folded to, and without the first
/// white space of those after the first, or the equals signs by which lines of quoted-printable go
/// on. A program may have folded it within a character.
fn unfolded(alloc: Global, line: &[u8]) -> Result<Vec<u8>, NoMemory> {
    let is_quoted = is_quoted(line);
    let mut octets = Vec::new(alloc);
    let mut is_open = false;
    for (place, part) in line.split(|octet| *octet == b'\n').enumerate() {
        let part = without_returns(part);
        let from: usize = if place > 0 && !is_open { 1 } else { 0 };
        is_open = is_quoted && part.ends_with(b"=");
        let end = if is_open {
            part.len().saturating_sub(1)
        } else {
            part.len()
        };
        octets.extend_from_slice(part.get(from..end).unwrap_or(&[]))?;
    }
    Ok(octets)
}

/// What is from the first colon of a line on.
fn value_of(line: &[u8]) -> &[u8] {
    let place = line
        .iter()
        .position(|octet| *octet == b':')
        .unwrap_or(line.len());
    line.get(place..).unwrap_or(&[])
}

/// Whether the value of a line of quoted-printable is read as Windows-1252 once it is decoded. One
/// that the line says is in UTF-8 isn't.
fn is_guessed_value(alloc: Global, line: &[u8]) -> Result<bool, NoMemory> {
    if !is_quoted(line) || names_utf8(line) {
        return Ok(false);
    }
    let octets = read_quoted_printable(alloc, value_of(line))?;
    is_guessed(alloc, octets.as_slice())
}

/// Whether a line of a card is read as Windows-1252, whose head names no other character set. It
/// may be folded.
fn is_guessed_line(alloc: Global, line: &[u8]) -> Result<bool, NoMemory> {
    if names_charset(line) || (line.is_ascii() && !is_quoted(line)) {
        return Ok(false);
    }
    let octets = unfolded(alloc, line)?;
    let octets = octets.as_slice();
    Ok(is_guessed(alloc, octets)? || is_guessed_value(alloc, octets)?)
}

/// The number of lines of a card that are read as Windows-1252. Each of them has a change, since it
/// isn't what its octets spell. A line that was added has no octets.
pub(crate) fn guessed_lines(
    alloc: Global,
    piece: &[u8],
    changes: &[Change],
) -> Result<u64, NoMemory> {
    let mut lines = PieceLines::new(piece);
    let mut count: u64 = 0;
    for change in changes {
        if change.kind == ChangeKind::Added {
            continue;
        }
        let _line = lines.go_to(change.place);
        if is_guessed_line(alloc, lines.line_on())? {
            count = count.saturating_add(1);
        }
    }
    Ok(count)
}

/// The number of cells of a row that are read as Windows-1252.
pub fn guessed_cells(alloc: Global, row: &ByteRecord) -> Result<u64, NoMemory> {
    let mut count: u64 = 0;
    for place in 0..row.len() {
        if is_guessed(alloc, row_field(row, place))? {
            count = count.saturating_add(1);
        }
    }
    Ok(count)
}
