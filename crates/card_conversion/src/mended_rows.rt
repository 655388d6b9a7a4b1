//! The rows that `ExportText` gives in place of rows with wrong quotes.

use crate::export_row::{after_card, begins_row, ends_card, first_line, without_end};
use base_types::NoMemory;
use std::alloc::Global;

/// The front of the row that stands for a broken one: its first cell, up to the line feeds in it.
const BROKEN_FRONT: &[u8] = b"\"\0\"\"\0";

/// What the first cell of a row begins with whose quotes were mended.
const MENDED_MARK: &[u8] = b"\0";

/// The first cell of a row, if the quotes of the row were mended.
pub(crate) fn mended_uid(uid: &[u8]) -> Option<&[u8]> {
    uid.strip_prefix(MENDED_MARK)
}

/// The end of the last line: none, a line feed, or both octets of CR LF.
fn last_end(octets: &[u8]) -> &[u8] {
    octets.get(without_end(octets).len()..).unwrap_or(&[])
}

/// The row with a quote after the last cell, which has one before it.
fn closed_row(alloc: Global, octets: &[u8]) -> Result<Vec<u8>, NoMemory> {
    let mut made = Vec::new(alloc);
    made.extend_from_slice(without_end(octets))?;
    made.push(b'"')?;
    made.extend_from_slice(last_end(octets))?;
    Ok(made)
}

/// The row that stands for a broken one. It has as many line feeds, all but the last in its cell.
pub(crate) fn broken_row(alloc: Global, octets: &[u8]) -> Result<Vec<u8>, NoMemory> {
    let mut made = Vec::new(alloc);
    made.extend_from_slice(BROKEN_FRONT)?;
    for octet in without_end(octets) {
        if *octet == b'\n' {
            made.push(b'\n')?;
        }
    }
    made.push(b'"')?;
    made.extend_from_slice(last_end(octets))?;
    Ok(made)
}

/// Appends the first line of a row, with the mark in its first cell.
fn push_marked(made: &mut Vec<u8>, line: &[u8]) -> Result<(), NoMemory> {
    let cell = match line.strip_prefix(b"\"") {
        Some(cell) => {
            made.push(b'"')?;
            cell
        }
        None => line,
    };
    made.extend_from_slice(MENDED_MARK)?;
    made.extend_from_slice(cell)?;
    Ok(())
}

/// Appends a line of a card, with one more quote for each that isn't doubled.
fn push_doubled(made: &mut Vec<u8>, line: &[u8]) -> Result<(), NoMemory> {
    let mut is_odd = false;
    for octet in line {
        if *octet == b'"' {
            is_odd = !is_odd;
        } else if is_odd {
            made.push(b'"')?;
            is_odd = false;
        }
        made.push(*octet)?;
    }
    if is_odd {
        made.push(b'"')?;
    }
    Ok(())
}

/// The row of a card with each quote of the card doubled, up to the one after its end, which is
/// added if there is none.
fn card_row(alloc: Global, octets: &[u8]) -> Result<Vec<u8>, NoMemory> {
    let first = first_line(octets);
    let mut made = Vec::new(alloc);
    push_marked(&mut made, first)?;
    let mut rest = octets.get(first.len()..).unwrap_or(&[]);
    let mut has_ended = false;
    for _line in 0..octets.len() {
        let line = first_line(rest);
        if after_card(has_ended, line).is_some() {
            made.extend_from_slice(rest)?;
            return Ok(made);
        }
        if line.is_empty() {
            break;
        }
        push_doubled(&mut made, line)?;
        has_ended = ends_card(has_ended, line);
        rest = rest.get(line.len()..).unwrap_or(&[]);
    }
    closed_row(alloc, made.as_slice())
}

/// The row with the quotes that it lacks. The first cell of a row of a card is marked.
pub(crate) fn mended_row(alloc: Global, octets: &[u8]) -> Result<Vec<u8>, NoMemory> {
    if begins_row(first_line(octets)) {
        card_row(alloc, octets)
    } else {
        closed_row(alloc, octets)
    }
}
