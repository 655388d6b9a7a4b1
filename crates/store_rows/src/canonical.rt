//! Tests that a stored text is canonical. Each line of the card is compared with the octets of the
//! text in place, so that the card's canonical text is not written.
ghost use Rattle.std.specs.Prelude.{◌≡◌, ◌↔◌, ◌<◌, ◌≤◌, IfOk, IsTrue, flat_map, length, map};
ghost use Rattle.std.specs.Str.{IsAscii};
ghost use Rattle.vcard_lines.specs.Folding.{folded_text};
ghost use Rattle.vcard_lines.specs.Grammar.{line_text};
ghost use Rattle.vcard_text.specs.Cards.{canonical_text};
ghost use Rattle.store_rows.specs.internal.Stripping.{
  Strips,
  end_text,
  folded_rest,
  piece_text,
  plain_text,
  short_text,
};

use std::alloc::Global;
use vcard_lines::laws::folding_is_unique;
use vcard_lines::{Line, write_folded, write_line};
use vcard_text::{Card, NoMemory};

/// The most octets of a line that is written without a fold.
const PHYSICAL_OCTETS_MAX: usize = 75;

/// The most octets of a continuation line after its space.
const CONTINUATION_OCTETS_MAX: usize = 74;

/// Most lines are shorter. A longer one makes the buffers grow.
const LINE_OCTETS: usize = 128;

/// The rest of the text after the part. `None` if the text doesn't begin with the part.
fn strip<'a>(text: &'a [u8], part: &[u8]) -> Option<&'a [u8]>
    ensures { Strips text.now part.now result }
{
    text.strip_prefix(part)
}

/// Whether the line has only a name and a value, and is written without a fold.
fn is_short(line: &Line) -> bool
    ensures { IsTrue result
        → (folded_text (line_text line.now) ≡ short_text line.now.name line.now.value) }
{
    // A law without effect: a line has one folding.
    folding_is_unique();

    if line.group.is_some() {
        return false;
    }
    if !line.params.as_slice().is_empty() {
        return false;
    }
    line.name.as_str().len() + line.value.as_str().len() < PHYSICAL_OCTETS_MAX
}

/// The rest of the text after a short line.
fn strip_short<'a>(text: &'a [u8], name: &[u8], value: &[u8]) -> Option<&'a [u8]>
    ensures { Strips text.now (short_text name.now value.now) result }
{
    let Some(after_name) = strip(text, name) else {
        return None;
    };
    let Some(after_colon) = strip(after_name, b":") else {
        return None;
    };
    let Some(after_value) = strip(after_colon, value) else {
        return None;
    };
    strip(after_value, b"\r\n")
}

/// The rest of the text after a part and a fold.
fn strip_piece<'a>(text: &'a [u8], piece: &[u8]) -> Option<&'a [u8]>
    ensures { Strips text.now (piece_text piece.now) result }
{
    let Some(after_piece) = strip(text, piece) else {
        return None;
    };
    strip(after_piece, b"\r\n ")
}

/// The rest of the text after a part and a line end.
fn strip_end<'a>(text: &'a [u8], piece: &[u8]) -> Option<&'a [u8]>
    ensures { Strips text.now (end_text piece.now) result }
{
    let Some(after_piece) = strip(text, piece) else {
        return None;
    };
    strip(after_piece, b"\r\n")
}

/// The rest of the text after a value, folded and ended by CRLF. `room` is the number of octets
/// that still fit into the physical line.
fn strip_value<'a>(text: &'a [u8], value: &[u8], room: usize) -> Option<&'a [u8]>
    requires ascii { IsAscii value.now }
    requires room { 1 ≤ room }
    ensures { Strips text.now (folded_rest room value.now) result }
{
    let mut rest = text;
    let mut left = value;
    let mut fits = room;
    while fits < left.len() {
        let (piece, tail) = left.split_at(fits);
        let Some(after) = strip_piece(rest, piece) else {
            return None;
        };
        rest = after;
        left = tail;
        fits = CONTINUATION_OCTETS_MAX;
    }
    strip_end(rest, left)
}

/// The rest of the text after a line with a name and an ASCII value, which may be folded.
fn strip_plain<'a>(text: &'a [u8], name: &[u8], value: &[u8]) -> Option<&'a [u8]>
    requires ascii { IsAscii value.now }
    requires name { length name.now < 74 }
    ensures { Strips text.now (plain_text name.now value.now) result }
{
    let Some(after_name) = strip(text, name) else {
        return None;
    };
    let Some(after_colon) = strip(after_name, b":") else {
        return None;
    };
    strip_value(after_colon, value, CONTINUATION_OCTETS_MAX - name.len())
}

/// Whether the line has only a name, which isn't folded, and an ASCII value.
fn is_plain(line: &Line) -> bool
    ensures text { IsTrue result
        → (folded_text (line_text line.now) ≡ plain_text line.now.name line.now.value) }
    ensures name { IsTrue result → length line.now.name < 74 }
    ensures ascii { IsTrue result → IsAscii line.now.value }
{
    if line.group.is_some() {
        return false;
    }
    if !line.params.as_slice().is_empty() {
        return false;
    }
    line.name.as_str().len() < CONTINUATION_OCTETS_MAX && line.value.as_str().is_ascii()
}

/// The rest of the text after any line. `unfolded` and `folded` are buffers for its text.
fn strip_folded<'a>(
    text: &'a [u8],
    line: &Line,
    unfolded: &mut String,
    folded: &mut String,
) -> Result<Option<&'a [u8]>, NoMemory>
    ensures { IfOk result (Strips text.now (folded_text (line_text line.now))) }
{
    unfolded.clear();
    unfolded.reserve(LINE_OCTETS)?;
    write_line(unfolded, line)?;
    folded.clear();
    folded.reserve(LINE_OCTETS)?;
    write_folded(folded, unfolded.as_str())?;
    Ok(strip(text, folded.as_bytes()))
}

/// The rest of the text after a line. Most lines have only a name and a value, and need no buffer.
fn strip_line<'a>(
    text: &'a [u8],
    line: &Line,
    unfolded: &mut String,
    folded: &mut String,
) -> Result<Option<&'a [u8]>, NoMemory>
    ensures { IfOk result (Strips text.now (folded_text (line_text line.now))) }
{
    if is_short(line) {
        return Ok(strip_short(
            text,
            line.name.as_str().as_bytes(),
            line.value.as_str().as_bytes(),
        ));
    }
    if is_plain(line) {
        return Ok(strip_plain(
            text,
            line.name.as_str().as_bytes(),
            line.value.as_str().as_bytes(),
        ));
    }
    strip_folded(text, line, unfolded, folded)
}

/// The rest of the text after the lines, each folded.
fn strip_lines<'a>(
    alloc: Global,
    text: &'a [u8],
    lines: &[Line],
) -> Result<Option<&'a [u8]>, NoMemory>
    ensures { IfOk result (Strips text.now (flat_map folded_text (map line_text lines.now))) }
{
    let mut unfolded = String::new(alloc);
    let mut folded = String::new(alloc);
    let mut rest = text;
    for line in lines {
        match strip_line(rest, line, &mut unfolded, &mut folded)? {
            Some(after) => rest = after,
            None => return Ok(None),
        }
    }
    Ok(Some(rest))
}

/// The rest of the text after the card's canonical text.
fn strip_card<'a>(alloc: Global, text: &'a [u8], card: &Card) -> Result<Option<&'a [u8]>, NoMemory>
    ensures { IfOk result (Strips text.now (canonical_text card.now)) }
{
    // A law without effect: a line has one folding.
    folding_is_unique();

    let Some(rest) = strip(text, b"BEGIN:VCARD\r\nVERSION:4.0\r\n") else {
        return Ok(None);
    };
    match strip_lines(alloc, rest, card.lines())? {
        Some(rest) => Ok(strip(rest, b"END:VCARD\r\n")),
        None => Ok(None),
    }
}

/// Whether the text is the card's canonical text, octet for octet. Allocates two buffers at most,
/// for lines that have a group or parameters, and for folded ones that are not ASCII. The only
/// `Err` is out of memory.
pub fn is_canonical_text(alloc: Global, text: &str, card: &Card) -> Result<bool, NoMemory>
    ensures { IfOk result (λ same. IsTrue same ↔ (text.now ≡ canonical_text card.now)) }
{
    match strip_card(alloc, text.as_bytes(), card)? {
        Some(rest) => Ok(rest.is_empty()),
        None => Ok(false),
    }
}
