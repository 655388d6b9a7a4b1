//! Gives a card a UID of its own, where an earlier card of its file has the same UID.
ghost use Rattle.std.specs.Prelude.{◌≡◌, ◌++◌, IfOk, IfSome, None, OnOk, codes, count_by};
ghost use Rattle.std.specs.Prelude.{flat_map, string_bytes};
ghost use Rattle.card_conversion.specs.Moved.{are_many, ended_line, left_out_text, line_under};
ghost use Rattle.card_conversion.specs.Moved.{lines_under, own_uid};
ghost use Rattle.vcard_import.specs.LeftOut.{has_left_out, is_left_out};
ghost use Rattle.vcard_text.specs.Cards.{IsCard, canonical_text, line_is_named};

use import_text::RawLine;
use std::alloc::Global;
use vcard_changes::{Change, Conversion, derived_uid};
use vcard_import::{is_left_out, left_out_lines};
use vcard_text::{Card, CardFault, Line, NoMemory, Part, Text, card_of_lines, write_card};

/// The most lines that a card is carried without of which each is looked up among its changes. So
/// the work grows no faster than the card.
pub(crate) const LEFT_OUT_MAX: usize = 1_000;

/// How many of the changes say that a line is left out.
pub(crate) fn count_left_out(changes: &[Change]) -> usize
    ensures { result ≡ count_by is_left_out changes.now }
{
    changes.iter().filter(|change| is_left_out(*change)).count()
}

/// Whether one of the changes says that a line is left out.
fn has_left_out(changes: &[Change]) -> bool
    ensures { result ≡ has_left_out changes.now }
{
    changes.iter().any(|change| is_left_out(change))
}

/// Whether more than 1,000 of the changes say that a line is left out.
fn are_many(changes: &[Change]) -> bool
    ensures { result ≡ are_many changes.now }
{
    count_left_out(changes) > LEFT_OUT_MAX
}

/// Appends a logical line, and a line feed.
fn push_line(text: &mut Vec<u8>, line: &RawLine) -> Result<(), NoMemory>
    ensures { OnOk result (text.new.items ≡ text.old.items ++ ended_line line.now) }
{
    text.extend_from_slice(line.octets.as_slice())?;
    text.push(b'\n')?;
    Ok(())
}

/// The logical lines, with a line feed after each.
fn ended_lines(alloc: Global, lines: &[RawLine]) -> Result<Vec<u8>, NoMemory>
    ensures { IfOk result (λ text. text.items ≡ flat_map ended_line lines.now) }
{
    let mut text = Vec::new(alloc);
    for line in lines {
        push_line(&mut text, line)?;
    }
    Ok(text)
}

/// What a card is carried without that was made of the octets: the logical lines that the changes
/// call left out, or all octets if these are more than 1,000.
fn left_out_text(alloc: Global, octets: &[u8], changes: &[Change]) -> Result<Vec<u8>, NoMemory>
    ensures { IfOk result (λ text. text.items ≡ left_out_text octets.now changes.now) }
{
    let mut text = Vec::new(alloc);
    if !has_left_out(changes) {
        return Ok(text);
    }
    if are_many(changes) {
        text.extend_from_slice(octets)?;
        return Ok(text);
    }
    let lines = left_out_lines(alloc, octets, changes)?;
    ended_lines(alloc, lines.as_slice())
}

/// The canonical text of a card that was made of the octets, and after it what it is carried
/// without.
fn text_of_both(alloc: Global, octets: &[u8], made: &Conversion) -> Result<Vec<u8>, NoMemory>
    ensures { IfOk result (λ text.
        text.items ≡ canonical_text made.now.card ++ left_out_text octets.now made.now.changes) }
{
    let mut text = write_card(alloc, &made.card)?;
    let left_out = left_out_text(alloc, octets, made.changes.as_slice())?;
    text.extend_from_slice(left_out.as_slice())?;
    Ok(text)
}

/// The UID of its own that a card gets that was made of the octets: that of its canonical text,
/// with what it is carried without after it.
pub(crate) fn own_uid(alloc: Global, octets: &[u8], made: &Conversion) -> Result<String, NoMemory>
    ensures { IfOk result (λ uid. string_bytes uid ≡ own_uid octets.now made.now) }
{
    let text = text_of_both(alloc, octets, made)?;
    derived_uid(alloc, text.as_slice())
}

/// Whether the line is the UID.
fn is_uid(line: &Line) -> bool
    ensures { result ≡ line_is_named (codes "UID") line.now }
{
    line.name.as_str() == "UID"
}

/// The line; if it is the UID, with this value.
fn line_under(alloc: Global, line: &Line, uid: &str) -> Result<Line, NoMemory>
    ensures { IfOk result (λ made. made ≡ line_under uid.now line.now) }
{
    let mut made = line.try_copy()?;
    if is_uid(line) {
        made.value = Text::copy_of(alloc, uid)?;
    }
    Ok(made)
}

/// The lines of a card under the UID.
fn lines_under(alloc: Global, lines: &[Line], uid: &str) -> Result<Vec<Line>, NoMemory>
    ensures { IfOk result (λ made. made.items ≡ lines_under uid.now lines.now) }
{
    let mut made = Vec::new(alloc);
    for line in lines {
        made.push(line_under(alloc, line, uid)?)?;
    }
    Ok(made)
}

/// The card under the UID. `None` if it is no card then, as its canonical text is too long.
pub(crate) fn card_under(alloc: Global, card: &Card, uid: &str) -> Result<Option<Card>, NoMemory>
    ensures moved { IfOk result (λ found.
        IfSome found (λ made. made ≡ lines_under uid.now card.now)) }
    ensures rules { IfOk result (λ found. IfSome found IsCard) }
    ensures none { IfOk result (λ found. found ≡ None → IsCard (lines_under uid.now card.now) → ⊥) }
{
    let lines = lines_under(alloc, card.lines(), uid)?;
    match card_of_lines(alloc, lines) {
        Ok(made) => {
            // Its clause says that the lines keep the rules of a card.
            let _lines = made.lines();
            Ok(Some(made))
        }
        Err(fault) => match fault {
            CardFault::Memory => Err(NoMemory),
            _ => Ok(None),
        },
    }
}
