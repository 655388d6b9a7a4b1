//! Cards as vCard 3.0.
ghost use Rattle.std.specs.Prelude.{◌≡◌, ◌++◌, OnOk, IfOk, count_by, find, flat_map, string_bytes};
ghost use Rattle.std.specs.List.{list_all};
ghost use Rattle.vcard_lines.specs.Folding.{folded_text};
ghost use Rattle.std.specs.Option.{option_copied};
ghost use Rattle.vcard_text.specs.Cards.{has_line_named, line_is_named};
ghost use Rattle.vcard_export.specs.OlderCards.{first_name, has_one_label, has_one_value, is_settled};
ghost use Rattle.vcard_export.specs.OlderCards.{folded_lines, missing_name, older_card_text};
ghost use Rattle.vcard_export.specs.OlderCards.{splits_labels};
ghost use Rattle.vcard_export.specs.OlderParams.{is_label};

use crate::line::{splits_label, write_label_line, write_name_line, write_older_line};
use crate::names::is_named;
use crate::params::is_label;
use std::alloc::Global;
use vcard_lines::write_folded;
use vcard_text::{Card, Line, NoMemory, Param};

/// Most lines are shorter. A longer one makes the buffer for a line grow.
const LINE_OCTETS: usize = 128;

/// The number of labels.
fn label_count(params: &[Param]) -> usize
    ensures { result ≡ count_by is_label params.now }
{
    let mut count = 0;
    for param in params {
        if is_label(param) {
            count += 1;
        }
    }
    count
}

/// Whether each label has one value.
fn have_one_value(params: &[Param]) -> bool
    ensures { result ≡ list_all has_one_value params.now }
{
    params
        .iter()
        .all(|param| !is_label(param) || param.values.len() == 1)
}

/// Whether the line has one label, of one value.
fn has_one_label(line: &Line) -> bool
    ensures { result ≡ has_one_label line.now }
{
    let params = line.params.as_slice();
    label_count(params) == 1 && have_one_value(params)
}

/// Whether the line is no address, or one with a label.
fn is_settled(line: &Line) -> bool
    ensures { result ≡ is_settled line.now }
{
    !is_named(line, "ADR") || has_one_label(line)
}

/// Whether labels become lines of their own: each address has one.
fn splits_labels(lines: &[Line]) -> bool
    ensures { result ≡ splits_labels lines.now }
{
    lines.iter().all(|line| is_settled(line))
}

/// Appends what the line becomes, folded. `text` is a buffer for a line.
fn push_line(
    out: &mut String,
    text: &mut String,
    line: &Line,
    splits_labels: bool,
) -> Result<(), NoMemory>
    ensures { OnOk result (string_bytes out.new ≡ string_bytes out.old
        ++ folded_lines splits_labels line.now) }
{
    write_older_line(text, line, splits_labels)?;
    write_folded(out, text.as_str())?;
    if splits_label(line, splits_labels) {
        write_label_line(text, line)?;
        write_folded(out, text.as_str())?;
    }
    Ok(())
}

/// Appends what the lines become.
fn push_lines(
    out: &mut String,
    text: &mut String,
    lines: &[Line],
    splits_labels: bool,
) -> Result<(), NoMemory>
    ensures { OnOk result (string_bytes out.new ≡ string_bytes out.old
        ++ flat_map (folded_lines splits_labels) lines.now) }
{
    for line in lines {
        push_line(out, text, line, splits_labels)?;
    }
    Ok(())
}

fn has_line_named(lines: &[Line], name: &str) -> bool
    ensures { result ≡ has_line_named name.now lines.now }
{
    lines.iter().any(|line| is_named(line, name))
}

/// The first line with the name.
fn find_line_named<'a>(lines: &'a [Line], name: &str) -> Option<&'a Line>
    ensures { option_copied result ≡ find (line_is_named name.now) lines.now }
{
    lines.iter().find(|line| is_named(*line, name))
}

/// The value of the first FN.
fn first_name(lines: &[Line]) -> &str
    ensures { result.now ≡ first_name lines.now }
{
    match find_line_named(lines, "FN") {
        Some(line) => line.value.as_str(),
        None => "",
    }
}

/// Appends a name if the lines have none, which vCard 3.0 requires.
fn push_missing_name(out: &mut String, text: &mut String, lines: &[Line]) -> Result<(), NoMemory>
    ensures { OnOk result (string_bytes out.new ≡ string_bytes out.old
        ++ flat_map folded_text (missing_name lines.now)) }
{
    if has_line_named(lines, "N") {
        return Ok(());
    }
    write_name_line(text, first_name(lines))?;
    write_folded(out, text.as_str())
}

/// Appends the text of a card of vCard 3.0. The only `Err` is out of memory; a part of the text may
/// then be appended.
fn push_card(out: &mut String, text: &mut String, lines: &[Line]) -> Result<(), NoMemory>
    ensures { OnOk result (string_bytes out.new
        ≡ string_bytes out.old ++ older_card_text lines.now) }
{
    write_folded(out, "BEGIN:VCARD")?;
    write_folded(out, "VERSION:3.0")?;
    push_lines(out, text, lines, splits_labels(lines))?;
    push_missing_name(out, text, lines)?;
    write_folded(out, "END:VCARD")
}

/// Writes a card as vCard 3.0 (RFC 2426): BEGIN, VERSION, what the card's lines become, in order,
/// an N if the card has none, and END, each folded at 75 octets between characters and ended by
/// CRLF. The only `Err` is out of memory.
pub fn write_older_card(alloc: Global, card: &Card) -> Result<Vec<u8>, NoMemory>
    ensures { IfOk result (λ text. text.items ≡ older_card_text card.now) }
{
    let mut out = String::new(alloc);
    let mut text = String::with_capacity(alloc, LINE_OCTETS)?;
    push_card(&mut out, &mut text, card.lines())?;
    Ok(out.into_bytes())
}
