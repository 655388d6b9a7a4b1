//! The length in octets of folded lines (RFC 6350, section 3.2), counted from their parts without
//! writing them.
ghost use Rattle.std.specs.Prelude.{◌≡◌, ◌<◌, ◌≤◌, [], length, min};
ghost use Rattle.std.specs.Str.{IsAscii};
ghost use Rattle.vcard_lines.specs.Grammar.{value_text, values_text, param_text, params_text};
ghost use Rattle.vcard_lines.specs.Grammar.{group_text, line_text};
ghost use Rattle.vcard_lines.specs.Folding.{folded_text};
ghost use Rattle.vcard_lines.specs.internal.FoldingLoop.{FoldState, IsCount, IsLineCount};
ghost use Rattle.vcard_lines.specs.internal.FoldingLoop.{fold_char, CountsChars, CountsLineText};

use crate::bounds::COUNT_MAX;
use crate::line::{Line, Param, ParamValue};
use base_types::Text;

/// The count of a folded logical line so far: its octets, saturating at `COUNT_MAX`, and the octets
/// that still fit into its last physical line.
#[derive(Clone, Copy)]
pub(crate) struct FoldedCount {
    octets: usize,
    room: usize,
}

/// Counts one character of a folded line.
fn count_char(count: &mut FoldedCount, c: char)
    ensures { (part : FoldState) → IsCount count.old part → IsCount count.new (fold_char part c) }
{
    let len = c.len_utf8();
    if count.room < len {
        count.octets = count.octets.saturating_add(3);
        count.room = 74;
    }
    count.octets = count.octets.saturating_add(len);
    count.room -= len;
}

/// Counts a text that may be folded anywhere, character by character.
fn count_chars(count: &mut FoldedCount, text: &str)
    ensures { CountsChars count.old count.new text.now }
{
    for c in text.chars() {
        count_char(count, c);
    }
}

/// Counts an ASCII text that doesn't fit into the physical line. Each continuation line has room
/// for 74 octets and costs 3 more: CRLF and a space.
fn count_ascii(count: &mut FoldedCount, text: &str)
    requires ascii { IsAscii text.now }
    requires long { count.old.room < length text.now }
    ensures { CountsChars count.old count.new text.now }
{
    let over = text.len() - count.room - 1;
    count.octets = count.octets.saturating_add(text.len());
    count.octets = count.octets.saturating_add((over / 74 + 1) * 3);
    count.room = 73 - over % 74;
}

/// Counts a text that fits into the physical line.
fn count_short(count: &mut FoldedCount, text: &str)
    requires { length text.now ≤ count.old.room }
    ensures { CountsChars count.old count.new text.now }
{
    count.octets = count.octets.saturating_add(text.len());
    count.room -= text.len();
}

fn count_text(count: &mut FoldedCount, text: &str)
    ensures { CountsLineText count.old count.new text.now }
{
    if text.len() <= count.room {
        count_short(count, text);
    } else if text.is_ascii() {
        count_ascii(count, text);
    } else {
        count_chars(count, text);
    }
}

fn count_value(count: &mut FoldedCount, value: &ParamValue)
    ensures { CountsLineText count.old count.new (value_text value.now) }
{
    if value.quoted {
        count_text(count, "\"");
        count_text(count, value.text.as_str());
        count_text(count, "\"");
    } else {
        count_text(count, value.text.as_str());
    }
}

fn count_values(count: &mut FoldedCount, values: &[ParamValue])
    ensures { CountsLineText count.old count.new (values_text values.now) }
{
    let Some((first, others)) = values.split_first() else {
        return;
    };
    count_value(count, first);
    for value in others {
        count_text(count, ",");
        count_value(count, value);
    }
}

fn count_param(count: &mut FoldedCount, param: &Param)
    ensures { CountsLineText count.old count.new (param_text param.now) }
{
    count_text(count, param.name.as_str());
    count_text(count, "=");
    count_values(count, param.values.as_slice());
}

fn count_params(count: &mut FoldedCount, params: &[Param])
    ensures { CountsLineText count.old count.new (params_text params.now) }
{
    for param in params {
        count_text(count, ";");
        count_param(count, param);
    }
}

fn count_group(count: &mut FoldedCount, group: &Option<Text>)
    ensures { CountsLineText count.old count.new (group_text group.now) }
{
    if let Some(group) = group {
        count_text(count, group.as_str());
        count_text(count, ".");
    }
}

fn count_line(count: &mut FoldedCount, line: &Line)
    ensures { CountsLineText count.old count.new (line_text line.now) }
{
    count_group(count, &line.group);
    count_text(count, line.name.as_str());
    count_params(count, line.params.as_slice());
    count_text(count, ":");
    count_text(count, line.value.as_str());
}

/// The count of an empty first physical line.
fn empty_line_count() -> FoldedCount
    ensures { IsLineCount result [] }
{
    FoldedCount {
        octets: 0,
        room: 75,
    }
}

/// The length in octets of a logical line, folded and ended by CRLF. Saturates at `COUNT_MAX`.
pub fn folded_len(line: &str) -> usize
    ensures { result ≡ min COUNT_MAX (length (folded_text line.now)) }
{
    let mut count = empty_line_count();
    count_text(&mut count, line);
    count.octets.saturating_add(2)
}

/// The length in octets of a property line, folded and ended by CRLF. Saturates at `COUNT_MAX`.
pub fn folded_line_len(line: &Line) -> usize
    ensures { result ≡ min COUNT_MAX (length (folded_text (line_text line.now))) }
{
    let mut count = empty_line_count();
    count_line(&mut count, line);
    count.octets.saturating_add(2)
}
