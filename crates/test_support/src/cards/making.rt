//! Makes cards of lines that are given as parts.
use crate::printout::Printout;
use crate::supply::Supply;
use base_types::Items;
use std::alloc::Global;
use std::str::Split;
use vcard_lines::{CardFault, Line, Param, ParamValue};
use vcard_text::{Card, card_of_lines, read_card, write_card};

/// Prints the fault's number.
pub(crate) fn print_fault(fault: CardFault, out: &mut Printout) {
    out.add_labelled("fault ", u64::from(fault.number()));
}

/// The value; it is quoted if the part begins with a quote.
fn make_value(part: &str, supply: &mut Supply) -> ParamValue {
    let inside = part.strip_prefix("\"");
    ParamValue {
        quoted: inside.is_some(),
        text: supply.text(inside.unwrap_or(part)),
    }
}

/// The parameter with that name, and the parts as its values.
fn make_param(name: &str, parts: Split<'_, char>, supply: &mut Supply) -> Param {
    let mut values = Items::new(supply.alloc);
    for part in parts {
        let value = make_value(part, supply);
        supply.note(values.push(value));
    }
    Param {
        name: supply.text(name),
        values,
    }
}

/// A line without group and parameters.
fn bare_line(name: &str, value: &str, supply: &mut Supply) -> Line {
    Line {
        group: None,
        name: supply.text(name),
        params: Items::new(supply.alloc),
        value: supply.text(value),
    }
}

/// Adds the group and the parameter to the line, as far as there are parts for them.
fn add_parts(parts: Split<'_, char>, line: &mut Line, supply: &mut Supply) {
    let mut parts = parts;
    if let Some(group) = parts.next() {
        line.group = Some(supply.text(group));
    }
    if let Some(name) = parts.next() {
        let param = make_param(name, parts, supply);
        supply.note(line.params.push(param));
    }
}

/// Makes a line of its name, value, group, parameter and the parameter's values, which slashes
/// separate. Parts that are left out at the end are absent.
pub(crate) fn make_line(input: &str, supply: &mut Supply) -> Line {
    let mut parts = input.split('/');
    let name = parts.next().unwrap_or("");
    let value = parts.next().unwrap_or("");
    let mut line = bare_line(name, value, supply);
    add_parts(parts, &mut line, supply);
    line
}

/// Whether the text is read as this card.
fn is_read_as(text: &[u8], card: &Card, alloc: Global) -> bool {
    match read_card(alloc, text) {
        Ok(read) => read.is_same(card),
        Err(_) => false,
    }
}

/// Prints the canonical text of the card, if it is read as the same card.
fn print_card(card: &Card, out: &mut Printout) {
    let written = write_card(out.alloc(), card);
    if let Some(text) = out.supply.keep(written) {
        if is_read_as(text.as_slice(), card, out.alloc()) {
            out.add_octets(text.as_slice());
        } else {
            out.add("another card");
        }
    }
}

/// Makes the lines, which bars separate.
fn make_lines(input: &str, supply: &mut Supply) -> Vec<Line> {
    let mut lines = Vec::new(supply.alloc);
    for part in input.split_terminator('|') {
        let line = make_line(part, supply);
        supply.note(lines.push(line));
    }
    lines
}

/// Prints the canonical text of the card that is made of the lines, which bars separate, or their
/// fault.
pub(crate) fn run_make(input: &str, out: &mut Printout) {
    let lines = make_lines(input, &mut out.supply);
    match card_of_lines(out.alloc(), lines) {
        Ok(card) => print_card(&card, out),
        Err(fault) => print_fault(fault, out),
    }
}
