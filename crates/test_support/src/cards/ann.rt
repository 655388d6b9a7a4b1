//! The parts of Ann's card with further lines.
use crate::cards::lines::print_line;
use crate::cards::making::print_fault;
use crate::cards::values::print_list;
use crate::printout::Printout;
use vcard_text::{Card, Kind, read_card};

/// Ann's card with the lines. Prints its fault if it has one.
fn ann_with(lines: &str, out: &mut Printout) -> Option<Card> {
    let mut text = Printout::new(out.alloc());
    text.add("BEGIN:VCARD\r\nVERSION:4.0\r\nUID:a\r\nFN:Ann\r\n");
    text.add(lines);
    text.add("END:VCARD\r\n");
    out.supply.note(text.result());
    match read_card(out.alloc(), text.as_slice()) {
        Ok(card) => Some(card),
        Err(fault) => {
            print_fault(fault, out);
            None
        }
    }
}

/// The kind's name in the source.
fn kind_name(kind: Kind) -> &'static str {
    match kind {
        Kind::Individual => "Individual",
        Kind::Group => "Group",
        Kind::Org => "Org",
        Kind::Location => "Location",
        Kind::Other => "Other",
    }
}

/// Prints the card's UID, its kind, the number of its lines, and its members.
fn print_card(card: &Card, out: &mut Printout) {
    out.add(card.uid());
    out.add(" ");
    out.add(kind_name(card.kind()));
    out.add_count(" ", card.lines().len());
    print_list(card.members(), out);
}

/// Prints the UID, the kind, the number of lines and the members of Ann's card with the lines, or
/// its fault.
pub(crate) fn run_card(lines: &str, out: &mut Printout) {
    if let Some(card) = ann_with(lines, out) {
        print_card(&card, out);
    }
}

/// Prints the parts of the card's first line of that name.
fn print_first(card: &Card, name: &str, out: &mut Printout) {
    match card.first(name) {
        Some(line) => print_line(line, out),
        None => out.add("none"),
    }
}

/// Prints the parts of the first line of a name in Ann's card with the lines, or its fault. The
/// input is these, a bar, and the name.
pub(crate) fn run_first(input: &str, out: &mut Printout) {
    let (lines, name) = input.split_once('|').unwrap_or((input, ""));
    if let Some(card) = ann_with(lines, out) {
        print_first(&card, name, out);
    }
}
