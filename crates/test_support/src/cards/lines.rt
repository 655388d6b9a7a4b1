//! Lines that are read, or made of parts.
use crate::cards::making::{make_line, print_fault};
use crate::printout::Printout;
use base_types::Part;
use vcard_lines::{Line, folded_line_len, has_legal_parts, read_line, write_line};

/// Whether a copy of the line is equal to it.
fn has_same_copy(line: &Line, out: &mut Printout) -> bool {
    match out.supply.keep(line.try_copy()) {
        Some(copy) => copy.is_same(line),
        None => false,
    }
}

/// Prints the line's text, written into a buffer that held another text.
fn print_text(line: &Line, out: &mut Printout) {
    let mut text = out.supply.string("before");
    out.supply.note(write_line(&mut text, line));
    out.add(text.as_str());
}

/// Prints the line's name and value, its length in octets when folded, whether its parts are legal,
/// whether a copy is equal, and its text.
pub(crate) fn print_line(line: &Line, out: &mut Printout) {
    out.add_all(&[line.name.as_str(), "|", line.value.as_str()]);
    out.add_count("|", folded_line_len(line));
    out.add("|");
    out.add_bool(has_legal_parts(line));
    let is_same = has_same_copy(line, out);
    out.add("|");
    out.add_bool(is_same);
    out.add("|");
    print_text(line, out);
}

/// Prints what `print_line` says of the line that the text is read as, or its fault.
pub(crate) fn run_line(text: &str, out: &mut Printout) {
    match read_line(out.alloc(), text) {
        Ok(line) => print_line(&line, out),
        Err(fault) => print_fault(fault, out),
    }
}

/// Prints what `print_line` says of the line that is made of the parts.
pub(crate) fn run_part(input: &str, out: &mut Printout) {
    let line = make_line(input, &mut out.supply);
    print_line(&line, out);
}
