//! Text values, and lists of texts.
use crate::printout::Printout;
use base_types::NoMemory;
use vcard_lines::{components, escape, unescape};

/// Prints the text that was made.
fn print_made(made: Result<String, NoMemory>, out: &mut Printout) {
    if let Some(text) = out.supply.keep(made) {
        out.add(text.as_str());
    }
}

/// Prints the texts, each after a bar.
pub(crate) fn print_list(made: Result<Vec<String>, NoMemory>, out: &mut Printout) {
    if let Some(texts) = out.supply.keep(made) {
        for text in texts.as_slice() {
            out.add("|");
            out.add(text.as_str());
        }
    }
}

/// Escapes the text.
pub(crate) fn run_escape(text: &str, out: &mut Printout) {
    print_made(escape(out.alloc(), text), out);
}

/// Unescapes the value.
pub(crate) fn run_unescape(value: &str, out: &mut Printout) {
    print_made(unescape(out.alloc(), value), out);
}

/// Prints the texts of the value's components.
pub(crate) fn run_cut(value: &str, out: &mut Printout) {
    print_list(components(out.alloc(), value), out);
}
