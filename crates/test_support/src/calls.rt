//! The calls of the rows, by name. None of them keeps state.
use crate::cards::{
    run_card, run_cut, run_escape, run_first, run_line, run_make, run_part, run_unescape,
};
use crate::formats::{run_device, run_limits, run_page};
use crate::printout::Printout;

/// A call.
#[derive(Clone, Copy)]
enum Call {
    Make,
    Line,
    Part,
    Card,
    First,
    Escape,
    Unescape,
    Cut,
    Limits,
    Device,
    Page,
}

const CALLS: [(&str, Call); 11] = [
    ("make", Call::Make),
    ("line", Call::Line),
    ("part", Call::Part),
    ("card", Call::Card),
    ("first", Call::First),
    ("escape", Call::Escape),
    ("unescape", Call::Unescape),
    ("cut", Call::Cut),
    ("limits", Call::Limits),
    ("device", Call::Device),
    ("page", Call::Page),
];

/// The call of that name.
fn call_named(name: &str) -> Option<Call> {
    for (known, call) in CALLS {
        if known == name {
            return Some(call);
        }
    }
    None
}

/// Makes the call with a text.
fn run_on_text(call: Call, text: &str, out: &mut Printout) {
    match call {
        Call::Make => run_make(text, out),
        Call::Line => run_line(text, out),
        Call::Part => run_part(text, out),
        Call::Card => run_card(text, out),
        Call::First => run_first(text, out),
        Call::Escape => run_escape(text, out),
        Call::Unescape => run_unescape(text, out),
        Call::Cut => run_cut(text, out),
        Call::Limits => run_limits(text, out),
        Call::Device => run_device(text, out),
        Call::Page => run_page(text.as_bytes(), out),
    }
}

/// Prints the result of the call. For an unknown name it is a text that no row expects.
pub(crate) fn run_call(name: &str, input: &[u8], out: &mut Printout) {
    match call_named(name) {
        Some(Call::Page) => run_page(input, out),
        Some(call) => run_on_text(call, str::from_utf8(input).unwrap_or_default(), out),
        None => out.add("no such call"),
    }
}
