//! Calls on lines, on cards that are made of lines, and on text values.

mod ann;
mod lines;
mod making;
mod values;

pub(crate) use ann::{run_card, run_first};
pub(crate) use lines::{run_line, run_part};
pub(crate) use making::run_make;
pub(crate) use values::{run_cut, run_escape, run_unescape};
