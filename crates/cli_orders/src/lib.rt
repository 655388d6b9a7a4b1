//! Runs the orders of the command line over any store of books and any listener, and prints their
//! output.
#![tactic(auto)]

mod address;
mod advice;
mod breaking;
mod card_rows;
mod cause_words;
mod checking;
mod commands;
mod expansion_output;
mod fault_line;
mod faulty_row;
mod finding;
mod found_cause;
mod hints;
mod input;
pub mod laws;
mod line_starts;
mod mirror_output;
mod one_line_outputs;
mod order_names;
mod output;
mod reading;
mod restore_output;
mod row_causes;
mod row_fault_words;
mod sentences;
mod serving;
mod stop;
mod stop_words;
mod tally_output;
mod try_order;
mod try_output;
mod try_result;
mod version;
mod writing;

pub use address::Address;
pub use checking::run_check;
pub use commands::{run_command, run_mirror};
pub use expansion_output::expand_text;
pub use faulty_row::report_damage;
pub use finding::{FileKind, Finding, kind_of_file};
pub use found_cause::FoundCause;
pub use input::read_input;
pub use line_starts::line_feed_count;
pub use mirror_output::mirror_text;
pub use one_line_outputs::{
    book_text, copy_text, created_line, forget_text, imported_text, migrate_text, resync_text,
};
pub use order_names::{OrderKind, OrderNames};
pub use output::Output;
pub use reading::{read_at_most, read_rows_of};
pub use restore_output::{Restored, restore_text};
pub use sentences::stop_sentence;
pub use serving::{announce_and_serve, announce_and_serve_in_turn};
pub use stop::Stop;
pub use tally_output::tally_text;
pub use try_order::run_try;
pub use try_output::try_octets;
pub use try_result::{FirstPath, first_path};
pub use version::version_text;
pub use writing::write_out;
