//! The report of a conversion: one line for each card whose content changed or that isn't carried,
//! and one for each kind of change of form; and the numbers of cards.
#![tactic(auto)]

mod broken_rows;
mod change_words;
mod fate;
mod fault;
mod form_changes;
mod guesses;
mod joined_lines;
mod ledger;
mod line_cursor;
mod line_names;
mod media_delivery;
mod parts;
mod report;
mod reporting;
mod sink_fault;

pub use broken_rows::BROKEN_TEXT;
pub use fate::Fate;
pub use fault::{ConversionFault, read_fault};
pub use form_changes::FormKind;
pub use guesses::{guess_words, guessed_cells};
pub use ledger::{Ledger, Summary, is_changed};
pub use line_names::head_of;
pub use media_delivery::MediaDelivery;
pub use parts::{Parts, lost_words};
pub use report::{Place, RowFields, no_fields, report_piece};
pub use reporting::{Report, Weight};
pub use sink_fault::SinkFault;
