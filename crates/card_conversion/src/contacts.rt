//! Converts contacts that Google and Outlook export as CSV, one row at a time, and reports each
//! cell that no property of its card holds as it is.

mod above;
mod broken_lines;
mod fate;
mod report;
mod rows;
mod rows_order;
mod run;
mod tally;
mod under_lines;

pub use rows_order::convert_contacts_to_rows;
pub use run::{convert_contacts, convert_more_contacts};
pub use under_lines::convert_contacts_under;
