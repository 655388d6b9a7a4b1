//! Writes and reads a page of a report as JSON (RFC 8259).
#![tactic(auto)]

mod card_texts;
mod fault;
pub mod laws;
mod member;
mod members;
mod parts;
mod reading;
mod writing;

pub use fault::ReportFault;
pub use reading::read_report;
pub use writing::write_report;
