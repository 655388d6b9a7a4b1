//! Reads and writes cards as rows of CSV (RFC 4180): either a card's text in one field, or its
//! parts in columns.
#![tactic(auto)]

mod cause;
mod columns;
mod export_rows;
mod fault;
mod form;
pub mod laws;
mod order;
mod reading;
mod records;
mod row;
mod writing;

pub use cause::CsvCause;
pub use export_rows::{ExportRow, ExportRows, is_export};
pub use fault::CsvFault;
pub use form::Form;
pub use order::CardsInOrder;
pub use reading::read_rows;
pub use writing::write_rows;
