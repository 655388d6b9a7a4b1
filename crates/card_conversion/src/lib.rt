//! Converts a file of cards of any version of vCard, one card at a time, or the contacts that
//! Google and Outlook export as CSV, one row at a time, and reports each change.
#![tactic(auto)]

mod card_sink;
mod chunks;
mod contacts;
mod course;
mod delivery;
mod export_row;
mod export_text;
mod exports;
mod file;
mod foreign;
pub mod laws;
mod left_out;
mod line_ends;
mod media_sink;
mod mended_rows;
mod moved;
mod piece_reader;
mod pieces;
mod rows;
mod rows_order;
mod rows_sink;
mod run;

pub use card_sink::{CardSink, Delivery};
pub use contacts::{
    convert_contacts, convert_contacts_to_rows, convert_contacts_under, convert_more_contacts,
};
pub use convert_report::{ConversionFault, MediaDelivery, Report, SinkFault, Summary};
pub use course::Course;
pub use delivery::{Outcome, deliver};
pub use export_row::{ExportEnd, export_row_end};
pub use export_text::ExportText;
pub use exports::convert_more_exports;
pub use file::{convert_file, convert_more_file};
pub use foreign::{foreign_format, foreign_text, has_card, is_quoted_export, is_utf32};
pub use line_ends::{LineEnds, ends_with_returns};
pub use media_sink::{MediaKind, MediaOwner, MediaSink, NoMedia};
pub use rows::{header_text, row_text};
pub use rows_order::convert_to_rows;
pub use rows_sink::RowsSink;
pub use run::{convert_cards, convert_more_cards};
pub use vcard_import::without_bom;
