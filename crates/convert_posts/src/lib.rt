//! Answers `POST /convert`: what the cards or contacts of a file become, part by part, before any
//! is imported. It is a front of a server, and changes no book.
#![tactic(auto)]

mod answering;
mod asked;
mod card_cut;
mod card_part;
mod contact_part;
mod content;
mod converted;
mod converter;
mod cut;
mod export_part;
mod frame;
mod part;
mod parts;
mod report;
mod row_cut;
mod row_list;
mod unconverted;
mod values;
mod weight;

pub use converter::Converter;
