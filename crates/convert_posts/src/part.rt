//! `Part`: what became of a part of a file.

use base_types::{Items, Text};
use card_conversion::Summary;

/// What a file has.
#[derive(Clone, Copy)]
pub(crate) enum Kind {
    /// vCards.
    Cards,
    /// Contacts of another program.
    Contacts,
    /// Rows of an export.
    Rows,
}

/// What is known of the order of day and month in dates.
#[derive(Clone, Copy)]
pub(crate) enum Dates {
    /// The day comes first.
    Day,
    /// The month comes first.
    Month,
    /// A date may be two.
    Unknown,
    /// No date needs it.
    None,
}

/// A card that was written.
#[derive(Drop)]
pub(crate) struct CardRow {
    /// The number of the card or row in the file, from 1.
    pub(crate) card: u64,
    /// The number of its first line, from 1.
    pub(crate) line: u64,
    /// The card's UID.
    pub(crate) uid: Text,
    /// Its canonical text.
    pub(crate) vcard: Text,
}

/// A line of the report.
#[derive(Drop)]
pub(crate) struct ReportLine {
    /// The number of the card or row in the file, from 1; 0 for a text that is no card.
    pub(crate) card: u64,
    /// The number of the line, from 1.
    pub(crate) line: u64,
    /// What is said.
    pub(crate) text: Text,
}

/// What became of a part of a file.
#[derive(Drop)]
pub(crate) struct Part {
    /// What the file has.
    pub(crate) kind: Kind,
    /// The number of octets of the header, and of what is before it.
    pub(crate) header: usize,
    /// The number of octets that were converted, from the body's first on.
    pub(crate) taken: usize,
    /// The number of the next card or row.
    pub(crate) card: u64,
    /// The number of the next line.
    pub(crate) line: u64,
    /// What becomes of the columns.
    pub(crate) columns: Text,
    /// What is known of the order of day and month.
    pub(crate) dates: Dates,
    /// How many cards were written and changed, and weren't carried.
    pub(crate) summary: Summary,
    /// What was changed, and what wasn't carried.
    pub(crate) report: Items<ReportLine>,
    /// The cards that were written.
    pub(crate) rows: Items<CardRow>,
}
