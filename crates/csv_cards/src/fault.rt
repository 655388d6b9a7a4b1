//! `CsvFault`: the first row of a CSV text that isn't a card.
use crate::cause::CsvCause;

/// A faulty row, and what is wrong with it.
#[derive(Clone, Copy, Debug, PartialEq, Eq)]
pub struct CsvFault {
    /// The row number, counted from 1 after the header, which is row 0.
    pub row: u64,
    /// The cause with the least number among those that apply to the row.
    pub cause: CsvCause,
}
