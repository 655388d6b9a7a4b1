//! Rows of an export that have a quote before other text: what stands for one among the texts of
//! rows.

use import_text::count_lines;

/// What a text begins with that stands for a broken row.
pub const BROKEN_TEXT: &[u8] = b"\0\"\0";

/// How many lines a row had that a text stands for, if it had a quote before other text.
pub(crate) fn broken_lines(text: &[u8]) -> Option<u64> {
    if text.starts_with(BROKEN_TEXT) {
        Some(count_lines(text) as u64)
    } else {
        None
    }
}
