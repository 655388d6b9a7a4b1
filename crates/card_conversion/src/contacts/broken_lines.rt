//! `BrokenLines`: the lines of a row with a quote that isn't closed, until they are told.

use crate::contacts::report::RowPlace;

/// A row with a quote that isn't closed, and the rows after it that aren't carried either. Mostly
/// they are the lines of its cell.
#[derive(Drop)]
pub(crate) struct BrokenLines {
    first: Option<RowPlace>,
    /// The line after the last of these rows.
    end: u64,
}

impl BrokenLines {
    pub(crate) fn new() -> BrokenLines {
        BrokenLines {
            first: None,
            end: 0,
        }
    }

    /// Whether there is such a row that wasn't told yet.
    pub(crate) fn is_open(&self) -> bool {
        self.first.is_some()
    }

    /// A row with such a quote is at the place.
    pub(crate) fn begin(&mut self, place: RowPlace) {
        if self.first.is_none() {
            self.first = Some(place);
        }
        self.end = place.end;
    }

    /// A row that isn't carried either is at the place.
    pub(crate) fn add(&mut self, place: RowPlace) {
        self.end = place.end;
    }

    /// The place of the first row, and the number of lines from there to the end of the last one.
    pub(crate) fn take(&mut self) -> Option<(RowPlace, u64)> {
        let place = self.first?;
        self.first = None;
        Some((place, self.end.saturating_sub(place.line)))
    }
}
