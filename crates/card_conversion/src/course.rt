//! `Course`: what is known of the cards that were converted so far, of one file or of several.
ghost use Rattle.std.specs.Prelude.{◌≡◌, []};
ghost use Rattle.convert_report.specs.Counts.{nothing_counted};
ghost use Rattle.card_conversion.specs.Courses.{Knows, counts_of};

use base_types::TextMap;
use convert_report::{Ledger, Summary};
use std::alloc::Global;

/// What is known of the cards that were converted so far, of one file or of several: their UIDs,
/// and how many there were of each kind.
#[derive(Drop)]
pub struct Course {
    pub(crate) uids: TextMap<()>,
    /// The UIDs of their own that the cards of rows would have. So the same card is known without
    /// its text.
    pub(crate) row_cards: TextMap<()>,
    pub(crate) ledger: Ledger,
}

impl Course {
    /// Nothing was converted yet.
    pub fn new(alloc: Global) -> Course
        ensures uids { Knows result [] }
        ensures counts { counts_of result ≡ nothing_counted }
    {
        Course {
            uids: TextMap::new(alloc),
            row_cards: TextMap::new(alloc),
            ledger: Ledger::new(),
        }
    }

    /// How many cards were written, changed and not carried.
    pub fn summary(&self) -> Summary
        ensures { result ≡ counts_of self.now }
    {
        self.ledger.summary
    }

    /// The number that the next card gets in the report. It is one more after each text that begins
    /// as a card, whatever became of it.
    pub fn next_card(&self) -> u64 {
        self.ledger.place.card
    }
}
