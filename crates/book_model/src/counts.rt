//! The changes of a book, counted by reason.
ghost use Rattle.std.specs.Prelude.{◌≡◌, ◌<◌, ◌^◌};
ghost use Rattle.book_model.specs.Counting.{no_counts, counts_after_change, total_changes};
ghost use Rattle.book_model.specs.Counting.{live_count};

use crate::change::{Change, RemovalReason, StoreReason};

/// How many changes of a book had each reason.
#[derive(Clone, Copy, Debug, PartialEq, Eq)]
pub struct Counts {
    /// Puts of a card whose UID wasn't live.
    pub created: u64,
    /// Puts that replaced a different card of the UID.
    pub edited: u64,
    /// Cards of imports whose UIDs weren't live.
    pub imported: u64,
    /// Cards of imports that replaced different cards of their UIDs.
    pub import_edited: u64,
    /// Cards that were moved here from another book.
    pub moved_in: u64,
    /// Cards that were removed.
    pub deleted: u64,
    /// Cards that were moved to another book.
    pub moved_out: u64,
}

impl Counts {
    /// No changes.
    pub fn none() -> Counts
        ensures { result ≡ no_counts }
    {
        Counts {
            created: 0,
            edited: 0,
            imported: 0,
            import_edited: 0,
            moved_in: 0,
            deleted: 0,
            moved_out: 0,
        }
    }

    /// Counts one more change: the count of its reason is one more, and the six others stay.
    pub fn add(&mut self, change: &Change)
        requires { total_changes self.old < 2 ^ 63 }
        ensures { self.new ≡ counts_after_change change.now self.old }
    {
        match change {
            Change::Stores(_, StoreReason::Creation) => self.created += 1,
            Change::Stores(_, StoreReason::Edit) => self.edited += 1,
            Change::Stores(_, StoreReason::Import) => self.imported += 1,
            Change::Stores(_, StoreReason::ImportEdit) => self.import_edited += 1,
            Change::Stores(_, StoreReason::MoveIn) => self.moved_in += 1,
            Change::TakesAway(RemovalReason::Deletion) => self.deleted += 1,
            Change::TakesAway(RemovalReason::MoveOut) => self.moved_out += 1,
        }
    }

    /// How many cards are live after these changes: those that were created, imported and moved in,
    /// less those that were deleted and moved out.
    pub fn live(&self) -> u64
        requires { total_changes self.now < 2 ^ 64 }
        ensures { result ≡ live_count self.now }
    {
        let arrived_cards = self.created + self.imported + self.moved_in;
        arrived_cards.saturating_sub(self.deleted + self.moved_out)
    }
}
