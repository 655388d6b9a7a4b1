//! Which tombstones a book keeps, and which it drops by itself. Each law is stated in
//! `specs/TombstoneLaws.antt`.
ghost use Rattle.book_laws.specs.TombstoneLaws.{TombstonesAreRemovedMembers, TombstonesAreInOrder};
ghost use Rattle.book_laws.specs.TombstoneLaws.{RemovalsDropOldestTombstone};
ghost use Rattle.book_laws.specs.TombstoneLaws.{StoredCardsKeepHorizon};
ghost use Rattle.book_laws.specs.TombstoneLaws.{RemoveCallsDropOldestTombstone};
ghost use Rattle.book_laws.specs.TombstoneLaws.{MoveCallsDropOldestTombstone};

/// The tombstones of a history.
/// - `members`: they are exactly the UIDs whose last change is a removal above the horizon.
/// - `order`: the numbers of their last changes rise strictly.
pub fn tombstones_are_removed_members()
    ensures members { TombstonesAreRemovedMembers }
    ensures order { TombstonesAreInOrder }
{}

/// A removal adds a tombstone. Below the tombstone limit the horizon is unchanged; at the limit the
/// book drops the oldest tombstone, and the horizon rises to the number of that removal.
/// - `events`: this holds of each removal of a live member from a sound history.
/// - `remove`: it holds of the book of each accepted remove call on sound histories.
/// - `move_card`: it holds of the source book of each accepted move call on sound histories.
/// - `store`: an event that stores a card leaves the horizon unchanged.
pub fn removals_drop_the_oldest_tombstone()
    ensures events { RemovalsDropOldestTombstone }
    ensures remove { RemoveCallsDropOldestTombstone }
    ensures move_card { MoveCallsDropOldestTombstone }
    ensures store { StoredCardsKeepHorizon }
{}
