//! `Change`: what the conversion of a card did to one of its lines, and where.
use crate::change_kind::ChangeKind;

/// A change of a line.
#[derive(Clone, Copy)]
pub struct Change {
    /// The number of physical lines of the card before the line's first one; 0 for a line that was
    /// added, since the first line of a card is its BEGIN.
    pub place: usize,
    /// What was done.
    pub kind: ChangeKind,
}
