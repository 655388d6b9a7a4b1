//! `Conversion`: a card that was made of another program's, and what was changed.
use crate::change::Change;
use vcard_text::{Card, Items};

/// A card of vCard 4.0, and what was changed to make it of the card that was read.
#[derive(Drop)]
pub struct Conversion {
    /// The card.
    pub card: Card,
    /// The changes, in the order of the lines; lines that were added come last.
    pub changes: Items<Change>,
}
