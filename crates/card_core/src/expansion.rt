//! `Expansion`: the people that a group reaches.

use vcard_text::{Items, Text};

/// The people that a group reaches, and the member values that name no card.
#[derive(Debug, Drop, PartialEq, Eq)]
pub struct Expansion {
    /// The UIDs of the cards reached that aren't groups, each once, in octet order.
    pub people: Items<Text>,
    /// The member values that name no card, as written, each once, in octet order.
    pub missing: Items<Text>,
}
