//! What a book has under a UID.
ghost use Rattle.book_model.specs.Books.{as_stored};
ghost use Rattle.store_lookups.specs.MemberStates.{is_tombstone_state, live_card};
ghost use Rattle.std.specs.Prelude.{◌≡◌};

use book_model::Stored;
use vcard_text::Card;

/// What a book has under a UID: a live card, a tombstone, or neither.
#[derive(Debug, Drop)]
pub enum MemberState {
    /// A live card, with its version.
    Live(Stored),
    /// A tombstone: the card was removed after the book's horizon (RFC 6578, section 3.5.2).
    Tombstone,
    /// Neither: the book never had a card with the UID, or it has forgotten the removal.
    Missing,
}

impl MemberState {
    /// Returns the version of the live card, and the card; `None` for a tombstone, and if the book
    /// has neither.
    pub fn live(&self) -> Option<(u64, &Card)>
        ensures { as_stored result ≡ live_card self.now }
    {
        match self {
            MemberState::Live(stored) => Some((stored.version, &stored.card)),
            MemberState::Tombstone | MemberState::Missing => None,
        }
    }

    /// Whether the book has a tombstone under the UID.
    pub fn is_tombstone(&self) -> bool
        ensures { result ≡ is_tombstone_state self.now }
    {
        matches!(self, MemberState::Tombstone)
    }
}
