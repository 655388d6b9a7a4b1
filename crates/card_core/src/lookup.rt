//! `CardsByUid`: lookup of cards by UID.
ghost use Rattle.std.specs.Prelude.{◌≡◌, option_copied};
ghost use Rattle.std.specs.FinMap as finite;
ghost use Rattle.base_types.specs.TextMaps.{octet_map};
ghost use Rattle.card_core.specs.Groups.{Cards};

use base_types::value_at;
use std::collections::BTreeMap;
use vcard_text::Card;

/// A collection from which cards can be borrowed by UID, such as a map.
pub trait CardsByUid {
    /// The lines of each card, by UID.
    ghost cards: { Self → Cards };

    /// The card with the UID, or `None` if no card has it.
    fn card_of(&self, uid: &str) -> Option<&Card>
        ensures { option_copied result ≡ finite.get (cards self.now) uid.now };
}

impl CardsByUid for BTreeMap<String, Card> {
    ghost cards = { λ map. octet_map map };

    fn card_of(&self, uid: &str) -> Option<&Card> {
        value_at(self, uid)
    }
}
