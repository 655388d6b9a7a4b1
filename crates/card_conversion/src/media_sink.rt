//! The trait of sinks for pictures and sounds that cards are carried without.
ghost use Rattle.std.specs.Prelude.{◌≡◌, ℕ, List, IfOk};
ghost use Rattle.card_conversion.specs.Media.{Puts};

use base_types::Text;
use convert_report::{MediaDelivery, SinkFault};
use std::alloc::Global;

/// What is left out of a card.
#[derive(Clone, Copy)]
pub enum MediaKind {
    /// A PHOTO.
    Photo,
    /// A LOGO.
    Logo,
    /// A SOUND.
    Sound,
}

/// Of which card something is left out, and which of its kind it is.
#[derive(Clone, Copy)]
pub struct MediaOwner<'a> {
    /// The number of the card, from 1.
    pub number: u64,
    /// The UID of the card that was written.
    pub uid: &'a str,
    /// What it is.
    pub kind: MediaKind,
    /// How many of this kind the card has up to it.
    pub which: u64,
}

/// Where pictures and sounds go that cards are carried without.
pub trait MediaSink {
    /// What writing octets does to the sink: the UID of their card, the octets, and the sink before
    /// and after it.
    ghost takes: { List ℕ → List ℕ → Self → Self → Type 0 };

    /// Whether pictures and sounds are wanted at all.
    fn is_open(&self) -> bool;

    /// Writes the octets of one.
    fn put(
        &mut self,
        alloc: Global,
        owner: MediaOwner<'_>,
        octets: &[u8],
    ) -> Result<MediaDelivery, SinkFault>
        ensures { IfOk result (λ delivery.
            Puts (takes owner.entry.uid.now octets.now) delivery self.old self.new) };
}

/// Wants no pictures and sounds.
#[derive(Drop)]
pub struct NoMedia;

impl MediaSink for NoMedia {
    ghost takes = { λ _ _ _ _. ⊥ };

    fn is_open(&self) -> bool {
        false
    }

    fn put(
        &mut self,
        alloc: Global,
        _owner: MediaOwner<'_>,
        _octets: &[u8],
    ) -> Result<MediaDelivery, SinkFault> {
        Ok(MediaDelivery::Refused(Text::copy_of(alloc, "it isn't wanted")?))
    }
}
