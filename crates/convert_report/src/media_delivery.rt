//! What became of a picture or a sound that a card is carried without.

use base_types::Text;

/// What became of a picture or a sound.
#[derive(Drop)]
pub enum MediaDelivery {
    /// It was written to the place of this name.
    Written(Text),
    /// It wasn't, for a reason in words.
    Refused(Text),
}
