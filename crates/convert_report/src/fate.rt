//! `Fate`: what becomes of a piece of a file.

use base_types::Text;
use vcard_changes::{Conversion, ImportFault};

/// What becomes of a piece of a file.
#[derive(Drop)]
pub enum Fate {
    /// It is white space, and is passed.
    Blank,
    /// It is a text that isn't a card.
    Other,
    /// It is a card of more than 8,388,608 octets, or the front of one.
    Long,
    /// It is a card with more than 65,536 semicolons, which begin parameters.
    Overfull,
    /// It is a card that can't be converted.
    Refused(ImportFault),
    /// It is the same card as an earlier one, and is passed.
    Repeated(Conversion),
    /// It is another card with the UID of an earlier one, and would be too long under one of its
    /// own.
    Crowded(Conversion),
    /// It is a card that the sink can't take, for a reason in words.
    Declined(Conversion, Text),
    /// It is a card that was written.
    Written(Conversion),
    /// It is another card with the UID of an earlier one, and was written under one of its own.
    Moved(Conversion),
}
