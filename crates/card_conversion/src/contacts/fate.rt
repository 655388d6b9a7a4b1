//! `RowFate`: what becomes of a row of a file of contacts.

use base_types::Text;
use contact_csv::RowFault;
use vcard_changes::Conversion;

/// What becomes of a row.
#[derive(Drop)]
pub(crate) enum RowFate {
    /// It isn't converted.
    Refused(RowFault),
    /// Its card has the UID of an earlier one, as that of a row with the same cells has.
    Repeated(Conversion),
    /// Its card has the UID of a card of an earlier file, which is another card.
    Taken(Conversion),
    /// The sink can't take its card, for a reason in words.
    Declined(Conversion, Text),
    /// Its card was written.
    Written(Conversion),
}
