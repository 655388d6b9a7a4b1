//! The replies to commands.

use book_model::{BookLine, Fault, ImportTally, Moved, Page, PutAnswer, Refusal, Tally};
use card_core::Expansion;
use vcard_text::{Card, Items, Text};

/// The reply to a command. `Refused` leaves the books unchanged. So does `Fault`, unless a failure
/// of the disk closed the file.
#[derive(Debug, Drop, PartialEq, Eq)]
pub enum Reply {
    /// The book was created.
    Created {
        /// The book's id; a store numbers its books from 1 in the order of their creation.
        id: u64,
    },
    /// Name, id, number and horizon of every book, in the order of the octets of their names.
    Books(Items<BookLine>),
    /// The live card of the UID and its version.
    Card {
        /// The requested UID, which is the card's.
        uid: Text,
        /// The number of the change that stored the card.
        version: u64,
        /// The card as last stored.
        card: Card,
    },
    /// The result of a put.
    Put(PutAnswer),
    /// The card was removed.
    Gone {
        /// The number of the removal in the book.
        number: u64,
    },
    /// The card was moved: the number of the change in each book.
    Moved(Moved),
    /// A page of a sync report.
    Page(Page),
    /// The cards were imported under the key, now or earlier: how many were added, edited and the
    /// same, and the book's number after that import.
    Imported(ImportTally),
    /// Tombstones were dropped.
    Forgot {
        /// The number of dropped tombstones.
        dropped: u64,
        /// The book's new horizon.
        horizon: u64,
    },
    /// The book's statistics.
    Tally(Tally),
    /// The live cards of the book as CSV rows, in the order of the octets of their UIDs.
    Csv(Items<u8>),
    /// The people that the group reaches, and the member values that name no live card.
    People(Expansion),
    /// The command was refused; the refusal gives the reason.
    Refused(Refusal),
    /// The command failed for lack of memory or a failure of the store.
    Fault(Fault),
}
