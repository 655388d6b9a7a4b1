//! The requests of a client to a store of address books.

use csv_cards::Form;
use vcard_text::{Items, Text};

/// A request to a store of address books.
#[derive(Debug, Drop, PartialEq, Eq)]
pub enum Command {
    /// Creates an empty book.
    CreateBook {
        /// Its name: 1 to 40 of `a` to `z`, `0` to `9` and the hyphen.
        book: Text,
    },
    /// Lists all books: name, id, number and horizon.
    Books,
    /// Reads the live card of a UID.
    Get {
        /// The book's name.
        book: Text,
        /// The card's UID.
        uid: Text,
    },
    /// Stores the card whose vCard text is given.
    Put {
        /// The book's name.
        book: Text,
        /// The UID that the card must have.
        uid: Text,
        /// The version that the live card of the UID must have: 0 if none may be live, and `None`
        /// for no check.
        expect: Option<u64>,
        /// A vCard (RFC 6350) of at most 262,144 octets.
        text: Items<u8>,
    },
    /// Removes the live card of a UID.
    Remove {
        /// The book's name.
        book: Text,
        /// The card's UID.
        uid: Text,
        /// The version that the card must have, and `None` for no check.
        expect: Option<u64>,
    },
    /// Moves the live card of a UID to another book.
    MoveCard {
        /// The name of the source book.
        book: Text,
        /// The card's UID.
        uid: Text,
        /// The name of the target book, in which the UID must not be live.
        to: Text,
        /// The version that the card must have, and `None` for no check.
        expect: Option<u64>,
    },
    /// Requests a page of the changes since a sync token.
    Report {
        /// The book's name.
        book: Text,
        /// A sync token as text; empty for an initial report (RFC 6578, section 3.4).
        token: Text,
        /// The maximum number of entries in the page; with `None` only the store's limit applies.
        limit: Option<u64>,
    },
    /// Imports cards from CSV. The book stores the result under the key: another import with that
    /// key changes nothing and returns the stored result.
    Import {
        /// The book's name.
        book: Text,
        /// 1 to 64 of `A` to `Z`, `a` to `z`, `0` to `9`, dot, underscore and hyphen.
        key: Text,
        /// CSV rows after a header, in one of the two forms.
        body: Items<u8>,
    },
    /// Raises the horizon and drops the tombstones up to it. Sync tokens whose base is below the
    /// horizon are refused afterwards (RFC 6578, section 3.2).
    Forget {
        /// The book's name.
        book: Text,
        /// The new horizon: tombstones up to this number are dropped.
        upto: u64,
    },
    /// Reads the book's statistics.
    TallyOf {
        /// The book's name.
        book: Text,
    },
    /// Reads all live cards of the book as CSV.
    Export {
        /// The book's name.
        book: Text,
        /// The form of the rows.
        form: Form,
    },
    /// Lists the people in a group and its nested groups, among the live cards of the book.
    People {
        /// The book's name.
        book: Text,
        /// The group's UID.
        uid: Text,
    },
}
