//! Why a call is refused.
ghost use Rattle.std.specs.Prelude.{◌≡◌};
ghost use Rattle.book_model.specs.RefusalNumbers.{refusal_number, refusal_text, token_cause_number};

use std::error::Error;
use std::fmt;
use vcard_text::CardFault;

/// Why a sync token isn't accepted (RFC 6578, section 3.2: the precondition `valid-sync-token`).
#[derive(Clone, Copy, Debug, PartialEq, Eq)]
pub enum TokenCause {
    /// The text isn't that of a token.
    Malformed,
    /// The token is of another book.
    OtherBook,
    /// One of its numbers is above the book's number.
    TooNew,
    /// Its base is below the book's horizon, so removals that it needs are forgotten.
    TooOld,
}

impl TokenCause {
    /// The number of the cause in replies, from 1 to 4.
    pub fn number(&self) -> u8
        ensures { result ≡ token_cause_number self.now }
    {
        match self {
            TokenCause::Malformed => 1,
            TokenCause::OtherBook => 2,
            TokenCause::TooNew => 3,
            TokenCause::TooOld => 4,
        }
    }
}

/// Why a call is refused. After a refusal the books are unchanged.
#[derive(Clone, Copy, Debug, PartialEq, Eq)]
pub enum Refusal {
    /// No book has the name.
    NoSuchBook,
    /// A book already has the name.
    BookExists,
    /// A book's name isn't 1 to 40 of `a` to `z`, `0` to `9` and the hyphen.
    BadBookName,
    /// No live card has the UID.
    NoSuchCard,
    /// The text isn't a card's.
    BadCard(CardFault),
    /// The card's UID isn't the one in the request.
    UidMismatch,
    /// The live card doesn't have the expected version.
    VersionMismatch {
        /// The version of the live card, or 0 where none is live.
        has: u64,
    },
    /// The target book of a move has a live card of that UID.
    UidTaken,
    /// The source and the target book of a move are the same.
    SameBook,
    /// The sync token isn't accepted.
    BadToken(TokenCause),
    /// The limit of a report is 0 (RFC 6578, section 3.7:
    /// `number-of-matches-within-limits`).
    BadLimit,
    /// The book has as many live cards as its limit, or an import would exceed it.
    BookFull,
    /// The book has had as many changes as its limit, or an import would exceed it.
    ChangesSpent,
    /// The body of an import has a bad row.
    BadImport {
        /// The first bad row, counted from 1 after the header, which is row 0.
        row: u64,
        /// The number of the cause, as `CsvCause::number` of `csv_cards` returns it.
        cause: u8,
    },
    /// An import's key isn't 1 to 64 of letters, digits, dot, underscore and hyphen.
    BadKey,
    /// The number is below the book's horizon or above its last change.
    BadForget,
    /// The card isn't a group's.
    NotGroup,
    /// The store has as many books as its limit.
    TooManyBooks,
}

impl Refusal {
    /// The number of the refusal in replies, from 1 to 18.
    pub fn number(&self) -> u8
        ensures { result ≡ refusal_number self.now }
    {
        match self {
            Refusal::NoSuchBook => 1,
            Refusal::BookExists => 2,
            Refusal::BadBookName => 3,
            Refusal::NoSuchCard => 4,
            Refusal::BadCard(_) => 5,
            Refusal::UidMismatch => 6,
            Refusal::VersionMismatch { .. } => 7,
            Refusal::UidTaken => 8,
            Refusal::SameBook => 9,
            Refusal::BadToken(_) => 10,
            Refusal::BadLimit => 11,
            Refusal::BookFull => 12,
            Refusal::ChangesSpent => 13,
            Refusal::BadImport { .. } => 14,
            Refusal::BadKey => 15,
            Refusal::BadForget => 16,
            Refusal::NotGroup => 17,
            Refusal::TooManyBooks => 18,
        }
    }

    /// The text of the refusal in replies.
    pub fn text(&self) -> &'static str
        ensures { result.now ≡ refusal_text self.now }
    {
        match self {
            Refusal::NoSuchBook => "no-such-book",
            Refusal::BookExists => "book-exists",
            Refusal::BadBookName => "bad-book-name",
            Refusal::NoSuchCard => "no-such-card",
            Refusal::BadCard(_) => "bad-card",
            Refusal::UidMismatch => "uid-mismatch",
            Refusal::VersionMismatch { .. } => "version-mismatch",
            Refusal::UidTaken => "uid-taken",
            Refusal::SameBook => "same-book",
            Refusal::BadToken(_) => "valid-sync-token",
            Refusal::BadLimit => "number-of-matches-within-limits",
            Refusal::BookFull => "book-full",
            Refusal::ChangesSpent => "changes-spent",
            Refusal::BadImport { .. } => "bad-import",
            Refusal::BadKey => "bad-key",
            Refusal::BadForget => "bad-forget",
            Refusal::NotGroup => "not-group",
            Refusal::TooManyBooks => "too-many-books",
        }
    }
}

impl fmt::Display for Refusal {
    ghost use Rattle.std.specs.Prelude.{Some};
    ghost use Rattle.book_model.specs.RefusalNumbers.{refusal_text};

    ghost output = { λ refusal. Some (refusal_text refusal) };

    fn fmt<W: fmt::Write>(&self, f: &mut fmt::Formatter<W>) -> fmt::Result {
        f.write_str(self.text())
    }
}

impl Error for Refusal {}
