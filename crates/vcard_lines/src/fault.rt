//! `CardFault`: why a text or a list of lines isn't a card.
ghost use Rattle.std.specs.Prelude.{◌≡◌};
ghost use Rattle.vcard_lines.specs.declared.fault.CardFault.TheVariants.{Memory};
ghost use Rattle.vcard_lines.specs.FaultNumbers.{card_fault_number};

use base_types::NoMemory;
use std::alloc::{AllocError, AllocFailed};
use std::error::Error;
use std::fmt;

/// What is wrong with a text or a list of lines that isn't a card.
#[derive(Clone, Copy, Debug, PartialEq, Eq)]
pub enum CardFault {
    /// The text, or the canonical text, has more than 262,144 octets.
    TooLong,
    /// The text isn't UTF-8.
    NotUtf8,
    /// A logical line has a control character other than the tab.
    BadChar,
    /// A logical line doesn't match the grammar, or is in a place where it isn't allowed.
    BadLine,
    /// The first line isn't `BEGIN:VCARD`, or there is none.
    NoBegin,
    /// The second line isn't `VERSION:4.0`, there is none, or a later line before END is named
    /// VERSION.
    BadVersion,
    /// The text begins with BEGIN and VERSION, but has no `END:VCARD`.
    NoEnd,
    /// No line is named FN.
    NoName,
    /// No line is named UID.
    NoUid,
    /// A UID doesn't have 1 to 255 octets, or has a tab.
    BadUid,
    /// More than one line is named UID, or more than one is named KIND.
    Twice,
    /// A line is named MEMBER, but the card's kind isn't group.
    MemberOutsideGroup,
    /// An allocation failed.
    Memory,
}

impl CardFault {
    /// The number of the fault, from 1 to 13.
    pub fn number(&self) -> u8
        ensures { result ≡ card_fault_number self.now }
    {
        match self {
            CardFault::TooLong => 1,
            CardFault::NotUtf8 => 2,
            CardFault::BadChar => 3,
            CardFault::BadLine => 4,
            CardFault::NoBegin => 5,
            CardFault::BadVersion => 6,
            CardFault::NoEnd => 7,
            CardFault::NoName => 8,
            CardFault::NoUid => 9,
            CardFault::BadUid => 10,
            CardFault::Twice => 11,
            CardFault::MemberOutsideGroup => 12,
            CardFault::Memory => 13,
        }
    }
}

impl fmt::Display for CardFault {
    ghost use Rattle.std.specs.Prelude.{Some};
    ghost use Rattle.vcard_lines.specs.FaultNumbers.{card_fault_text};

    ghost output = { λ fault. Some (card_fault_text fault) };

    fn fmt<W: fmt::Write>(&self, f: &mut fmt::Formatter<W>) -> fmt::Result {
        f.write_str(match self {
            CardFault::TooLong => "the text is too long",
            CardFault::NotUtf8 => "the text isn't UTF-8",
            CardFault::BadChar => "a line has a control character",
            CardFault::BadLine => "a line isn't a property line",
            CardFault::NoBegin => "BEGIN:VCARD is missing",
            CardFault::BadVersion => "the version isn't 4.0",
            CardFault::NoEnd => "END:VCARD is missing",
            CardFault::NoName => "FN is missing",
            CardFault::NoUid => "UID is missing",
            CardFault::BadUid => "the UID is empty, too long or has a tab",
            CardFault::Twice => "UID or KIND occurs twice",
            CardFault::MemberOutsideGroup => "MEMBER outside a group",
            CardFault::Memory => "no memory",
        })
    }
}

impl Error for CardFault {}

impl From<NoMemory> for CardFault {
    ghost from_gives = { λ _ fault. fault ≡ Memory };

    fn from(_error: NoMemory) -> CardFault {
        CardFault::Memory
    }
}

impl From<AllocError> for CardFault {
    ghost from_gives = { λ _ fault. fault ≡ Memory };

    fn from(_error: AllocError) -> CardFault {
        CardFault::Memory
    }
}

impl<T: Drop> From<AllocFailed<T>> for CardFault {
    ghost from_gives = { λ _ fault. fault ≡ Memory };

    fn from(_error: AllocFailed<T>) -> CardFault {
        CardFault::Memory
    }
}
