//! `CsvCause`: why a row isn't a card.
ghost use Rattle.std.specs.Prelude.{◌≡◌};
ghost use Rattle.csv_cards.specs.Causes.{cause_number, card_fault_cause};
ghost use Rattle.csv_cards.specs.declared.cause.CsvCause.TheVariants.{Memory};

use std::alloc::{AllocError, AllocFailed};
use vcard_text::{CardFault, NoMemory};

/// What is wrong with a row.
#[derive(Clone, Copy, Debug, PartialEq, Eq)]
pub enum CsvCause {
    /// There is no row, or the first row is neither header.
    BadHeader,
    /// The row doesn't have as many fields as the header.
    Columns,
    /// A field isn't UTF-8.
    NotUtf8,
    /// The field `fn` is empty.
    EmptyName,
    /// The card has this fault.
    BadCard(CardFault),
    /// The field `uid` isn't empty and differs from the card's UID.
    UidMismatch,
    /// The card of an earlier row has the same UID.
    DuplicateUid,
    /// An allocation failed.
    Memory,
}

impl CsvCause {
    /// The number of the cause: 1 to 4; for `BadCard` 20 more than the number of the card's fault;
    /// 40, 41 and 50.
    pub fn number(&self) -> u8
        ensures { result ≡ cause_number self.now }
    {
        match self {
            CsvCause::BadHeader => 1,
            CsvCause::Columns => 2,
            CsvCause::NotUtf8 => 3,
            CsvCause::EmptyName => 4,
            CsvCause::BadCard(fault) => 20 + fault.number(),
            CsvCause::UidMismatch => 40,
            CsvCause::DuplicateUid => 41,
            CsvCause::Memory => 50,
        }
    }
}

impl From<CardFault> for CsvCause {
    ghost from_gives = { λ fault cause. cause ≡ card_fault_cause fault };

    fn from(fault: CardFault) -> CsvCause {
        match fault {
            CardFault::Memory => CsvCause::Memory,
            _ => CsvCause::BadCard(fault),
        }
    }
}

impl From<NoMemory> for CsvCause {
    ghost from_gives = { λ _ cause. cause ≡ Memory };

    fn from(_error: NoMemory) -> CsvCause {
        CsvCause::Memory
    }
}

impl From<AllocError> for CsvCause {
    ghost from_gives = { λ _ cause. cause ≡ Memory };

    fn from(_error: AllocError) -> CsvCause {
        CsvCause::Memory
    }
}

impl<T: Drop> From<AllocFailed<T>> for CsvCause {
    ghost from_gives = { λ _ cause. cause ≡ Memory };

    fn from(_error: AllocFailed<T>) -> CsvCause {
        CsvCause::Memory
    }
}
