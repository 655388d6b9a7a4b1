//! Why a text isn't that of a page.
ghost use Rattle.std.specs.Prelude.{◌≡◌};
ghost use Rattle.page_json.specs.FaultNumbers.{report_fault_number, fault_of_card};
ghost use Rattle.page_json.specs.declared.fault.ReportFault.TheVariants.{Memory};

use std::alloc::{AllocError, AllocFailed};
use std::error::Error;
use std::fmt;
use vcard_text::{CardFault, NoMemory};

/// What is wrong with the text of a page.
#[derive(Clone, Copy, Debug, PartialEq, Eq)]
pub enum ReportFault {
    /// The text isn't JSON, isn't UTF-8, or nests deeper than 127.
    NotJson,
    /// A name, a type of value or a status isn't that of a page, a version isn't from 1 to
    /// 9,999,999,999,999, or a member's UID isn't its card's.
    BadShape,
    /// The card text of a member isn't a card's.
    BadCard,
    /// The token's text isn't that of a token.
    BadToken,
    /// An allocation failed.
    Memory,
}

impl ReportFault {
    /// The number of the fault: 1 to 5, in the order of the variants.
    pub fn number(&self) -> u8
        ensures { result ≡ report_fault_number self.now }
    {
        match self {
            ReportFault::NotJson => 1,
            ReportFault::BadShape => 2,
            ReportFault::BadCard => 3,
            ReportFault::BadToken => 4,
            ReportFault::Memory => 5,
        }
    }
}

impl fmt::Display for ReportFault {
    ghost use Rattle.std.specs.Prelude.{Some};
    ghost use Rattle.page_json.specs.FaultNumbers.{report_fault_text};

    ghost output = { λ fault. Some (report_fault_text fault) };

    fn fmt<W: fmt::Write>(&self, f: &mut fmt::Formatter<W>) -> fmt::Result {
        f.write_str(match self {
            ReportFault::NotJson => "the text isn't JSON",
            ReportFault::BadShape => "the JSON isn't that of a page",
            ReportFault::BadCard => "a member's text spells no card",
            ReportFault::BadToken => "the token isn't one",
            ReportFault::Memory => "no memory",
        })
    }
}

impl Error for ReportFault {}

impl From<CardFault> for ReportFault {
    ghost from_gives = { λ card fault. fault ≡ fault_of_card card };

    fn from(fault: CardFault) -> ReportFault {
        match fault {
            CardFault::Memory => ReportFault::Memory,
            _ => ReportFault::BadCard,
        }
    }
}

impl From<NoMemory> for ReportFault {
    ghost from_gives = { λ _ fault. fault ≡ Memory };

    fn from(_error: NoMemory) -> ReportFault {
        ReportFault::Memory
    }
}

impl From<AllocError> for ReportFault {
    ghost from_gives = { λ _ fault. fault ≡ Memory };

    fn from(_error: AllocError) -> ReportFault {
        ReportFault::Memory
    }
}

impl<T: Drop> From<AllocFailed<T>> for ReportFault {
    ghost from_gives = { λ _ fault. fault ≡ Memory };

    fn from(_error: AllocFailed<T>) -> ReportFault {
        ReportFault::Memory
    }
}
