//! The errors of a call: a refusal or a fault.
ghost use Rattle.std.specs.Prelude.{◌≡◌};
ghost use Rattle.book_model.specs.RefusalNumbers.{book_fault_number, book_fault_text};

use crate::refusal::Refusal;
use std::alloc::{AllocError, AllocFailed};
use std::error::Error;
use std::fmt;
use vcard_text::{CardFault, NoMemory};

/// A failure of the store or of an allocation. After a fault the books are unchanged. But if a
/// failure of the disk closed the file, the change was made completely or not at all.
#[derive(Clone, Copy, Debug, PartialEq, Eq)]
pub enum Fault {
    /// The database reported an error, or a row read from it isn't well formed.
    Store,
    /// An allocation failed.
    Memory,
}

impl Fault {
    /// The number of the fault in replies: 19 for `Store`, 20 for `Memory`.
    pub fn number(&self) -> u8
        ensures { result ≡ book_fault_number self.now }
    {
        match self {
            Fault::Store => 19,
            Fault::Memory => 20,
        }
    }

    /// The text of the fault in replies: `store-fault` or `no-memory`.
    pub fn text(&self) -> &'static str
        ensures { result.now ≡ book_fault_text self.now }
    {
        match self {
            Fault::Store => "store-fault",
            Fault::Memory => "no-memory",
        }
    }
}

impl fmt::Display for Fault {
    ghost use Rattle.std.specs.Prelude.{Some};
    ghost use Rattle.book_model.specs.RefusalNumbers.{book_fault_text};

    ghost output = { λ fault. Some (book_fault_text fault) };

    fn fmt<W: fmt::Write>(&self, f: &mut fmt::Formatter<W>) -> fmt::Result {
        f.write_str(self.text())
    }
}

impl Error for Fault {}

/// A refusal or a fault.
#[derive(Clone, Copy, Debug, PartialEq, Eq)]
pub enum Denied {
    /// The call isn't allowed, given its arguments and the books.
    Refused(Refusal),
    /// The store or an allocation failed.
    Fault(Fault),
}

impl fmt::Display for Denied {
    ghost use Rattle.std.specs.Prelude.{Some};
    ghost use Rattle.book_model.specs.RefusalNumbers.{denied_text};

    ghost output = { λ denied. Some (denied_text denied) };

    fn fmt<W: fmt::Write>(&self, f: &mut fmt::Formatter<W>) -> fmt::Result {
        match self {
            Denied::Refused(refusal) => f.write_str(refusal.text()),
            Denied::Fault(fault) => f.write_str(fault.text()),
        }
    }
}

impl Error for Denied {}

impl From<Refusal> for Denied {
    ghost use Rattle.std.specs.Prelude.{◌≡◌};
    ghost use Rattle.book_model.specs.declared.denied.Denied.TheVariants.{Refused};

    ghost from_gives = { λ refusal denied. denied ≡ Refused refusal };

    fn from(refusal: Refusal) -> Denied {
        Denied::Refused(refusal)
    }
}

impl From<CardFault> for Denied {
    ghost use Rattle.std.specs.Prelude.{◌≡◌};
    ghost use Rattle.book_model.specs.CallOutcomes.{denied_card_fault};

    ghost from_gives = { λ fault denied. denied ≡ denied_card_fault fault };

    fn from(fault: CardFault) -> Denied {
        match fault {
            CardFault::Memory => Denied::Fault(Fault::Memory),
            fault => Denied::Refused(Refusal::BadCard(fault)),
        }
    }
}

impl From<NoMemory> for Denied {
    ghost use Rattle.std.specs.Prelude.{◌≡◌};
    ghost use Rattle.book_model.specs.CallOutcomes.{denied_no_memory};

    ghost from_gives = { λ _ denied. denied ≡ denied_no_memory };

    fn from(_error: NoMemory) -> Denied {
        Denied::Fault(Fault::Memory)
    }
}

impl From<AllocError> for Denied {
    ghost use Rattle.std.specs.Prelude.{◌≡◌};
    ghost use Rattle.book_model.specs.CallOutcomes.{denied_no_memory};

    ghost from_gives = { λ _ denied. denied ≡ denied_no_memory };

    fn from(_error: AllocError) -> Denied {
        Denied::Fault(Fault::Memory)
    }
}

impl<T: Drop> From<AllocFailed<T>> for Denied {
    ghost use Rattle.std.specs.Prelude.{◌≡◌};
    ghost use Rattle.book_model.specs.CallOutcomes.{denied_no_memory};

    ghost from_gives = { λ _ denied. denied ≡ denied_no_memory };

    fn from(_error: AllocFailed<T>) -> Denied {
        Denied::Fault(Fault::Memory)
    }
}
