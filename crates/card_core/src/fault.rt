//! `GroupFault`: why a UID has no expansion.
ghost use Rattle.std.specs.Prelude.{◌≡◌};
ghost use Rattle.card_core.specs.declared.fault.GroupFault.TheVariants.{Memory};

use std::alloc::{AllocError, AllocFailed};
use std::error::Error;
use std::fmt;
use vcard_text::NoMemory;

/// Why `expand` returns no expansion.
#[derive(Clone, Copy, Debug, PartialEq, Eq)]
pub enum GroupFault {
    /// No card has the UID.
    NoSuchCard,
    /// The card's kind isn't group.
    NotGroup,
    /// An allocation failed.
    Memory,
}

impl fmt::Display for GroupFault {
    ghost use Rattle.std.specs.Prelude.{Some};
    ghost use Rattle.card_core.specs.FaultTexts.{group_fault_text};

    ghost output = { λ fault. Some (group_fault_text fault) };

    fn fmt<W: fmt::Write>(&self, f: &mut fmt::Formatter<W>) -> fmt::Result {
        f.write_str(match self {
            GroupFault::NoSuchCard => "no card has the UID",
            GroupFault::NotGroup => "the card isn't a group",
            GroupFault::Memory => "no memory",
        })
    }
}

impl Error for GroupFault {}

impl From<NoMemory> for GroupFault {
    ghost from_gives = { λ _ fault. fault ≡ Memory };

    fn from(_error: NoMemory) -> GroupFault {
        GroupFault::Memory
    }
}

impl From<AllocError> for GroupFault {
    ghost from_gives = { λ _ fault. fault ≡ Memory };

    fn from(_error: AllocError) -> GroupFault {
        GroupFault::Memory
    }
}

impl<T: Drop> From<AllocFailed<T>> for GroupFault {
    ghost from_gives = { λ _ fault. fault ≡ Memory };

    fn from(_error: AllocFailed<T>) -> GroupFault {
        GroupFault::Memory
    }
}
