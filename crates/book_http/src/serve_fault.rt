//! The error of serving a connection.
ghost use Rattle.std.specs.Prelude.{◌≡◌};
ghost use Rattle.book_http.specs.ServeFaults.{serve_fault_number};

use base_types::NoMemory;
use std::alloc::AllocError;

/// Why a connection was aborted. Changes that were acknowledged on it remain.
#[derive(Clone, Copy, Debug, PartialEq, Eq)]
pub enum ServeFault {
    /// The reader failed.
    Read,
    /// The writer failed.
    Write,
    /// 1,000,000 reads that brought octets reached neither the end of the input nor a request that
    /// closes.
    TooManyTurns,
    /// Out of memory.
    Memory,
}

impl ServeFault {
    /// The number of the fault: 1 to 4, in the order of the variants.
    pub fn number(self) -> u8
        ensures { result ≡ serve_fault_number self }
    {
        match self {
            ServeFault::Read => 1,
            ServeFault::Write => 2,
            ServeFault::TooManyTurns => 3,
            ServeFault::Memory => 4,
        }
    }
}

impl From<NoMemory> for ServeFault {
    ghost use Rattle.std.specs.Prelude.{◌≡◌};
    ghost use Rattle.book_http.specs.declared.serve_fault.ServeFault.TheVariants.{Memory};

    ghost from_gives = { λ _ fault. fault ≡ Memory };

    fn from(_error: NoMemory) -> ServeFault {
        ServeFault::Memory
    }
}

impl From<AllocError> for ServeFault {
    ghost use Rattle.std.specs.Prelude.{◌≡◌};
    ghost use Rattle.book_http.specs.declared.serve_fault.ServeFault.TheVariants.{Memory};

    ghost from_gives = { λ _ fault. fault ≡ Memory };

    fn from(_error: AllocError) -> ServeFault {
        ServeFault::Memory
    }
}
