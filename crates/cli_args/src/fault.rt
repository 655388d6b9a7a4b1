//! Why a command line can't be parsed.

use base_types::{NoMemory, Text};
use std::alloc::{AllocError, AllocFailed};

/// Why a command line gives no order.
#[derive(Debug, Drop, PartialEq, Eq)]
pub enum LineFault {
    /// The arguments are invalid, or ask for help.
    Bad {
        /// The error message or the requested help, as `clap` prints it.
        text: Text,
    },
    /// An allocation failed.
    Memory,
}

impl From<NoMemory> for LineFault {
    ghost use Rattle.std.specs.Prelude.{◌≡◌};
    ghost use Rattle.cli_args.specs.declared.fault.LineFault.TheVariants.{Memory};

    ghost from_gives = { λ _ fault. fault ≡ Memory };

    fn from(_error: NoMemory) -> LineFault {
        LineFault::Memory
    }
}

impl From<AllocError> for LineFault {
    ghost use Rattle.std.specs.Prelude.{◌≡◌};
    ghost use Rattle.cli_args.specs.declared.fault.LineFault.TheVariants.{Memory};

    ghost from_gives = { λ _ fault. fault ≡ Memory };

    fn from(_error: AllocError) -> LineFault {
        LineFault::Memory
    }
}
