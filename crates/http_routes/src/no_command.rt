//! The error of `read_request`.

use crate::fault::RouteFault;
use base_types::NoMemory;
use std::alloc::AllocError;

/// Why no command was read from a complete request.
#[derive(Clone, Copy, Debug, PartialEq, Eq)]
pub enum NoCommand {
    /// The request asks for no command.
    Fault(RouteFault),
    /// An allocation failed.
    Memory,
}

impl From<RouteFault> for NoCommand {
    ghost use Rattle.std.specs.Prelude.{◌≡◌};
    ghost use Rattle.http_routes.specs.declared.no_command.NoCommand.TheVariants.{Fault};

    ghost from_gives = { λ fault none. none ≡ Fault fault };

    fn from(fault: RouteFault) -> NoCommand {
        NoCommand::Fault(fault)
    }
}

impl From<NoMemory> for NoCommand {
    ghost use Rattle.std.specs.Prelude.{◌≡◌};
    ghost use Rattle.http_routes.specs.declared.no_command.NoCommand.TheVariants.{Memory};

    ghost from_gives = { λ _ none. none ≡ Memory };

    fn from(_error: NoMemory) -> NoCommand {
        NoCommand::Memory
    }
}

impl From<AllocError> for NoCommand {
    ghost use Rattle.std.specs.Prelude.{◌≡◌};
    ghost use Rattle.http_routes.specs.declared.no_command.NoCommand.TheVariants.{Memory};

    ghost from_gives = { λ _ none. none ≡ Memory };

    fn from(_error: AllocError) -> NoCommand {
        NoCommand::Memory
    }
}
