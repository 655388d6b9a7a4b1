//! The error of binding an endpoint.
use base_types::NoMemory;
use std::alloc::AllocError;
use std::io;

/// Why an endpoint couldn't be bound.
#[derive(Clone, Copy, Debug, PartialEq, Eq)]
pub enum BindFault {
    /// The system refused the address or the port, or has no clock or no polling to offer.
    Device,
    /// Out of memory.
    Memory,
}

impl From<io::Error> for BindFault {
    ghost use Rattle.std.specs.Prelude.{◌≡◌};
    ghost use Rattle.socket_endpoint.specs.declared.bind_fault.BindFault.TheVariants.{Device};

    ghost from_gives = { λ _ fault. fault ≡ Device };

    fn from(_error: io::Error) -> BindFault {
        BindFault::Device
    }
}

impl From<NoMemory> for BindFault {
    ghost use Rattle.std.specs.Prelude.{◌≡◌};
    ghost use Rattle.socket_endpoint.specs.declared.bind_fault.BindFault.TheVariants.{Memory};

    ghost from_gives = { λ _ fault. fault ≡ Memory };

    fn from(_error: NoMemory) -> BindFault {
        BindFault::Memory
    }
}

impl From<AllocError> for BindFault {
    ghost use Rattle.std.specs.Prelude.{◌≡◌};
    ghost use Rattle.socket_endpoint.specs.declared.bind_fault.BindFault.TheVariants.{Memory};

    ghost from_gives = { λ _ fault. fault ≡ Memory };

    fn from(_error: AllocError) -> BindFault {
        BindFault::Memory
    }
}
