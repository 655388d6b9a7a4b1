//! The error of serving an endpoint.
use base_types::NoMemory;

/// Why not all connections were served. Changes that were acknowledged remain.
#[derive(Clone, Copy, Debug, PartialEq, Eq)]
pub enum EndpointFault {
    /// A wait failed.
    Wait,
    /// The listener failed.
    Accept,
    /// The greatest number of waits was made, 2^64 - 1.
    TooManyWaits,
    /// Out of memory before the first wait.
    Memory,
}

impl From<NoMemory> for EndpointFault {
    ghost use Rattle.std.specs.Prelude.{◌≡◌};
    ghost use Rattle.hub_server.specs.declared.endpoint_fault.EndpointFault.TheVariants.{Memory};

    ghost from_gives = { λ _ fault. fault ≡ Memory };

    fn from(_error: NoMemory) -> EndpointFault {
        EndpointFault::Memory
    }
}
