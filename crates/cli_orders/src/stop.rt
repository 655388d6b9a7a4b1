//! The error of an order.
ghost use Rattle.std.specs.Prelude.{◌≡◌};
ghost use Rattle.cli_orders.specs.Stops.{out_of_memory, status_of};

use book_http::{ListenFault, ServeFault};
use hub_server::EndpointFault;
use std::alloc::AllocError;
use std::fmt;
use store_schema::OpenFault;
use sync_core::{Denied, Fault, Refusal};
use vcard_text::NoMemory;

/// Why an order has no output, or not all of it.
#[derive(Clone, Copy)]
pub enum Stop {
    /// It was refused, and changed nothing.
    Refused(Refusal),
    /// The store failed or memory ran out. The order wasn't performed, or it was performed and
    /// memory ran out while its output was built.
    Fault(Fault),
    /// The file can't be opened as a store of books, or no store can be created in it.
    Open(OpenFault),
    /// The fault of the first connection that was aborted, of those that were served one after
    /// another. The connections after it were accepted and served too, each to its end unless it
    /// was aborted itself.
    Serve(ServeFault),
    /// A file, a socket, or standard input or output can't be used.
    Device,
}

impl Stop {
    /// Out of memory.
    pub fn out_of_memory() -> Stop
        ensures { result ≡ out_of_memory }
    {
        Stop::Fault(Fault::Memory)
    }

    /// The exit status of the program: 1 for a refusal, 3 otherwise.
    pub fn status(&self) -> u8
        ensures { result ≡ status_of self.now }
    {
        match self {
            Stop::Refused(_) => 1,
            Stop::Fault(_) | Stop::Open(_) | Stop::Serve(_) | Stop::Device => 3,
        }
    }
}

impl fmt::Display for Stop {
    ghost use Rattle.std.specs.Prelude.{Some};
    ghost use Rattle.cli_orders.specs.Stops.{stop_line};

    ghost output = { λ stop. Some (stop_line stop) };

    fn fmt<W: fmt::Write>(&self, f: &mut fmt::Formatter<W>) -> fmt::Result {
        match self {
            Stop::Refused(refusal) => write!(f, "refused {refusal} {}", refusal.number()),
            Stop::Fault(fault) => write!(f, "fault {fault} {}", fault.number()),
            Stop::Open(fault) => write!(f, "fault open {}", fault.number()),
            Stop::Serve(fault) => write!(f, "fault serve {}", fault.number()),
            Stop::Device => f.write_str("fault device 1"),
        }
    }
}

impl From<Denied> for Stop {
    ghost use Rattle.std.specs.Prelude.{◌≡◌};
    ghost use Rattle.cli_orders.specs.Stops.{stop_of};

    ghost from_gives = { λ denied stop. stop ≡ stop_of denied };

    fn from(denied: Denied) -> Stop {
        match denied {
            Denied::Refused(refusal) => Stop::Refused(refusal),
            Denied::Fault(fault) => Stop::Fault(fault),
        }
    }
}

impl From<NoMemory> for Stop {
    ghost use Rattle.std.specs.Prelude.{◌≡◌};
    ghost use Rattle.cli_orders.specs.Stops.{out_of_memory};

    ghost from_gives = { λ _ stop. stop ≡ out_of_memory };

    fn from(_error: NoMemory) -> Stop {
        Stop::out_of_memory()
    }
}

impl From<AllocError> for Stop {
    ghost use Rattle.std.specs.Prelude.{◌≡◌};
    ghost use Rattle.cli_orders.specs.Stops.{out_of_memory};

    ghost from_gives = { λ _ stop. stop ≡ out_of_memory };

    fn from(_error: AllocError) -> Stop {
        Stop::out_of_memory()
    }
}

impl From<OpenFault> for Stop {
    ghost use Rattle.std.specs.Prelude.{◌≡◌};
    ghost use Rattle.cli_orders.specs.declared.stop.Stop.TheVariants.{Open};

    ghost from_gives = { λ fault stop. stop ≡ Open fault };

    fn from(fault: OpenFault) -> Stop {
        Stop::Open(fault)
    }
}

impl From<EndpointFault> for Stop {
    ghost use Rattle.std.specs.Prelude.{◌≡◌};
    ghost use Rattle.cli_orders.specs.Stops.{stop_of_endpoint};

    ghost from_gives = { λ fault stop. stop ≡ stop_of_endpoint fault };

    fn from(fault: EndpointFault) -> Stop {
        match fault {
            EndpointFault::Wait | EndpointFault::Accept | EndpointFault::TooManyWaits => {
                Stop::Device
            }
            EndpointFault::Memory => Stop::out_of_memory(),
        }
    }
}

impl From<ListenFault> for Stop {
    ghost use Rattle.std.specs.Prelude.{◌≡◌};
    ghost use Rattle.cli_orders.specs.Stops.{stop_of_listening};

    ghost from_gives = { λ fault stop. stop ≡ stop_of_listening fault };

    fn from(fault: ListenFault) -> Stop {
        match fault {
            ListenFault::Serve(fault) => Stop::Serve(fault),
            ListenFault::Device => Stop::Device,
        }
    }
}
