//! Serves the connections of an endpoint, many at once, on one thread. It uses no socket.
#![tactic(auto)]

mod accepting;
mod awaiting;
mod endpoint;
mod endpoint_fault;
mod expiring;
pub mod laws;
mod limits;
mod listener_state;
mod need;
mod outcome;
mod seat;
mod server;
mod serving;
mod turn;

pub use endpoint::Endpoint;
pub use endpoint_fault::EndpointFault;
pub use limits::ServeLimits;
pub use outcome::{Accepted, Received, Sent, WaitFailed, Woken};
pub use serving::serve_endpoint;
