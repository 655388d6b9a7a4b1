//! The endpoint of a server over TCP or Unix sockets that don't block.
#![tactic(auto)]

mod accept_causes;
mod bind_fault;
mod dropping;
mod endpoint;
mod linger;
mod lingerers;
mod poll_times;
mod polling;
mod reports;
mod socket_files;
mod sockets;
mod stopwatch;
mod streams;
mod subject;
mod system;
mod system_endpoint;
mod transfers;

pub use bind_fault::BindFault;
pub use endpoint::EndpointOver;
pub use sockets::Sockets;
pub use system_endpoint::SocketEndpoint;
