//! Splits a stream of octets, received in pieces of any size, into HTTP/1.1 requests. A session
//! passes each request to a handler once it is complete.
#![tactic(auto)]

mod fields;
mod guarded;
mod guarding;
mod handler;
mod head;
mod head_fault;
mod head_state;
mod hosts;
pub mod laws;
mod origins;
mod progress;
mod session;

pub use guarded::Guarded;
pub use guarding::guard;
pub use handler::Handler;
pub use head::{Head, ParsedHead, read_head};
pub use head_fault::HeadFault;
pub use head_state::HeadState;
pub use session::Session;
