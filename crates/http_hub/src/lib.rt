//! Serves any number of connections with one handler, in any interleaving. It uses no socket.
#![tactic(auto)]

mod bounded;
mod expiry;
mod hub;
pub mod laws;
mod link;
mod places;

pub use bounded::BoundedHub;
pub use expiry::earlier;
pub use hub::Hub;
pub use link::Link;
