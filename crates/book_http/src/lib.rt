//! Serves the contact service over HTTP/1.1 (RFC 9110, RFC 9112).
#![tactic(auto)]

mod answering;
mod closing;
mod connection;
pub mod hub_laws;
pub mod laws;
mod listen_fault;
mod listener;
pub mod listener_laws;
mod listening;
mod pieces;
mod serve_fault;
mod service;
mod serving;
mod streams;

pub use answering::{answer, answer_with};
pub use connection::Connection;
pub use listen_fault::ListenFault;
pub use listener::Listener;
pub use listening::serve_listener;
pub use serve_fault::ServeFault;
pub use service::Service;
pub use serving::serve;
