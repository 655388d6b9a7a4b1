//! Prints a line for each request of a server, and for each fault of its connections. What the
//! server replies doesn't depend on it.
#![tactic(auto)]

mod endpoint;
mod handler;
mod host_log;
mod lines;
mod log;
mod notes;
mod shown;

pub use endpoint::LoggedEndpoint;
pub use handler::LoggedHandler;
pub use lines::{answered_text, lost_text, refused_text};
pub use log::{RequestLog, SilentLog};
pub use shown::write_shown;
