//! Maps the method, target and body of an HTTP request to a command of the service, or to the
//! first fault of the request.
#![tactic(auto)]

mod action;
mod command;
mod fault;
pub mod laws;
mod method;
mod no_command;
mod path;
mod query;
mod request;
mod route;
mod router;

pub use action::Action;
pub use fault::RouteFault;
pub use no_command::NoCommand;
pub use query::{has_only_names, number_of, pairs_of, query_value};
pub use request::{read_request, split_target};
pub use route::Route;
pub use router::Routes;
