//! Tests of connections over a store that returns nothing but faults, and with a reader or a writer
//! that fails: the replies, and the books afterwards. Tests of the order `try`, with an input or an
//! output that fails. And tests of an endpoint over sockets call by call, and of the service over
//! streams and a listener. And calls of HTTP, and of the program's words, with little memory.
#![tactic(auto)]

mod checks;
mod devices;
mod endpoints;
mod failing_devices;
mod first_path;
mod memory;
mod parts;
mod rows;
mod service;
mod serving;
mod settings;

use crate::endpoints::run_endpoints;
use crate::service::run_service;
pub use memory::{run_feed, run_first_path, run_read_order};
pub use rows::run_connection_rows;
use test_support::Printout;

/// The output of the tests that have no rows: the title of each, and a line for each check that
/// fails.
pub fn run_calls(rt: &HostRuntime) -> Printout {
    let mut out = Printout::new(rt.alloc());
    run_endpoints(rt, &mut out);
    run_service(rt, &mut out);
    out
}
