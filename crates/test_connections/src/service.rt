//! The service over single requests, over calls that no command makes, over streams and over a
//! listener.

mod answers;
mod calls;
mod failing;
mod sockets;
mod streams;

use crate::service::answers::answers_single_requests;
use crate::service::calls::answers_calls_that_no_command_makes;
use crate::service::failing::{drops_a_refused_token, passes_on_faults};
use crate::service::sockets::serves_nobody_where_none_waits;
use crate::service::streams::{
    flushes_replies, gives_up_after_too_many_reads, numbers_faults, retries_interrupted_reads,
};
use book_http::Service;
use std::alloc::Global;
use sync_core::{Limits, PlainStore};
use test_support::{Printout, Supply};

/// A new store with the standard limits.
pub(crate) fn new_store(alloc: Global) -> PlainStore {
    PlainStore::new(alloc, Limits::standard())
}

/// A service over a new store.
pub(crate) fn new_service(supply: &mut Supply) -> Option<Service<PlainStore>> {
    supply.keep(Service::new(supply.alloc, new_store(supply.alloc)))
}

/// Runs the tests, each after its title.
pub(crate) fn run_service(rt: &HostRuntime, out: &mut Printout) {
    out.add("single requests are answered\n");
    answers_single_requests(out);
    out.add("calls that no command makes are answered\n");
    answers_calls_that_no_command_makes(out);
    out.add("a fault of the store is passed on\n");
    passes_on_faults(out);
    out.add("a device drops a refused token\n");
    drops_a_refused_token(out);
    out.add("interrupted reads are made again\n");
    retries_interrupted_reads(out);
    out.add("replies are flushed\n");
    flushes_replies(out);
    out.add("a connection is given up after too many reads\n");
    gives_up_after_too_many_reads(out);
    out.add("faults are numbered\n");
    numbers_faults(out);
    out.add("nobody is served where none waits\n");
    serves_nobody_where_none_waits(rt, out);
}
