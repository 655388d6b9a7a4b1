//! Prints the lines of requests. A line for which there is no memory is lost.

use crate::lines::{answered_text, lost_text, refused_text};
use crate::log::RequestLog;
use base_types::NoMemory;
use http_requests::{Head, HeadFault};
use std::alloc::Global;
use std::time::Instant;

/// Prints the line of a request that was handled since `start`, or for whose reply memory ran out.
pub(crate) fn note_handled<L: RequestLog>(
    alloc: Global,
    log: &L,
    start: Option<Instant>,
    head: &Head,
    user: &[u8],
    handled: &Result<Vec<u8>, NoMemory>,
) {
    let line = match handled {
        Ok(reply) => answered_text(alloc, head, user, reply.as_slice(), log.micros_since(start)),
        Err(NoMemory) => lost_text(alloc, head),
    };
    if let Ok(line) = line {
        log.print(line.as_slice());
    }
}

/// Prints the line of a request that is refused for the fault of its head.
pub(crate) fn note_refused<L: RequestLog>(alloc: Global, log: &L, fault: HeadFault, reply: &[u8]) {
    if let Ok(line) = refused_text(alloc, fault, reply) {
        log.print(line.as_slice());
    }
}
