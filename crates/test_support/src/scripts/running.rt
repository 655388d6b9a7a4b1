//! Runs a list of commands over a store.

use crate::printout::Printout;
use crate::scripts::commands::parse_command;
use crate::scripts::replies::format_reply;
use base_types::NoMemory;
use book_service::{Command, Event, Mirrored, Reply, drive, mirror, perform};
use std::alloc::Global;
use sync_core::{BookStore, Denied, Device};

/// The store's reply to the command. (What is proved of `perform` is long. Who calls this function
/// learns nothing of it, and so is proved in less time.)
pub fn reply_to<S: BookStore>(alloc: Global, store: &mut S, command: &Command) -> Reply {
    perform(alloc, store, command)
}

/// The replies to the events, or `NoMemory` if one asks with a device that isn't in the list. (As
/// with `reply_to`, who calls it learns nothing more.)
pub fn replies_to_events<S: BookStore>(
    alloc: Global,
    store: &mut S,
    devices: &mut Vec<Device>,
    events: &[Event],
) -> Result<Vec<Reply>, NoMemory> {
    let count = devices.len();
    if !events.iter().all(|event| event.is_within(count)) {
        return Err(NoMemory);
    }
    drive(alloc, store, devices, events)
}

/// The mirror of the book. (As with `reply_to`, who calls it learns nothing more.)
pub fn mirror_of<S: BookStore>(
    alloc: Global,
    store: &mut S,
    book: &str,
    limit: u64,
    pages: u64,
) -> Result<Mirrored, Denied> {
    mirror(alloc, store, book, limit, pages)
}

/// Performs the command, and prints the reply.
pub fn print_reply_to<S: BookStore>(store: &mut S, command: &Command, out: &mut Printout) {
    let reply = reply_to(out.alloc(), store, command);
    format_reply(&reply, out);
}

/// Performs the commands of the script's lines in turn, and prints the replies, one a line.
pub fn run_script<S: BookStore>(store: &mut S, script: &str, out: &mut Printout) {
    for line in script.lines() {
        let command = parse_command(line, &mut out.supply);
        print_reply_to(store, &command, out);
        out.add("\n");
    }
}
