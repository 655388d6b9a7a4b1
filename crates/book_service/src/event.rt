//! Runs of events: commands, and devices that request pages between them.
ghost use Rattle.std.specs.Prelude.{◌≡◌, ◌↔◌, length, All, IfOk, IsTrue, OnErr};
ghost use Rattle.book_service.specs.Crashes.{LeavesEvent, LeavesRun};
ghost use Rattle.book_service.specs.Faults.{AllowedFaults, IfFaultReply, EventFault};
ghost use Rattle.book_service.specs.PageCounts.{HasFewTruncatedPages};
ghost use Rattle.book_service.specs.Runs.{NamesDeviceBelow, FromEachState, StepsTo};
ghost use Rattle.book_service.specs.Runs.{RanTo};

use crate::command::perform;
use crate::device_pages::next_page;
use crate::laws::truncated_pages_are_bounded;
use crate::reply::denied_reply;
use book_commands::{Command, Reply};
use std::alloc::Global;
use sync_core::{BookStore, Device};
use vcard_text::NoMemory;

/// An event of a store and its devices.
#[derive(Debug, Drop, PartialEq, Eq)]
pub enum Event {
    /// A command is performed.
    Do(Command),
    /// A device requests its next page and applies it.
    Ask {
        /// The device's index in the list, from 0.
        device: usize,
        /// The maximum number of entries in the page; with `None` only the store's limit applies.
        limit: Option<u64>,
    },
}

impl Event {
    /// Whether the event's device, if it has one, is below `devices`.
    pub fn is_within(&self, devices: usize) -> bool
        ensures { IsTrue result ↔ NamesDeviceBelow devices self.now }
    {
        match self {
            Event::Do(_) => true,
            Event::Ask { device, .. } => *device < devices,
        }
    }
}

/// Performs one event.
fn do_event<S: BookStore>(
    alloc: Global,
    store: &mut S,
    devices: &mut Vec<Device>,
    event: &Event,
) -> Reply
    requires { NamesDeviceBelow (length devices.old.items) event.now }
    ensures premise { S.model.premise store.new → S.model.premise store.old }
    ensures limits { S.model.limits store.new ≡ S.model.limits store.old }
    ensures count { length devices.new.items ≡ length devices.old.items }
    ensures fault { IfFaultReply result (EventFault S.model.may_fault event.now) }
    ensures step { FromEachState S.model store.old store.new (λ now.
        now.devices ≡ devices.old.items →
        StepsTo now event.now result (S.model.books store.new) devices.new.items) }
    ensures crash { LeavesEvent S.model store.old store.new event.now result
        devices.old.items devices.new.items }
{
    match event {
        Event::Do(command) => perform(alloc, store, command),
        Event::Ask { device, limit } => match next_page(store, &mut devices[*device], *limit) {
            Ok(page) => Reply::Page(page),
            Err(error) => denied_reply(error),
        },
    }
}

/// Performs the events in order and returns the reply to each. A device whose token is refused
/// clears it, so its next request is for an initial report.
///
/// The caller must ensure that each device index is below the number of devices;
/// `Event::is_within` checks it. `NoMemory` is returned before any event if there is no memory for
/// all replies. If memory runs out later, the event's reply is a fault.
pub fn drive<S: BookStore>(
    alloc: Global,
    store: &mut S,
    devices: &mut Vec<Device>,
    events: &[Event],
) -> Result<Vec<Reply>, NoMemory>
    requires { All (NamesDeviceBelow (length devices.old.items)) events.now }
    ensures premise { S.model.premise store.new → S.model.premise store.old }
    ensures limits { S.model.limits store.new ≡ S.model.limits store.old }
    ensures count { length devices.new.items ≡ length devices.old.items }

    // One reply to each event.
    ensures one_each { IfOk result (λ replies. length replies.items ≡ length events.now) }

    // A fault is one that the store may return, or out of memory while a text is read or copied or
    // a page applied.
    ensures faults { IfOk result (λ replies.
        AllowedFaults S.model.may_fault events.now replies.items) }

    // From every system state that matches the store's rows, the events ran, with these replies, to
    // a state that matches its rows now.
    ensures runs { IfOk result (λ replies. FromEachState S.model store.old store.new (λ now.
        now.devices ≡ devices.old.items →
        RanTo now events.now replies.items (S.model.books store.new) devices.new.items)) }

    // After a crash the rows are those after the events that were answered, or after one more
    // command. From there on each reply is a fault, and no device changed.
    ensures crash { IfOk result (λ replies. LeavesRun S.model store.old store.new events.now
        replies.items devices.old.items devices.new.items) }

    // The number of truncated pages that a device receives is bounded.
    ensures truncated { IfOk result (λ replies. FromEachState S.model store.old store.new (λ now.
        now.devices ≡ devices.old.items →
        HasFewTruncatedPages now events.now replies.items (S.model.books store.new))) }

    // Without memory for the replies nothing changes.
    ensures err { OnErr result ((S.model.books store.new ≡ S.model.books store.old)
        × (devices.new.items ≡ devices.old.items)) }
{
    // A law, no code.
    truncated_pages_are_bounded();

    let mut replies = Vec::with_capacity(alloc, events.len())?;
    for event in events {
        let reply = do_event(alloc, store, devices, event);
        replies.push(reply)?;
    }
    Ok(replies)
}
