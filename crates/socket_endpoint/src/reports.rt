//! What the events of a poll report.
ghost use Rattle.std.specs.Prelude.{◌≡◌, map};
ghost use Rattle.mio.specs.Events.{items};
ghost use Rattle.socket_endpoint.specs.Reports.{finds_listener, mark_subject, not_ready};
ghost use Rattle.socket_endpoint.specs.Reports.{ready_after, reports_listener};

use crate::subject::{Subject, subject_of};
use mio::Events;
use std::alloc::Global;

/// No place is ready.
pub(crate) fn clear_ready(ready: &mut [bool])
    ensures { ready.new ≡ map not_ready ready.old }
{
    for place in 0..ready.len() {
        ready[place] = false;
    }
}

/// Marks the place that an event is about, if the list has it.
fn mark_subject(ready: &mut [bool], subject: Subject)
    ensures { ready.new ≡ mark_subject ready.old subject }
{
    if let Subject::Place(place) = subject {
        if place < ready.len() {
            ready[place] = true;
        }
    }
}

/// Whether an event is about the listener, or was found before.
fn finds_listener(found: bool, subject: Subject) -> bool
    ensures { result ≡ finds_listener found subject }
{
    match subject {
        Subject::Listener => true,
        Subject::Place(_) | Subject::Lingerer(_) => found,
    }
}

/// Marks the places that the events report. Returns whether they report the listener.
pub(crate) fn mark_reported(events: &Events<Global>, ready: &mut [bool]) -> bool
    ensures places { ready.new ≡ ready_after (items events.now) ready.old }
    ensures listener { result ≡ reports_listener (items events.now) }
{
    let mut listener = false;
    for event in events.iter() {
        let subject = subject_of(event.token());
        mark_subject(ready, subject);
        listener = finds_listener(listener, subject);
    }
    listener
}
