//! The trait of endpoints.
ghost use Rattle.std.specs.Prelude.{⊤, ◌<◌, IfOk, OnErr, length};
ghost use Rattle.hub_server.specs.Endpoints.{EndpointEvent, FitsBuffer, IsWithinOffer};
ghost use Rattle.hub_server.specs.Endpoints.{accept_event, read_event, write_event};
ghost use Rattle.hub_server.specs.Endpoints.EndpointEvent.{CloseEvent, WaitEvent, WaitFault};

use crate::outcome::{Accepted, Received, Sent, WaitFailed, Woken};

/// A listener and the connections that it accepted, each at a place that the caller chooses. No
/// call blocks but `wait`.
///
/// A place, or the listener, is reported once when it becomes ready: it is to be used until it
/// isn't ready any more. A new connection is reported as soon as it is ready.
pub trait Endpoint {
    /// What is known of one call with its outcome: the endpoint before it and after it. By default
    /// nothing is.
    ghost calls: { Self → EndpointEvent → Self → Type 0 } = { λ _ _ _. ⊤ };

    /// Waits until some place or the listener is ready, but at most until the time, if one is
    /// given. It may return early. Every element of `ready` is set: whether the place is ready.
    fn wait(&mut self, until: Option<u64>, ready: &mut [bool]) -> Result<Woken, WaitFailed>
        ensures woken { IfOk result (λ woken.
            calls self.old (WaitEvent until ready.new woken.listener woken.now) self.new) }
        ensures failed { OnErr result (calls self.old (WaitFault until) self.new) };

    /// Accepts a connection at the place.
    fn accept(&mut self, place: usize) -> Accepted
        ensures { calls self.old (accept_event place result) self.new };

    /// Reads at least one octet from the connection at the place, and at most as many as fit, or
    /// says why it reads none.
    fn read(&mut self, place: usize, buffer: &mut [u8]) -> Received
        requires { 0 < length buffer.old }
        ensures fits { FitsBuffer buffer.new result }
        ensures event { calls self.old (read_event place buffer.new result) self.new };

    /// Writes at least one of the octets to the connection at the place, or says why it writes
    /// none.
    fn write(&mut self, place: usize, octets: &[u8]) -> Sent
        requires { 0 < length octets.now }
        ensures within { IsWithinOffer octets.now result }
        ensures event { calls self.old (write_event place octets.now result) self.new };

    /// Closes the connection at the place.
    fn close(&mut self, place: usize)
        ensures { calls self.old (CloseEvent place) self.new };
}
