//! Waits until a connection of a server, or its listener, is ready.
ghost use Rattle.std.specs.Prelude.{◌≡◌, ◌↔◌, ℕ, Bool, false, IfErr, OnOk, IsTrue, length};
ghost use Rattle.http_hub.specs.Links.{IsFirstTime};
ghost use Rattle.hub_server.specs.EndpointRuns.{ReachesByWait, FailsAtWait};
ghost use Rattle.hub_server.specs.Seats.{seats_after_wait};
ghost use Rattle.hub_server.specs.ServerActs.{IsLeft, listener_after_wait};
ghost use Rattle.hub_server.specs.Servers.{HasToWait, is_due, is_listener_due};

use crate::accepting::LATER_MILLISECONDS;
use crate::endpoint::Endpoint;
use crate::endpoint_fault::EndpointFault;
use crate::limits::ServeLimits;
use crate::listener_state::ListenerState;
use crate::seat::Seat;
use crate::server::Server;
use http_hub::earlier;

/// Begins a new turn, without steps yet, for each connection that is ready or still awake, as one
/// is that was cut off at the end of its turn. Another one stays asleep. The unfed octets stay.
fn begin_turns(seats: &mut [Seat], ready: &[bool])
    requires { length ready.now ≡ length seats.old }
    ensures { seats.new ≡ seats_after_wait ready.now seats.old }
{
    for (place, is_ready) in ready.iter().enumerate() {
        seats[place].begin_turn(*is_ready);
    }
}

impl ListenerState {
    /// The first time at which connections may wait to be accepted.
    fn due_time(self) -> Option<u64>
        ensures { IsFirstTime (λ time. is_listener_due self time) result }
    {
        match self {
            ListenerState::Idle => None,
            ListenerState::Ready => Some(0),
            ListenerState::Deferred(since) => since.checked_add(LATER_MILLISECONDS),
        }
    }

    /// The state after a wait that reported the listener, or didn't.
    fn after_wait(self, is_ready: bool) -> ListenerState
        ensures { result ≡ listener_after_wait is_ready self }
    {
        if is_ready { ListenerState::Ready } else { self }
    }
}

impl Server {
    /// Whether a connection was cut off at the end of its turn.
    fn is_left(&self) -> bool
        ensures { IsTrue result ↔ IsLeft self.now }
    {
        for place in 0..self.places_end() {
            if self.hub.is_open(place) && self.seats[place].is_awake() {
                return true;
            }
        }
        false
    }

    /// The first time at which something is to be done, if nothing becomes ready before.
    fn due_time(&self, limits: ServeLimits, is_left: bool) -> Option<u64>
        ensures { IsFirstTime
            (λ time. is_due limits.connections limits.patience is_left self.now time) result }
    {
        if is_left {
            return Some(0);
        }
        let expiry = self.hub.next_expiry(limits.patience);
        if self.has_room(limits.connections) {
            earlier(expiry, self.listener.due_time())
        } else {
            expiry
        }
    }

    /// Waits until a connection or the listener is ready, or something is to be done: until the
    /// first connection expires, or accepting is tried again. It returns at once if a connection
    /// was cut off at the end of its turn. `EndpointFault::Wait` if the endpoint can't wait, which
    /// ends the server.
    pub fn wait<E: Endpoint>(
        &mut self,
        endpoint: &mut E,
        limits: ServeLimits,
        ready: &mut [bool],
    ) -> Result<(), EndpointFault>
        requires due { HasToWait limits self.old ready.old }
        ensures waited { OnOk result (ReachesByWait E.calls limits
            self.old endpoint.old self.new endpoint.new) }
        ensures failed { IfErr result (λ fault. FailsAtWait E.calls limits fault
            self.old endpoint.old self.new endpoint.new) }
    {
        let is_left = self.is_left();
        let until = self.due_time(limits, is_left);
        let Ok(woken) = endpoint.wait(until, ready) else {
            return Err(EndpointFault::Wait);
        };
        begin_turns(&mut self.seats, ready);
        self.listener = self.listener.after_wait(woken.listener);
        self.time = woken.now;
        Ok(())
    }
}
