//! Accepts the connections of a server.
ghost use Rattle.std.specs.Prelude.{◌≡◌, ◌<◌, true, false, IfErr, IfOk, OnOk, length, IsTrue};
ghost use Rattle.hub_server.specs.EndpointRuns.{ReachesByActs};
ghost use Rattle.hub_server.specs.Expiries.{KeepsNoneExpired, KeepsTurnsOver};
ghost use Rattle.hub_server.specs.Seats.{new_seat};
ghost use Rattle.hub_server.specs.Servers.{accepts_at, has_room, is_listener_due, with_seat};
ghost use Rattle.hub_server.specs.Acceptings.{AcceptsNext, FailsAfterActs, FailsAccepting};

use crate::endpoint::Endpoint;
use crate::endpoint_fault::EndpointFault;
use crate::limits::ServeLimits;
use crate::listener_state::ListenerState;
use crate::outcome::Accepted;
use crate::server::Server;
use std::alloc::Global;

/// The milliseconds after which accepting is tried again.
pub(crate) const LATER_MILLISECONDS: u64 = 100;

impl ListenerState {
    /// Whether connections may wait to be accepted at this time.
    fn is_due(self, time: u64) -> bool
        ensures { result ≡ is_listener_due self time }
    {
        match self {
            ListenerState::Idle => false,
            ListenerState::Ready => true,
            ListenerState::Deferred(since) => match since.checked_add(LATER_MILLISECONDS) {
                Some(due) => due <= time,
                None => false,
            },
        }
    }
}

impl Server {
    /// Whether a place is free and not all connections were accepted.
    pub fn has_room(&self, connections: u64) -> bool
        ensures { result ≡ has_room connections self.now.hub }
    {
        !self.hub.is_full() && self.hub.opened_count() < connections
    }

    /// Whether a connection is to be accepted now, if one waits.
    fn accepts(&self, connections: u64) -> bool
        ensures { result ≡ accepts_at connections self.now self.now.time }
    {
        self.has_room(connections) && self.listener.is_due(self.time)
    }

    /// The seat of the place has no connection any more.
    fn clear_seat(&mut self, place: usize)
        ensures { self.new ≡ with_seat self.old place self.old.hub new_seat }
    {
        if place < self.seats.len() {
            self.seats[place].clear();
        }
    }

    /// Accepts a connection, if one waits. Returns whether more may wait.
    fn accept_next<E: Endpoint>(
        &mut self,
        alloc: Global,
        endpoint: &mut E,
        limits: ServeLimits,
    ) -> Result<bool, EndpointFault>
        requires { accepts_at limits.connections self.old self.old.time ≡ true }
        ensures accepted { IfOk result (λ more. AcceptsNext E.calls limits more
            self.old endpoint.old self.new endpoint.new) }
        ensures failed { IfErr result (λ fault. FailsAccepting E.calls fault
            self.old endpoint.old self.new endpoint.new) }
    {
        let Some(place) = self.hub.free_place() else {
            unreachable!()
        };
        match endpoint.accept(place) {
            Accepted::Connection => {
                self.hub.open_at(alloc, place, self.time);
                self.clear_seat(place);
                self.listener = ListenerState::Ready;
                Ok(true)
            }
            Accepted::NoneNow => {
                self.listener = ListenerState::Idle;
                Ok(false)
            }
            Accepted::Later => {
                self.listener = ListenerState::Deferred(self.time);
                Ok(false)
            }
            Accepted::Failed => Err(EndpointFault::Accept),
        }
    }

    /// Accepts every connection that waits, while places are free and fewer than the limit were
    /// accepted. If the endpoint has too few descriptors or too little memory, accepting is put off
    /// for 100 milliseconds. `EndpointFault::Accept` if the listener fails, which ends the server.
    pub fn accept_all<E: Endpoint>(
        &mut self,
        alloc: Global,
        endpoint: &mut E,
        limits: ServeLimits,
    ) -> Result<(), EndpointFault>
        ensures acts { OnOk result (ReachesByActs E.calls limits
            self.old endpoint.old self.new endpoint.new) }
        ensures none_awaited { OnOk result
            (accepts_at limits.connections self.new self.new.time ≡ false) }
        ensures turns { OnOk result (KeepsTurnsOver self.old self.new) }
        ensures none_expired { OnOk result (KeepsNoneExpired limits self.old self.new) }
        ensures failed { IfErr result (λ fault. FailsAfterActs E.calls limits fault
            self.old endpoint.old self.new endpoint.new) }
    {
        while self.accepts(limits.connections) {
            if !self.accept_next(alloc, endpoint, limits)? {
                return Ok(());
            }
        }
        Ok(())
    }
}
