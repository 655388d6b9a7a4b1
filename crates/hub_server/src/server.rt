//! A server with many connections: one step of one of them.
ghost use Rattle.std.specs.Prelude.{◌≡◌, ◌<◌, ◌≤◌, ◌↔◌, ℕ, List, length, IfOk, IsTrue};
ghost use Rattle.http_hub.specs.Hubs.{IsOpenAt};
ghost use Rattle.hub_server.specs.EndpointRuns.{ReachesByActs};
ghost use Rattle.hub_server.specs.Endpoints.EndpointEvent.{CloseEvent};
ghost use Rattle.hub_server.specs.Needs.{HasTurnAt, IsNeed, KeepsOthers, LeavesPlace};
ghost use Rattle.hub_server.specs.Needs.{NeedsClosing, NeedsFeeding, NeedsInput, NeedsOutput};
ghost use Rattle.hub_server.specs.Needs.{steps_left};
ghost use Rattle.hub_server.specs.ServerRuns.{FeedsNext};
ghost use Rattle.hub_server.specs.Servers.{AreSeatedBelow, new_server};
ghost use Rattle.hub_server.specs.declared.limits.ServeLimits.{ServeLimits as TheLimits};

use crate::endpoint::Endpoint;
use crate::limits::ServeLimits;
use crate::listener_state::ListenerState;
use crate::need::Need;
use crate::outcome::{Received, Sent};
use crate::seat::Seat;
use base_types::NoMemory;
use http_hub::BoundedHub;
use http_requests::Handler;
use std::alloc::Global;
use std::marker::Model;

/// The connections of a server and what it keeps of each, what it knows of its listener, and the
/// time of the last wait in milliseconds.
#[derive(Debug, Drop)]
pub struct Server {
    pub(crate) hub: BoundedHub,
    pub(crate) seats: Vec<Seat>,
    pub(crate) listener: ListenerState,
    pub(crate) time: u64,
}

impl Model for Server {
    ghost use Rattle.hub_server.specs.Servers.{ServerValue};

    ghost Value = { ServerValue };

    ghost view = { λ server. record {
      hub = server.hub;
      seats = server.seats.items;
      listener = server.listener;
      time = server.time;
    } };
}

impl Server {
    /// A server with `limit` places and no connections. `NoMemory` if the places, or the 16,384
    /// octets of each seat, can't be allocated.
    pub fn new(alloc: Global, limit: usize) -> Result<Server, NoMemory>
        ensures { IfOk result (λ server. server ≡ new_server limit) }
    {
        let hub = BoundedHub::new(alloc, limit)?;
        let mut seats = Vec::new(alloc);
        for _place in 0..limit {
            seats.push(Seat::new(alloc)?)?;
        }
        Ok(Server {
            hub,
            seats,
            listener: ListenerState::Idle,
            time: 0,
        })
    }

    /// A number that the place of every connection is below, so that nobody goes over all places.
    pub fn places_end(&self) -> usize
        ensures below { AreSeatedBelow self.now result }
        ensures within { result ≤ length self.now.seats }
    {
        self.hub.places_end().min(self.seats.len())
    }

    /// Whether the place has a connection whose turn isn't over.
    pub fn has_turn(&self, place: usize) -> bool
        ensures { IsTrue result ↔ HasTurnAt self.now place }
    {
        place < self.seats.len() && self.hub.is_open(place) && self.seats[place].has_turn()
    }

    /// What the connection at the place needs next: to send what is pending; to be closed, if its
    /// session is; to be fed what was read; or to be read from, in this order.
    pub fn need(&self, place: usize) -> Need
        requires { HasTurnAt self.now place }
        ensures { IsNeed self.now place result }
    {
        if !self.hub.pending(place).is_empty() {
            Need::Output
        } else if self.hub.session_is_closed(place) {
            Need::Closing
        } else if !self.seats[place].unfed().is_empty() {
            Need::Feeding
        } else {
            Need::Input
        }
    }

    /// Closes the connection at the place. What was read and not fed, or is pending, is dropped.
    pub fn close<E: Endpoint>(&mut self, endpoint: &mut E, place: usize)
        requires is_open { IsOpenAt self.old.hub place }
        requires has_seat { place < length self.old.seats }
        ensures left { LeavesPlace self.old place self.new }
        ensures event { E.calls endpoint.old (CloseEvent place) endpoint.new }
    {
        self.hub.end(place);
        self.seats[place].clear();
        endpoint.close(place);
    }

    /// Reads from the connection at the place. If its input has ended or reading fails, it is
    /// closed.
    pub fn read<E: Endpoint>(&mut self, endpoint: &mut E, place: usize)
        requires { NeedsInput self.old place }
        ensures acts { (limits : TheLimits) →
            ReachesByActs E.calls limits self.old endpoint.old self.new endpoint.new }
        ensures others { KeepsOthers place self.old self.new }
        ensures less { steps_left self.new place < steps_left self.old place }
    {
        match self.seats[place].read(endpoint, place) {
            Received::Octets(_) | Received::NoneNow => {}
            Received::End | Received::Failed => self.close(endpoint, place),
        }
    }

    /// Writes pending octets to the connection at the place. If writing fails, it is closed.
    pub fn write<E: Endpoint>(&mut self, endpoint: &mut E, place: usize)
        requires { NeedsOutput self.old place }
        ensures acts { (limits : TheLimits) →
            ReachesByActs E.calls limits self.old endpoint.old self.new endpoint.new }
        ensures others { KeepsOthers place self.old self.new }
        ensures less { steps_left self.new place < steps_left self.old place }
    {
        match endpoint.write(place, self.hub.pending(place)) {
            Sent::Octets(count) => {
                self.hub.mark_sent(place, count, self.time);
                self.seats[place].count_step();
            }
            Sent::NoneNow => self.seats[place].sleep(),
            Sent::Failed => self.close(endpoint, place),
        }
    }

    /// Closes the connection at the place, whose session is closed.
    pub fn finish<E: Endpoint>(&mut self, endpoint: &mut E, place: usize)
        requires { NeedsClosing self.old place }
        ensures acts { (limits : TheLimits) →
            ReachesByActs E.calls limits self.old endpoint.old self.new endpoint.new }
        ensures others { KeepsOthers place self.old self.new }
        ensures less { steps_left self.new place < steps_left self.old place }
    {
        self.close(endpoint, place);
    }

    /// Feeds the next piece of what was read to the session of the connection at the place. Out of
    /// memory, or if the connection then holds more than it may, the session is closed.
    pub fn feed<H: Handler>(
        &mut self,
        alloc: Global,
        handler: &mut H,
        place: usize,
        limits: ServeLimits,
    )
        requires { NeedsFeeding self.old place }
        ensures fed { (serial : ℕ) × (piece : List ℕ) × FeedsNext H.does H.fault_reply limits.held
            self.old handler.old place serial piece handler.new self.new }
        ensures others { KeepsOthers place self.old self.new }
        ensures less { steps_left self.new place < steps_left self.old place }
    {
        let piece = self.seats[place].piece();
        let count = piece.len();
        self.hub
            .receive(alloc, handler, place, piece, self.time, limits.held);
        self.seats[place].mark_fed(count);
    }
}
