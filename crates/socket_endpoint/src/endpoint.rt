//! The endpoint of a server over any system of sockets.
ghost use Rattle.std.specs.Prelude.{◌≡◌, ◌<◌, IfOk, IsFalse, IsTrue, None, length};
ghost use Rattle.std.specs.Prelude.{replicate};
ghost use Rattle.hub_server.specs.Endpoints.{FitsBuffer, IsWithinOffer};
ghost use Rattle.socket_endpoint.specs.SocketEvents.{Accepting, Finishes, Listens};
ghost use Rattle.socket_endpoint.specs.SocketEvents.{ReadsPlace, SeatsOrNot};
ghost use Rattle.socket_endpoint.specs.SocketCalls.{logged};
ghost use Rattle.socket_endpoint.specs.SocketCalls.SocketCall.{SendsAtOnce};
ghost use Rattle.socket_endpoint.specs.SocketEvents.{IsFree, IsTaken, WritesPlace, log_of};

use crate::accept_causes::{AcceptCause, accept_cause};
use crate::bind_fault::BindFault;
use crate::polling::Polling;
use crate::reports::{clear_ready, mark_reported};
use crate::sockets::Sockets;
use crate::subject::{Subject, token_of};
use crate::transfers::{read_from, write_to};
use base_types::NoMemory;
use hub_server::{Accepted, Endpoint, Received, Sent, WaitFailed, Woken};
use mio::Token;
use std::alloc::Global;

/// How often accepting is tried while each connection fails before it is accepted.
const ACCEPTS_MAX: u32 = 64;

/// A listener, and the connections that it accepted, each at a place, over a system of sockets. The
/// time is the number of milliseconds since the system was made.
///
/// A place that is closed is free at once. The socket of its connection lingers for a while without
/// blocking anybody, at most 1 second without octets from the client and 10 seconds in all, so that
/// the client can read what was written (RFC 9112, section 9.6). What it sends meanwhile is
/// dropped, at most 16,384,000 octets. At most as many sockets linger as there are places: beyond
/// these the one that was closed first is given up.
#[derive(Drop)]
pub struct EndpointOver<S, L, C> {
    polling: Polling<S, C>,
    listener: L,
    places: Vec<Option<C>>,
}

/// A list of `limit` places without connections.
pub(crate) fn free_places<C: Drop>(alloc: Global, limit: usize) -> Result<Vec<Option<C>>, NoMemory>
    ensures { IfOk result (λ places. places.items ≡ replicate limit None) }
{
    let mut places = Vec::new(alloc);
    for _place in 0..limit {
        places.push(None)?;
    }
    Ok(places)
}

impl<S: Sockets<L, C> + Drop, L: Drop, C: Drop> EndpointOver<S, L, C> {
    /// The listener.
    pub(crate) fn listener(&self) -> &L
        ensures { result.now ≡ self.now.listener }
    {
        &self.listener
    }

    /// The endpoint over the listener.
    pub(crate) fn over(
        polling: Polling<S, C>,
        listener: L,
        places: Vec<Option<C>>,
    ) -> Result<EndpointOver<S, L, C>, BindFault>
        ensures { IfOk result (λ endpoint. Listens S.log polling listener places.items endpoint) }
    {
        let mut polling = polling;
        let mut listener = listener;
        polling.system.watch_listener(&mut listener, Token(0))?;
        Ok(EndpointOver {
            polling,
            listener,
            places,
        })
    }

    /// Stops listening, closes the connections that are open, and waits until no socket lingers:
    /// at most 1 second for silent clients, and 10 seconds in all. Returns the system of sockets.
    pub fn finish(self) -> S
        ensures { Finishes S.log self result }
    {
        let EndpointOver {
            mut polling,
            listener,
            mut places,
        } = self;
        drop(listener);
        polling.close_all(&mut places);
        polling.finish();
        polling.into_system()
    }

    /// Whether it is a place, and has no connection.
    fn is_free(&self, place: usize) -> bool
        ensures free { IsTrue result → IsFree self.now.places.items place }
        ensures taken { IsFalse result → IsTaken self.now.places.items place }
    {
        if place >= self.places.len() {
            return false;
        }
        self.places[place].is_none()
    }

    /// Puts the connection that was accepted at the place. If the system has no memory to watch it,
    /// the connection is dropped.
    fn seat(&mut self, place: usize, stream: C) -> Accepted
        requires { place < length self.old.places.items }
        ensures { SeatsOrNot S.log place stream result self.old self.new
            (logged (SendsAtOnce stream) (log_of S.log self.old)) }
    {
        let mut stream = stream;
        self.polling.system.send_at_once(&stream);
        let Some(token) = token_of(Subject::Place(place)) else {
            return Accepted::Failed;
        };
        match self.polling.system.watch(&mut stream, token) {
            Ok(()) => {}
            Err(_error) => return Accepted::Later,
        }
        self.places[place] = Some(stream);
        Accepted::Connection
    }

    /// Accepts a connection at the place.
    fn accept_at(&mut self, place: usize) -> Accepted
        ensures { Accepting S.log place result self.old self.new }
    {
        if !self.is_free(place) {
            return Accepted::Failed;
        }
        for _try in 0..ACCEPTS_MAX {
            match self.polling.system.accept(&self.listener) {
                Ok(stream) => return self.seat(place, stream),
                Err(error) => {
                    match accept_cause(error.raw_os_error()) {
                        AcceptCause::NoneWaits => return Accepted::NoneNow,
                        AcceptCause::TriesAgain => {}
                        AcceptCause::Shortage => return Accepted::Later,
                        AcceptCause::Broken => return Accepted::Failed,
                    }
                }
            }
        }
        Accepted::Later
    }

    /// Reads octets from the connection at the place.
    fn read_at(&mut self, place: usize, buffer: &mut [u8]) -> Received
        requires { 0 < length buffer.old }
        ensures fits { FitsBuffer buffer.new result }
        ensures reads { ReadsPlace S.log place buffer.new result self.old self.new }
    {
        if place >= self.places.len() {
            return Received::Failed;
        }
        let Some(stream) = &self.places[place] else {
            return Received::Failed;
        };
        read_from(&mut self.polling.system, stream, buffer)
    }

    /// Writes octets to the connection at the place.
    fn write_at(&mut self, place: usize, octets: &[u8]) -> Sent
        requires { 0 < length octets.now }
        ensures within { IsWithinOffer octets.now result }
        ensures writes { WritesPlace S.log place octets.now result self.old self.new }
    {
        if place >= self.places.len() {
            return Sent::Failed;
        }
        let Some(stream) = &self.places[place] else {
            return Sent::Failed;
        };
        write_to(&mut self.polling.system, stream, octets)
    }
}

impl<S: Sockets<L, C> + Drop, L: Drop, C: Drop> Endpoint for EndpointOver<S, L, C> {
    ghost use Rattle.socket_endpoint.specs.SocketEvents.{DoesAtSockets};

    ghost calls = { DoesAtSockets S.log };

    fn wait(&mut self, until: Option<u64>, ready: &mut [bool]) -> Result<Woken, WaitFailed> {
        clear_ready(ready);
        let now = match self.polling.poll_until(until) {
            Ok(now) => now,
            Err(_error) => return Err(WaitFailed),
        };
        let listener = mark_reported(self.polling.events(), ready);
        Ok(Woken { listener, now })
    }

    /// `Failed` also if the place has a connection, or isn't a place.
    fn accept(&mut self, place: usize) -> Accepted {
        self.accept_at(place)
    }

    fn read(&mut self, place: usize, buffer: &mut [u8]) -> Received {
        self.read_at(place, buffer)
    }

    fn write(&mut self, place: usize, octets: &[u8]) -> Sent {
        self.write_at(place, octets)
    }

    fn close(&mut self, place: usize) {
        self.polling.close_at(&mut self.places, place);
    }
}
