//! Waits for events, and serves the sockets that linger meanwhile.
ghost use Rattle.std.specs.Prelude.{◌≡◌, IfOk, None, OnErr, replicate, set};
ghost use Rattle.mio.specs.Events.{capacity as events_capacity, items};
ghost use Rattle.socket_endpoint.specs.SocketCalls.{most_events};

use crate::bind_fault::BindFault;
use crate::lingerers::Lingerers;
use crate::poll_times::{earlier, time_left, timeout_of};
use crate::sockets::Sockets;
use mio::Events;
use std::alloc::Global;
use std::io;

/// The most events of one poll. What is ready beyond them is reported by the next.
const EVENTS_MAX: usize = 1_024;

/// A system of sockets, the events of its last poll, and the sockets that linger.
#[derive(Drop)]
pub(crate) struct Polling<S, C> {
    pub(crate) system: S,
    events: Events<Global>,
    lingerers: Lingerers<C>,
    waited_at: u64,
    ghost most: { events_capacity events ≡ most_events },
}

impl<S, C: Drop> Polling<S, C> {
    ghost use Rattle.socket_endpoint.specs.SocketEvents.{ClosesAll, ClosesSocket, ClosesStream};
    ghost use Rattle.socket_endpoint.specs.SocketEvents.{FailsToPoll, PollsUntil, WaitsOut};
    ghost use Rattle.socket_endpoint.specs.SocketEvents.{socket_at};

    /// At most `limit` sockets linger.
    pub(crate) fn new(alloc: Global, system: S, limit: usize) -> Result<Polling<S, C>, BindFault>
    where
        S: Drop,
        ensures { IfOk result (λ polling. polling.lingerers.slots.items ≡ replicate limit None) }
    {
        let events = Events::with_capacity(alloc, EVENTS_MAX)?;
        let lingerers = Lingerers::new(alloc, limit)?;
        Ok(Polling {
            system,
            events,
            lingerers,
            waited_at: 0,
        })
    }

    /// The system of sockets.
    pub(crate) fn into_system(self) -> S
        ensures { result ≡ self.system }
    {
        let Polling {
            system,
            events: _,
            lingerers: _,
            waited_at: _,
        } = self;
        system
    }

    /// The events of the last poll.
    pub(crate) fn events(&self) -> &Events<Global>
        ensures { result.now ≡ self.now.events }
    {
        &self.events
    }

    /// Waits for events until the time, or until a socket that lingers has to be given up. Then it
    /// serves those that linger. Returns the time.
    pub(crate) fn poll_until<L>(&mut self, until: Option<u64>) -> io::Result<u64>
    where
        S: Sockets<L, C>,
        ensures polled { IfOk result (λ now. PollsUntil S.log until (items self.new.events) now
            self.old self.new) }
        ensures failed { OnErr result (FailsToPoll S.log until self.old self.new) }
    {
        let before = self.system.millis()?;
        let left = time_left(earlier(until, self.lingerers.deadline()), before);
        self.system.poll(&mut self.events, timeout_of(left))?;
        let now = self.system.millis()?;
        self.waited_at = now;
        self.lingerers.serve(&mut self.system, &self.events, now);
        Ok(now)
    }

    /// Closes the connection. Its socket lingers until its client has ended its side.
    pub(crate) fn close<L>(&mut self, stream: C)
    where
        S: Sockets<L, C>,
        ensures { ClosesStream S.log stream self.old self.new }
    {
        // without a clock it lingers from the last wait on
        let now = self.system.millis().unwrap_or(self.waited_at);
        self.lingerers.add(&mut self.system, stream, now);
    }

    /// Closes the connection at the place, if there is one. Then the place is free.
    pub(crate) fn close_at<L>(&mut self, places: &mut [Option<C>], place: usize)
    where
        S: Sockets<L, C>,
        ensures closes { ClosesSocket S.log (socket_at places.old place) self.old self.new }
        ensures frees { places.new ≡ set places.old place None }
    {
        if place >= places.len() {
            return;
        }
        let Some(stream) = places[place].take() else {
            return;
        };
        self.close(stream);
    }

    /// Closes the connections at all places.
    pub(crate) fn close_all<L>(&mut self, places: &mut [Option<C>])
    where
        S: Sockets<L, C>,
        ensures { ClosesAll S.log places.old self.old self.new }
    {
        for place in 0..places.len() {
            self.close_at(places, place);
        }
    }

    /// Waits until no socket lingers, or a wait fails.
    pub(crate) fn finish<L>(&mut self)
    where
        S: Sockets<L, C>,
        ensures { WaitsOut S.log self.old self.new }
    {
        for _wait in 0..u64::MAX {
            if self.lingerers.deadline().is_none() {
                return;
            }
            match self.poll_until(None) {
                Ok(_now) => {}
                Err(_error) => return,
            }
        }
    }
}
