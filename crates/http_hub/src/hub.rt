//! The open connections of a server, without their sockets.
ghost use Rattle.std.specs.Prelude.{◌≡◌, ◌↔◌, ◌≤◌, ◌<◌, [], length, None, Some};
ghost use Rattle.std.specs.Prelude.{IfOk, OnErr, IsTrue};
ghost use Rattle.http_hub.specs.Holdings.{large_part, load_of, most_load};
ghost use Rattle.http_hub.specs.HubRuns.{pending_of, session_of};
ghost use Rattle.http_hub.specs.Hubs.{EndsAt, FailsAt, IsAt, IsFreeAt, IsOpenAt, ReceivesAt};
ghost use Rattle.http_hub.specs.Hubs.{RefusesAt, SendsAt, link_at, new_hub, with_slot};
ghost use Rattle.http_hub.specs.Links.{LinkValue};

use crate::link::Link;
use crate::places::last_end;
use base_types::NoMemory;
use http_requests::Handler;
use std::alloc::Global;
use std::marker::Model;

/// The most octets of a connection that counts as small.
const SMALL_OCTETS_MAX: u128 = 16_384;

/// This number of octets, or 0 if a small connection has as many.
fn large_part(load: u128) -> u128
    ensures octets { result ≡ large_part load }
    ensures within { result ≤ load }
{
    if load <= SMALL_OCTETS_MAX { 0 } else { load }
}

/// The open connections of a server, at most as many as it has places. A place is used again once
/// its connection was ended; each connection has a serial number of its own, which is the number of
/// connections that were opened before it.
///
/// It counts its open connections, and keeps a bound on their places, so that nobody goes over all
/// places to find them.
#[derive(Debug, Drop)]
pub struct Hub {
    pub(crate) slots: Vec<Option<Link>>,
    pub(crate) opened: u64,
    pub(crate) open_count: usize,
    pub(crate) places_end: usize,
}

impl Model for Hub {
    ghost use Rattle.http_hub.specs.Hubs.{HubValue};
    ghost use Rattle.http_hub.specs.PlaceCounts.{CountsPlaces};

    ghost Value = { HubValue };

    ghost view = { λ hub. record { slots = hub.slots.items; opened = hub.opened } };

    ghost invariant = { λ hub. CountsPlaces hub.slots.items hub.open_count hub.places_end };
}

impl Hub {
    /// A hub with `limit` places and no connections. `NoMemory` if its places can't be allocated.
    pub fn new(alloc: Global, limit: usize) -> Result<Hub, NoMemory>
        ensures { IfOk result (λ hub. hub ≡ new_hub limit) }
    {
        let mut slots = Vec::new(alloc);
        for _place in 0..limit {
            slots.push(None)?;
        }
        Ok(Hub {
            slots,
            opened: 0,
            open_count: 0,
            places_end: 0,
        })
    }

    /// Takes the connection from the place, which is then free.
    fn take_link(&mut self, place: usize) -> Link
        requires { IsOpenAt self.old place }
        ensures found { IsAt self.old place result }
        ensures freed { self.new ≡ with_slot self.old place None }
    {
        match self.slots[place].take() {
            Some(link) => {
                self.open_count -= 1;
                link
            }
            None => unreachable!(),
        }
    }

    /// Puts the connection at the place.
    pub(crate) fn put_link(&mut self, place: usize, link: Link)
        requires { IsFreeAt self.old place }
        ensures { self.new ≡ with_slot self.old place (Some link) }
    {
        self.slots[place] = Some(link);
        self.open_count += 1;
        self.places_end = self.places_end.max(place + 1);
    }

    /// Whether the place has a connection.
    pub fn is_open(&self, place: usize) -> bool
        ensures { IsTrue result ↔ IsOpenAt self.now place }
    {
        match self.slots.get(place) {
            Some(link) => link.is_some(),
            None => false,
        }
    }

    /// The serial number of the connection at the place: how many were opened at the hub before it.
    pub fn serial(&self, place: usize) -> u64
        requires { IsOpenAt self.now place }
        ensures { (link : LinkValue) → IsAt self.now place link → result ≡ link.serial }
    {
        let Some(link) = &self.slots[place] else {
            unreachable!()
        };
        link.serial()
    }

    /// The octets of the replies to the connection at the place that are not sent yet.
    pub fn pending(&self, place: usize) -> &[u8]
        requires { IsOpenAt self.now place }
        ensures { result.now ≡ pending_of (link_at self.now place) }
    {
        let Some(link) = &self.slots[place] else {
            unreachable!()
        };
        link.pending()
    }

    /// Whether the session of the connection at the place is closed, so that it is to be ended once
    /// no octets are pending.
    pub fn session_is_closed(&self, place: usize) -> bool
        requires { IsOpenAt self.now place }
        ensures { IsTrue result ↔ (session_of (link_at self.now place) ≡ None) }
    {
        let Some(link) = &self.slots[place] else {
            unreachable!()
        };
        link.session_is_closed()
    }

    /// Feeds a piece to the connection at the place. No octets of it may be pending.
    ///
    /// `NoMemory` if an allocation fails: some requests, from the first on, were handled
    /// completely, their replies are lost, and the session is closed.
    pub fn receive<H: Handler>(
        &mut self,
        alloc: Global,
        handler: &mut H,
        place: usize,
        piece: &[u8],
        now: u64,
    ) -> Result<(), NoMemory>
        requires is_open { IsOpenAt self.old place }
        requires none_pending { pending_of (link_at self.old place) ≡ [] }
        requires some { 0 < length piece.now }
        ensures received { IfOk result (λ _. ReceivesAt H.does H.fault_reply place
            self.old handler.old piece.now now handler.new self.new) }
        ensures no_memory { OnErr result (FailsAt H.does H.fault_reply place
            self.old handler.old piece.now handler.new self.new) }
    {
        let mut link = self.take_link(place);
        let received = link.receive(alloc, handler, piece, now);
        self.put_link(place, link);
        received
    }

    /// How many octets the connection at the place holds (`Link::load`), or 0 if they are at most
    /// 16,384.
    pub fn large_part(&self, place: usize) -> u128
        requires { IsOpenAt self.now place }
        ensures part { (link : LinkValue) → IsAt self.now place link
            → result ≡ large_part (load_of link) }
        ensures within { result ≤ most_load }
    {
        let Some(link) = &self.slots[place] else {
            unreachable!()
        };
        large_part(link.load())
    }

    /// Drops what the connection at the place holds. Its session is closed, and the reply is
    /// pending.
    pub fn refuse(&mut self, alloc: Global, place: usize, reply: Vec<u8>, now: u64)
        requires { IsOpenAt self.old place }
        ensures { RefusesAt place self.old reply.items now self.new }
    {
        let mut link = self.take_link(place);
        link.refuse(alloc, reply, now);
        self.put_link(place, link);
    }

    /// Records that the first `count` pending octets were sent to the connection at the place.
    pub fn mark_sent(&mut self, place: usize, count: usize, now: u64)
        requires is_open { IsOpenAt self.old place }
        requires some { 0 < count }
        requires within { count ≤ length (pending_of (link_at self.old place)) }
        ensures { SendsAt place self.old count now self.new }
    {
        let mut link = self.take_link(place);
        link.mark_sent(count, now);
        self.put_link(place, link);
    }

    /// Ends the connection at the place, which is then free. What it held or had pending is
    /// dropped.
    pub fn end(&mut self, place: usize)
        requires { IsOpenAt self.old place }
        ensures { EndsAt place self.old self.new }
    {
        self.slots[place] = None;
        self.open_count -= 1;
        self.places_end = last_end(&self.slots, self.places_end);
    }
}
