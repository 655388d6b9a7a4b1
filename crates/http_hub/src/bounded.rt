//! A hub that refuses a large connection which doesn't fit beside the others.
ghost use Rattle.std.specs.Prelude.{◌≡◌, ◌↔◌, ◌≤◌, ◌<◌, ◌+◌, ◌-◌, ◌⊎◌, [], length, None, Some};
ghost use Rattle.std.specs.Prelude.{IfOk, IsTrue, MatchOption};
ghost use Rattle.http_requests.specs.declared.head_fault.HeadFault.TheVariants.{Busy};
ghost use Rattle.http_hub.specs.BoundedHubs.{ReceivesWithin, SettlesAt, may_hold};
ghost use Rattle.http_hub.specs.Holdings.{large_at, large_total, most_load, most_small};
ghost use Rattle.http_hub.specs.HubRuns.{pending_of, session_of};
ghost use Rattle.http_hub.specs.Hubs.{EndsAt, IsAt, IsFreeAt, IsOpenAt, OpensAt, SendsAt};
ghost use Rattle.http_hub.specs.Hubs.{any_expired, is_full, link_at, most_opened, new_hub};
ghost use Rattle.http_hub.specs.Hubs.{open_count};
ghost use Rattle.http_hub.specs.Links.{IsFirstTime, LinkValue, has_expired};
ghost use Rattle.http_hub.specs.PlaceCounts.{AreOpenBelow};

use crate::hub::Hub;
use base_types::NoMemory;
use http_requests::{Handler, HeadFault};
use std::alloc::Global;
use std::marker::Model;

/// The most octets of a refusal's reply, those of a small connection.
const REPLY_OCTETS_MAX: usize = 16_384;

/// A hub, and how many octets its large connections hold. Its calls are those of `Hub`, but for
/// `receive`.
#[derive(Debug, Drop)]
pub struct BoundedHub {
    hub: Hub,
    large_sum: u128,
}

impl Model for BoundedHub {
    ghost use Rattle.std.specs.Prelude.{◌≡◌, ◌≤◌};
    ghost use Rattle.http_hub.specs.Holdings.{large_total, most_load};
    ghost use Rattle.http_hub.specs.Hubs.{HubValue};

    ghost Value = { HubValue };

    ghost view = { λ bounded. bounded.hub };

    ghost invariant = { λ bounded. (bounded.large_sum ≡ large_total bounded.hub.slots)
        × (bounded.large_sum ≤ most_load) };
}

/// Whether a connection may hold its octets beside those of the others.
fn may_hold(most: u64, own: u128, others: u128) -> bool
    ensures { result ≡ may_hold most own others }
{
    own == 0 || others == 0 || own <= (most as u128).saturating_sub(others)
}

/// The sum once a part of it has become the next part.
fn sum_with(sum: u128, part: u128, next: u128) -> u128
    requires small { sum ≤ most_load }
    requires next { next ≤ most_load }
    ensures { result ≡ (sum - part) + next }
{
    sum.saturating_sub(part) + next
}

/// The reply to a client of a busy server, or none if memory runs out, or if it isn't short.
fn refusal<H: Handler>(alloc: Global, handler: &H) -> Vec<u8>
    ensures reply { (result.items ≡ H.fault_reply Busy) ⊎ (result.items ≡ []) }
    ensures small { length result.items ≤ most_small }
{
    match handler.refuse(alloc, HeadFault::Busy) {
        Ok(reply) => if reply.len() <= REPLY_OCTETS_MAX {
            reply
        } else {
            Vec::new(alloc)
        },
        Err(NoMemory) => Vec::new(alloc),
    }
}

/// Drops what the connection at the place holds, if it may not hold that beside others of which the
/// large ones hold this many octets.
fn settle<H: Handler>(
    hub: &mut Hub,
    alloc: Global,
    handler: &H,
    place: usize,
    now: u64,
    most: u64,
    others: u128,
)
    requires is_open { IsOpenAt hub.old place }
    requires others { (link : LinkValue) → IsAt hub.old place link
        → large_total hub.old.slots ≡ others + large_at (Some link) }
    ensures { SettlesAt H.fault_reply most place hub.old now hub.new }
{
    if !may_hold(most, hub.large_part(place), others) {
        let reply = refusal(alloc, handler);
        hub.refuse(alloc, place, reply, now);
    }
}

/// Feeds a piece to the connection at the place, beside others of which the large ones hold this
/// many octets.
fn receive_beside<H: Handler>(
    hub: &mut Hub,
    alloc: Global,
    handler: &mut H,
    place: usize,
    piece: &[u8],
    now: u64,
    most: u64,
    others: u128,
)
    requires is_open { IsOpenAt hub.old place }
    requires none_pending { pending_of (link_at hub.old place) ≡ [] }
    requires some { 0 < length piece.now }
    requires others { (link : LinkValue) → IsAt hub.old place link
        → large_total hub.old.slots ≡ others + large_at (Some link) }
    ensures { ReceivesWithin H.does H.fault_reply most place
        hub.old handler.old piece.now now handler.new hub.new }
{
    match hub.receive(alloc, handler, place, piece, now) {
        Ok(()) => settle(hub, alloc, &*handler, place, now, most, others),
        Err(NoMemory) => {}
    }
}

impl BoundedHub {
    /// A hub with `limit` places and no connections. `NoMemory` if its places can't be allocated.
    pub fn new(alloc: Global, limit: usize) -> Result<BoundedHub, NoMemory>
        ensures { IfOk result (λ hub. hub ≡ new_hub limit) }
    {
        let hub = Hub::new(alloc, limit)?;
        Ok(BoundedHub { hub, large_sum: 0 })
    }

    /// The number of open connections.
    pub fn len(&self) -> usize
        ensures { result ≡ open_count self.now }
    {
        self.hub.len()
    }

    /// A number that the place of every connection is below.
    pub fn places_end(&self) -> usize
        ensures below { AreOpenBelow self.now.slots result }
        ensures within { result ≤ length self.now.slots }
    {
        self.hub.places_end()
    }

    /// The number of connections that were opened so far.
    pub fn opened_count(&self) -> u64
        ensures { result ≡ self.now.opened }
    {
        self.hub.opened_count()
    }

    /// Whether no further connection can be opened: every place has one, or 2^64 - 1 were opened so
    /// far.
    pub fn is_full(&self) -> bool
        ensures { result ≡ is_full self.now }
    {
        self.hub.is_full()
    }

    /// A place without a connection, or `None` if every place has one.
    pub fn free_place(&self) -> Option<usize>
        ensures { MatchOption result (open_count self.now ≡ length self.now.slots)
            (λ place. IsFreeAt self.now place) }
    {
        self.hub.free_place()
    }

    /// Opens a connection, with a new session, at a place without one. It allocates nothing.
    pub fn open_at(&mut self, alloc: Global, place: usize, now: u64)
        requires is_free { IsFreeAt self.old place }
        requires few { self.old.opened < most_opened }
        ensures { OpensAt place self.old now self.new }
    {
        self.hub.open_at(alloc, place, now);
    }

    /// Whether the place has a connection.
    pub fn is_open(&self, place: usize) -> bool
        ensures { IsTrue result ↔ IsOpenAt self.now place }
    {
        self.hub.is_open(place)
    }

    /// The serial number of the connection at the place: how many were opened at the hub before it.
    pub fn serial(&self, place: usize) -> u64
        requires { IsOpenAt self.now place }
        ensures { (link : LinkValue) → IsAt self.now place link → result ≡ link.serial }
    {
        self.hub.serial(place)
    }

    /// The octets of the replies to the connection at the place that are not sent yet.
    pub fn pending(&self, place: usize) -> &[u8]
        requires { IsOpenAt self.now place }
        ensures { result.now ≡ pending_of (link_at self.now place) }
    {
        self.hub.pending(place)
    }

    /// Whether the session of the connection at the place is closed, so that it is to be ended once
    /// no octets are pending.
    pub fn session_is_closed(&self, place: usize) -> bool
        requires { IsOpenAt self.now place }
        ensures { IsTrue result ↔ (session_of (link_at self.now place) ≡ None) }
    {
        self.hub.session_is_closed(place)
    }

    /// Feeds a piece to the connection at the place. No octets of it may be pending.
    ///
    /// A connection is small while it holds at most 16,384 octets: those of its incomplete request,
    /// all announced ones once the head is complete, and all octets of its replies until the last
    /// is sent. If each piece came with this `most`, the large ones together hold at most `most`
    /// octets, or only one of them is large. If the piece breaks this, what the connection holds is
    /// dropped: its session is closed, and the reply to `HeadFault::Busy` is pending, or none. The
    /// requests that the piece completed were handled all the same.
    ///
    /// If an allocation fails, some requests, from the first on, were handled completely, their
    /// replies are lost, and the session is closed.
    pub fn receive<H: Handler>(
        &mut self,
        alloc: Global,
        handler: &mut H,
        place: usize,
        piece: &[u8],
        now: u64,
        most: u64,
    )
        requires is_open { IsOpenAt self.old place }
        requires none_pending { pending_of (link_at self.old place) ≡ [] }
        requires some { 0 < length piece.now }
        ensures { ReceivesWithin H.does H.fault_reply most place
            self.old handler.old piece.now now handler.new self.new }
    {
        let part = self.hub.large_part(place);
        let others = self.large_sum.saturating_sub(part);
        receive_beside(
            &mut self.hub,
            alloc,
            handler,
            place,
            piece,
            now,
            most,
            others,
        );
        let next = self.hub.large_part(place);
        self.large_sum = sum_with(self.large_sum, part, next);
    }

    /// Records that the first `count` pending octets were sent to the connection at the place.
    pub fn mark_sent(&mut self, place: usize, count: usize, now: u64)
        requires is_open { IsOpenAt self.old place }
        requires some { 0 < count }
        requires within { count ≤ length (pending_of (link_at self.old place)) }
        ensures { SendsAt place self.old count now self.new }
    {
        let part = self.hub.large_part(place);
        self.hub.mark_sent(place, count, now);
        let next = self.hub.large_part(place);
        self.large_sum = sum_with(self.large_sum, part, next);
    }

    /// Ends the connection at the place, which is then free. What it held or had pending is
    /// dropped.
    pub fn end(&mut self, place: usize)
        requires { IsOpenAt self.old place }
        ensures { EndsAt place self.old self.new }
    {
        let part = self.hub.large_part(place);
        self.hub.end(place);
        self.large_sum = self.large_sum.saturating_sub(part);
    }

    /// Whether the connection at the place has expired (`Hub::has_expired`). Both times are in
    /// milliseconds.
    pub fn has_expired(&self, place: usize, now: u64, patience: u64) -> bool
        requires { IsOpenAt self.now place }
        ensures { (link : LinkValue) → IsAt self.now place link
            → result ≡ has_expired link now patience }
    {
        self.hub.has_expired(place, now, patience)
    }

    /// The first time at which some connection has expired, if nothing is received or sent before.
    /// `None` if there is no such time below 2^64.
    pub fn next_expiry(&self, patience: u64) -> Option<u64>
        ensures { IsFirstTime (λ now. any_expired self.now.slots now patience) result }
    {
        self.hub.next_expiry(patience)
    }
}
