//! The closed connections of which the clients haven't ended their sides (RFC 9112, section 9.6).
//!
//! The system resets a connection that is closed with input unread, and the client may then lose
//! replies that it hasn't read. So the socket of a closed connection is kept until its client has
//! ended its side, and what still comes is dropped.
ghost use Rattle.std.specs.Prelude.{◌≡◌, ◌<◌, ◌↔◌, IfOk, IsTrue, None, length, map, replicate};
ghost use Rattle.socket_endpoint.specs.LingerSlots.{IsFirstSlot, first_deadline};
ghost use Rattle.socket_endpoint.specs.LingerSlots.{is_slot_given_up, slot_after, slot_deadline};
ghost use Rattle.socket_endpoint.specs.LingerSlots.{slot_rank};
ghost use Rattle.socket_endpoint.specs.Lingering.{DrainsSlots, EndsAndLingers, IsWatched};
ghost use Rattle.socket_endpoint.specs.Lingering.{Lingers, LooksAt, LooksAtEach, LooksAtSubject};
ghost use Rattle.socket_endpoint.specs.Lingering.{NoneIsOver, ServesSlots, StaysOrGoes};
ghost use Rattle.socket_endpoint.specs.Lingering.{room_octets};
ghost use Rattle.socket_endpoint.specs.Reports.{event_subject};
ghost use Rattle.mio.specs.Events.{items};

use crate::dropping::{Dropped, drop_input};
use crate::linger::Linger;
use crate::poll_times::earlier;
use crate::sockets::Sockets;
use crate::subject::{Subject, subject_of, token_of};
use base_types::NoMemory;
use mio::Events;
use std::alloc::Global;

/// The most octets of one read.
const ROOM_OCTETS: usize = 16_384;

/// A socket that lingers.
#[derive(Drop)]
pub(crate) struct Lingerer<C> {
    stream: C,
    linger: Linger,
}

/// The sockets that linger, each in a slot.
#[derive(Drop)]
pub(crate) struct Lingerers<C> {
    slots: Vec<Option<Lingerer<C>>>,
    room: Vec<u8>,
    ghost whole: { length room.items ≡ room_octets },
}

/// When the socket in the slot is given up if no octets come. `None` if the slot is free.
fn slot_deadline<C>(slot: &Option<Lingerer<C>>) -> Option<u64>
    ensures { result ≡ slot_deadline slot.now }
{
    match slot {
        Some(lingerer) => Some(lingerer.linger.deadline()),
        None => None,
    }
}

/// When the first of the sockets is given up if no octets come. `None` if no socket lingers.
fn first_deadline<C>(slots: &[Option<Lingerer<C>>]) -> Option<u64>
    ensures { result ≡ first_deadline slots.now }
{
    let mut first = None;
    for slot in slots {
        first = earlier(first, slot_deadline(slot));
    }
    first
}

/// Whether the first slot comes before the second for the next socket: it is free and the second
/// isn't, or its socket was closed earlier.
fn comes_before<C>(first: &Option<Lingerer<C>>, second: &Option<Lingerer<C>>) -> bool
    ensures { IsTrue result ↔ (slot_rank first.now < slot_rank second.now) }
{
    match (first, second) {
        (_, None) => false,
        (None, Some(_)) => true,
        (Some(first), Some(second)) => first.linger.closed_at < second.linger.closed_at,
    }
}

/// A slot for the next socket: a free one, or else that of the socket that was closed first.
fn next_slot<C>(slots: &[Option<Lingerer<C>>]) -> usize
    ensures there { 0 < length slots.now → result < length slots.now }
    ensures first { IsFirstSlot slots.now result }
{
    let mut best = 0;
    for slot in 0..slots.len() {
        if comes_before(&slots[slot], &slots[best]) {
            best = slot;
        }
    }
    best
}

/// Whether the socket in the slot is to be given up.
fn is_slot_given_up<C>(slot: &Option<Lingerer<C>>, now: u64) -> bool
    ensures { result ≡ is_slot_given_up now slot.now }
{
    match slot {
        Some(lingerer) => lingerer.linger.is_given_up(now),
        None => false,
    }
}

/// Lets the socket in the slot go if it is to be given up.
fn give_up_slot<C: Drop>(slot: &mut Option<Lingerer<C>>, now: u64)
    ensures { slot.new ≡ slot_after now slot.old }
{
    if is_slot_given_up(slot, now) {
        *slot = None;
    }
}

/// Lets the sockets go that are to be given up.
fn give_up<C: Drop>(slots: &mut [Option<Lingerer<C>>], now: u64)
    ensures { slots.new ≡ map (slot_after now) slots.old }
{
    for slot in 0..slots.len() {
        give_up_slot(&mut slots[slot], now);
    }
}

impl<C> Lingerer<C> {
    /// Drops what has come. Returns whether the client has ended its side, or the socket is to be
    /// given up.
    fn is_over<L, S: Sockets<L, C>>(&mut self, system: &mut S, room: &mut [u8], now: u64) -> bool
        ensures { LooksAt self.old self.new (length room.old) now result (S.log system.old)
            (S.log system.new) }
    {
        let most = self.linger.octets_left();
        let (count, dropped) = drop_input(system, &self.stream, room, most);
        self.linger.note_dropped(count, now);
        if let Dropped::Ended = dropped {
            return true;
        }
        self.linger.is_given_up(now)
    }

    /// Has the events of the socket reported for the slot, first those that are due now. Returns
    /// whether the system does so. There are this many slots.
    fn watch<L, S: Sockets<L, C>>(&mut self, system: &mut S, slots: usize, slot: usize) -> bool
        ensures same { self.new ≡ self.old }
        ensures there { IsTrue result → slot < slots }
        ensures watched { IsWatched self.old.stream slots slot result (S.log system.old)
            (S.log system.new) }
    {
        if slot >= slots {
            return false;
        }
        let Some(token) = token_of(Subject::Lingerer(slot)) else {
            return false;
        };
        let done = system.watch_input(&mut self.stream, token);
        done.is_ok()
    }

    /// Drops what has come, and has what is left reported for the slot. There are this many slots.
    /// Returns whether the socket stays there: it isn't over, and the system reports its input.
    fn stays<L, S: Sockets<L, C>>(
        &mut self,
        system: &mut S,
        slots: usize,
        slot: usize,
        room: &mut [u8],
        now: u64,
    ) -> bool
        ensures there { IsTrue result → slot < slots }
        ensures stays { StaysOrGoes self.old self.new (length room.old) now slots slot result
            (S.log system.old) (S.log system.new) }
    {
        if self.is_over(system, room, now) {
            return false;
        }
        self.watch(system, slots, slot)
    }
}

/// Drops what has come to the socket. It lingers in a slot unless its client has ended its side or
/// the connection has failed: in a free one, or else in that of the socket that was closed first,
/// which is given up.
fn linger<L, C: Drop, S: Sockets<L, C>>(
    slots: &mut [Option<Lingerer<C>>],
    system: &mut S,
    stream: C,
    room: &mut [u8],
    now: u64,
)
    ensures { Lingers stream (length room.old) now slots.old slots.new (S.log system.old)
        (S.log system.new) }
{
    let slot = next_slot(slots);
    let mut lingerer = Lingerer {
        stream,
        linger: Linger::new(now),
    };
    if !lingerer.stays(system, slots.len(), slot, room, now) {
        return;
    }
    slots[slot] = Some(lingerer);
}

/// Drops what has come to the socket, if it is one that lingers, and lets it go once its client has
/// ended its side.
fn look_at<L, C: Drop, S: Sockets<L, C>>(
    slots: &mut [Option<Lingerer<C>>],
    system: &mut S,
    subject: Subject,
    room: &mut [u8],
    now: u64,
)
    ensures drains { DrainsSlots slots.old slots.new (S.log system.old) (S.log system.new) }
    ensures looks { LooksAtSubject (length room.old) now subject slots.old slots.new
        (S.log system.old) (S.log system.new) }
{
    let Subject::Lingerer(slot) = subject else {
        return;
    };
    if slot >= slots.len() {
        return;
    }
    let Some(mut lingerer) = slots[slot].take() else {
        return;
    };
    // what is left after this look is reported again
    if !lingerer.stays(system, slots.len(), slot, room, now) {
        return;
    }
    slots[slot] = Some(lingerer);
}

/// Looks at the sockets that the events report.
fn look_at_reported<L, C: Drop, S: Sockets<L, C>>(
    slots: &mut [Option<Lingerer<C>>],
    system: &mut S,
    events: &Events<Global>,
    room: &mut [u8],
    now: u64,
)
    ensures drains { DrainsSlots slots.old slots.new (S.log system.old) (S.log system.new) }
    ensures looks { LooksAtEach (length room.old) now (map event_subject (items events.now))
        slots.old slots.new (S.log system.old) (S.log system.new) }
{
    for event in events.iter() {
        look_at(slots, system, subject_of(event.token()), room, now);
    }
}

impl<C: Drop> Lingerers<C> {
    /// Room for `limit` sockets.
    pub(crate) fn new(alloc: Global, limit: usize) -> Result<Lingerers<C>, NoMemory>
        ensures { IfOk result (λ lingerers. lingerers.slots.items ≡ replicate limit None) }
    {
        let mut slots = Vec::new(alloc);
        for _slot in 0..limit {
            slots.push(None)?;
        }
        let mut room = Vec::new(alloc);
        room.resize(ROOM_OCTETS, 0)?;
        Ok(Lingerers { slots, room })
    }

    /// When the first of them is given up. `None` if no socket lingers.
    pub(crate) fn deadline(&self) -> Option<u64>
        ensures { result ≡ first_deadline self.now.slots.items }
    {
        first_deadline(&self.slots)
    }

    /// Ends the side of the server. The socket lingers unless its client has ended its side or the
    /// connection has failed. If every slot is taken, the socket that was closed first is given up.
    pub(crate) fn add<L, S: Sockets<L, C>>(&mut self, system: &mut S, stream: C, now: u64)
        ensures { EndsAndLingers stream room_octets now self.old.slots.items
            self.new.slots.items (S.log system.old) (S.log system.new) }
    {
        if system.end_sending(&stream).is_err() {
            return;
        }
        linger(&mut self.slots, system, stream, &mut self.room, now);
    }

    /// Looks at the sockets that the events report, and lets those go that are to be given up.
    pub(crate) fn serve<L, S: Sockets<L, C>>(
        &mut self,
        system: &mut S,
        events: &Events<Global>,
        now: u64,
    )
        ensures drains { DrainsSlots self.old.slots.items self.new.slots.items (S.log system.old)
            (S.log system.new) }
        ensures given_up { NoneIsOver now self.new.slots.items }
        ensures serves { ServesSlots room_octets now
            (map event_subject (items events.now)) self.old.slots.items self.new.slots.items
            (S.log system.old) (S.log system.new) }
    {
        look_at_reported(&mut self.slots, system, events, &mut self.room, now);
        give_up(&mut self.slots, now);
    }
}
