//! What a server keeps of a connection, beside its link.
ghost use Rattle.std.specs.Prelude.{◌≡◌, ◌<◌, ◌≤◌, ◌↔◌, ℕ, [], IfOk, IsTrue, length, drop, true};
ghost use Rattle.std.specs.Prelude.{slice_range};
ghost use Rattle.hub_server.specs.Endpoints.{read_event};
ghost use Rattle.hub_server.specs.Seats.{HasTurn, ReadsIntoSeat, is_awake_turn, most_read};
ghost use Rattle.hub_server.specs.Seats.{new_seat, next_piece, seat_after_step, seat_after_wait};
ghost use Rattle.hub_server.specs.Seats.{seat_asleep};

use crate::endpoint::Endpoint;
use crate::outcome::Received;
use crate::turn::Turn;
use base_types::NoMemory;
use std::alloc::Global;
use std::marker::Model;

/// The most octets of one read.
const READ_OCTETS_MAX: usize = 16_384;

/// The most steps of one connection before the others have their turn.
const STEPS_MAX: u32 = 32;

/// Whether the connection at a place may be ready, and the octets that were read of it and not fed
/// yet, at most as many as one read gives.
#[derive(Debug, Drop)]
pub struct Seat {
    turn: Turn,
    buffer: Vec<u8>,
    fed_count: usize,
    read_count: usize,
}

impl Model for Seat {
    ghost use Rattle.std.specs.Prelude.{◌≡◌, ◌≤◌, length, slice_range};
    ghost use Rattle.hub_server.specs.Seats.{SeatValue, most_read};

    ghost Value = { SeatValue };

    ghost view = { λ seat. record {
      turn = seat.turn;
      unfed = slice_range seat.buffer.items seat.fed_count seat.read_count;
    } };

    ghost invariant = { λ seat. (seat.fed_count ≤ seat.read_count)
        × (seat.read_count ≤ most_read)
        × (length seat.buffer.items ≡ most_read) };
}

/// The number of octets up to the first line feed and with it, or of all if there is none.
fn piece_len(octets: &[u8]) -> usize
    ensures { result ≡ length (next_piece octets.now) }
{
    for (index, octet) in octets.iter().enumerate() {
        if *octet == b'\n' {
            return index + 1;
        }
    }
    octets.len()
}

impl Seat {
    /// A seat without a connection, with room for the 16,384 octets of a read. `NoMemory` if it
    /// can't be allocated.
    pub fn new(alloc: Global) -> Result<Seat, NoMemory>
        ensures { IfOk result (λ seat. seat ≡ new_seat) }
    {
        let mut buffer = Vec::new(alloc);
        buffer.resize(READ_OCTETS_MAX, 0)?;
        Ok(Seat {
            turn: Turn::Asleep,
            buffer,
            fed_count: 0,
            read_count: 0,
        })
    }

    /// Whether the connection may be ready, and had fewer than the 32 steps of a turn.
    pub fn has_turn(&self) -> bool
        ensures { IsTrue result ↔ HasTurn self.now }
    {
        match self.turn {
            Turn::Asleep => false,
            Turn::Awake(count) => count < STEPS_MAX,
        }
    }

    /// Whether the connection may be ready.
    pub fn is_awake(&self) -> bool
        ensures { result ≡ is_awake_turn self.now.turn }
    {
        match self.turn {
            Turn::Asleep => false,
            Turn::Awake(_) => true,
        }
    }

    /// The octets that were read and not fed yet.
    pub fn unfed(&self) -> &[u8]
        ensures { result.now ≡ self.now.unfed }
    {
        &self.buffer[self.fed_count..self.read_count]
    }

    /// The octets that are fed next: the unfed ones up to the first line feed and with it, or all
    /// of them if there is none.
    pub fn piece(&self) -> &[u8]
        ensures { result.now ≡ next_piece self.now.unfed }
    {
        let unfed = self.unfed();
        &unfed[..piece_len(unfed)]
    }

    /// Begins a new turn, without steps yet, if the connection is ready or still awake, as one is
    /// that was cut off at the end of its turn. Another one stays asleep. The unfed octets stay.
    pub fn begin_turn(&mut self, is_ready: bool)
        ensures { self.new ≡ seat_after_wait is_ready self.old }
    {
        if is_ready || self.is_awake() {
            self.turn = Turn::Awake(0);
        }
    }

    /// Notes that the connection isn't ready. The unfed octets stay.
    pub fn sleep(&mut self)
        ensures { self.new ≡ seat_asleep self.old }
    {
        self.turn = Turn::Asleep;
    }

    /// Counts one step of the turn. The unfed octets stay.
    pub fn count_step(&mut self)
        requires { HasTurn self.old }
        ensures { self.new ≡ seat_after_step self.old self.old.unfed }
    {
        if let Turn::Awake(count) = self.turn {
            self.turn = Turn::Awake(count + 1);
        }
    }

    /// Counts one step of the turn, in which the first `count` of the unfed octets were fed. The
    /// others stay.
    pub fn mark_fed(&mut self, count: usize)
        requires has_turn { HasTurn self.old }
        requires within { count ≤ length self.old.unfed }
        ensures { self.new ≡ seat_after_step self.old (drop count self.old.unfed) }
    {
        self.fed_count += count;
        self.count_step();
    }

    /// The seat has no connection any more: it is asleep, without octets.
    pub fn clear(&mut self)
        ensures { self.new ≡ new_seat }
    {
        self.turn = Turn::Asleep;
        self.fed_count = 0;
        self.read_count = 0;
    }

    /// Reads octets from the connection at the place. If there are some, one step is counted. If
    /// there are none for now, the connection isn't ready.
    pub fn read<E: Endpoint>(&mut self, endpoint: &mut E, place: usize) -> Received
        requires has_turn { HasTurn self.old }
        requires none_unfed { self.old.unfed ≡ [] }
        ensures { ReadsIntoSeat E.calls place self.old endpoint.old result self.new endpoint.new }
    {
        let received = endpoint.read(place, self.buffer.as_mut_slice());
        match received {
            Received::Octets(count) => {
                self.fed_count = 0;
                self.read_count = count;
                self.count_step();
            }
            Received::NoneNow => self.turn = Turn::Asleep,
            Received::End | Received::Failed => {}
        }
        received
    }
}
