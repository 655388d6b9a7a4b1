//! `Cut`: the part of a text that is converted at once.

use base_types::NoMemory;
use std::alloc::Global;

/// The most octets of a part, but for its last piece.
const PART_OCTETS: usize = 131_072;

/// The most weight of a part of several pieces.
const PART_WEIGHT: u64 = 400_000;

/// The most weight of a piece.
const PIECE_WEIGHT_MAX: u64 = 600_000;

/// The most octets of a card or a row.
pub(crate) const PIECE_OCTETS_MAX: usize = 524_288;

/// The most pieces of a part: cards, rows, and what is between them.
pub(crate) const PIECES_MAX: u32 = 400;

/// Why a card or a row isn't converted.
#[derive(Clone, Copy)]
pub(crate) enum Passed {
    /// It has more than 524,288 octets, and these are its front.
    Long,
    /// It would take too long.
    Heavy,
}

impl Passed {
    /// The words of the report.
    pub(crate) fn words(self) -> &'static str {
        match self {
            Passed::Long => "not carried: it has more than 524,288 octets",
            Passed::Heavy => "not carried: it has too many lines, cells or parameters",
        }
    }
}

/// What is at the front of a text.
#[derive(Clone, Copy)]
pub(crate) enum Front {
    /// A piece of this many octets.
    Whole(usize),
    /// A piece that is too long, of which these octets are passed.
    Long(usize),
    /// A piece that the end of the body may have cut, or nothing.
    Open,
}

/// The pieces of a part.
#[derive(Drop)]
pub(crate) struct Cut {
    /// The number of line feeds in them.
    pub(crate) feeds: u64,
    /// For each card or row, the number of line feeds before it.
    pub(crate) starts: Vec<u64>,
    /// Why the only piece isn't converted, if it isn't.
    pub(crate) passed: Option<Passed>,
    pieces: u64,
    weight: u64,
}

/// The number of line feeds.
pub(crate) fn count_feeds(octets: &[u8]) -> u64 {
    octets.iter().filter(|octet| **octet == b'\n').count() as u64
}

impl Cut {
    /// No pieces, after this many line feeds.
    pub(crate) fn after(alloc: Global, feeds: u64) -> Cut {
        Cut {
            feeds,
            starts: Vec::new(alloc),
            passed: None,
            pieces: 0,
            weight: 0,
        }
    }

    /// Whether there are no pieces.
    pub(crate) fn is_empty(&self) -> bool {
        self.pieces == 0
    }

    /// Whether one more piece is taken, with which the part has this many octets. The first piece
    /// always is.
    pub(crate) fn has_room(&self, len: usize, weight: u64) -> bool {
        let sum = self.weight.saturating_add(weight);
        self.pieces == 0 || len <= PART_OCTETS && sum <= PART_WEIGHT
    }

    /// Takes a piece. `is_counted` says that it is a card or a row.
    pub(crate) fn take(
        &mut self,
        piece: &[u8],
        weight: u64,
        is_counted: bool,
    ) -> Result<(), NoMemory> {
        if is_counted {
            self.starts.push(self.feeds)?;
        }
        if weight > PIECE_WEIGHT_MAX {
            self.passed = Some(Passed::Heavy);
        }
        self.pieces = self.pieces.saturating_add(1);
        self.feeds = self.feeds.saturating_add(count_feeds(piece));
        self.weight = self.weight.saturating_add(weight);
        Ok(())
    }

    /// Takes the front of a piece that is too long.
    pub(crate) fn pass_long(&mut self, front: &[u8]) -> Result<(), NoMemory> {
        self.take(front, 0, true)?;
        self.passed = Some(Passed::Long);
        Ok(())
    }
}
