//! A ballast: the process allocates all memory that it can have, so that little is left for a call.
//!
//! A block that is never written to uses no more than a page of the machine's memory, but all of
//! its addresses, and a process has some 2^47 of these. So a few thousand blocks use them up, and
//! the usual allocator refuses the next allocation.

use crate::supply::Supply;

/// The size of the blocks that are tried first, in octets: more than a process has addresses.
const GREATEST: usize = 1 << 47;

/// The number of sizes that are tried, each half of the one before, down to 2,048 octets.
const HALVINGS: u32 = 37;

/// From 1,024 octets down, each multiple of 16 is tried, since the C library's allocator keeps
/// separate lists of blocks of these sizes.
const SMALL_SIZES: usize = 64;

/// The number of octets for preparing and checking a case.
const ROOM: usize = 1 << 26;

/// The most blocks of a ballast, both outside windows and in one.
const BLOCKS_MAX: usize = 1 << 17;

/// The memory that is left to a call is freed in adjacent blocks of at most this number of octets.
const LEFT_IN_ONE: usize = 1 << 14;

type Blocks = Vec<Vec<u8>>;

/// Blocks of memory that nothing else can use.
#[derive(Drop)]
pub(crate) struct Ballast {
    /// Always allocated: all but the room.
    always: Blocks,
    /// Allocated while a window is open: the room, except what is left to the call.
    in_window: Blocks,
}

/// Room for the most blocks.
fn new_blocks(supply: &mut Supply) -> Blocks {
    match Vec::with_capacity(supply.alloc, BLOCKS_MAX) {
        Ok(blocks) => blocks,
        Err(_) => {
            supply.ran_out = true;
            Vec::new(supply.alloc)
        }
    }
}

/// Allocates blocks of this size until one is refused.
fn allocate_size(size: usize, blocks: &mut Blocks, supply: &mut Supply) {
    for _ in blocks.len()..BLOCKS_MAX {
        match Vec::with_capacity(supply.alloc, size) {
            Ok(block) => supply.note(blocks.push(block)),
            Err(_) => return,
        }
    }
    supply.ran_out = true;
}

/// Allocates blocks of each size, the greatest first, until all are refused.
fn allocate_all(blocks: &mut Blocks, supply: &mut Supply) {
    for halvings in 0..HALVINGS {
        allocate_size(GREATEST >> halvings, blocks, supply);
    }
    for less in 0..SMALL_SIZES {
        let size = SMALL_SIZES.saturating_sub(less).saturating_mul(16);
        allocate_size(size, blocks, supply);
    }
}

/// Adds a block of this number of octets.
fn push_block(octets: usize, blocks: &mut Blocks, supply: &mut Supply) {
    if let Some(block) = supply.keep(Vec::with_capacity(supply.alloc, octets)) {
        supply.note(blocks.push(block));
    }
}

/// Blocks that have this number of octets together.
fn blocks_of(octets: usize, supply: &mut Supply) -> Blocks {
    let mut blocks = Vec::new(supply.alloc);
    for _ in 0..octets / LEFT_IN_ONE {
        push_block(LEFT_IN_ONE, &mut blocks, supply);
    }
    push_block(octets % LEFT_IN_ONE, &mut blocks, supply);
    blocks
}

impl Ballast {
    /// Allocates all memory but the room.
    pub(crate) fn new(supply: &mut Supply) -> Ballast {
        let mut always = new_blocks(supply);
        let in_window = new_blocks(supply);
        let room: Option<Vec<u8>> = supply.keep(Vec::with_capacity(supply.alloc, ROOM));
        allocate_all(&mut always, supply);
        drop(room);
        Ballast { always, in_window }
    }

    /// From now on only about this number of octets can be allocated; the allocator's overhead
    /// counts.
    pub(crate) fn limit_memory(&mut self, octets: usize, supply: &mut Supply) {
        let left = blocks_of(octets, supply);
        allocate_all(&mut self.in_window, supply);
        drop(left);
    }

    /// From now on the room can be allocated again.
    pub(crate) fn release(&mut self) {
        self.in_window.clear();
    }
}
