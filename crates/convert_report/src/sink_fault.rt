//! Why a sink takes no more.

use base_types::{NoMemory, Text};
use std::alloc::AllocError;

/// Why a sink takes no more cards.
#[derive(Drop)]
pub enum SinkFault {
    /// An allocation failed.
    Memory,
    /// It couldn't write, in words.
    Failed(Text),
}

impl From<NoMemory> for SinkFault {
    fn from(_error: NoMemory) -> SinkFault {
        SinkFault::Memory
    }
}

impl From<AllocError> for SinkFault {
    fn from(_error: AllocError) -> SinkFault {
        SinkFault::Memory
    }
}
