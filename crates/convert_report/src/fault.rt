//! Why a conversion stopped.

use crate::sink_fault::SinkFault;
use base_types::{NoMemory, Text};
use std::alloc::{AllocError, AllocFailed};
use std::io::{Error, ErrorKind};

/// Why a conversion stopped before the end of its file.
#[derive(Drop)]
pub enum ConversionFault {
    /// An allocation failed.
    Memory,
    /// The file couldn't be read to its end.
    Input,
    /// A card couldn't be written, in words.
    Output(Text),
    /// The report couldn't be written.
    Report,
}

impl From<NoMemory> for ConversionFault {
    fn from(_error: NoMemory) -> ConversionFault {
        ConversionFault::Memory
    }
}

impl From<AllocError> for ConversionFault {
    fn from(_error: AllocError) -> ConversionFault {
        ConversionFault::Memory
    }
}

impl<T: Drop> From<AllocFailed<T>> for ConversionFault {
    fn from(_error: AllocFailed<T>) -> ConversionFault {
        ConversionFault::Memory
    }
}

impl From<SinkFault> for ConversionFault {
    fn from(fault: SinkFault) -> ConversionFault {
        match fault {
            SinkFault::Memory => ConversionFault::Memory,
            SinkFault::Failed(words) => ConversionFault::Output(words),
        }
    }
}

/// The fault for an error of the reader.
pub fn read_fault(error: Error) -> ConversionFault {
    match error.kind() {
        ErrorKind::OutOfMemory => ConversionFault::Memory,
        _ => ConversionFault::Input,
    }
}
