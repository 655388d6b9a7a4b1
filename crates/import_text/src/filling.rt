//! Reads octets from a reader.
ghost use Rattle.std.specs.Prelude.{◌<◌, ◌≤◌, ◌≡◌, ◌++◌, IfOk, length, take};
ghost use Rattle.std.specs.Io.KnownBytes.{Consumes, IsAtEnd};

use base_types::NoMemory;
use std::alloc::Global;
use std::io;
use std::io::{Error, ErrorKind, Read};

/// The most reads of one buffer. Each read returns at least one octet, is interrupted, or is the
/// last.
const READS_MAX: u32 = 100_000_000;

/// Fills the buffer until it is full or the input ends. Returns the number of octets read. An `Err`
/// is the first one of the reader that isn't `Interrupted`.
pub fn fill<R: Read>(reader: &mut R, room: &mut [u8]) -> io::Result<usize>
    ensures len { length room.new ≡ length room.old }
    ensures count { IfOk result (λ count. count ≤ length room.new) }

    // What the reader lost is at the front of the buffer.
    ensures read { IfOk result (λ count.
        Consumes (R.remaining reader.old) (R.remaining reader.new) (take count room.new)) }

    // If there is room left, the input has ended.
    ensures end { IfOk result (λ count. count < length room.new →
        IsAtEnd (R.remaining reader.new)) }
{
    let mut count = 0;
    for _read in 0..READS_MAX {
        if count == room.len() {
            return Ok(count);
        }
        match reader.read(&mut room[count..]) {
            Ok(0) => return Ok(count),
            Ok(more) => count += more,
            Err(error) if error.kind() == ErrorKind::Interrupted => {}
            Err(error) => return Err(error),
        }
    }
    Err(Error::from(ErrorKind::Other))
}

/// Joins two runs of octets. The only `Err` is out of memory.
pub fn joined(alloc: Global, front: &[u8], back: &[u8]) -> Result<Vec<u8>, NoMemory>
    ensures { IfOk result (λ whole. whole.items ≡ front.now ++ back.now) }
{
    let mut whole = Vec::new(alloc);
    whole.extend_from_slice(front)?;
    whole.extend_from_slice(back)?;
    Ok(whole)
}
