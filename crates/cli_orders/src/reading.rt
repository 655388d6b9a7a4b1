//! Reads octets from standard input and from files.
ghost use Rattle.std.specs.Prelude.{◌≡◌, ◌⊎◌, ◌<◌, ◌≤◌, IfOk, IfErr, IfSome, length, take};
ghost use Rattle.std.specs.Io.KnownBytes.{Consumes, IsAtEnd};
ghost use Rattle.cli_orders.specs.Stops.{out_of_memory};
ghost use Rattle.book_http.specs.Streams.{ReadsAtMost};

use crate::stop::Stop;
use std::alloc::Global;
use std::io::{ErrorKind, Read};

/// The most octets of a file of rows.
const ROWS_OCTETS_MAX: usize = 8_388_608;

/// The most reads of one input. Each read returns at least one octet, is interrupted, or is the
/// last.
const READS_MAX: u32 = 10_000_000;

/// Fills the buffer until it is full or the input ends. Returns the number of octets read.
fn fill<R: Read>(reader: &mut R, room: &mut [u8]) -> Result<usize, Stop>
    ensures len { length room.new ≡ length room.old }
    ensures count { IfOk result (λ count. count ≤ length room.new) }
    ensures read { IfOk result (λ count.
        Consumes (R.remaining reader.old) (R.remaining reader.new) (take count room.new)) }
    ensures end { IfOk result (λ count. count < length room.new →
        IsAtEnd (R.remaining reader.new)) }
    ensures at_most { ReadsAtMost (length room.old) (R.remaining reader.old)
        (R.remaining reader.new) }
    ensures stop { IfErr result (λ stop. stop ≡ Stop.Device) }
{
    let mut count = 0;
    for _read in 0..READS_MAX {
        if count == room.len() {
            return Ok(count);
        }
        match reader.read(&mut room[count..]) {
            Ok(0) => return Ok(count),
            Ok(more) => count += more,
            Err(error) if error.kind() == ErrorKind::Interrupted => {}
            Err(_) => return Err(Stop::Device),
        }
    }
    Err(Stop::Device)
}

/// Reads to the end of the input, at most `most` octets. The buffer of `most` octets is allocated
/// first.
///
/// `Device` if the reader fails, and `Memory` if the buffer can't be allocated.
pub fn read_at_most<R: Read>(alloc: Global, reader: &mut R, most: usize) -> Result<Vec<u8>, Stop>
    // The result is a prefix of the input.
    ensures read { IfOk result (λ octets. IfSome (R.remaining reader.old)
        (λ input. octets.items ≡ take most input)) }

    // No more octets are read, whatever the result.
    ensures at_most { ReadsAtMost most (R.remaining reader.old) (R.remaining reader.new) }

    ensures len { IfOk result (λ octets. length octets.items ≤ most) }
    ensures stop { IfErr result (λ stop. (stop ≡ out_of_memory) ⊎ (stop ≡ Stop.Device)) }
{
    // The buffer is allocated first, so that reading allocates nothing and its errors are the
    // reader's.
    let mut octets = Vec::new(alloc);
    octets.resize(most, 0)?;
    let count = fill(reader, octets.as_mut_slice())?;
    octets.truncate(count);
    Ok(octets)
}

/// Reads a file of rows to its end.
///
/// `Device` if it has more than 8,388,608 octets or the reader fails, and `Memory` if the buffer
/// can't be allocated.
pub fn read_rows_of<R: Read>(alloc: Global, reader: &mut R) -> Result<Vec<u8>, Stop>
    ensures whole { IfOk result (λ rows. IfSome (R.remaining reader.old)
        (λ input. rows.items ≡ input)) }
    ensures len { IfOk result (λ rows. length rows.items ≤ 8388608) }
    ensures stop { IfErr result (λ stop. (stop ≡ out_of_memory) ⊎ (stop ≡ Stop.Device)) }
{
    // one more octet is read, so that a file that is too long is recognized
    let rows = read_at_most(alloc, reader, ROWS_OCTETS_MAX + 1)?;
    if rows.len() > ROWS_OCTETS_MAX {
        return Err(Stop::Device);
    }
    Ok(rows)
}
