//! Writes octets to standard output and standard error.
ghost use Rattle.std.specs.Prelude.{◌≡◌, IfErr, OnOk};
ghost use Rattle.std.specs.Io.KnownBytes.{Appends};
ghost use Rattle.book_http.specs.Streams.{WritesPrefix};
ghost use Rattle.cli_orders.specs.Outputs.{Flushes};

use crate::output::Output;
use crate::stop::Stop;
use std::io::{ErrorKind, Write};

/// The most writes of one output. Each write accepts at least one octet, is interrupted, or is the
/// last.
const WRITES_MAX: u32 = 1_000_000;

/// Writes all octets, in one call if the writer accepts them all at once.
///
/// `Stop::Device` if the writer fails; then a prefix of the octets is written, perhaps none. It
/// does what std's `write_all` does, but the contract of that one doesn't say what is written after
/// a failure.
fn write_whole<W: Write>(writer: &mut W, octets: &[u8]) -> Result<(), Stop>
    ensures written { OnOk result (Appends (W.contents writer.old) (W.contents writer.new)
        octets.now) }
    ensures prefix { WritesPrefix octets.now (W.contents writer.old) (W.contents writer.new) }
    ensures stop { IfErr result (λ stop. stop ≡ Stop.Device) }
{
    let mut count = 0;
    for _write in 0..WRITES_MAX {
        if count == octets.len() {
            return Ok(());
        }
        match writer.write(&octets[count..]) {
            Ok(0) => return Err(Stop::Device),
            Ok(more) => count += more,
            Err(error) if error.kind() == ErrorKind::Interrupted => {}
            Err(_) => return Err(Stop::Device),
        }
    }
    Err(Stop::Device)
}

/// Writes all octets and flushes them.
///
/// `Stop::Device` if the writer fails. Then a prefix of the octets is written, perhaps none,
/// perhaps all.
pub fn write_out<W: Output>(writer: &mut W, octets: &[u8]) -> Result<(), Stop>
    ensures written { OnOk result (Appends (W.contents writer.old) (W.contents writer.new)
        octets.now) }
    ensures prefix { WritesPrefix octets.now (W.contents writer.old) (W.contents writer.new) }
    ensures stop { IfErr result (λ stop. stop ≡ Stop.Device) }
    ensures flushed { Flushes W.contents W.flushed writer.old writer.new result }
{
    write_whole(writer, octets)?;
    match writer.flush_all() {
        Ok(()) => Ok(()),
        Err(_) => Err(Stop::Device),
    }
}
