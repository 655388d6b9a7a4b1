//! Runs the order `check` on the octets of a file.
ghost use Rattle.std.specs.Prelude.{IfErr, OnOk};
ghost use Rattle.cli_orders.specs.Findings.{PassesCheck, StopsCheck};
ghost use Rattle.cli_orders.specs.Outputs.{Flushes};

use crate::finding::{FileKind, check_octets, finding_text, verdict_of};
use crate::output::Output;
use crate::stop::Stop;
use crate::writing::write_out;
use std::alloc::Global;

/// Checks the octets of a file, and prints what it found: the number of rows, or that it is a card,
/// or the first fault in words. No store is needed.
///
/// Refused with `BadImport` and the first faulty row, or with `BadCard` and the card's first fault,
/// after the words are written. Stops with `Memory` if an allocation fails, and with `Device` if
/// the writer fails.
pub fn run_check<W: Output>(
    alloc: Global,
    file: FileKind,
    octets: &[u8],
    writer: &mut W,
) -> Result<(), Stop>
    ensures passed { OnOk result (PassesCheck file octets.now
        (W.contents writer.old) (W.contents writer.new)) }
    ensures stopped { IfErr result (λ stop. StopsCheck file octets.now stop
        (W.contents writer.old) (W.contents writer.new)) }
    ensures flushed { Flushes W.contents W.flushed writer.old writer.new result }
{
    let finding = check_octets(alloc, file, octets)?;
    let text = finding_text(alloc, finding)?;
    write_out(writer, text.as_slice())?;
    verdict_of(finding)
}
