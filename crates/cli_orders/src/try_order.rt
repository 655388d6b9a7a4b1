//! Runs the order `try`, from the octets of the input to those of the output.
ghost use Rattle.std.specs.Prelude.{IfErr, IfSome, OnOk};
ghost use Rattle.cli_orders.specs.Inputs.{read_octets_max};
ghost use Rattle.cli_orders.specs.Outputs.{Flushes};
ghost use Rattle.cli_orders.specs.TryOutputs.{KeepsTryOutput, PrintsTryResult};
ghost use Rattle.cli_orders.specs.TryStops.{IsTryStop};
ghost use Rattle.book_http.specs.Streams.{ReadsAtMost};

use crate::input::read_input;
use crate::output::Output;
use crate::stop::Stop;
use crate::try_output::try_octets;
use crate::try_result::first_path;
use crate::writing::write_out;
use std::alloc::Global;
use std::io::Read;

/// Reads a card, puts it into an empty book, and prints the answer of the put and the book's
/// initial report. The whole output is built before any of it is written. At most 262,145 octets
/// are read, so that a text that is too long is refused, however long it is.
///
/// Stops with `BadCard` and the text's first fault if the text is no card, with `Memory` if an
/// allocation fails, and with `Device` if the reader or the writer fails.
pub fn run_try<R: Read, W: Output>(
    alloc: Global,
    reader: &mut R,
    writer: &mut W,
) -> Result<(), Stop>
    // The output for the input is written.
    ensures printed { OnOk result (IfSome (R.remaining reader.old)
        (λ input. PrintsTryResult input (W.contents writer.old) (W.contents writer.new))) }

    // A refusal is the input's first fault.
    ensures stopped { IfErr result (λ stop. IfSome (R.remaining reader.old)
        (λ input. IsTryStop input stop)) }

    // On a refusal or out of memory nothing is written; if a device fails, nothing or a prefix
    // of the output.
    ensures output_kept { IfErr result (λ stop. IfSome (R.remaining reader.old)
        (λ input. KeepsTryOutput stop input (W.contents writer.old) (W.contents writer.new))) }

    ensures flushed { Flushes W.contents W.flushed writer.old writer.new result }

    ensures at_most { ReadsAtMost read_octets_max
        (R.remaining reader.old) (R.remaining reader.new) }
{
    let octets = read_input(alloc, reader)?;
    let path = first_path(alloc, octets.as_slice())?;
    let output = try_octets(alloc, &path)?;
    write_out(writer, output.as_slice())
}
