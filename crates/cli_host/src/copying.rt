//! Copies a file, and puts a copy back.
ghost use Rattle.std.specs.Prelude.{IfErr, OnOk};
ghost use Rattle.cli_host.specs.Hosts.{LogsCalls};
ghost use Rattle.cli_host.specs.OrdersOnHost.{CopiesFile, RestoresFile, StopsCopying};
ghost use Rattle.cli_host.specs.OrdersOnHost.{StopsRestoring};
ghost use Rattle.cli_orders.specs.Outputs.{Flushes};

use crate::host::Host;
use base_types::{Items, Text};
use cli_orders::{Output, Stop, copy_text, restore_text, write_out};
use std::alloc::Global;

/// Copies the store in the file into a new file, without the books with these names, and prints the
/// number of books that it has. The copy remains if this can't be written.
pub(crate) fn run_copy<S, P, L, M: Host<S, P, L>, W: Output>(
    alloc: Global,
    host: &mut M,
    file: Text,
    target: Text,
    without: Items<Text>,
    writer: &mut W,
) -> Result<(), Stop>
    ensures done { OnOk result (LogsCalls M.calls host.old host.new
        (CopiesFile file target without (W.contents writer.old) (W.contents writer.new))) }
    ensures stopped { IfErr result (λ stop. LogsCalls M.calls host.old host.new
        (StopsCopying file target without stop (W.contents writer.old) (W.contents writer.new))) }
    ensures flushed { Flushes W.contents W.flushed writer.old writer.new result }
{
    let books = host.copy_file(file.as_str(), target.as_str(), without.as_slice())?;
    let text = copy_text(alloc, books)?;
    write_out(writer, text.as_slice())
}

/// Puts the copy back in place of the file, and prints what became of the file.
pub(crate) fn run_restore<S, P, L, M: Host<S, P, L>, W: Output>(
    alloc: Global,
    host: &mut M,
    backup: Text,
    file: Text,
    pairs: u64,
    writer: &mut W,
) -> Result<(), Stop>
    ensures done { OnOk result (LogsCalls M.calls host.old host.new
        (RestoresFile backup file pairs (W.contents writer.old) (W.contents writer.new))) }
    ensures stopped { IfErr result (λ stop. LogsCalls M.calls host.old host.new
        (StopsRestoring backup file pairs stop (W.contents writer.old) (W.contents writer.new))) }
    ensures flushed { Flushes W.contents W.flushed writer.old writer.new result }
{
    let restored = host.restore_file(backup.as_str(), file.as_str(), pairs)?;
    let text = restore_text(alloc, file.as_str(), &restored)?;
    write_out(writer, text.as_slice())
}
