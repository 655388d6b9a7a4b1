//! The resync of a store, and what it prints.
ghost use Rattle.std.specs.Prelude.{IfErr, OnOk};
ghost use Rattle.cli_host.specs.Resyncs.{PrintsResync, StopsResync};
ghost use Rattle.cli_orders.specs.Outputs.{Flushes};

use book_resync::AdminStore;
use cli_orders::{Output, Stop, resync_text, write_out};
use std::alloc::Global;

/// Makes every device of the store's books start again, and prints the number of books. The resync
/// remains if this can't be written.
pub(crate) fn run_resync<S: AdminStore, W: Output>(
    alloc: Global,
    store: &mut S,
    pairs: u64,
    writer: &mut W,
) -> Result<(), Stop>
    ensures printed { OnOk result (PrintsResync S.model store.old pairs
        (W.contents writer.old) (W.contents writer.new) store.new) }
    ensures stopped { IfErr result (λ stop. StopsResync S.model store.old pairs stop
        (W.contents writer.old) (W.contents writer.new) store.new) }
    ensures flushed { Flushes W.contents W.flushed writer.old writer.new result }
{
    let books = store.resync_books(pairs)?;
    let text = resync_text(alloc, books)?;
    write_out(writer, text.as_slice())
}
