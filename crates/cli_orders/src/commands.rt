//! Runs the orders that need only a store of books and a writer.
ghost use Rattle.std.specs.Prelude.{◌≡◌, IfErr, IfOk, OnOk};
ghost use Rattle.cli_orders.specs.CommandRuns.{PrintsCommand, PrintsMirror, StopsCommand};
ghost use Rattle.cli_orders.specs.CommandRuns.{StopsMirror};
ghost use Rattle.cli_orders.specs.Outputs.{Flushes};
ghost use Rattle.cli_orders.specs.ReplyTexts.{IsReplyStop, IsReplyText};

use crate::output::Output;
use crate::stop::Stop;
use crate::writing::write_out;
use crate::{book_text, expand_text, forget_text, imported_text, mirror_text, tally_text};
use book_service::{Command, Reply, mirror, perform};
use std::alloc::Global;
use sync_core::{BookStore, Fault};

/// The text to print for a reply, or why there is none.
fn reply_text(alloc: Global, reply: Reply) -> Result<Vec<u8>, Stop>
    ensures text { IfOk result (λ text. IsReplyText reply text.items) }
    ensures stop { IfErr result (λ stop. IsReplyStop reply stop) }
{
    match reply {
        Reply::Created { id } => Ok(book_text(alloc, id)?),
        Reply::Imported(tally) => Ok(imported_text(alloc, &tally)?),
        Reply::Forgot { dropped, horizon } => Ok(forget_text(alloc, dropped, horizon)?),
        Reply::Tally(tally) => Ok(tally_text(alloc, &tally)?),
        Reply::Csv(rows) => Ok(rows.into_vec()),
        Reply::People(expansion) => Ok(expand_text(alloc, &expansion)?),
        Reply::Refused(refusal) => Err(Stop::Refused(refusal)),
        Reply::Fault(fault) => Err(Stop::Fault(fault)),
        // No order's command has such a reply: see the law `orders_are_replied`.
        Reply::Books(_)
        | Reply::Card { .. }
        | Reply::Put(_)
        | Reply::Gone { .. }
        | Reply::Moved(_)
        | Reply::Page(_) => Err(Stop::Fault(Fault::Store)),
    }
}

/// Performs a command on the store and prints its reply: of a created book, an import, an export, a
/// tally, a forget, or the people of a group. The whole text is built before any of it is written.
///
/// Stops with the command's refusal or fault, which leaves the books unchanged; with `Memory` if an
/// allocation fails, possibly after the command was performed; and with `Device` if the writer
/// fails. Changes that were made before `Memory` or `Device` remain.
///
/// No order has a command of another kind. Such a command is performed too, but its reply has no
/// text: if the command succeeds, this stops with the fault `Store`, and the changes remain.
pub fn run_command<S: BookStore, W: Output>(
    alloc: Global,
    store: &mut S,
    command: &Command,
    writer: &mut W,
) -> Result<(), Stop>
    ensures printed { OnOk result (PrintsCommand S.model store.old command.now
        (W.contents writer.old) (W.contents writer.new) store.new) }
    ensures stopped { IfErr result (λ stop. StopsCommand S.model store.old command.now stop
        (W.contents writer.old) (W.contents writer.new) store.new) }
    ensures flushed { Flushes W.contents W.flushed writer.old writer.new result }
{
    let reply = perform(alloc, store, command);
    let text = reply_text(alloc, reply)?;
    write_out(writer, text.as_slice())
}

/// Synchronizes a new device with the book, in at most `pages` pages of at most `limit` entries,
/// and prints what the device holds. The store isn't changed.
///
/// Stops with the errors of `book_service::mirror`, with `Memory` if an allocation fails, and with
/// `Device` if the writer fails.
pub fn run_mirror<S: BookStore, W: Output>(
    alloc: Global,
    store: &mut S,
    book: &str,
    limit: u64,
    pages: u64,
    writer: &mut W,
) -> Result<(), Stop>
    ensures printed { OnOk result (PrintsMirror S.model store.old book.now limit pages
        (W.contents writer.old) (W.contents writer.new) store.new) }
    ensures stopped { IfErr result (λ stop.
        StopsMirror S.model store.old book.now limit pages stop
        (W.contents writer.old) (W.contents writer.new) store.new) }
    ensures flushed { Flushes W.contents W.flushed writer.old writer.new result }
{
    let mirrored = mirror(alloc, store, book, limit, pages)?;
    let text = mirror_text(alloc, &mirrored)?;
    write_out(writer, text.as_slice())
}
