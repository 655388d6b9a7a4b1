//! Says on a terminal that a long import or a long opening goes on.
ghost use Rattle.std.specs.Prelude.{◌≡◌, ◌/◌, IfErr, IfOk, OnOk};
ghost use Rattle.cli_host.specs.Hosts.{Opens};
ghost use Rattle.cli_host.specs.Progress.{begin_line, end_line, opening_line};
ghost use Rattle.cli_orders.specs.CommandRuns.{PrintsCommand, StopsCommand};
ghost use Rattle.cli_orders.specs.Outputs.{Flushes};

use crate::host::Host;
use base_types::NoMemory;
use book_service::Command;
use cli_orders::{Output, Stop, run_command};
use std::alloc::Global;
use store_schema::OpenFault;
use sync_core::BookStore;

/// The most lines of a file of rows that is imported without a word.
const SILENT_LINES_MAX: usize = 1_000;

/// The most octets of a file that is opened without a word: those of about 100,000 small cards.
const SILENT_OCTETS_MAX: u64 = 20_000_000;

/// What is said before a long opening.
fn opening_text(alloc: Global, file: &str, octets: u64) -> Result<Vec<u8>, NoMemory>
    ensures { IfOk result (λ text. text.items ≡ opening_line file.now octets) }
{
    let megabytes = octets / 1_000_000;
    Ok(format!(in alloc; "opening {file}: {megabytes} MB ..\n")?.into_bytes())
}

/// What is said before a long import.
fn begin_text(alloc: Global, lines: u64) -> Result<Vec<u8>, NoMemory>
    ensures { IfOk result (λ text. text.items ≡ begin_line lines) }
{
    Ok(format!(in alloc; "importing {lines} lines ..\n")?.into_bytes())
}

/// What is said after either.
fn end_text(alloc: Global, micros: u64) -> Result<Vec<u8>, NoMemory>
    ensures { IfOk result (λ text. text.items ≡ end_line micros) }
{
    let millis = micros / 1_000;
    Ok(format!(in alloc; "done after {millis} milliseconds\n")?.into_bytes())
}

/// Says a text, unless there was no memory for it.
fn say<S, P, L, M: Host<S, P, L>>(host: &M, text: Result<Vec<u8>, NoMemory>) {
    if let Ok(text) = text {
        host.say(text.as_slice());
    }
}

/// `run_command` for an import of rows with this number of lines. If there are more than 1,000, and
/// standard error is a terminal, it says before how many, and afterwards how long it took.
pub(crate) fn run_import<S: BookStore, P, L, M: Host<S, P, L>, W: Output>(
    alloc: Global,
    host: &M,
    store: &mut S,
    command: &Command,
    lines: usize,
    writer: &mut W,
) -> Result<(), Stop>
    ensures printed { OnOk result (PrintsCommand S.model store.old command.now
        (W.contents writer.old) (W.contents writer.new) store.new) }
    ensures stopped { IfErr result (λ stop. StopsCommand S.model store.old command.now stop
        (W.contents writer.old) (W.contents writer.new) store.new) }
    ensures flushed { Flushes W.contents W.flushed writer.old writer.new result }
{
    if lines <= SILENT_LINES_MAX || !host.has_watcher() {
        return run_command(alloc, store, command, writer);
    }
    say(host, begin_text(alloc, lines as u64));
    let start = host.now();
    let done = run_command(alloc, store, command, writer);
    say(host, end_text(alloc, host.micros_since(start)));
    done
}

/// Opens the store of the books in the file. If the file has more than 20,000,000 octets, and
/// standard error is a terminal, it says before how long the file is, and afterwards how long
/// opening it took.
pub(crate) fn open_watched<S, P, L, M: Host<S, P, L>>(
    alloc: Global,
    host: &mut M,
    file: &str,
) -> Result<S, OpenFault>
    ensures { M.calls (Opens file.now result) host.old host.new }
{
    let octets = host.octets_of(file);
    if octets <= SILENT_OCTETS_MAX || !host.has_watcher() {
        return host.open(file);
    }
    say(&*host, opening_text(alloc, file, octets));
    let start = host.now();
    let opened = host.open(file);
    say(&*host, end_text(alloc, host.micros_since(start)));
    opened
}
