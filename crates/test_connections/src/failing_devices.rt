//! Serves a row's first connection with a device that fails at one read or write, for each in turn,
//! until none fails. The row's other connections then show the books.

use crate::devices::{FailingReader, FailingWriter};
use crate::parts::Connections;
use crate::service::new_service;
use crate::serving::print_connections;
use base_types::NoMemory;
use book_http::{ServeFault, serve};
use http_requests::Handler;
use std::alloc::Global;
use std::io;
use test_support::{Printout, Supply};

/// The device that fails.
#[derive(Clone, Copy)]
enum Device {
    Reader,
    Writer,
}

/// The outcome of a connection.
#[derive(Drop)]
struct Outcome {
    /// How it ended.
    served: Result<(), ServeFault>,
    /// The octets written.
    written: Vec<u8>,
    /// The replies to the row's other connections afterwards.
    books: Printout,
}

impl Outcome {
    /// Whether the other outcome has the same end and the same books.
    fn is_same_as(&self, other: &Outcome) -> bool {
        self.served == other.served && self.books.as_slice() == other.books.as_slice()
    }

    /// Whether the octets written are a prefix of those of the other outcome.
    fn is_prefix_of(&self, whole: &Outcome) -> bool {
        whole
            .written
            .as_slice()
            .starts_with(self.written.as_slice())
    }
}

/// Serves the octets with a reader and a writer, of which the device fails at that read or write.
/// Returns how it ended, and the octets written. (As with `feed` of `test_support`, who calls it
/// learns nothing of what is proved of `serve`.)
fn serve_failing<H: Handler>(
    alloc: Global,
    handler: &mut H,
    octets: &[u8],
    device: Device,
    fails_at: u64,
) -> (Result<(), ServeFault>, Vec<u8>) {
    let (at_read, at_write) = match device {
        Device::Reader => (fails_at, 0),
        Device::Writer => (0, fails_at),
    };
    let mut reader = FailingReader::new(octets, at_read, io::ErrorKind::BrokenPipe);
    let mut writer = FailingWriter::new(alloc, at_write, false);
    let served = serve(alloc, handler, &mut reader, &mut writer);
    (served, writer.octets)
}

/// The outcome of the connections over the service; the first one has the failing device.
fn outcome_of<H: Handler>(
    handler: &mut H,
    connections: Connections,
    device: Device,
    fails_at: u64,
    supply: &mut Supply,
) -> Outcome {
    let alloc = supply.alloc;
    let first = connections.first();
    let (served, written) = serve_failing(alloc, handler, first.octets, device, fails_at);
    let mut books = Printout::new(alloc);
    print_connections(handler, first.others, false, &mut books);
    supply.note(books.result());
    Outcome {
        served,
        written,
        books,
    }
}

/// The outcome if the device fails at that read or write. `NoMemory` if no service can be made.
fn outcome_at(
    connections: Connections,
    device: Device,
    fails_at: u64,
    supply: &mut Supply,
) -> Result<Outcome, NoMemory> {
    match new_service(supply) {
        Some(service) => {
            let mut service = service;
            Ok(outcome_of(&mut service, connections, device, fails_at, supply))
        }
        None => Err(NoMemory),
    }
}

fn end_text(served: Result<(), ServeFault>) -> &'static str {
    match served {
        Ok(()) => "served to the end",
        Err(ServeFault::Read) => "a fault of the reader",
        Err(ServeFault::Write) => "a fault of the writer",
        Err(ServeFault::TooManyTurns) => "too many reads",
        Err(ServeFault::Memory) => "out of memory",
    }
}

/// Prints a line for an outcome that was first seen at that read or write, and its books.
fn print_outcome(device: Device, fails_at: u64, outcome: &Outcome, out: &mut Printout) {
    let label = match device {
        Device::Reader => "\n-- failing at read ",
        Device::Writer => "\n-- failing at write ",
    };
    out.add_labelled(label, fails_at);
    out.add(" and on: ");
    out.add(end_text(outcome.served));
    out.add_count(", ", outcome.written.len());
    out.add(" octets written");
    out.add_printout(&outcome.books);
}

/// Prints the next outcome if it differs from the one before.
fn print_next(
    device: Device,
    fails_at: u64,
    next: &Outcome,
    whole: &Outcome,
    before: &Outcome,
    out: &mut Printout,
) {
    if !next.is_prefix_of(whole) {
        out.add("\n** no beginning of the replies was written **");
    }
    if !next.is_same_as(before) {
        print_outcome(device, fails_at, next, out);
    }
}

/// Prints the first outcome, and each later one that differs from the one before, until the device
/// doesn't fail. `whole` is the outcome without a failure.
fn print_outcomes(
    connections: Connections,
    device: Device,
    whole: &Outcome,
    first: Outcome,
    out: &mut Printout,
) -> Result<(), NoMemory> {
    let mut before = first;
    print_outcome(device, 1, &before, out);
    for fails_at in 2..1_000u64 {
        if before.is_same_as(whole) {
            return Ok(());
        }
        let next = outcome_at(connections, device, fails_at, &mut out.supply)?;
        print_next(device, fails_at, &next, whole, &before, out);
        before = next;
    }
    Ok(())
}

/// Prints the outcomes of a failure of the device at each read or write in turn.
fn print_device(
    connections: Connections,
    device: Device,
    out: &mut Printout,
) -> Result<(), NoMemory> {
    let whole = outcome_at(connections, device, 0, &mut out.supply)?;
    let first = outcome_at(connections, device, 1, &mut out.supply)?;
    print_outcomes(connections, device, &whole, first, out)
}

/// Prints the outcomes of the row if its reader fails, and if its writer fails.
pub(crate) fn print_failures(connections: Connections, out: &mut Printout) {
    for device in [Device::Reader, Device::Writer] {
        let printed = print_device(connections, device, out);
        out.supply.note(printed);
    }
}
