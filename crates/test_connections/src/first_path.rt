//! The order `try` with an input or an output that fails at some call, and the lines of stops that
//! no order reaches.

use crate::devices::{FailingReader, FailingWriter};
use book_http::ServeFault;
use cli_orders::{Stop, run_try};
use std::alloc::Global;
use std::io;
use sync_core::{Fault, Refusal, TokenCause};
use test_support::Printout;

/// Prints the stop's line.
fn print_stop(stop: Stop, out: &mut Printout) {
    let line = format!(in out.alloc(); "{stop}");
    if let Some(line) = out.supply.keep(line) {
        out.add(line.as_str());
    }
}

/// What fails, in words: the number of the read that fails, with its error, the number of the write
/// that fails, and whether the flush does. With the number 0 none fails.
type Failure = (&'static str, u64, io::ErrorKind, u64, bool);

const BROKEN: io::ErrorKind = io::ErrorKind::BrokenPipe;

const FAILURES: [Failure; 7] = [
    ("nothing fails", 0, BROKEN, 0, false),
    ("the first read fails", 1, BROKEN, 0, false),
    ("the third read fails", 3, BROKEN, 0, false),
    (
        "the third read finds no memory",
        3,
        io::ErrorKind::OutOfMemory,
        0,
        false,
    ),
    ("the first write fails", 0, BROKEN, 1, false),
    ("the third write fails", 0, BROKEN, 3, false),
    ("the flush fails", 0, BROKEN, 0, true),
];

/// Runs the order on the octets with this failure. Returns how it ended, and the number of octets
/// that it wrote.
fn end_of(alloc: Global, octets: &[u8], failure: Failure) -> (Result<(), Stop>, usize) {
    let (_, at_read, kind, at_write, at_flush) = failure;
    let mut reader = FailingReader::new(octets, at_read, kind);
    let mut writer = FailingWriter::new(alloc, at_write, at_flush);
    let ended = run_try(alloc, &mut reader, &mut writer);
    (ended, writer.octets.len())
}

/// Prints how the order ended, and the number of octets that it wrote.
fn print_end(what: &str, ended: Result<(), Stop>, written: usize, out: &mut Printout) {
    out.add_all(&["\n-- ", what, ": "]);
    match ended {
        Ok(()) => out.add("done"),
        Err(stop) => print_stop(stop, out),
    }
    out.add_count(", ", written);
    out.add(" octets written");
}

/// Runs the order on the card, with each failing input and output, and prints how each run ended.
pub(crate) fn print_paths(card: &[u8], out: &mut Printout) {
    for failure in FAILURES {
        let (ended, written) = end_of(out.alloc(), card, failure);
        print_end(failure.0, ended, written, out);
    }
}

/// Prints the lines and the statuses of stops that no order reaches while devices work.
pub(crate) fn print_stops(out: &mut Printout) {
    let stops = [
        Stop::Refused(Refusal::BadToken(TokenCause::Malformed)),
        Stop::Fault(Fault::Store),
        Stop::Serve(ServeFault::TooManyTurns),
    ];
    for stop in stops {
        out.add("\n-- ");
        print_stop(stop, out);
        out.add_labelled(", status ", u64::from(stop.status()));
    }
}
