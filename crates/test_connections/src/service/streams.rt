//! Readers that are interrupted, readers that never end, and a writer that has to be flushed. The
//! suite over the built program tests all other kinds of connections.
use crate::checks::check;
use crate::service::new_service;
use book_http::{ServeFault, Service, serve};
use std::alloc::Global;
use std::io;
use std::io::{Read, Write};
use sync_core::{BookStore, PlainStore};
use test_support::Printout;

/// Creates a book, puts Ann's card into it, and asks for its initial report.
const REQUESTS: &[u8] = b"PUT /books/staff HTTP/1.1\r\nHost: office\r\n\r\n\
    PUT /books/staff/cards/a HTTP/1.1\r\nHost: office\r\nContent-Length: 52\r\n\r\n\
    BEGIN:VCARD\r\nVERSION:4.0\r\nUID:a\r\nFN:Ann\r\nEND:VCARD\r\n\
    GET /books/staff/sync?token= HTTP/1.1\r\nHost: office\r\n\r\n";

/// A reader of the requests, at most `size` octets a read. The read with the number `interrupted`
/// is interrupted; with 0 none is.
#[derive(Drop)]
struct InterruptedReader<'a> {
    octets: &'a [u8],
    size: usize,
    reads: u64,
    interrupted: u64,
}

impl<'a> Read for InterruptedReader<'a> {
    fn read(&mut self, buf: &mut [u8]) -> io::Result<usize> {
        self.reads = self.reads.saturating_add(1);
        if self.reads == self.interrupted {
            return Err(io::Error::from(io::ErrorKind::Interrupted));
        }
        let mut front = self.octets.get(..self.size).unwrap_or(self.octets);
        let count = front.read(buf)?;
        self.octets = self.octets.get(count..).unwrap_or_default();
        Ok(count)
    }
}

/// Serves the stream. (Who calls it learns nothing of what is proved of `serve`.)
fn serve_stream<R: Read, W: Write>(
    alloc: Global,
    service: &mut Service<PlainStore>,
    reader: &mut R,
    writer: &mut W,
) -> Result<(), ServeFault> {
    serve(alloc, service, reader, writer)
}

/// The replies if that read is interrupted.
fn replies(interrupted: u64, out: &mut Printout) -> Vec<u8> {
    let mut reader = InterruptedReader {
        octets: REQUESTS,
        size: 64,
        reads: 0,
        interrupted,
    };
    let mut writer = Vec::new(out.alloc());
    if let Some(mut service) = new_service(&mut out.supply) {
        let done = serve_stream(out.alloc(), &mut service, &mut reader, &mut writer);
        check(done == Ok(()), "served to the end", out);
        check(service.store.get("staff", "a").is_ok(), "the card", out);
    }
    writer
}

pub(crate) fn retries_interrupted_reads(out: &mut Printout) {
    let expected = replies(0, out);
    for interrupted in 1..6u64 {
        let written = replies(interrupted, out);
        let is_same = written.as_slice() == expected.as_slice();
        check(is_same, "the replies", out);
    }
}

/// A writer that sends what was written only when it is flushed.
#[derive(Drop)]
struct HoldingWriter {
    held: Vec<u8>,
    sent: Vec<u8>,
}

impl Write for HoldingWriter {
    fn write(&mut self, buf: &[u8]) -> io::Result<usize> {
        self.held.write(buf)
    }

    fn flush(&mut self) -> io::Result<()> {
        self.sent.write_all(self.held.as_slice())?;
        self.held.clear();
        Ok(())
    }
}

pub(crate) fn flushes_replies(out: &mut Printout) {
    let expected = replies(0, out);
    let mut reader = REQUESTS;
    let mut writer = HoldingWriter {
        held: Vec::new(out.alloc()),
        sent: Vec::new(out.alloc()),
    };
    if let Some(mut service) = new_service(&mut out.supply) {
        let done = serve_stream(out.alloc(), &mut service, &mut reader, &mut writer);
        check(done == Ok(()), "served to the end", out);
    }
    check(writer.held.is_empty(), "nothing is held", out);
    let is_sent = writer.sent.as_slice() == expected.as_slice();
    check(is_sent, "the replies", out);
}

/// A head, and then a body that never ends, an octet a read.
#[derive(Drop)]
struct EndlessReader<'a> {
    head: &'a [u8],
}

impl<'a> Read for EndlessReader<'a> {
    fn read(&mut self, buf: &mut [u8]) -> io::Result<usize> {
        if self.head.is_empty() {
            let mut octet: &[u8] = b"x";
            return octet.read(buf);
        }
        self.head.read(buf)
    }
}

pub(crate) fn gives_up_after_too_many_reads(out: &mut Printout) {
    let mut reader = EndlessReader {
        head: b"PUT /books/staff HTTP/1.1\r\nHost: office\r\nContent-Length: 8388608\r\n\r\n",
    };
    let mut writer = Vec::new(out.alloc());
    if let Some(mut service) = new_service(&mut out.supply) {
        let done = serve_stream(out.alloc(), &mut service, &mut reader, &mut writer);
        check(done == Err(ServeFault::TooManyTurns), "given up", out);
        check(service.store.book("staff").is_err(), "no book", out);
    }
    check(writer.is_empty(), "no reply", out);
}

/// The reasons to give up a connection, with their numbers.
const FAULTS: [(ServeFault, u8); 4] = [
    (ServeFault::Read, 1),
    (ServeFault::Write, 2),
    (ServeFault::TooManyTurns, 3),
    (ServeFault::Memory, 4),
];

pub(crate) fn numbers_faults(out: &mut Printout) {
    for (fault, number) in FAULTS {
        check(fault.number() == number, "the number of a fault", out);
    }
}
