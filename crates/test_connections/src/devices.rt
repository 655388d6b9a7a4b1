//! Inputs and outputs that fail.

use cli_orders::Output;
use std::alloc::Global;
use std::io;
use std::io::{Read, Write};

/// The most octets of a read and of a write.
const OCTETS_MAX: usize = 10;

/// An input with one read that fails.
#[derive(Drop)]
pub(crate) struct FailingReader<'a> {
    octets: &'a [u8],
    reads: u64,
    fails_at: u64,
    kind: io::ErrorKind,
}

impl<'a> FailingReader<'a> {
    /// An input of these octets. The read with the number `fails_at` fails with this kind; with 0
    /// none fails.
    pub(crate) fn new(octets: &'a [u8], fails_at: u64, kind: io::ErrorKind) -> FailingReader<'a> {
        FailingReader {
            octets,
            reads: 0,
            fails_at,
            kind,
        }
    }
}

impl<'a> Read for FailingReader<'a> {
    fn read(&mut self, buf: &mut [u8]) -> io::Result<usize> {
        self.reads = self.reads.saturating_add(1);
        if self.reads == self.fails_at {
            return Err(io::Error::from(self.kind));
        }
        let mut front = self.octets.get(..OCTETS_MAX).unwrap_or(self.octets);
        let count = front.read(buf)?;
        self.octets = self.octets.get(count..).unwrap_or_default();
        Ok(count)
    }
}

/// An output with a write that fails, or with a flush that fails.
#[derive(Drop)]
pub(crate) struct FailingWriter {
    pub(crate) octets: Vec<u8>,
    writes: u64,
    fails_at: u64,
    fails_at_flush: bool,
}

impl FailingWriter {
    /// An output whose write with this number fails, or whose flush does; with 0 no write fails.
    pub(crate) fn new(alloc: Global, fails_at: u64, fails_at_flush: bool) -> FailingWriter {
        FailingWriter {
            octets: Vec::new(alloc),
            writes: 0,
            fails_at,
            fails_at_flush,
        }
    }
}

impl Write for FailingWriter {
    fn write(&mut self, buf: &[u8]) -> io::Result<usize> {
        self.writes = self.writes.saturating_add(1);
        if self.writes == self.fails_at {
            return Err(io::Error::from(io::ErrorKind::BrokenPipe));
        }
        self.octets.write(buf.get(..OCTETS_MAX).unwrap_or(buf))
    }

    fn flush(&mut self) -> io::Result<()> {
        if self.fails_at_flush {
            Err(io::Error::from(io::ErrorKind::BrokenPipe))
        } else {
            Ok(())
        }
    }
}

impl Output for FailingWriter {
    ghost use Rattle.std.specs.Prelude.{None};

    ghost flushed = { λ _. None };

    fn flush_all(&mut self) -> io::Result<()> {
        self.flush()
    }
}
