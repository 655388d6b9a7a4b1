//! A reader and a writer as a connection.
ghost use Rattle.std.specs.Prelude.{None, Some};

use crate::connection::Connection;
use std::io;
use std::io::{Read, Write};

/// A reader and a writer.
#[derive(Drop)]
pub(crate) struct Streams<'a, R, W> {
    pub(crate) reader: &'a mut R,
    pub(crate) writer: &'a mut W,
}

impl<'a, R: Read, W: Write> Connection for Streams<'a, R, W> {
    ghost model = { record {
      remaining = λ streams. R.remaining streams.reader.now;
      contents = λ streams. W.contents streams.writer.now;
      calls = λ _. None;
    } };

    ghost borrowed = { λ streams. Some (streams.reader.ghost_name, streams.writer.ghost_name) };

    fn receive(&mut self, room: &mut [u8]) -> io::Result<usize> {
        self.reader.read(room)
    }

    fn send(&mut self, octets: &[u8]) -> io::Result<usize> {
        self.writer.write(octets)
    }

    fn flush(&mut self) -> io::Result<()> {
        self.writer.flush()
    }

    fn close(&mut self) {}
}
