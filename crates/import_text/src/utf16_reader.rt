//! `Utf16Reader`: reads UTF-16 as UTF-8.
ghost use Rattle.std.specs.Prelude.{◌≡◌, ◌≢◌, ◌<◌, ◌≤◌, ◌↔◌, ◌++◌, [], IfOk, IfSome, IsTrue};
ghost use Rattle.std.specs.Prelude.{drop, false, length, option_map, take};
ghost use Rattle.std.specs.Io.{ReadsAtMost};
ghost use Rattle.std.specs.Io.KnownBytes.{IsAtEnd, Keeps, ReadConsumes};
ghost use Rattle.import_text.specs.Texts.{utf16_octets};
ghost use Rattle.import_text.specs.internal.Unread.{octets_left, units_left, undecoded};

use crate::filling::joined;
use crate::octets::Octets;
use crate::utf16_parts::{decode, whole_len};
use base_types::NoMemory;
use std::alloc::Global;
use std::io;
use std::io::{Error, ErrorKind, Read};

/// The number of octets that are decoded at once, about.
const ROOM_OCTETS: usize = 8192;

/// The most reads for one chunk. Each returns at least one octet or is the last.
const READS_MAX: u32 = 100_000;

/// A reader of UTF-16 that gives its text in UTF-8, without the byte order mark. It keeps one
/// chunk. No octet is lost where a read fails.
#[derive(Drop)]
pub(crate) struct Utf16Reader<R> {
    alloc: Global,
    reader: R,
    /// Whether the first octet of each unit is the greater half.
    is_big: bool,
    /// The octets that were read but not decoded yet, and room for more of them.
    room: Vec<u8>,
    /// The number of octets at the front of the room.
    count: usize,
    /// The text that was decoded but not given yet.
    text: Octets,
}

impl<R: Read> Utf16Reader<R> {
    /// Reads the octets after the mark.
    pub(crate) fn new(alloc: Global, is_big: bool, reader: R) -> Utf16Reader<R>
        ensures { units_left R.remaining result ≡ option_map (utf16_octets is_big)
            (R.remaining reader) }
    {
        Utf16Reader {
            alloc,
            reader,
            is_big,
            room: Vec::new(alloc),
            count: 0,
            text: Octets::new(Vec::new(alloc)),
        }
    }

    /// Whether there is no room for more octets.
    fn is_full(&self) -> bool
        ensures { IsTrue result ↔ length self.now.room.items ≤ self.now.count }
    {
        self.count >= self.room.len()
    }

    /// Reads octets once, into the room that is left. Returns their number, 0 at the end.
    fn read_octets(&mut self) -> io::Result<usize>
        requires { self.old.count < length self.old.room.items }
        ensures left { Keeps (units_left R.remaining self.old) (units_left R.remaining self.new) }
        ensures text { octets_left self.new.text ≡ octets_left self.old.text }
        ensures end { IfOk result (λ count. count ≡ 0 → IsAtEnd (R.remaining self.new.reader)) }
    {
        let count = self.reader.read(&mut self.room[self.count..])?;
        self.count += count;
        Ok(count)
    }

    /// The octets that were read but not decoded yet.
    fn undecoded(&self) -> &[u8]
        ensures { result.now ≡ undecoded self.now }
    {
        if self.count < self.room.len() {
            &self.room[..self.count]
        } else {
            self.room.as_slice()
        }
    }

    /// Decodes the first octets, and keeps those after them. Nothing changes without memory.
    fn decode_front(&mut self, len: usize) -> Result<(), NoMemory>
        requires within { len ≤ length (undecoded self.old) }
        requires given { octets_left self.old.text ≡ [] }
        requires apart { IfSome (R.remaining self.old.reader) (λ more.
            utf16_octets self.old.is_big (undecoded self.old ++ more)
            ≡ utf16_octets self.old.is_big (take len (undecoded self.old))
            ++ utf16_octets self.old.is_big (drop len (undecoded self.old) ++ more)) }
        ensures { Keeps (units_left R.remaining self.old) (units_left R.remaining self.new) }
    {
        let (front, rest) = self.undecoded().split_at(len);
        let text = decode(self.alloc, self.is_big, front)?;
        let room = joined(self.alloc, rest, &[0; ROOM_OCTETS])?;
        let count = rest.len();
        self.count = count;
        self.room = room;
        self.text = Octets::new(text);
        Ok(())
    }

    /// Decodes the octets that were read up to the end. Returns whether there were any.
    fn decode_last(&mut self) -> io::Result<bool>
        requires given { octets_left self.old.text ≡ [] }
        requires end { IsAtEnd (R.remaining self.old.reader) }
        ensures left { Keeps (units_left R.remaining self.old) (units_left R.remaining self.new) }
        ensures end { IfOk result (λ more. more ≡ false
            → IsAtEnd (units_left R.remaining self.new)) }
    {
        let len = self.undecoded().len();
        if len == 0 {
            return Ok(false);
        }
        match self.decode_front(len) {
            Ok(()) => Ok(true),
            Err(NoMemory) => Err(Error::from(ErrorKind::OutOfMemory)),
        }
    }

    /// Decodes what needs no more octets.
    fn decode_whole(&mut self) -> io::Result<bool>
        requires given { octets_left self.old.text ≡ [] }
        ensures left { Keeps (units_left R.remaining self.old) (units_left R.remaining self.new) }
        ensures more { IfOk result (λ more. IsTrue more) }
    {
        let len = whole_len(self.is_big, self.undecoded());
        match self.decode_front(len) {
            Ok(()) => Ok(true),
            Err(NoMemory) => Err(Error::from(ErrorKind::OutOfMemory)),
        }
    }

    /// Reads octets once, or decodes those that were read. Returns false at the end of the text.
    fn read_text(&mut self) -> io::Result<bool>
        requires { octets_left self.old.text ≡ [] }
        ensures left { Keeps (units_left R.remaining self.old) (units_left R.remaining self.new) }
        ensures end { IfOk result (λ more. more ≡ false
            → IsAtEnd (units_left R.remaining self.new)) }
    {
        if self.is_full() {
            return self.decode_whole();
        }
        if self.read_octets()? > 0 {
            return Ok(true);
        }
        self.decode_last()
    }

    /// Gives text that was decoded, of which there is some unless there is no room for it.
    fn give(&mut self, buf: &mut [u8]) -> io::Result<usize>
        requires { 0 < length buf.old → octets_left self.old.text ≢ [] }
        ensures bound { ReadsAtMost result buf.new }
        ensures bytes { ReadConsumes (units_left R.remaining self.old)
            (units_left R.remaining self.new) result buf.new }
    {
        self.text.read(buf)
    }
}

impl<R: Read> Read for Utf16Reader<R> {
    ghost use Rattle.import_text.specs.internal.Unread.{units_left};

    ghost remaining = { λ reader. units_left R.remaining reader };

    fn read(&mut self, buf: &mut [u8]) -> io::Result<usize> {
        for _read in 0..READS_MAX {
            if buf.is_empty() || !self.text.is_empty() {
                return self.give(buf);
            }
            if !self.read_text()? {
                return Ok(0);
            }
        }
        Err(Error::from(ErrorKind::Other))
    }
}
