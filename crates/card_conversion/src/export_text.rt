//! `ExportText`: the text of a file of rows of cards, in which a wrong quote loses one row at most.

use crate::export_row::{ExportEnd, export_row_end};
use crate::mended_rows::{broken_row, mended_row};
use base_types::NoMemory;
use import_text::{fill, joined};
use std::alloc::Global;
use std::io;
use std::io::{Error, ErrorKind, Read};

/// The number of octets that are read at once, at least.
const CHUNK_OCTETS: usize = 65_536;

/// The most octets of a row that is looked at whole.
const ROW_OCTETS_MAX: usize = 8_388_608;

/// The most reads for one row.
const READS_MAX: u32 = 1_000_000;

fn no_memory() -> Error {
    Error::from(ErrorKind::OutOfMemory)
}

/// Reads the rows `uid,vcard` of a file, and gives them on as they are, but for wrong quotes.
///
/// A row ends as `export_row_end` says, at the latest before a line that ends with
/// `,"BEGIN:VCARD`, in any case. A quote that isn't closed by then is closed there, and one of a
/// card that isn't doubled is doubled, which is told. For a row of which it isn't known where its
/// card ends it gives one that is told as such. It gives as many line feeds as the file has. From a
/// row of more than 8,388,608 octets on, all is given on as it is.
#[derive(Drop)]
pub struct ExportText<R> {
    alloc: Global,
    reader: R,
    /// What was read, of which the octets from `start` weren't given on yet.
    input: Vec<u8>,
    start: usize,
    is_at_end: bool,
    /// The number of octets from `start` that are given next, after those of `made`.
    ready: usize,
    /// What is given in place of a row, from `given`.
    made: Vec<u8>,
    given: usize,
    /// Whether all is given on as it is.
    is_plain: bool,
}

impl<R: Read + Drop> ExportText<R> {
    /// Reads the rows of the source, whose first line is the header.
    pub fn new(alloc: Global, source: R) -> ExportText<R> {
        ExportText {
            alloc,
            reader: source,
            input: Vec::new(alloc),
            start: 0,
            is_at_end: false,
            ready: 0,
            made: Vec::new(alloc),
            given: 0,
            is_plain: false,
        }
    }

    /// The octets that weren't given on yet.
    fn unread(&self) -> &[u8] {
        self.input.get(self.start..).unwrap_or(&[])
    }

    /// The octets that are given in place of a row.
    fn ungiven(&self) -> &[u8] {
        self.made.get(self.given..).unwrap_or(&[])
    }

    /// Reads on: at least as many octets as are unread, or all to the end. So the octets of a long
    /// row are looked at a few times each.
    fn read_more(&mut self) -> io::Result<()> {
        let size = self.unread().len().max(CHUNK_OCTETS);
        let mut octets = Vec::new(self.alloc);
        if octets.resize(size, 0).is_err() {
            return Err(no_memory());
        }
        let count = fill(&mut self.reader, octets.as_mut_slice())?;
        octets.truncate(count);
        self.is_at_end = count < size;
        let Ok(input) = joined(self.alloc, self.unread(), octets.as_slice()) else {
            return Err(no_memory());
        };
        self.input = input;
        self.start = 0;
        Ok(())
    }

    /// Gives octets in place of so many.
    fn replace(&mut self, made: Vec<u8>, len: usize) {
        self.made = made;
        self.given = 0;
        self.start = self.start.saturating_add(len);
    }

    /// Gives what was made in place of a row of so many octets.
    fn give_made(&mut self, made: Result<Vec<u8>, NoMemory>, len: usize) -> io::Result<()> {
        match made {
            Ok(made) => {
                self.replace(made, len);
                Ok(())
            }
            Err(NoMemory) => Err(no_memory()),
        }
    }

    /// Gives a row in place of a broken one of so many octets.
    fn break_row(&mut self, len: usize) -> io::Result<()> {
        let made = broken_row(self.alloc, self.unread().get(..len).unwrap_or(&[]));
        self.give_made(made, len)
    }

    /// Gives a row of so many octets with the quotes that it lacks.
    fn mend_row(&mut self, len: usize) -> io::Result<()> {
        let made = mended_row(self.alloc, self.unread().get(..len).unwrap_or(&[]));
        self.give_made(made, len)
    }

    /// Finds what is given next of the octets that are unread. Returns false if it depends on what
    /// follows them.
    fn find_row(&mut self) -> io::Result<bool> {
        let len = self.unread().len();
        match export_row_end(self.unread(), self.is_at_end) {
            ExportEnd::At(end) => self.ready = end,
            ExportEnd::Undoubled(end) | ExportEnd::Unclosed(end) => self.mend_row(end)?,
            ExportEnd::Broken(end) => self.break_row(end)?,
            ExportEnd::Open if self.is_at_end => self.ready = len,
            ExportEnd::Open if len >= ROW_OCTETS_MAX => {
                self.is_plain = true;
                self.ready = len;
            }
            ExportEnd::Open => return Ok(false),
        }
        Ok(true)
    }

    /// Finds what is given next: nothing at the end of the source.
    fn find_next(&mut self) -> io::Result<()> {
        for _read in 0..READS_MAX {
            let len = self.unread().len();
            if self.is_plain && len > 0 {
                self.ready = len;
                return Ok(());
            }
            if len == 0 && self.is_at_end {
                return Ok(());
            }
            if len > 0 && self.find_row()? {
                return Ok(());
            }
            self.read_more()?;
        }
        Err(Error::from(ErrorKind::Other))
    }
}

impl<R: Read + Drop> Read for ExportText<R> {
    fn read(&mut self, buf: &mut [u8]) -> io::Result<usize> {
        if self.ready == 0 && self.ungiven().is_empty() {
            self.find_next()?;
        }
        let mut made = self.ungiven();
        if !made.is_empty() {
            let count = made.read(buf)?;
            self.given = self.given.saturating_add(count);
            return Ok(count);
        }
        let end = self.start.saturating_add(self.ready);
        let mut ready = self.input.get(self.start..end).unwrap_or(&[]);
        let count = ready.read(buf)?;
        self.start = self.start.saturating_add(count);
        self.ready = self.ready.saturating_sub(count);
        Ok(count)
    }
}
