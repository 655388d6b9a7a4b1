//! `RowText`: the text of a file of rows, in which a quote that isn't closed ends with its line.

use crate::row_ends::{drop_returns, end_rows, first_end};
use crate::row_scan::{RowEnd, ended_line_len, mark_len, row_end};
use import_text::{fill, joined};
use std::alloc::Global;
use std::io;
use std::io::{Error, ErrorKind, Read};

/// The number of octets that are read at once, at least.
const CHUNK_OCTETS: usize = 65_536;

/// The most octets that are kept. A quote that isn't closed within them is taken for one that is
/// never closed.
const ROW_OCTETS_MAX: usize = 8_388_608;

/// The most reads for one row, or for a line that is passed.
const READS_MAX: u32 = 1_000_000;

/// The cell that stands for a row in which a quote isn't closed, or not before a delimiter or the
/// end of the line. A NUL is in no cell that is carried.
pub const BROKEN_ROW: &[u8] = b"\0\"";

/// The cell that stands for a row with a cell of more than 200 lines, or with a quote that isn't
/// closed. It begins as `BROKEN_ROW`.
pub const LONG_ROW: &[u8] = b"\0\"L";

/// What is done with the octets that come next.
#[derive(Clone, Copy, PartialEq, Eq)]
enum Mode {
    /// They begin a row.
    Rows,
    /// They are the rest of a line that is given on as it is.
    GivesLine,
    /// They are the rest of a line that isn't given on.
    DropsLine,
}

/// Reads the rows of a file, and gives them on as they are, without a byte order mark. For a row in
/// which a quote isn't closed, or is followed by other text than a quote, a delimiter or the end of
/// the line, it gives a row with the cell `BROKEN_ROW`, and reads on with the line after that of
/// the quote. That line ends with a line feed, a carriage return or both. A quote is one that isn't
/// closed if there are 200 lines or 8,388,608 octets after it, or if its row has several lines and
/// not as many cells as the header, but for empty ones after them. With 200 lines, the cell is
/// `LONG_ROW`. It gives as many line feeds as the file has, and at the end of a file that doesn't
/// end with one, the end of its first line. Where the first line ends with a carriage return alone,
/// each carriage return of the file that no line feed follows counts as a line feed. Of CR CR LF it
/// gives CR LF.
#[derive(Drop)]
pub struct RowText<R> {
    alloc: Global,
    reader: R,
    delimiter: u8,
    width: usize,
    /// What was read, of which the octets from `start` weren't given on yet.
    input: Vec<u8>,
    start: usize,
    is_at_end: bool,
    /// The number of carriage returns that were read after these octets. What they are depends on
    /// the octet that follows.
    returns: usize,
    /// The number of octets from `start` that are given next, after those of `made`.
    ready: usize,
    /// What is given in place of a row, from `given`.
    made: Vec<u8>,
    given: usize,
    mode: Mode,
    /// Whether what was read is nothing, or ends with a line feed.
    is_line_ended: bool,
    /// Whether a carriage return is before the first line feed.
    has_returns: Option<bool>,
    /// Whether lines end with a carriage return alone.
    are_returns: Option<bool>,
}

fn no_memory() -> Error {
    Error::from(ErrorKind::OutOfMemory)
}

/// The row with this cell that stands for octets of a broken one. It has as many line feeds, and
/// ends if they end their line.
fn broken_row(alloc: Global, cell: &[u8], octets: &[u8]) -> io::Result<Vec<u8>> {
    let mut made = Vec::new(alloc);
    if made.extend_from_slice(cell).is_err() {
        return Err(no_memory());
    }
    for octet in octets {
        if *octet == b'\n' && made.push(b'\n').is_err() {
            return Err(no_memory());
        }
    }
    if octets.ends_with(b"\r") && made.push(b'\r').is_err() {
        return Err(no_memory());
    }
    Ok(made)
}

/// The number of carriage returns at the end.
fn last_returns(octets: &[u8]) -> usize {
    match octets.iter().rposition(|octet| *octet != b'\r') {
        Some(place) => octets.len().saturating_sub(place.saturating_add(1)),
        None => octets.len(),
    }
}

/// Appends this number of octets, which are all the same.
fn push_octets(octets: &mut Vec<u8>, octet: u8, count: usize) -> io::Result<()> {
    let len = octets.len().saturating_add(count);
    match octets.resize(len, octet) {
        Ok(()) => Ok(()),
        Err(_) => Err(no_memory()),
    }
}

/// Whether a carriage return is before the first line feed; `None` if there is no line feed.
fn has_returns(octets: &[u8]) -> Option<bool> {
    let place = octets.iter().position(|octet| *octet == b'\n')?;
    Some(octets.get(..place).unwrap_or(&[]).ends_with(b"\r"))
}

/// The number of octets up to the end of the first line, and whether it ends.
fn line_len(octets: &[u8]) -> (usize, bool) {
    match octets.iter().position(|octet| *octet == b'\n') {
        Some(place) => (place.saturating_add(1), true),
        None => (octets.len(), false),
    }
}

impl<R: Read + Drop> RowText<R> {
    /// Reads the rows of the source, whose cells have the delimiter between them. `width` is the
    /// number of cells of the header, which is the first row.
    pub fn new(alloc: Global, source: R, delimiter: u8, width: usize) -> RowText<R> {
        RowText {
            alloc,
            reader: source,
            delimiter,
            width,
            input: Vec::new(alloc),
            start: 0,
            is_at_end: false,
            returns: 0,
            ready: 0,
            made: Vec::new(alloc),
            given: 0,
            mode: Mode::Rows,
            is_line_ended: true,
            has_returns: None,
            are_returns: None,
        }
    }

    /// The octets that weren't given on yet.
    fn unread(&self) -> &[u8] {
        self.input.get(self.start..).unwrap_or(&[])
    }

    /// The octets that are given in place of a row.
    fn ungiven(&self) -> &[u8] {
        self.made.get(self.given..).unwrap_or(&[])
    }

    /// The next octets of the source, after the carriage returns that were kept back: at least as
    /// many as are unread, or all to its end. So the octets of a long row are looked at a few times
    /// each.
    fn next_octets(&mut self) -> io::Result<Vec<u8>> {
        let returns = self.returns;
        let size = self.unread().len().max(returns).max(CHUNK_OCTETS);
        let mut octets = Vec::new(self.alloc);
        push_octets(&mut octets, b'\r', returns)?;
        push_octets(&mut octets, 0, size)?;
        let count = match octets.as_mut_slice().get_mut(returns..) {
            Some(room) => fill(&mut self.reader, room)?,
            None => 0,
        };
        octets.truncate(returns.saturating_add(count));
        self.is_at_end = count < size;
        self.returns = 0;
        Ok(octets)
    }

    /// Keeps back the carriage returns at the end of what was read, unless the source has ended:
    /// all while it isn't known whether lines end so, and else two, since CR CR LF is one end. So
    /// what becomes of them doesn't depend on where a read ended.
    fn keep_back(&mut self, octets: &mut Vec<u8>) {
        if self.is_at_end {
            return;
        }
        let most = if self.are_returns.is_none() {
            ROW_OCTETS_MAX
        } else {
            2
        };
        self.returns = last_returns(octets.as_slice()).min(most);
        octets.truncate(octets.len().saturating_sub(self.returns));
    }

    /// Reads on, and makes one line end of each of the source.
    fn read_more(&mut self) -> io::Result<()> {
        let mut octets = self.next_octets()?;
        self.are_returns = self.are_returns.or(first_end(octets.as_slice()));
        self.keep_back(&mut octets);
        drop_returns(&mut octets);
        if self.are_returns == Some(true) {
            end_rows(octets.as_mut_slice());
        }
        if !octets.is_empty() {
            self.is_line_ended = octets.as_slice().ends_with(b"\n");
        }
        let Ok(input) = joined(self.alloc, self.unread(), octets.as_slice()) else {
            return Err(no_memory());
        };
        self.has_returns = self.has_returns.or(has_returns(input.as_slice()));
        self.input = input;
        self.start = 0;
        Ok(())
    }

    /// Passes octets, and gives a broken row with this cell in their place.
    fn break_row(&mut self, cell: &[u8], len: usize) -> io::Result<()> {
        let front = self.unread().get(..len).unwrap_or(&[]);
        let made = broken_row(self.alloc, cell, front)?;
        self.made = made;
        self.given = 0;
        self.start = self.start.saturating_add(len);
        Ok(())
    }

    /// Finds what is given next of the octets that are unread. Returns false if it depends on what
    /// follows them.
    fn find_row(&mut self) -> io::Result<bool> {
        self.start = self.start.saturating_add(mark_len(self.unread()));
        let len = self.unread().len();
        let is_last = self.is_at_end || len >= ROW_OCTETS_MAX;
        match row_end(self.delimiter, self.width, self.unread()) {
            RowEnd::At(end) => self.ready = end,
            RowEnd::Broken(end, _) => self.break_row(BROKEN_ROW, end)?,
            RowEnd::Long(end, _) => self.break_row(LONG_ROW, end)?,
            _ if !is_last => return Ok(false),
            RowEnd::Open(end) => self.break_row(BROKEN_ROW, end)?,
            RowEnd::Endless => {
                // A carriage return at the end may end the line: that depends on what follows.
                let returns = last_returns(self.unread()).min(1);
                self.break_row(BROKEN_ROW, len.saturating_sub(returns))?;
                self.mode = Mode::DropsLine;
            }
            RowEnd::Unended => {
                self.ready = len;
                self.mode = Mode::GivesLine;
            }
        }
        Ok(true)
    }

    /// Gives on what is unread of a line.
    fn give_line(&mut self) {
        let (len, ends) = line_len(self.unread());
        self.ready = len;
        if ends {
            self.mode = Mode::Rows;
        }
    }

    /// Passes what is unread of a line but the last octet of its end. A carriage return after which
    /// nothing was read yet stays unread.
    fn drop_line(&mut self) {
        let len = self.unread().len();
        let returns = if self.is_at_end {
            0
        } else {
            last_returns(self.unread()).min(1)
        };
        match ended_line_len(self.unread()) {
            Some(ended) => {
                self.start = self.start.saturating_add(ended.saturating_sub(1));
                self.ready = 1;
                self.mode = Mode::Rows;
            }
            None => self.start = self.start.saturating_add(len.saturating_sub(returns)),
        }
    }

    /// Ends the last line of the source, if it doesn't end.
    fn end_last_line(&mut self) -> io::Result<()> {
        if self.is_line_ended {
            return Ok(());
        }
        let end: &[u8] = if self.has_returns == Some(true) {
            b"\r\n"
        } else {
            b"\n"
        };
        let mut made = Vec::new(self.alloc);
        if made.extend_from_slice(end).is_err() {
            return Err(no_memory());
        }
        self.made = made;
        self.given = 0;
        self.is_line_ended = true;
        Ok(())
    }

    /// Finds what is given next. Nothing is if the source has ended with a line.
    fn find_next(&mut self) -> io::Result<()> {
        for _more in 0..READS_MAX {
            if self.unread().is_empty() && self.is_at_end {
                return self.end_last_line();
            }
            let is_found = match self.mode {
                Mode::Rows if self.unread().is_empty() => false,
                Mode::Rows => self.find_row()?,
                Mode::GivesLine => {
                    self.give_line();
                    self.ready > 0
                }
                Mode::DropsLine => {
                    self.drop_line();
                    self.ready > 0
                }
            };
            if is_found {
                return Ok(());
            }
            self.read_more()?;
        }
        Err(Error::from(ErrorKind::Other))
    }
}

impl<R: Read + Drop> Read for RowText<R> {
    fn read(&mut self, buf: &mut [u8]) -> io::Result<usize> {
        if self.ready == 0 && self.ungiven().is_empty() {
            self.find_next()?;
        }
        let mut made = self.ungiven();
        if !made.is_empty() {
            let count = made.read(buf)?;
            self.given = self.given.saturating_add(count);
            return Ok(count);
        }
        let end = self.start.saturating_add(self.ready);
        let mut ready = self.input.get(self.start..end).unwrap_or(&[]);
        let count = ready.read(buf)?;
        self.start = self.start.saturating_add(count);
        self.ready = self.ready.saturating_sub(count);
        Ok(count)
    }
}
