//! The rows of an export, each with the text of its card.
ghost use Rattle.std.specs.Prelude.{◌≡◌};
ghost use Rattle.csv_cards.specs.Exports.{ends_line, is_export};
ghost use Rattle.vcard_text.specs.Spelling.{without_bom};

use base_types::NoMemory;
use csv::{ByteRecord, ErrorKind as RowError, Reader, ReaderBuilder};
use std::alloc::Global;
use std::io;
use std::io::{Error, ErrorKind, Read};

/// The octets without a byte order mark.
fn without_bom(octets: &[u8]) -> &[u8]
    ensures { result.now ≡ without_bom octets.now }
{
    if octets.starts_with(b"\xEF\xBB\xBF") {
        &octets[3..]
    } else {
        octets
    }
}

/// Whether the octets are none, or begin with the end of a line.
fn ends_line(octets: &[u8]) -> bool
    ensures { result ≡ ends_line octets.now }
{
    match octets.first() {
        Some(octet) => *octet == b'\r' || *octet == b'\n',
        None => true,
    }
}

/// Whether a file that begins with these octets has rows of cards: its first line is the header
/// `uid,vcard`, perhaps after a byte order mark.
pub fn is_export(head: &[u8]) -> bool
    ensures { result ≡ is_export head.now }
{
    let text = without_bom(head);
    text.starts_with(b"uid,vcard") && ends_line(&text[9..])
}

/// A row of an export.
#[derive(Drop)]
pub struct ExportRow {
    /// The number of its line, from 1.
    pub line: u64,
    /// The field before the text: `uid`.
    pub uid: Vec<u8>,
    /// The text of the card, with a line feed after it. A row without a card has another field
    /// here, so that it isn't passed over.
    pub text: Vec<u8>,
    /// Whether a field after the text has more than white space.
    pub has_more: bool,
}

/// Reads the rows `uid,vcard`. It keeps one row.
#[derive(Drop)]
pub struct ExportRows<R> {
    rows: Reader<R>,
    row: ByteRecord,
    /// The number of the line after the rows so far.
    line: u64,
    /// Whether the library passes the line feed at the end of a row only with the next row, as it
    /// does where rows end with CR LF. `None` before the header was read.
    is_late: Option<bool>,
}

/// A field; empty if the row has none there.
fn field_at(row: &ByteRecord, place: usize) -> &[u8] {
    row.get(place).unwrap_or(&[])
}

/// The place of the first field from `start` on that has more than white space.
fn place_from(row: &ByteRecord, start: usize) -> Option<usize> {
    for place in start..row.len() {
        if !field_at(row, place).trim_ascii().is_empty() {
            return Some(place);
        }
    }
    None
}

/// The place of the field that is the text of a row: its card, or else another field.
fn text_place(row: &ByteRecord) -> usize {
    if field_at(row, 1).trim_ascii().is_empty() {
        return place_from(row, 0).unwrap_or(0);
    }
    1
}

/// The number of line feeds in the fields of a row.
fn count_feeds(row: &ByteRecord) -> u64 {
    let mut count: u64 = 0;
    for place in 0..row.len() {
        for octet in field_at(row, place) {
            if *octet == b'\n' {
                count = count.saturating_add(1);
            }
        }
    }
    count
}

/// A row that is on this line.
fn row_at(alloc: Global, row: &ByteRecord, line: u64) -> Result<ExportRow, NoMemory> {
    let place = text_place(row);
    let mut uid = Vec::new(alloc);
    if place > 0 {
        uid.extend_from_slice(field_at(row, 0))?;
    }
    let mut text = Vec::new(alloc);
    text.extend_from_slice(field_at(row, place))?;
    text.push(b'\n')?;
    Ok(ExportRow {
        line,
        uid,
        text,
        has_more: place_from(row, place.saturating_add(1)).is_some(),
    })
}

impl<R: Read + Drop> ExportRows<R> {
    /// Reads the rows of the source, whose first line is the header. Nothing is read before the
    /// first `next_row`.
    pub fn new(alloc: Global, source: R) -> ExportRows<R> {
        ExportRows {
            rows: ReaderBuilder::new()
                .has_headers(false)
                .flexible(true)
                .from_reader(alloc, source),
            row: ByteRecord::new(alloc),
            line: 2,
            is_late: None,
        }
    }

    /// Whether there is one more row, which is kept.
    fn has_next(&mut self) -> io::Result<bool> {
        match self.rows.read_byte_record(&mut self.row) {
            Ok(found) => Ok(found),
            Err(error) => match error.kind() {
                RowError::OutOfMemory => Err(Error::from(ErrorKind::OutOfMemory)),
                _ => Err(Error::from(ErrorKind::Other)),
            },
        }
    }

    /// Reads the header, if it wasn't read yet. It is line 1, and the library is still at that line
    /// if it passes the line feed only with the next row.
    fn read_header(&mut self) -> io::Result<()> {
        if self.is_late.is_none() {
            let _found = self.has_next()?;
            self.is_late = Some(self.rows.position().line() <= 1);
        }
        Ok(())
    }

    /// The number of the line of the row, also after empty ones, if rows end as the header does. The
    /// last row may have no end: then it is at least the line after the row before it.
    fn line_of_row(&self) -> u64 {
        let end = self.rows.position().line();
        let last = if self.is_late == Some(true) {
            end
        } else {
            end.saturating_sub(1)
        };
        self.line.max(last.saturating_sub(count_feeds(&self.row)))
    }

    /// The next row; `None` at the end of the source. The error is `OutOfMemory` if an allocation
    /// fails, and `Other` if the source fails. No clause says which rows it gives.
    pub fn next_row(&mut self, alloc: Global) -> io::Result<Option<ExportRow>> {
        self.read_header()?;
        if !self.has_next()? {
            return Ok(None);
        }
        let line = self.line_of_row();
        let end = line.saturating_add(count_feeds(&self.row));
        self.line = end.saturating_add(1);
        match row_at(alloc, &self.row, line) {
            Ok(row) => Ok(Some(row)),
            Err(_) => Err(Error::from(ErrorKind::OutOfMemory)),
        }
    }
}
