//! `ContactReader`: reads the contacts of a file one by one.
ghost use Rattle.std.specs.Prelude.{◌≡◌, ℕ, List, IfOk, IfSome, IfNone, true, false};
ghost use Rattle.csv.specs.Reading.{ReadRecord};
ghost use Rattle.csv.specs.Records.{fields_of};
ghost use Rattle.contact_csv.specs.Contacts.{BecomesContact, IsFaulty, IsReady, HasReadHeader};
ghost use Rattle.contact_csv.specs.Contacts.{rows_of, columns_of, delimiter_of};

use crate::conversion::{convert_row, row_cells};
use crate::fault::ContactFault;
use crate::owners::Owners;
use crate::row_fault::{RowFault, fault_of_row, is_broken};
use contact_columns::{ContactColumns, Header, LONG_ROW, read_columns, row_field};
use csv::{ByteRecord, Error, ErrorKind, Reader, ReaderBuilder};
use std::alloc::Global;
use std::io::Read;
use vcard_changes::Conversion;
use vcard_text::CardFault;

/// Reads the rows of a file of contacts. It keeps one row at a time.
#[derive(Drop)]
pub struct ContactReader<R> {
    rows: Reader<R>,
    row: ByteRecord,
    columns: ContactColumns,
    owners: Owners,
    /// The number of lines before the header.
    lines_before: u64,
    /// The number of lines of the header that aren't the file's, since the file has none.
    lines_made: u64,
    /// Whether the library passes the line feed at the end of a row only with the next row, as it
    /// does where rows end with CR LF.
    is_late: bool,
}

/// Why the library reads no record.
fn fault_of(error: Error) -> ContactFault {
    match error.kind() {
        ErrorKind::OutOfMemory => ContactFault::Memory,
        _ => ContactFault::Unreadable,
    }
}

/// The number of line feeds in the fields of a row.
fn count_feeds(row: &ByteRecord) -> u64 {
    let mut feeds: u64 = 0;
    for place in 0..row.len() {
        let octets = row_field(row, place).iter();
        let count = octets.filter(|octet| **octet == b'\n').count();
        feeds = feeds.saturating_add(count as u64);
    }
    feeds
}

/// Whether the header ends with CR LF. The library is at this line after it: still at the header's
/// last line then, since it passes the LF only with the next row.
fn ends_late(header: &ByteRecord, line: u64) -> bool {
    line <= count_feeds(header).saturating_add(1)
}

/// The number of lines of a header that aren't the file's.
fn made_lines(header: Header<'_>) -> u64 {
    if header.is_missing { 1 } else { 0 }
}

impl<R: Read + Drop> ContactReader<R> {
    /// Reads the header of a file, with which the source begins (see `find_header`, and
    /// `made_header` for a file that has none).
    ///
    /// An `Err` is `UnknownHeader` if `read_columns` knows no columns in the first row,
    /// `Unreadable` if the source fails, or `Memory`.
    pub fn new(
        alloc: Global,
        source: R,
        header: Header<'_>,
    ) -> Result<ContactReader<R>, ContactFault>
        // The reader has read the first record, and goes on after it.
        ensures header { IfOk result (λ reader. HasReadHeader R.remaining source reader) }

        // It takes the fields of each record as they are, with the delimiter between them.
        ensures ready { IfOk result (λ reader. IsReady reader) }
        ensures delimiter { IfOk result (λ reader. delimiter_of reader ≡ header.entry.delimiter) }
    {
        let mut rows = ReaderBuilder::new()
            .has_headers(false)
            .flexible(true)
            .delimiter(header.delimiter)
            .from_reader(alloc, source);
        let mut row = ByteRecord::new(alloc);
        if let Err(error) = rows.read_byte_record(&mut row) {
            return Err(fault_of(error));
        }
        match read_columns(alloc, &row, header.wished)? {
            Some(read) => {
                let columns = ContactColumns {
                    columns: read.columns,
                    slots: read.slots,
                    dates: header.dates,
                };
                let owners = Owners::new(alloc, columns.columns.as_slice());
                let is_late = ends_late(&row, rows.position().line());
                Ok(ContactReader {
                    rows,
                    row,
                    columns,
                    owners,
                    lines_before: header.lines,
                    lines_made: made_lines(header),
                    is_late,
                })
            }
            None => Err(ContactFault::UnknownHeader),
        }
    }

    /// The columns that the header names.
    pub fn columns(&self) -> &ContactColumns {
        &self.columns
    }

    /// The last row that was read.
    pub fn row(&self) -> &ByteRecord {
        &self.row
    }

    /// The number of the physical line after the last row, counted from 1. Rows end with LF or CR
    /// LF, all alike; only that which stands for a broken row ends with LF in any case (see
    /// `RowText`).
    pub fn end_line(&self) -> u64 {
        let line = self
            .rows
            .position()
            .line()
            .saturating_add(self.lines_before)
            .saturating_sub(self.lines_made);
        if self.is_late && !is_broken(&self.row) {
            line.saturating_add(1)
        } else {
            line
        }
    }

    /// The number of the physical line at which the last row began, counted from 1.
    pub fn line(&self) -> u64 {
        let lines = count_feeds(&self.row).saturating_add(1);
        self.end_line().saturating_sub(lines)
    }

    /// Whether the last row is broken and may have a cell of more than 200 lines (see `RowText`).
    pub fn may_be_long(&self) -> bool {
        row_field(&self.row, 0).starts_with(LONG_ROW)
    }

    /// Reads the next row, and returns whether there is one.
    fn read_row(&mut self) -> Result<bool, ContactFault>
        ensures row { IfOk result (λ found. IsReady self.old → ReadRecord R.remaining
            (rows_of self.old) (rows_of self.new) found (fields_of self.new.row)) }
        ensures ready { IfOk result (λ _. IsReady self.old → IsReady self.new) }
        ensures columns { self.new.columns ≡ self.old.columns }
    {
        match self.rows.read_byte_record(&mut self.row) {
            Ok(found) => Ok(found),
            Err(error) => Err(fault_of(error)),
        }
    }

    /// The contact of the last row that was read, or its fault.
    fn contact(
        &self,
        alloc: Global,
        may_own: bool,
    ) -> Result<Result<Conversion, RowFault>, ContactFault>
        ensures { IfOk result (BecomesContact (columns_of self.now) (fields_of self.now.row)) }
    {
        if let Some(fault) = self.row_fault(alloc)? {
            return Ok(Err(fault));
        }
        match convert_row(alloc, &self.columns, &self.row, may_own) {
            Ok(made) => Ok(Ok(made)),
            Err(fault) => match fault {
                CardFault::Memory => Err(ContactFault::Memory),
                _ => Ok(Err(RowFault::Card(fault))),
            },
        }
    }

    /// Why the last row that was read isn't converted, whatever its contact is.
    fn row_fault(&self, alloc: Global) -> Result<Option<RowFault>, ContactFault>
        ensures { IfOk result (λ found.
            IfSome found (IsFaulty (columns_of self.now) (fields_of self.now.row))) }
    {
        let cells = row_cells(alloc, &self.row)?;
        let columns = self.columns.columns.as_slice();
        Ok(fault_of_row(columns, &self.row, cells.as_slice()))
    }

    /// The card of the next row, or the fault for which the row is refused; `None` after the last
    /// row. After a refused row the reader goes on with the next one.
    ///
    /// An `Err` is `Unreadable` if the source fails, or `Memory`. After `Unreadable` there are no
    /// more rows.
    pub fn read_contact(
        &mut self,
        alloc: Global,
    ) -> Result<Option<Result<Conversion, RowFault>>, ContactFault>
        // The next record of the source was read. It becomes this contact, or is refused for this
        // fault.
        ensures row { IfOk result (λ read. IfSome read (λ row.
            IsReady self.old → (fields : List (List ℕ))
            × ReadRecord R.remaining (rows_of self.old) (rows_of self.new) true fields
            × BecomesContact (columns_of self.old) fields row)) }

        // `None` comes only after the last record.
        ensures end { IfOk result (λ read. IfNone read (IsReady self.old → (fields : List (List ℕ))
            × ReadRecord R.remaining (rows_of self.old) (rows_of self.new) false fields)) }

        // The columns stay. The reader goes on with the record after it.
        ensures columns { columns_of self.new ≡ columns_of self.old }
        ensures ready { IfOk result (λ _. IsReady self.old → IsReady self.new) }
    {
        if !self.read_row()? {
            return Ok(None);
        }
        let may_own = self.owners.admit(alloc, &self.columns, &self.row)?;
        Ok(Some(self.contact(alloc, may_own)?))
    }
}
