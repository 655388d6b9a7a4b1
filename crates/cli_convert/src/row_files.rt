//! A sink that writes rows to files, each within the bounds of an import.

use crate::create::{Created, create_new, write_to};
use crate::file_system::FileSystem;
use base_types::{NoMemory, Text};
use card_conversion::{CardSink, Delivery, SinkFault, header_text, row_text};
use std::alloc::Global;
use vcard_text::Card;

/// The file to which rows are written, with the room that it has left.
#[derive(Drop)]
struct RowFile<T> {
    file: T,
    path: Text,
    rows_left: u64,
    octets_left: u64,
}

/// Writes rows to files that are numbered from 1.
#[derive(Drop)]
pub(crate) struct RowFiles<'a, F: FileSystem> {
    files: &'a F,
    /// What stands before the number in the name of each file.
    front: Text,
    rows_max: u64,
    octets_max: u64,
    /// The number of files so far.
    pub(crate) count: u64,
    current: Option<RowFile<F::NewFile>>,
}

impl<'a, F: FileSystem> RowFiles<'a, F> {
    /// Files whose paths begin with `front`, with at most these numbers of rows and octets.
    pub(crate) fn new(
        files: &'a F,
        front: Text,
        rows_max: u64,
        octets_max: u64,
    ) -> RowFiles<'a, F> {
        RowFiles {
            files,
            front,
            rows_max,
            octets_max,
            count: 0,
            current: None,
        }
    }

    /// The path of the file with this number.
    fn path_of(&self, alloc: Global, number: u64) -> Result<Text, NoMemory> {
        let front = self.front.as_str();
        Ok(Text::new(format!(in alloc; "{front}-{number}.csv")?))
    }

    /// Creates the next file with its header.
    fn next_file(&mut self, alloc: Global, header: &[u8]) -> Result<(), SinkFault> {
        let number = self.count.saturating_add(1);
        let path = self.path_of(alloc, number)?;
        let mut file = match create_new(alloc, self.files, path.as_str())? {
            Created::File(file) => file,
            Created::Exists => {
                let name = path.as_str();
                let words = format!(in alloc; "{name} exists")?;
                return Err(SinkFault::Failed(Text::new(words)));
            }
        };
        write_to(alloc, self.files, &mut file, path.as_str(), header)?;
        self.count = number;
        self.current = Some(RowFile {
            file,
            path,
            rows_left: self.rows_max,
            octets_left: self.octets_max.saturating_sub(header.len() as u64),
        });
        Ok(())
    }

    /// Whether the present file has room for one more row of this length.
    fn has_room(&self, len: u64) -> bool {
        match &self.current {
            Some(current) => current.rows_left > 0 && len <= current.octets_left,
            None => false,
        }
    }

    /// Writes a row to the present file, which has room for it.
    fn write_row(&mut self, alloc: Global, row: &[u8]) -> Result<(), SinkFault> {
        match &mut self.current {
            Some(current) => {
                write_to(
                    alloc,
                    self.files,
                    &mut current.file,
                    current.path.as_str(),
                    row,
                )?;
                current.rows_left = current.rows_left.saturating_sub(1);
                current.octets_left = current.octets_left.saturating_sub(row.len() as u64);
                Ok(())
            }
            None => Ok(()),
        }
    }
}

impl<'a, F: FileSystem> CardSink for RowFiles<'a, F> {
    ghost use Rattle.std.specs.Prelude.{⊤};

    ghost writes = { λ _ _ _. ⊤ };

    fn put(&mut self, alloc: Global, _number: u64, card: &Card) -> Result<Delivery, SinkFault> {
        let header = header_text(alloc)?;
        let row = row_text(alloc, card)?;
        let len = row.len() as u64;
        if len.saturating_add(header.len() as u64) > self.octets_max {
            let words = Text::copy_of(alloc, "the row is longer than --octets")?;
            return Ok(Delivery::Refused(words));
        }
        if !self.has_room(len) {
            self.next_file(alloc, header.as_slice())?;
        }
        self.write_row(alloc, row.as_slice())?;
        Ok(Delivery::Written)
    }
}
