//! `Owners`: which row has a UID of its own.

use crate::conversion::row_cells;
use crate::keeping::extra_column;
use crate::uid::{is_id_column, is_uid_column, own_uid, row_uid};
use base_types::TextMap;
use contact_columns::{Column, ContactColumns};
use csv::ByteRecord;
use std::alloc::Global;
use vcard_text::{NoMemory, Text};

/// The UIDs that rows had of their own, each with the UID of the row's cells. So two rows that have
/// the same one are known to be the same row twice, or two.
#[derive(Drop)]
pub(crate) struct Owners {
    /// Whether a column has such UIDs.
    is_wanted: bool,
    uids: TextMap<String>,
}

/// Whether a column has UIDs, or what its program tells contacts apart by.
fn has_uids(columns: &[Column]) -> bool {
    columns
        .iter()
        .any(|column| is_uid_column(column) || is_id_column(column))
}

/// The UID that a row with these cells has of its own, and that of its cells. None if it has none
/// of its own.
fn uids_of_cells(
    alloc: Global,
    columns: &[Column],
    cells: &[Text],
) -> Result<Option<(String, String)>, NoMemory> {
    let extra = extra_column(alloc)?;
    let Some(own) = own_uid(alloc, columns, &extra, cells)? else {
        return Ok(None);
    };
    let whole = row_uid(alloc, columns, &extra, cells)?;
    Ok(Some((own, whole)))
}

impl Owners {
    /// No row yet, of a file with these columns.
    pub(crate) fn new(alloc: Global, columns: &[Column]) -> Owners {
        Owners {
            is_wanted: has_uids(columns),
            uids: TextMap::new(alloc),
        }
    }

    /// Whether the row may have its own UID: it has as many cells as columns, and no earlier row
    /// with other cells has the UID. Notes the row.
    pub(crate) fn admit(
        &mut self,
        alloc: Global,
        columns: &ContactColumns,
        row: &ByteRecord,
    ) -> Result<bool, NoMemory> {
        if !self.is_wanted || row.len() != columns.columns.len() {
            return Ok(false);
        }
        let cells = row_cells(alloc, row)?;
        match uids_of_cells(alloc, columns.columns.as_slice(), cells.as_slice())? {
            Some((own, whole)) => self.note(own, whole),
            None => Ok(false),
        }
    }

    /// Whether no earlier row with other cells has the UID. Notes the row.
    fn note(&mut self, own: String, whole: String) -> Result<bool, NoMemory> {
        if let Some(first) = self.uids.get(own.as_str()) {
            return Ok(first.as_str() == whole.as_str());
        }
        self.uids.insert(own, whole)?;
        Ok(true)
    }
}
