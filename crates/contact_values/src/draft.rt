//! The lines of a row.
ghost use Rattle.std.specs.Prelude.{◌≡◌};
ghost use Rattle.std.specs.List.{list_all};
ghost use Rattle.contact_columns.specs.Cells.{is_void};

use crate::exchange::push_shown_addresses;
use crate::names::push_missing_name;
use crate::row_lines::RowLines;
use crate::whole_names::push_slot_lines;
use base_types::{NoMemory, Text};
use contact_columns::{ContactColumns, is_void};
use std::alloc::Global;

/// Whether no cell has a value.
pub fn are_void(cells: &[Text]) -> bool
    ensures { result ≡ list_all is_void cells.now }
{
    cells.iter().all(|cell| is_void(cell.as_str()))
}

/// The lines that the cells become, and which of them should hold which cell. None if no cell has a
/// value. The only `Err` is out of memory.
///
/// No clause says which lines these are: who makes a card of them looks for each cell in them.
pub fn draft_lines(
    alloc: Global,
    columns: &ContactColumns,
    cells: &[Text],
) -> Result<RowLines, NoMemory> {
    let mut made = RowLines::new(alloc, cells.len(), columns.dates)?;
    if are_void(cells) {
        return Ok(made);
    }
    for slot in &columns.slots {
        push_slot_lines(alloc, &mut made, columns.columns.as_slice(), slot, cells)?;
    }
    push_shown_addresses(alloc, &mut made, columns.columns.as_slice(), cells)?;
    push_missing_name(alloc, &mut made)?;
    Ok(made)
}
