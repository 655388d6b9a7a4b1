//! Converts one row.
ghost use Rattle.std.specs.Prelude.{◌≡◌, ◌≢◌, IfOk, IfErr, false, map};
ghost use Rattle.csv.specs.Records.{fields_of};
ghost use Rattle.vcard_lines.specs.declared.fault.CardFault.TheVariants.{Memory};
ghost use Rattle.vcard_text.specs.Cards.{uid_of};
ghost use Rattle.vcard_text.specs.Making.{upper_lines};
ghost use Rattle.contact_columns.specs.Cells.{cell_text};
ghost use Rattle.contact_csv.specs.Contacts.{IsContact, IsRefused};
ghost use Rattle.contact_csv.specs.RowUids.{row_uid};

use crate::keeping::{Kept, extra_column, keep_row};
use crate::uid::chosen_uid;
use contact_columns::{ContactColumns, cell_text, row_field};
use contact_values::draft_lines;
use csv::ByteRecord;
use std::alloc::Global;
use vcard_changes::Conversion;
use vcard_text::{CardFault, Items, NoMemory, Text, card_of_lines};

/// The texts of the row's cells.
pub(crate) fn row_cells(alloc: Global, row: &ByteRecord) -> Result<Items<Text>, NoMemory>
    ensures { IfOk result (λ cells. cells ≡ map cell_text (fields_of row.now)) }
{
    let mut cells = Items::new(alloc);
    for place in 0..row.len() {
        cells.push(cell_text(alloc, row_field(row, place))?)?;
    }
    Ok(cells)
}

/// The lines of the contact of a row whose cells have these texts, and the changes.
fn lines_of_cells(
    alloc: Global,
    columns: &ContactColumns,
    row: &ByteRecord,
    cells: &[Text],
    may_own: bool,
) -> Result<Kept, NoMemory>
    requires { cells.now ≡ map cell_text (fields_of row.now) }
    ensures contact { IfOk result (λ made. IsContact columns.now.columns (fields_of row.now)
        made.lines made.changes) }
    ensures computed { IfOk result (λ made. may_own ≡ false
        → uid_of made.lines ≡ row_uid columns.now.columns (map cell_text (fields_of row.now))) }
    ensures upper { IfOk result (λ made. upper_lines made.lines ≡ made.lines) }
{
    let extra = extra_column(alloc)?;
    let names = columns.columns.as_slice();
    let uid = chosen_uid(alloc, names, &extra, cells, may_own)?;
    let draft = draft_lines(alloc, columns, cells)?;
    keep_row(alloc, names, &extra, uid, row, cells, draft)
}

/// The lines of the row's contact, and the changes.
fn contact_lines(
    alloc: Global,
    columns: &ContactColumns,
    row: &ByteRecord,
    may_own: bool,
) -> Result<Kept, NoMemory>
    ensures contact { IfOk result (λ made. IsContact columns.now.columns (fields_of row.now)
        made.lines made.changes) }
    ensures computed { IfOk result (λ made. may_own ≡ false
        → uid_of made.lines ≡ row_uid columns.now.columns (map cell_text (fields_of row.now))) }
    ensures upper { IfOk result (λ made. upper_lines made.lines ≡ made.lines) }
{
    let cells = row_cells(alloc, row)?;
    lines_of_cells(alloc, columns, row, cells.as_slice(), may_own)
}

/// Converts a row of a file of contacts to a card of vCard 4.0.
///
/// `may_own` says whether the card may have the UID that the row has of its own; if not, or if it
/// has none, the UID is computed from its cells.
///
/// Each cell's text is in the card, or a change has the cell's index, from 0, as its `place`. Only
/// tested: there are no other changes, and they are in the order of their cells, but for those of
/// control characters, which come last. `Rewritten` is a date in another form or a cell with a
/// control character, which is a space in the card; and `KeptAside` a cell that is kept under a
/// name that begins with `X-`.
///
/// An `Err` is the first fault of such lines, by the tests `NoName` if no cell of the row has a
/// value, and else mostly `TooLong`, if the card has more than 262,144 octets. `Memory` may replace
/// any result.
pub fn convert_row(
    alloc: Global,
    columns: &ContactColumns,
    row: &ByteRecord,
    may_own: bool,
) -> Result<Conversion, CardFault>
    // The card carries the text of each cell, or a change reports the cell; the card's UID is one
    // of the row.
    ensures contact { IfOk result (λ made. IsContact columns.now.columns (fields_of row.now)
        made.card made.changes) }

    // If the card may not have the row's own UID, its UID is that of the row's cells.
    ensures computed { IfOk result (λ made. may_own ≡ false
        → uid_of made.card ≡ row_uid columns.now.columns (map cell_text (fields_of row.now))) }

    // An `Err` is the first fault of such lines, unless memory ran out.
    ensures refused { IfErr result (λ fault. fault ≢ Memory
        → IsRefused columns.now.columns (fields_of row.now) fault) }
{
    let Kept { lines, changes } = contact_lines(alloc, columns, row, may_own)?;
    let card = card_of_lines(alloc, lines.into_vec())?;
    Ok(Conversion { card, changes })
}
