//! The UID of a row's card.
ghost use Rattle.std.specs.Prelude.{◌≡◌, ◌++◌, IfOk, IfSome, OnOk, false, string_bytes};
ghost use Rattle.contact_csv.specs.Carrying.{extra_column};
ghost use Rattle.contact_csv.specs.RowUids.{IsOwnUid, IsRowUid, cell_octets, is_id_column};
ghost use Rattle.contact_csv.specs.RowUids.{is_uid_column, octets_from, row_uid};
ghost use Rattle.vcard_changes.specs.DerivedUid.{derived_uid};

use crate::keeping::column_at;
use contact_columns::{Column, is_void};
use std::alloc::Global;
use vcard_changes::derived_uid;
use vcard_text::{NoMemory, Text, UID_OCTETS_MAX};

/// What separates the name of a column from a text: ASCII's unit separator.
const UNIT_SEPARATOR: u8 = 0x1F;

/// What separates cells: ASCII's record separator.
const RECORD_SEPARATOR: u8 = 0x1E;

/// Appends the octets of a cell: none if it has no value or its column is left out, and else the
/// name of its column and its text, with a separator after each.
fn push_cell(octets: &mut Vec<u8>, column: &Column, text: &str) -> Result<(), NoMemory>
    ensures { OnOk result (octets.new.items
        ≡ octets.old.items ++ cell_octets column.now text.now) }
{
    if column.is_left_out || is_void(text) {
        return Ok(());
    }
    octets.extend_from_slice(column.name.as_str().as_bytes())?;
    octets.push(UNIT_SEPARATOR)?;
    octets.extend_from_slice(text.as_bytes())?;
    octets.push(RECORD_SEPARATOR)?;
    Ok(())
}

/// The octets of the cells that have a value. `extra` is the column of those to which the header
/// gives none.
fn row_octets(
    alloc: Global,
    columns: &[Column],
    extra: &Column,
    cells: &[Text],
) -> Result<Vec<u8>, NoMemory>
    requires { extra.now ≡ extra_column }
    ensures { IfOk result (λ octets. octets.items ≡ octets_from columns.now 0 cells.now) }
{
    let mut octets = Vec::new(alloc);
    for place in 0..cells.len() {
        let column = column_at(columns, place, extra);
        let text = cells[place].as_str();
        push_cell(&mut octets, column, text)?;
    }
    Ok(octets)
}

/// The UID of the row's card: `urn:uuid:` and the UUID of version 5, in the namespace of object
/// identifiers, of the cells that have a value and of the names of their columns. So a column
/// without values changes no UID. The only `Err` is out of memory.
pub(crate) fn row_uid(
    alloc: Global,
    columns: &[Column],
    extra: &Column,
    cells: &[Text],
) -> Result<String, NoMemory>
    requires { extra.now ≡ extra_column }
    ensures { IfOk result (λ uid. string_bytes uid ≡ row_uid columns.now cells.now) }
{
    let octets = row_octets(alloc, columns, extra, cells)?;
    derived_uid(alloc, octets.as_slice())
}

/// Whether the column has UIDs, and isn't left out.
pub(crate) fn is_uid_column(column: &Column) -> bool
    ensures { result ≡ is_uid_column column.now }
{
    !column.is_left_out && column.property.as_str() == "UID"
}

/// Whether the column has what its program tells contacts apart by, and isn't left out.
pub(crate) fn is_id_column(column: &Column) -> bool
    ensures { result ≡ is_id_column column.now }
{
    !column.is_left_out && column.known.as_str() == "Id"
}

/// Whether the text may be the UID of a card: 1 to 255 octets, and no control character.
fn is_legal(text: &str) -> bool {
    !is_void(text) && text.len() <= UID_OCTETS_MAX && !text.chars().any(|c| c.is_ascii_control())
}

/// The text as a UID. None if no card may have it.
fn legal_uid(alloc: Global, text: &str) -> Result<Option<String>, NoMemory>
    ensures { IfOk result (λ own. IfSome own (λ uid. string_bytes uid ≡ text.now)) }
{
    if is_legal(text) {
        return Ok(Some(String::from_str(alloc, text)?));
    }
    Ok(None)
}

/// The UID that a cell of a column of UIDs gives. None in another column.
fn given_uid(alloc: Global, column: &Column, text: &str) -> Result<Option<String>, NoMemory>
    ensures { IfOk result (λ own. IfSome own
        (λ uid. IsOwnUid column.now text.now (string_bytes uid))) }
{
    if is_uid_column(column) {
        return legal_uid(alloc, text);
    }
    Ok(None)
}

/// The UID that is computed from a cell alone.
fn cell_uid(alloc: Global, column: &Column, text: &str) -> Result<String, NoMemory>
    ensures { IfOk result (λ uid. string_bytes uid
        ≡ derived_uid (cell_octets column.now text.now)) }
{
    let mut cell = Vec::new(alloc);
    push_cell(&mut cell, column, text)?;
    derived_uid(alloc, cell.as_slice())
}

/// The columns of the programs whose identifiers no other file has, also if they are numbers.
const UNIQUE_NAMES: [&str; 3] = ["Object Id", "ObjectId", "Record ID"];

/// Whether a cell tells its row apart from the rows of all other files. A running number doesn't.
fn tells_apart(name: &str, text: &str) -> bool {
    let is_unique = UNIQUE_NAMES.iter().any(|it| it.eq_ignore_ascii_case(name));
    is_unique || (text.len() >= 8 && text.chars().any(|c| c.is_ascii_alphabetic()))
}

/// The UID that a cell gives which tells the row apart. None in another column, and if it has no
/// value or doesn't tell the row apart from those of other files.
fn identifier_uid(alloc: Global, column: &Column, text: &str) -> Result<Option<String>, NoMemory>
    ensures { IfOk result (λ own. IfSome own
        (λ uid. IsOwnUid column.now text.now (string_bytes uid))) }
{
    if is_void(text) || !tells_apart(column.name.as_str(), text) {
        return Ok(None);
    }
    if is_id_column(column) {
        return Ok(Some(cell_uid(alloc, column, text)?));
    }
    Ok(None)
}

/// The UID that a cell gives: itself in a column of UIDs, or with `by_identifier` the one that
/// tells its row apart.
fn cell_own_uid(
    alloc: Global,
    column: &Column,
    text: &str,
    by_identifier: bool,
) -> Result<Option<String>, NoMemory>
    ensures { IfOk result (λ own. IfSome own
        (λ uid. IsOwnUid column.now text.now (string_bytes uid))) }
{
    if by_identifier {
        identifier_uid(alloc, column, text)
    } else {
        given_uid(alloc, column, text)
    }
}

/// The UID of the first cell that gives one: in a column of UIDs, or with `by_identifier` in one
/// that tells rows apart.
fn first_own_uid(
    alloc: Global,
    columns: &[Column],
    extra: &Column,
    cells: &[Text],
    by_identifier: bool,
) -> Result<Option<String>, NoMemory>
    requires { extra.now ≡ extra_column }
    ensures { IfOk result (λ own. IfSome own
        (λ uid. IsRowUid columns.now cells.now (string_bytes uid))) }
{
    for place in 0..cells.len() {
        let column = column_at(columns, place, extra);
        if let Some(uid) = cell_own_uid(alloc, column, cells[place].as_str(), by_identifier)? {
            return Ok(Some(uid));
        }
    }
    Ok(None)
}

/// The UID that the row has of its own: a cell of a column of UIDs, or else the one of a cell that
/// tells it apart. None if it has neither. The only `Err` is out of memory.
pub(crate) fn own_uid(
    alloc: Global,
    columns: &[Column],
    extra: &Column,
    cells: &[Text],
) -> Result<Option<String>, NoMemory>
    requires { extra.now ≡ extra_column }
    ensures { IfOk result (λ own. IfSome own
        (λ uid. IsRowUid columns.now cells.now (string_bytes uid))) }
{
    match first_own_uid(alloc, columns, extra, cells, false)? {
        Some(uid) => Ok(Some(uid)),
        None => first_own_uid(alloc, columns, extra, cells, true),
    }
}

/// The UID of the row's card: its own if it may have it, and else that of its cells.
pub(crate) fn chosen_uid(
    alloc: Global,
    columns: &[Column],
    extra: &Column,
    cells: &[Text],
    may_own: bool,
) -> Result<String, NoMemory>
    requires { extra.now ≡ extra_column }
    ensures row { IfOk result (λ uid. IsRowUid columns.now cells.now (string_bytes uid)) }
    ensures computed { IfOk result (λ uid. may_own ≡ false
        → string_bytes uid ≡ row_uid columns.now cells.now) }
{
    if !may_own {
        return row_uid(alloc, columns, extra, cells);
    }
    match own_uid(alloc, columns, extra, cells)? {
        Some(uid) => Ok(uid),
        None => row_uid(alloc, columns, extra, cells),
    }
}
