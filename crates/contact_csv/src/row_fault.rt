//! `RowFault`: why a row isn't converted.
ghost use Rattle.std.specs.Prelude.{◌≡◌, [], IfSome, IsTrue, get_or, map, true};
ghost use Rattle.std.specs.List.{list_all};
ghost use Rattle.std.specs.Str.{str_eq_ignore_ascii_case, trim};
ghost use Rattle.csv.specs.Records.{fields_of};
ghost use Rattle.contact_columns.specs.Cells.{cell_text};
ghost use Rattle.contact_csv.specs.Contacts.{IsFaulty};
ghost use Rattle.contact_csv.specs.RowFaults.{has_column, has_names, has_nul, has_width};
ghost use Rattle.contact_csv.specs.RowFaults.{is_broken, is_name_of};

use contact_columns::{Column, is_void, row_field};
use contact_values::are_void;
use csv::ByteRecord;
use vcard_text::{CardFault, Text};

/// Why a row isn't converted.
#[derive(Clone, Copy)]
pub enum RowFault {
    /// No cell has a value.
    Empty,
    /// A quote isn't closed, or is followed by other text.
    Broken,
    /// The cell at this index has a NUL.
    Nul(usize),
    /// It has this number of cells: fewer than the header, or more, of which one beyond the header
    /// has a value.
    Width(usize),
    /// Its cells are the names of the columns, at most 64 of them in other columns than their own:
    /// it is the header again.
    Header,
    /// Its contact is no card.
    Card(CardFault),
}

/// Whether the row stands for one in which a quote isn't closed (see `RowText`).
pub(crate) fn is_broken(row: &ByteRecord) -> bool
    ensures { result ≡ is_broken (fields_of row.now) }
{
    row_field(row, 0).starts_with(b"\0\"")
}

fn has_nul(octets: &[u8]) -> bool
    ensures { result ≡ has_nul octets.now }
{
    octets.iter().any(|octet| *octet == 0)
}

/// The index of a field with a NUL, if there is one.
fn nul_place(row: &ByteRecord) -> Option<usize>
    ensures { IfSome result (λ place. has_nul (get_or (fields_of row.now) place []) ≡ true) }
{
    for place in 0..row.len() {
        if has_nul(row_field(row, place)) {
            return Some(place);
        }
    }
    None
}

/// Whether a row with these texts has as many cells as the header, but for cells without a value
/// after them.
fn has_width(columns: &[Column], cells: &[Text]) -> bool
    ensures { result ≡ has_width columns.now cells.now }
{
    let width = columns.len();
    cells.len() == width || width < cells.len() && are_void(&cells[width..])
}

/// Whether the column has this name, in any case.
fn has_name(column: &Column, name: &str) -> bool
    ensures { result ≡ str_eq_ignore_ascii_case column.now.name name.now }
{
    column.name.as_str().eq_ignore_ascii_case(name)
}

/// Whether a column has this name, in any case.
fn has_column(columns: &[Column], name: &str) -> bool
    ensures { result ≡ has_column columns.now name.now }
{
    columns.iter().any(|column| has_name(column, name))
}

/// Whether the cell at the index has the name of its own column.
#[tactic(auto, using(std::proofs::lemmas::List::Folds::list_any_at))]
fn is_own_name(columns: &[Column], place: usize, cell: &str) -> bool
    ensures { IsTrue result → has_column columns.now (trim cell.now) ≡ true }
{
    if place >= columns.len() {
        return false;
    }
    has_name(&columns[place], cell.trim())
}

/// Whether the cell at the index has no value, or is the name of a column. Its own column comes
/// first, so that the header again costs one look a cell.
fn is_name_of(columns: &[Column], place: usize, cell: &str) -> bool
    ensures { result ≡ is_name_of columns.now cell.now }
{
    is_void(cell) || is_own_name(columns, place, cell) || has_column(columns, cell.trim())
}

/// Whether each cell that has a value is the name of a column.
#[tactic(auto, using(std::proofs::lemmas::List::Folds::list_all_more))]
fn has_names(columns: &[Column], cells: &[Text]) -> bool
    ensures { result ≡ list_all (is_name_of columns.now) cells.now }
{
    let mut are_names = true;
    for place in 0..cells.len() {
        are_names = are_names && is_name_of(columns, place, cells[place].as_str());
    }
    are_names
}

/// The most cells of a row that are looked for in other columns than their own.
const MOVED_CELLS_MAX: usize = 64;

/// Whether more cells than that have a value that isn't the name of their own column. Such a row is
/// no header again: to look for each among all columns would take the square of their number.
fn has_many_moved(columns: &[Column], cells: &[Text]) -> bool {
    let moved = cells
        .iter()
        .enumerate()
        .filter(|(place, cell)| {
            !is_void(cell.as_str()) && !is_own_name(columns, *place, cell.as_str())
        })
        .take(MOVED_CELLS_MAX + 1)
        .count();
    moved > MOVED_CELLS_MAX
}

/// Whether at least as many cells have a value as columns have a name.
fn has_as_many(columns: &[Column], cells: &[Text]) -> bool {
    let filled = cells.iter().filter(|cell| !is_void(cell.as_str())).count();
    let named = columns.iter().filter(|it| !it.name.is_empty()).count();
    filled >= named
}

/// Why the row isn't converted, whatever its contact is. `cells` are the texts of its cells.
pub(crate) fn fault_of_row(columns: &[Column], row: &ByteRecord, cells: &[Text]) -> Option<RowFault>
    requires { cells.now ≡ map cell_text (fields_of row.now) }
    ensures { IfSome result (IsFaulty columns.now (fields_of row.now)) }
{
    if is_broken(row) {
        return Some(RowFault::Broken);
    }
    if let Some(place) = nul_place(row) {
        return Some(RowFault::Nul(place));
    }
    if are_void(cells) {
        return Some(RowFault::Empty);
    }
    if !has_width(columns, cells) {
        return Some(RowFault::Width(row.len()));
    }
    if !has_many_moved(columns, cells) && has_names(columns, cells) && has_as_many(columns, cells) {
        return Some(RowFault::Header);
    }
    None
}
