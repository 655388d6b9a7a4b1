//! Which rows of a text are converted at once.
ghost use Rattle.std.specs.Prelude.{◌≤◌, IfOk, length};

use crate::card_cut::front;
use crate::cut::{Cut, Front, PIECE_OCTETS_MAX, PIECES_MAX, count_feeds};
use crate::weight::{card_weight, row_weight, scan_weight};
use base_types::NoMemory;
use card_conversion::{ExportEnd, export_row_end, without_bom};
use contact_columns::{RowEnd, row_end};
use std::alloc::Global;

/// How the rows of a text end.
#[derive(Clone, Copy)]
pub(crate) enum RowKind {
    /// As those of contacts, with this delimiter and this number of cells of the header.
    Contacts(u8, usize),
    /// As those of an export: a line feed in quotes ends no row, unless the next line begins one.
    Export,
}

/// Where a row ends, and how many octets were looked at to know it, if these are more than the row.
#[derive(Clone, Copy)]
struct RowLen {
    len: usize,
    looked: usize,
}

/// The number of octets of the first row of an export, with its end; `None` if it doesn't end.
/// `is_last` says that no octets follow.
fn export_row_len(text: &[u8], is_last: bool) -> Option<usize> {
    match export_row_end(text, is_last) {
        ExportEnd::At(len)
        | ExportEnd::Undoubled(len)
        | ExportEnd::Unclosed(len)
        | ExportEnd::Broken(len) => Some(len),
        ExportEnd::Open => None,
    }
}

/// The number of octets of the first row of contacts; `None` if it doesn't end. `is_last` says that
/// no octets follow.
fn contact_row_len(delimiter: u8, width: usize, text: &[u8], is_last: bool) -> Option<RowLen> {
    match row_end(delimiter, width, text) {
        RowEnd::At(len) => Some(RowLen { len, looked: 0 }),
        RowEnd::Broken(len, looked) | RowEnd::Long(len, looked) => Some(RowLen { len, looked }),
        RowEnd::Open(len) if is_last => Some(RowLen {
            len,
            looked: text.len(),
        }),
        _ => None,
    }
}

/// The number of octets of a row, and of the line feed that belongs to its end.
fn with_feed(text: &[u8], len: usize) -> usize {
    let (row, rest) = (front(text, len), text.get(len..).unwrap_or(&[]));
    if row.ends_with(b"\r") && rest.starts_with(b"\n") {
        len.saturating_add(1)
    } else {
        len
    }
}

impl RowKind {
    /// The number of octets of the first row, with its end.
    fn row_len(self, text: &[u8], is_last: bool) -> Option<RowLen> {
        match self {
            RowKind::Contacts(delimiter, width) => {
                let row = contact_row_len(delimiter, width, text, is_last)?;
                Some(RowLen {
                    len: with_feed(text, row.len),
                    looked: row.looked,
                })
            }
            RowKind::Export => {
                let len = export_row_len(text, is_last)?;
                Some(RowLen { len, looked: 0 })
            }
        }
    }

    /// The weight of a row.
    fn weight(self, row: &[u8]) -> u64 {
        match self {
            RowKind::Contacts(..) => row_weight(row),
            RowKind::Export => card_weight(row),
        }
    }
}

/// Whether the row has no cells, perhaps after a byte order mark. It isn't counted.
fn is_blank(row: &[u8]) -> bool {
    let row = without_bom(row);
    row.iter().all(|octet| *octet == b'\r' || *octet == b'\n')
}

/// The number of octets up to the end of the line that is at this place; all, if it doesn't end.
fn len_through_line(text: &[u8], place: usize) -> usize {
    let rest = text.get(place..).unwrap_or(&[]);
    match rest.iter().position(|octet| *octet == b'\n') {
        Some(found) => place.saturating_add(found).saturating_add(1),
        None => text.len(),
    }
}

/// The row at the front of the text, and the weight of the octets that were looked at beside it.
/// `more` says that the text goes on.
fn front_row(kind: RowKind, text: &[u8], more: bool) -> (Front, u64) {
    let window = front(text, PIECE_OCTETS_MAX);
    let is_whole_text = window.len() == text.len();
    let is_last = is_whole_text && !more;
    match kind.row_len(window, is_last) {
        Some(row) => (
            Front::Whole(row.len),
            scan_weight(front(window, row.looked)),
        ),
        None if is_last => (Front::Whole(text.len()), 0),
        None if is_whole_text => (Front::Open, 0),
        // What is left of its line would be read as another row.
        None => (Front::Long(len_through_line(text, window.len())), 0),
    }
}

/// The number of octets of the first row of the text, with its end; 0 if it doesn't end.
fn first_row_len(kind: RowKind, text: &[u8]) -> usize {
    let (found, _) = front_row(kind, text, false);
    match found {
        Front::Whole(count) | Front::Long(count) => count,
        Front::Open => 0,
    }
}

/// The number of octets up to the end of the header, which is the first row of the text that isn't
/// blank.
pub(crate) fn header_len(kind: RowKind, text: &[u8]) -> usize {
    let mut len: usize = 0;
    for _row in 0..text.len() {
        let rest = text.get(len..).unwrap_or(&[]);
        let count = first_row_len(kind, rest);
        len = len.saturating_add(count);
        if count == 0 || !is_blank(front(rest, count)) {
            break;
        }
    }
    len
}

/// Takes the row with which the text begins, if there is room for it, and returns the number of
/// octets that were taken. `len` is the number of those before it.
fn take_row(
    kind: RowKind,
    text: &[u8],
    more: bool,
    len: usize,
    cut: &mut Cut,
) -> Result<usize, NoMemory>
    ensures { IfOk result (λ count. count ≤ length text.now) }
{
    let (found, looked) = front_row(kind, text, more);
    match found {
        Front::Whole(count) => {
            let row = front(text, count);
            let weight = kind.weight(row).saturating_add(looked);
            if !cut.has_room(len.saturating_add(row.len()), weight) {
                return Ok(0);
            }
            cut.take(row, weight, !is_blank(row))?;
            Ok(row.len())
        }
        Front::Long(count) if cut.is_empty() => {
            let row = front(text, count);
            cut.pass_long(row)?;
            Ok(row.len())
        }
        _ => Ok(0),
    }
}

/// The number of octets that are converted at once of a text of rows, with those of the header, and
/// the rows. `header` is the number of octets of the header and of what is before it; `more` says
/// that the text goes on. The only `Err` is out of memory.
pub(crate) fn cut_rows(
    alloc: Global,
    kind: RowKind,
    text: &[u8],
    header: usize,
    more: bool,
) -> Result<(usize, Cut), NoMemory>
    ensures { IfOk result (λ cut. cut.0 ≤ length text.now) }
{
    let before = front(text, header);
    let mut cut = Cut::after(alloc, count_feeds(before));
    let mut len = before.len();
    for _row in 0..PIECES_MAX {
        let (_, rest) = text.split_at(len);
        let count = take_row(kind, rest, more, len, &mut cut)?;
        len += count;
        if count == 0 || cut.passed.is_some() {
            break;
        }
    }
    Ok((len, cut))
}
