//! Converts a part of a file of rows of an export.
ghost use Rattle.std.specs.Prelude.{◌≤◌, IfOk, IfSome, length};
ghost use Rattle.convert_posts.specs.Parts.{IsPart};

use crate::asked::Asked;
use crate::card_cut::front;
use crate::contact_part::origin_of;
use crate::converted::convert_exports;
use crate::cut::{Cut, count_feeds};
use crate::frame::{Frame, finished_part, open_part, small_part};
use crate::part::{Dates, Kind, Part};
use crate::row_cut::{RowKind, cut_rows, header_len};
use base_types::{NoMemory, Text};
use card_conversion::ExportText;
use csv_cards::{ExportRow, ExportRows};
use import_text::{is_card, split_piece};
use std::alloc::Global;
use std::io::ErrorKind;

/// Adds for each card of a row the number of line feeds before it.
fn add_starts(starts: &mut Vec<u64>, row: &ExportRow) -> Result<(), NoMemory> {
    let mut feeds = row.line.saturating_sub(1);
    let mut rest = row.text.as_slice();
    for _piece in 0..u64::MAX {
        if rest.is_empty() {
            break;
        }
        let (piece, after) = split_piece(rest);
        if is_card(piece) {
            starts.push(feeds)?;
        }
        feeds = feeds.saturating_add(count_feeds(piece));
        rest = after;
    }
    Ok(())
}

/// For each card in the rows of a text the number of line feeds before it. Rows that can't be read
/// have none.
fn starts_in(alloc: Global, text: &[u8]) -> Result<Vec<u64>, NoMemory> {
    let mut rows = ExportRows::new(alloc, ExportText::new(alloc, text));
    let mut starts = Vec::new(alloc);
    for _row in 0..u64::MAX {
        match rows.next_row(alloc) {
            Ok(Some(row)) => add_starts(&mut starts, &row)?,
            Err(error) if error.kind() == ErrorKind::OutOfMemory => return Err(NoMemory),
            _ => break,
        }
    }
    Ok(starts)
}

/// Converts the rows of a body up to where it is cut. `None` if they can't be read.
fn convert_cut(
    alloc: Global,
    asked: &Asked,
    body: &[u8],
    header: usize,
    taken: usize,
    cut: &Cut,
) -> Result<Option<Part>, NoMemory>
    requires { taken ≤ length body.now }
    ensures { IfOk result (λ done. IfSome done (IsPart body.now)) }
{
    let text = front(body, taken);
    let starts = starts_in(alloc, text)?;
    let frame = Frame {
        kind: Kind::Rows,
        header,
        taken,
        origin: origin_of(asked, count_feeds(front(body, header))),
        cards: starts.len() as u64,
        feeds: count_feeds(text),
    };
    if let Some(part) = small_part(alloc, frame, cut)? {
        return Ok(Some(part));
    }
    let rows = ExportRows::new(alloc, ExportText::new(alloc, text));
    match convert_exports(alloc, rows, frame.origin, starts.as_slice())? {
        Some(converted) => {
            let columns = Text::copy_of(alloc, "")?;
            let part = finished_part(alloc, frame, converted, columns, Dates::None)?;
            Ok(Some(part))
        }
        None => Ok(None),
    }
}

/// Converts the front of a body of rows of an export. `None` if it can't be read.
pub(crate) fn export_part(
    alloc: Global,
    asked: &Asked,
    body: &[u8],
) -> Result<Option<Part>, NoMemory>
    ensures { IfOk result (λ done. IfSome done (IsPart body.now)) }
{
    let header = header_len(RowKind::Export, body);
    let (taken, cut) = cut_rows(alloc, RowKind::Export, body, header, asked.more)?;
    if asked.more && cut.is_empty() {
        let part = open_part(alloc, asked, Kind::Rows)?;
        return Ok(Some(part));
    }
    convert_cut(alloc, asked, body, header, taken, &cut)
}
