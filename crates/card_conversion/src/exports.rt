//! Converts the cards in rows of an export.
ghost use Rattle.std.specs.Prelude.{ℕ, List, OnOk};
ghost use Rattle.card_conversion.specs.Courses.{ConvertsTexts, Knows};

use crate::card_sink::CardSink;
use crate::course::Course;
use crate::media_sink::MediaSink;
use crate::mended_rows::mended_uid;
use crate::run::convert_piece;
use convert_report::{ConversionFault, Report, RowFields, read_fault};
use csv_cards::{ExportRow, ExportRows};
use import_text::{read_text, split_piece};
use std::alloc::Global;
use std::io::{Read, Write};

/// The first cell of a row, as the file has it.
fn uid_of(row: &ExportRow) -> &[u8] {
    mended_uid(row.uid.as_slice()).unwrap_or(row.uid.as_slice())
}

/// Converts the text of a row, piece by piece.
fn convert_row<O: CardSink, P: MediaSink, E: Write, T: Write>(
    alloc: Global,
    course: &mut Course,
    row: &ExportRow,
    sink: &mut O,
    media: &mut P,
    report: &mut Report<E, T>,
) -> Result<(), ConversionFault>
    ensures { OnOk result ((uids : List (List ℕ)) → Knows course.old uids
        → ConvertsTexts O.writes uids course.old course.new sink.old sink.new) }
{
    let uid = read_text(alloc, uid_of(row))?;
    let fields = RowFields {
        uid: uid.as_str(),
        has_more: row.has_more,
        is_mended: mended_uid(row.uid.as_slice()).is_some(),
    };
    course.ledger.go_to_line(row.line);
    let mut rest = row.text.as_slice();
    for _piece in 0..u64::MAX {
        if rest.is_empty() {
            return Ok(());
        }
        let (piece, after) = split_piece(rest);
        let place = course.ledger.place;
        let fate = convert_piece(
            alloc,
            &mut course.uids,
            place,
            piece,
            fields,
            sink,
            media,
            report,
        )?;
        course.ledger.count(piece, &fate);
        rest = after;
    }
    Err(ConversionFault::Input)
}

/// Converts the cards in the rows of one more file, and writes them to the sink, in order. Each row
/// is converted by itself, with the number of its own line.
///
/// The same card as an earlier one is passed, and another card under the same UID gets one of its
/// own. Cards are counted on. Pictures and sounds that a card is carried without go to `media`. An
/// `Err` is as that of `convert_file`.
pub fn convert_more_exports<R: Read + Drop, O: CardSink, P: MediaSink, E: Write, T: Write>(
    alloc: Global,
    course: &mut Course,
    rows: ExportRows<R>,
    sink: &mut O,
    media: &mut P,
    report: &mut Report<E, T>,
) -> Result<(), ConversionFault>
    ensures { OnOk result ((uids : List (List ℕ)) → Knows course.old uids
        → ConvertsTexts O.writes uids course.old course.new sink.old sink.new) }
{
    let mut rows = rows;
    for _row in 0..u64::MAX {
        match rows.next_row(alloc) {
            Ok(Some(row)) => convert_row(alloc, course, &row, sink, media, report)?,
            Ok(None) => return Ok(()),
            Err(error) => return Err(read_fault(error)),
        }
    }
    Err(ConversionFault::Input)
}
