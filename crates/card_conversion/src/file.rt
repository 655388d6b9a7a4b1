//! Converts a file of cards in any encoding.
ghost use Rattle.std.specs.Prelude.{ℕ, List, IfOk, OnOk, option_map};
ghost use Rattle.import_text.specs.Texts.{text_octets};
ghost use Rattle.card_conversion.specs.Accounts.{ConvertsAll};
ghost use Rattle.card_conversion.specs.Courses.{ConvertsPieces, Knows};

use crate::card_sink::CardSink;
use crate::course::Course;
use crate::media_sink::MediaSink;
use crate::run::{convert_cards, convert_more_cards};
use convert_report::{ConversionFault, Report, Summary, read_fault};
use import_text::TextReader;
use std::alloc::Global;
use std::io::{Read, Write};

/// Converts a file of cards of vCard 2.1, 3.0 and 4.0, in UTF-8, Windows-1252, or UTF-16 with its
/// byte order mark.
///
/// An `Err` is `Input` if the file can't be read to its end, `Output` if the sink takes no more
/// cards, `Report` if the report can't be written, or `Memory`. Cards that were written before it
/// remain.
pub fn convert_file<R: Read + Drop, O: CardSink, E: Write>(
    alloc: Global,
    reader: R,
    sink: &mut O,
    errors: &mut E,
) -> Result<Summary, ConversionFault>
    // The pieces are those of the file's octets, or of its text in UTF-8 if it is in UTF-16.
    ensures { IfOk result (λ summary. ConvertsAll O.writes
        (option_map text_octets (R.remaining reader)) sink.old sink.new summary) }
{
    match TextReader::new(alloc, reader) {
        Ok(text) => convert_cards(alloc, text, sink, errors),
        Err(error) => Err(read_fault(error)),
    }
}

/// Converts the cards of one more file, in UTF-8 or UTF-16, after others (see
/// `convert_more_cards`).
pub fn convert_more_file<R: Read + Drop, O: CardSink, P: MediaSink, E: Write, T: Write>(
    alloc: Global,
    course: &mut Course,
    reader: R,
    sink: &mut O,
    media: &mut P,
    report: &mut Report<E, T>,
) -> Result<(), ConversionFault>
    // The pieces are those of the file's octets, or of its text in UTF-8 if it is in UTF-16.
    ensures { OnOk result ((uids : List (List ℕ)) → Knows course.old uids → ConvertsPieces O.writes
        (option_map text_octets (R.remaining reader)) uids course.old course.new sink.old
        sink.new) }
{
    match TextReader::new(alloc, reader) {
        Ok(text) => convert_more_cards(alloc, course, text, sink, media, report),
        Err(error) => Err(read_fault(error)),
    }
}
