//! Converts all cards of a file.
ghost use Rattle.std.specs.Prelude.{ℕ, List, IfOk, OnOk};
ghost use Rattle.card_conversion.specs.Accounts.{ConvertsAll};
ghost use Rattle.card_conversion.specs.Courses.{ConvertsPieces, Knows};
ghost use Rattle.card_conversion.specs.Media.{PutsOfFate};
ghost use Rattle.convert_report.specs.declared.media_delivery.MediaDelivery.{MediaDelivery};
ghost use Rattle.card_conversion.specs.internal.States.{TakesPiece};

use crate::card_sink::CardSink;
use crate::course::Course;
use crate::left_out::put_media;
use crate::media_sink::{MediaSink, NoMedia};
use crate::piece_reader::PieceReader;
use crate::pieces::take_piece;
use base_types::TextMap;
use convert_report::{
    ConversionFault, Fate, Place, Report, RowFields, Summary, no_fields, report_piece,
};
use std::alloc::Global;
use std::io::{Read, Write};

/// Gives the pictures and sounds to their sink that the card of a piece is carried without, and
/// reports what became of the piece. `fields` are those of its row.
fn report_one_piece<P: MediaSink, E: Write, T: Write>(
    alloc: Global,
    place: Place,
    piece: &[u8],
    fate: &Fate,
    fields: RowFields<'_>,
    media: &mut P,
    report: &mut Report<E, T>,
) -> Result<(), ConversionFault>
    ensures { OnOk result ((all : List MediaDelivery)
        × PutsOfFate P.takes piece.now fate.now all media.old media.new) }
{
    let deliveries = put_media(alloc, place.card, piece, fate, media)?;
    report.count_media(deliveries.as_slice());
    report_piece(
        alloc,
        place,
        piece,
        fate,
        fields,
        deliveries.as_slice(),
        report,
    )
}

/// Converts a piece if it is a card, writes the card to the sink, and reports what became of it.
/// `fields` are those of its row. Pictures and sounds that the card is carried without go to
/// `media`.
pub(crate) fn convert_piece<O: CardSink, P: MediaSink, E: Write, T: Write>(
    alloc: Global,
    uids: &mut TextMap<()>,
    place: Place,
    piece: &[u8],
    fields: RowFields<'_>,
    sink: &mut O,
    media: &mut P,
    report: &mut Report<E, T>,
) -> Result<Fate, ConversionFault>
    ensures taken { IfOk result
        (TakesPiece O.writes piece.now uids.old uids.new sink.old sink.new) }

    // Each picture and each sound that the written card is carried without was written for its UID,
    // with the octets that its line encodes, or was refused, in order; or none was written.
    ensures media { IfOk result (λ fate. (all : List MediaDelivery)
        × PutsOfFate P.takes piece.now fate all media.old media.new) }
{
    let fate = take_piece(alloc, uids, place.card, piece, sink)?;
    match report_one_piece(alloc, place, piece, &fate, fields, media, report) {
        Ok(()) => Ok(fate),
        Err(fault) => {
            drop(fate);
            Err(fault)
        }
    }
}

/// Converts all cards of one more file and writes them to the sink, in order. Reports each change
/// of a card, each card that can't be carried and each text that is no card.
///
/// The same card as one of an earlier file is passed, and another card under the same UID gets one
/// of its own. Cards are counted on. Pictures and sounds that a card is carried without go to
/// `media`. An `Err` is as that of `convert_file`.
pub fn convert_more_cards<R: Read + Drop, O: CardSink, P: MediaSink, E: Write, T: Write>(
    alloc: Global,
    course: &mut Course,
    reader: R,
    sink: &mut O,
    media: &mut P,
    report: &mut Report<E, T>,
) -> Result<(), ConversionFault>
    ensures { OnOk result ((uids : List (List ℕ)) → Knows course.old uids → ConvertsPieces O.writes
        (R.remaining reader) uids course.old course.new sink.old sink.new) }
{
    let mut pieces = PieceReader::new(alloc, reader);
    course.ledger.begin_file();
    for _piece in 0..u64::MAX {
        let Some(len) = pieces.find_piece(alloc)? else {
            return Ok(());
        };
        let piece = pieces.piece(len);
        let place = course.ledger.place;
        let fate = convert_piece(
            alloc,
            &mut course.uids,
            place,
            piece,
            no_fields(),
            sink,
            media,
            report,
        )?;
        course.ledger.count(piece, &fate);
        pieces.pass(len);
    }
    Err(ConversionFault::Input)
}

/// Converts all cards of a file and writes them to the sink, in order. Reports each card whose
/// content changed, each card that can't be carried and each text that is no card, and at last how
/// often each change of form came, what to look at first, and the numbers of cards.
pub fn convert_cards<R: Read + Drop, O: CardSink, E: Write>(
    alloc: Global,
    reader: R,
    sink: &mut O,
    errors: &mut E,
) -> Result<Summary, ConversionFault>
    ensures { IfOk result (λ summary.
        ConvertsAll O.writes (R.remaining reader) sink.old sink.new summary) }
{
    let mut course = Course::new(alloc);
    let mut media = NoMedia;
    let mut report: Report<&mut E, Vec<u8>> = Report::new(alloc, errors);
    convert_more_cards(alloc, &mut course, reader, sink, &mut media, &mut report)?;
    let summary = course.summary();
    report.finish(alloc, summary, None)?;
    Ok(summary)
}
