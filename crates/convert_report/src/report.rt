//! The lines of the report: one for each card whose content changed or that isn't carried, and for
//! the file of the report one for each change.

use crate::broken_rows::broken_lines;
use crate::change_words::{Reported, Said, change_words};
use crate::fate::Fate;
use crate::fault::ConversionFault;
use crate::form_changes::FormKind;
use crate::guesses::{guess_words, guessed_lines};
use crate::joined_lines::JoinedLines;
use crate::line_cursor::longest_line;
use crate::line_names::name_of;
use crate::media_delivery::MediaDelivery;
use crate::parts::{Parts, lost_words};
use crate::reporting::{Report, Weight};
use base_types::NoMemory;
use import_text::{is_card, is_word_line};
use std::alloc::Global;
use std::io::Write;
use vcard_changes::{Change, ChangeKind, Conversion, ImportFault};
use vcard_text::Line;

/// Where a card or a line is in the file, both counted from 1.
#[derive(Clone, Copy)]
pub struct Place {
    /// The number of the card.
    pub card: u64,
    /// The number of the line.
    pub line: u64,
}

/// The fields of a row of an export beside its card.
#[derive(Clone, Copy)]
pub struct RowFields<'a> {
    /// The field `uid`, which may be empty.
    pub uid: &'a str,
    /// Whether a field after the card isn't empty.
    pub has_more: bool,
    /// Whether the row lacked quotes, and its card was read to its end.
    pub is_mended: bool,
}

/// Those of a card that is in no row.
pub fn no_fields() -> RowFields<'static> {
    RowFields {
        uid: "",
        has_more: false,
        is_mended: false,
    }
}

/// The lines at the end of the card that were added.
fn added_lines<'a>(conversion: &'a Conversion) -> &'a [Line] {
    let lines = conversion.card.lines();
    let changes = conversion.changes.as_slice();
    let count = changes
        .iter()
        .filter(|change| change.kind == ChangeKind::Added)
        .count();
    lines
        .get(lines.len().saturating_sub(count)..)
        .unwrap_or(&[])
}

/// The line for a card, with these words.
fn card_line(alloc: Global, place: Place, words: &str) -> Result<String, NoMemory> {
    let Place { card, line } = place;
    Ok(format!(in alloc; "card {card}, line {line}: {words}")?)
}

/// Whether the change keeps a line under a name that begins with X-.
fn keeps_aside(change: &Change) -> bool {
    matches!(change.kind, ChangeKind::KeptAside | ChangeKind::Unreadable)
}

/// Reports one change of a card: a change of form is counted, and one of content is a part of the
/// card's line.
fn report_change<E: Write, T: Write>(
    alloc: Global,
    place: Place,
    at: &mut Reported<'_>,
    change: &Change,
    parts: &mut Parts,
    report: &mut Report<E, T>,
) -> Result<(), ConversionFault> {
    let octets = at.piece.go_to(change.place);
    let name = name_of(alloc, octets)?;
    let (said, words) = change_words(alloc, at, name.as_str(), octets, change.kind)?;
    let line = place.line.saturating_add(change.place as u64);
    let card = place.card;
    let at_line = Place { card, line };
    report.list_line(alloc, card_line(alloc, at_line, words.as_str())?.as_str())?;
    match said {
        Said::Form(FormKind::NewUid) => report.count(alloc, FormKind::NewUid, "UID")?,
        Said::Form(kind) => report.count(alloc, kind, name.as_str())?,
        Said::Content(weight) => {
            let words = words.as_str();
            let text = format!(in alloc; "line {line}: {words}")?;
            parts.add(weight, text.as_str())?;
        }
    }
    Ok(())
}

/// Reports in these words what a card has lost.
fn report_loss<E: Write, T: Write>(
    alloc: Global,
    place: Place,
    words: &str,
    parts: &mut Parts,
    report: &mut Report<E, T>,
) -> Result<(), ConversionFault> {
    report.list_line(alloc, card_line(alloc, place, words)?.as_str())?;
    let line = place.line;
    let text = format!(in alloc; "line {line}: {words}")?;
    parts.add(Weight::Lost, text.as_str())?;
    Ok(())
}

/// Reports the fields of a card's row that the card doesn't have.
fn report_fields<E: Write, T: Write>(
    alloc: Global,
    place: Place,
    fields: RowFields<'_>,
    uid: &str,
    parts: &mut Parts,
    report: &mut Report<E, T>,
) -> Result<(), ConversionFault> {
    if !fields.uid.is_empty() && fields.uid != uid {
        let words = "the row has another UID, which is left out";
        report_loss(alloc, place, words, parts, report)?;
    }
    if fields.has_more {
        let words = "the row has a third cell, which is left out";
        report_loss(alloc, place, words, parts, report)?;
    }
    if fields.is_mended {
        let words = "a quote in the row is missing, or isn't doubled";
        report_loss(alloc, place, words, parts, report)?;
    }
    Ok(())
}

/// Reports characters that couldn't be read, if the card has some.
fn report_lost<E: Write, T: Write>(
    alloc: Global,
    place: Place,
    lines: &[Line],
    parts: &mut Parts,
    report: &mut Report<E, T>,
) -> Result<(), ConversionFault> {
    let Some(words) = lost_words(alloc, lines)? else {
        return Ok(());
    };
    report_loss(alloc, place, words.as_str(), parts, report)
}

/// Whether each card that begins in the piece ends there.
fn is_ended(piece: &[u8]) -> bool {
    let mut open: u64 = 0;
    for line in piece.split(|octet| *octet == b'\n') {
        if is_card(line) || is_word_line(line, b"AGENT:BEGIN:VCARD") {
            open = open.saturating_add(1);
        } else if is_word_line(line, b"END:VCARD") {
            open = open.saturating_sub(1);
        }
    }
    open == 0
}

/// Reports that a card has no end, if it has none.
fn report_unended<E: Write, T: Write>(
    alloc: Global,
    place: Place,
    piece: &[u8],
    parts: &mut Parts,
    report: &mut Report<E, T>,
) -> Result<(), ConversionFault> {
    if is_ended(piece) {
        return Ok(());
    }
    let words = "the card has no END: lines of it may be missing";
    report_loss(alloc, place, words, parts, report)
}

/// Reports lines that begin as a property does, and yet belong to the line before them.
fn report_joined<E: Write, T: Write>(
    alloc: Global,
    place: Place,
    piece: &[u8],
    changes: &[Change],
    parts: &mut Parts,
    report: &mut Report<E, T>,
) -> Result<(), ConversionFault> {
    let Place { card, line } = place;
    let mut lines = JoinedLines::new(piece);
    for change in changes {
        if let Some(joined) = lines.find(change) {
            let line = line.saturating_add(joined.place as u64);
            let words = joined.words(alloc)?;
            report_loss(alloc, Place { card, line }, words.as_str(), parts, report)?;
        }
    }
    Ok(())
}

/// Reports how many lines of a card were read as Windows-1252, if there are some.
fn report_guesses<E: Write, T: Write>(
    alloc: Global,
    place: Place,
    piece: &[u8],
    changes: &[Change],
    report: &mut Report<E, T>,
) -> Result<(), ConversionFault> {
    let count = guessed_lines(alloc, piece, changes)?;
    if count == 0 {
        return Ok(());
    }
    report.count_guessed_lines(count);
    let words = guess_words(alloc, count, "line")?;
    report.list_line(alloc, card_line(alloc, place, words.as_str())?.as_str())
}

/// Tells the parts of a card, if there are some.
fn report_parts<E: Write, T: Write>(
    alloc: Global,
    place: Place,
    parts: &Parts,
    report: &mut Report<E, T>,
) -> Result<(), ConversionFault> {
    if parts.is_empty() {
        return Ok(());
    }
    let card = place.card;
    let text = parts.text(alloc)?;
    let text = text.as_str();
    report.write_line(
        alloc,
        parts.weight,
        format!(in alloc; "card {card}, {text}")?.as_str(),
    )
}

/// Reports the changes of a card that begins at the place, after the parts that there are.
fn report_changes<E: Write, T: Write>(
    alloc: Global,
    place: Place,
    piece: &[u8],
    conversion: &Conversion,
    media: &[MediaDelivery],
    parts: &mut Parts,
    report: &mut Report<E, T>,
) -> Result<(), ConversionFault> {
    let lines = conversion.card.lines();
    let changes = conversion.changes.as_slice();
    let mut at = Reported::new(piece, lines, added_lines(conversion), media);
    for change in changes {
        report_change(alloc, place, &mut at, change, parts, report)?;
    }
    if changes.iter().any(keeps_aside) {
        report.count_aside();
    }
    report_lost(alloc, place, lines, parts, report)?;
    report_unended(alloc, place, piece, parts, report)?;
    report_joined(alloc, place, piece, changes, parts, report)?;
    report_guesses(alloc, place, piece, changes, report)?;
    report_parts(alloc, place, parts, report)
}

/// Reports a card that was written under its own UID.
fn report_written<E: Write, T: Write>(
    alloc: Global,
    place: Place,
    piece: &[u8],
    conversion: &Conversion,
    fields: RowFields<'_>,
    media: &[MediaDelivery],
    report: &mut Report<E, T>,
) -> Result<(), ConversionFault> {
    let mut parts = Parts::new(alloc);
    let uid = conversion.card.uid();
    report_fields(alloc, place, fields, uid, &mut parts, report)?;
    report_changes(alloc, place, piece, conversion, media, &mut parts, report)
}

/// Reports a card that was written under a UID of its own. So the UID that it had isn't compared
/// with that of its row.
fn report_moved<E: Write, T: Write>(
    alloc: Global,
    place: Place,
    piece: &[u8],
    conversion: &Conversion,
    fields: RowFields<'_>,
    media: &[MediaDelivery],
    report: &mut Report<E, T>,
) -> Result<(), ConversionFault> {
    let uid = conversion.card.uid();
    let words = format!(in alloc; "an earlier card has the same UID; kept under {uid}")?;
    let words = words.as_str();
    report.list_line(alloc, card_line(alloc, place, words)?.as_str())?;
    let line = place.line;
    let mut parts = Parts::new(alloc);
    parts.add(
        Weight::Moved,
        format!(in alloc; "line {line}: {words}")?.as_str(),
    )?;
    report_fields(alloc, place, fields, fields.uid, &mut parts, report)?;
    report_changes(alloc, place, piece, conversion, media, &mut parts, report)
}

/// Reports a card that is the same as an earlier one.
fn report_repeated<E: Write, T: Write>(
    alloc: Global,
    place: Place,
    conversion: &Conversion,
    fields: RowFields<'_>,
    report: &mut Report<E, T>,
) -> Result<(), ConversionFault> {
    report.count(alloc, FormKind::SameCard, "")?;
    let line = card_line(alloc, place, "an earlier card is the same")?;
    report.list_line(alloc, line.as_str())?;
    let mut parts = Parts::new(alloc);
    report_fields(
        alloc,
        place,
        fields,
        conversion.card.uid(),
        &mut parts,
        report,
    )?;
    report_parts(alloc, place, &parts, report)
}

/// Reports a card that isn't carried, with the reason in words.
fn report_refused<E: Write, T: Write>(
    alloc: Global,
    place: Place,
    why: &str,
    report: &mut Report<E, T>,
) -> Result<(), ConversionFault> {
    let words = format!(in alloc; "not carried: {why}")?;
    let line = card_line(alloc, place, words.as_str())?;
    report.write_to_both(alloc, Weight::NotCarried, line.as_str())
}

/// Reports a card that would be too long, and which of its lines is the longest.
fn report_too_long<E: Write, T: Write>(
    alloc: Global,
    place: Place,
    piece: &[u8],
    report: &mut Report<E, T>,
) -> Result<(), ConversionFault> {
    let fault = ImportFault::TooLong;
    let (before, octets) = longest_line(piece);
    let name = name_of(alloc, octets)?;
    let line = place.line.saturating_add(before);
    let why = format!(in alloc; "{fault}; its longest line is line {line}, {name}")?;
    report_refused(alloc, place, why.as_str(), report)
}

/// Why a text that is no card isn't carried. It may stand for a row of an export with a quote that
/// isn't closed.
fn other_words(alloc: Global, piece: &[u8]) -> Result<String, NoMemory> {
    let words = match broken_lines(piece) {
        None => "no card begins here",
        Some(lines) if lines > 1 => {
            return Ok(format!(in alloc;
                "a quote isn't closed in its row, and {lines} lines are lost with it"
            )?);
        }
        Some(_) => "a quote isn't closed in its row",
    };
    Ok(String::from_str(alloc, words)?)
}

/// Reports a text that is no card.
fn report_other<E: Write, T: Write>(
    alloc: Global,
    place: Place,
    piece: &[u8],
    report: &mut Report<E, T>,
) -> Result<(), ConversionFault> {
    let line = place.line;
    let words = other_words(alloc, piece)?;
    let words = words.as_str();
    let text = format!(in alloc; "line {line}: not carried: {words}")?;
    report.write_to_both(alloc, Weight::NotCarried, text.as_str())
}

/// Reports what became of a piece at the place. `fields` are those of its row, and `media` says
/// what became of the pictures and sounds that its card is carried without.
pub fn report_piece<E: Write, T: Write>(
    alloc: Global,
    place: Place,
    piece: &[u8],
    fate: &Fate,
    fields: RowFields<'_>,
    media: &[MediaDelivery],
    report: &mut Report<E, T>,
) -> Result<(), ConversionFault> {
    match fate {
        Fate::Blank => Ok(()),
        Fate::Other => report_other(alloc, place, piece, report),
        Fate::Long => {
            report_refused(
                alloc,
                place,
                "the card has more than 8,388,608 octets",
                report,
            )
        }
        Fate::Overfull => {
            report_refused(
                alloc,
                place,
                "the card has more than 65,536 semicolons",
                report,
            )
        }
        Fate::Refused(ImportFault::TooLong) => report_too_long(alloc, place, piece, report),
        Fate::Refused(fault) => {
            let why = format!(in alloc; "{fault}")?;
            report_refused(alloc, place, why.as_str(), report)
        }
        Fate::Repeated(conversion) => report_repeated(alloc, place, conversion, fields, report),
        Fate::Crowded(_) => {
            report_refused(
                alloc,
                place,
                "an earlier card has the same UID, and with another one the text is too long",
                report,
            )
        }
        Fate::Declined(_, why) => report_refused(alloc, place, why.as_str(), report),
        Fate::Written(conversion) => {
            report_written(alloc, place, piece, conversion, fields, media, report)
        }
        Fate::Moved(conversion) => {
            report_moved(alloc, place, piece, conversion, fields, media, report)
        }
    }
}
