//! What the report says of a change of a line, and the words for it.

use crate::form_changes::FormKind;
use crate::line_cursor::{PieceLines, find_name};
use crate::line_names::{aside_name, is_empty_name};
use crate::media_delivery::MediaDelivery;
use crate::reporting::Weight;
use base_types::NoMemory;
use std::alloc::Global;
use vcard_changes::ChangeKind;
use vcard_text::Line;

/// What the report says of a change: a change of form, or words on one of content.
#[derive(Drop)]
pub(crate) enum Said {
    Form(FormKind),
    Content(Weight),
}

/// A conversion that is reported: the lines of its piece and of its card from one on.
#[derive(Clone, Copy)]
pub(crate) struct Reported<'a> {
    pub(crate) piece: PieceLines<'a>,
    lines: &'a [Line],
    added: &'a [Line],
    /// What became of the pictures and sounds that are left out from here on; empty if they aren't
    /// wanted.
    media: &'a [MediaDelivery],
    /// Whether the card has a name.
    has_name: bool,
}

/// Whether the line is a name that isn't empty.
fn is_name(line: &Line) -> bool {
    line.name.as_str() == "FN" && !line.value.as_str().is_empty()
}

impl<'a> Reported<'a> {
    /// A card whose changes are reported, before the first of them. `added` are the lines that
    /// were added at the end of `lines`.
    pub(crate) fn new(
        piece: &'a [u8],
        lines: &'a [Line],
        added: &'a [Line],
        media: &'a [MediaDelivery],
    ) -> Reported<'a> {
        Reported {
            piece: PieceLines::new(piece),
            lines,
            added,
            media,
            has_name: lines.iter().any(is_name),
        }
    }
}

/// The words for a line that was kept under another name.
fn aside_words(alloc: Global, at: &mut Reported<'_>, name: &str) -> Result<String, NoMemory> {
    let aside = aside_name(alloc, name)?;
    match find_name(at.lines, aside.as_str(), "X-AGENT") {
        Some((kept, rest)) => {
            at.lines = rest;
            Ok(format!(in alloc; "{name} kept as {kept}")?)
        }
        None => Ok(format!(in alloc; "{name} kept under another name")?),
    }
}

/// What a line that was added is, and the words for it. A UID changes nothing that one reads.
fn added_words(alloc: Global, at: &mut Reported<'_>) -> Result<(Said, String), NoMemory> {
    let Some((line, rest)) = at.added.split_first() else {
        let words = String::from_str(alloc, "a line added")?;
        return Ok((Said::Content(Weight::Moved), words));
    };
    at.added = rest;
    let name = line.name.as_str();
    let words = format!(in alloc; "{name} added")?;
    if name == "UID" {
        return Ok((Said::Form(FormKind::NewUid), words));
    }
    Ok((Said::Content(Weight::Moved), words))
}

/// What a line that was left out is, and the words for it: what is written beside the card isn't
/// lost.
fn left_out_words(
    alloc: Global,
    at: &mut Reported<'_>,
    name: &str,
) -> Result<(Said, String), NoMemory> {
    let Some((delivery, rest)) = at.media.split_first() else {
        let words = format!(in alloc; "{name} left out")?;
        return Ok((Said::Content(Weight::Lost), words));
    };
    at.media = rest;
    match delivery {
        MediaDelivery::Written(path) => {
            let path = path.as_str();
            let words = format!(in alloc; "{name} written to {path}")?;
            Ok((Said::Content(Weight::Moved), words))
        }
        MediaDelivery::Refused(why) => {
            let why = why.as_str();
            let words = format!(in alloc; "{name} left out: {why}")?;
            Ok((Said::Content(Weight::Lost), words))
        }
    }
}

/// What is done to a line that becomes another one of vCard 4.0 with the same content. `None` for a
/// change of what the card says.
fn form_of(kind: ChangeKind) -> Option<(FormKind, &'static str)> {
    match kind {
        ChangeKind::Rewritten => Some((FormKind::Rewritten, "rewritten")),
        ChangeKind::Renamed => Some((FormKind::Renamed, "renamed")),
        ChangeKind::Joined => Some((FormKind::Joined, "joined to its ADR")),
        ChangeKind::Labelled => Some((FormKind::Labelled, "given a LABEL")),
        _ => None,
    }
}

/// What a change of content is, and the words for it.
fn content_words(
    alloc: Global,
    at: &mut Reported<'_>,
    name: &str,
    kind: ChangeKind,
) -> Result<(Said, String), NoMemory> {
    let moved = Said::Content(Weight::Moved);
    let lost = Said::Content(Weight::Lost);
    match kind {
        ChangeKind::Shortened => {
            Ok((
                lost,
                format!(in alloc; "{name} lost the fraction of a second")?,
            ))
        }
        ChangeKind::Cleaned => Ok((lost, format!(in alloc; "{name} lost control characters")?)),
        ChangeKind::KeptAside => Ok((moved, aside_words(alloc, at, name)?)),
        ChangeKind::Added => added_words(alloc, at),
        ChangeKind::LeftOut => left_out_words(alloc, at, name),
        _ => Ok((moved, String::from_str(alloc, "kept as X-UNREADABLE")?)),
    }
}

/// What a change is, and the words for it, such as `CLASS kept as X-CLASS`. `line` is the front of
/// the line, which has this name.
pub(crate) fn change_words(
    alloc: Global,
    at: &mut Reported<'_>,
    name: &str,
    line: &[u8],
    kind: ChangeKind,
) -> Result<(Said, String), NoMemory> {
    let Some((form, done)) = form_of(kind) else {
        return content_words(alloc, at, name, kind);
    };
    if form == FormKind::Rewritten && at.has_name && is_empty_name(name, line) {
        let words = format!(in alloc; "{name} was empty and got a name")?;
        return Ok((Said::Content(Weight::Moved), words));
    }
    Ok((Said::Form(form), format!(in alloc; "{name} {done}")?))
}
