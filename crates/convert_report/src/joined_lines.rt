//! Lines of a card that begin as a property does, and yet belong to the line before them: it is
//! quoted-printable and ends with an equals sign, so it goes on (RFC 2045, section 6.7).

use crate::line_cursor::{PieceLines, is_folded, without_returns};
use crate::line_names::{head_of, name_of};
use base_types::NoMemory;
use import_text::is_encoded_as;
use std::alloc::Global;
use vcard_changes::{Change, ChangeKind};

/// The properties of vCard 2.1, but for those that begin and end a card. A text that says the same
/// words mostly has small letters in them.
const NAMES: &[&str] = &[
    "ADR", "AGENT", "BDAY", "EMAIL", "FN", "GEO", "KEY", "LABEL", "LOGO", "MAILER", "N", "NOTE",
    "ORG", "PHOTO", "REV", "ROLE", "SOUND", "TEL", "TITLE", "TZ", "UID", "URL", "VERSION",
];

/// Whether the head of a line is the name of a property of vCard 2.1, in capitals.
fn is_known_head(head: &[u8]) -> bool {
    NAMES.iter().any(|name| name.as_bytes() == head)
}

/// Whether a physical line begins as a property does: with a name, maybe parameters, and a colon.
fn begins_property(line: &[u8]) -> bool {
    !is_folded(line) && line.contains(&b':') && is_known_head(head_of(line))
}

/// A physical line that begins as a property does and belongs to a line before it.
#[derive(Clone, Copy)]
pub(crate) struct JoinedLine<'a> {
    /// The number of lines before it.
    pub(crate) place: usize,
    octets: &'a [u8],
    /// The line to which it belongs.
    owner: &'a [u8],
}

impl JoinedLine<'_> {
    /// What is said of it.
    pub(crate) fn words(self, alloc: Global) -> Result<String, NoMemory> {
        let name = name_of(alloc, self.octets)?;
        let owner = name_of(alloc, self.owner)?;
        Ok(format!(in alloc; "{name} is a part of {owner}, since the line before ends with =")?)
    }
}

/// The first such line of those to which a line is folded, which begins at the place.
fn first_joined(line: &[u8], place: usize) -> Option<JoinedLine<'_>> {
    if !is_encoded_as(line, b"QUOTED-PRINTABLE") {
        return None;
    }
    let mut is_open = false;
    for (index, octets) in line.split(|octet| *octet == b'\n').enumerate() {
        let octets = without_returns(octets);
        if is_open && begins_property(octets) {
            return Some(JoinedLine {
                place: place.saturating_add(index),
                octets,
                owner: line,
            });
        }
        is_open = octets.ends_with(b"=");
    }
    None
}

/// Goes over the lines of a card that were changed, as each line of quoted-printable is.
#[derive(Clone, Copy)]
pub(crate) struct JoinedLines<'a> {
    lines: PieceLines<'a>,
    /// The number of lines up to the last one that was looked at.
    passed: usize,
}

impl<'a> JoinedLines<'a> {
    pub(crate) fn new(piece: &'a [u8]) -> JoinedLines<'a> {
        JoinedLines {
            lines: PieceLines::new(piece),
            passed: 0,
        }
    }

    /// The first such line in the line that was changed, unless it was looked at before. A line
    /// that was added has no octets.
    pub(crate) fn find(&mut self, change: &Change) -> Option<JoinedLine<'a>> {
        if change.kind == ChangeKind::Added || change.place < self.passed {
            return None;
        }
        self.passed = change.place.saturating_add(1);
        let _line = self.lines.go_to(change.place);
        first_joined(self.lines.line_on(), change.place)
    }
}
