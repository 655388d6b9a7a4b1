//! Goes over the physical lines of a piece, and over the lines of its card.

use import_text::is_encoded_as;
use vcard_text::Line;

/// The physical lines of a piece from one on.
#[derive(Clone, Copy)]
pub(crate) struct PieceLines<'a> {
    rest: &'a [u8],
    /// The number of lines before.
    place: usize,
}

/// The first physical line, and the octets after its line feed.
fn split_line(octets: &[u8]) -> (&[u8], &[u8]) {
    match octets.iter().position(|octet| *octet == b'\n') {
        Some(place) => (&octets[..place], &octets[place + 1..]),
        None => (octets, &[]),
    }
}

/// A physical line without the carriage returns at its end, of which it may have two.
pub(crate) fn without_returns(line: &[u8]) -> &[u8] {
    let line = line.strip_suffix(b"\r").unwrap_or(line);
    line.strip_suffix(b"\r").unwrap_or(line)
}

impl<'a> PieceLines<'a> {
    pub(crate) fn new(piece: &'a [u8]) -> PieceLines<'a> {
        PieceLines {
            rest: piece,
            place: 0,
        }
    }

    /// Goes on to the line at the place, unless it is passed, and returns it.
    pub(crate) fn go_to(&mut self, place: usize) -> &'a [u8] {
        for _line in self.place..place {
            let (_, rest) = split_line(self.rest);
            self.rest = rest;
        }
        if self.place < place {
            self.place = place;
        }
        split_line(self.rest).0
    }

    /// The line that the cursor is at, with the physical lines that it is folded to, also by the
    /// equals signs of quoted-printable.
    pub(crate) fn line_on(&self) -> &'a [u8] {
        let mut len: usize = 0;
        let mut is_head = true;
        let mut is_quoted = false;
        let mut is_open = false;
        for line in self.rest.split(|octet| *octet == b'\n') {
            if len > 0 && !is_open && !is_folded(line) {
                break;
            }
            is_quoted = is_quoted || is_head && is_encoded_as(line, b"QUOTED-PRINTABLE");
            is_head = is_head && !line.contains(&b':');
            is_open = is_quoted && without_returns(line).ends_with(b"=");
            len = len.saturating_add(line.len()).saturating_add(1);
        }
        self.rest.get(..len.saturating_sub(1)).unwrap_or(self.rest)
    }
}

/// Whether a physical line begins with white space, and so goes on with the one before it.
pub(crate) fn is_folded(line: &[u8]) -> bool {
    line.starts_with(b" ") || line.starts_with(b"\t")
}

/// Whether a physical line goes on with the one before it: it begins with white space, or has no
/// colon, as lines of base64 that weren't folded.
fn goes_on(line: &[u8]) -> bool {
    is_folded(line) || !line.contains(&b':')
}

/// The first of the longest lines of a piece, each with those that go on with it: the number of
/// lines before it, and its first physical line.
pub(crate) fn longest_line(piece: &[u8]) -> (u64, &[u8]) {
    let mut longest: (u64, &[u8]) = (0, &[]);
    let mut most: usize = 0;
    let mut begun: (u64, &[u8]) = (0, &[]);
    let mut len: usize = 0;
    let mut place: u64 = 0;
    for line in piece.split(|octet| *octet == b'\n') {
        if !goes_on(line) {
            begun = (place, line);
            len = 0;
        }
        len = len.saturating_add(line.len());
        if len > most {
            most = len;
            longest = begun;
        }
        place = place.saturating_add(1);
    }
    longest
}

/// The name of the first of the lines that has one of the two names, and the lines after it.
pub(crate) fn find_name<'a>(
    lines: &'a [Line],
    name: &str,
    other: &str,
) -> Option<(&'a str, &'a [Line])> {
    let place = lines.iter().position(|line| line.name.as_str() == name
        || line.name.as_str() == other)?;
    let found = lines.get(place)?;
    let rest = lines.get(place + 1..)?;
    Some((found.name.as_str(), rest))
}
