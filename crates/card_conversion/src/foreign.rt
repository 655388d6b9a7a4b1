//! Files of other formats, which aren't converted.

use import_text::{begins_with_word, is_card, split_piece};
use vcard_import::without_bom;

/// What files are that begin with these octets.
const FORMATS: &[(&[u8], &str)] = &[
    (
        b"\xD0\xCF\x11\xE0",
        "a file of an old version of Microsoft Office; save it as CSV",
    ),
    (
        b"!BDN",
        "a data file of Outlook (PST); export the contacts as CSV",
    ),
    (b"%PDF", "a PDF; export the contacts as vCard or CSV"),
    (
        b"{\\rtf",
        "a text in RTF; export the contacts as vCard or CSV",
    ),
    (
        b"\x1F\x8B",
        "compressed by gzip; unpack it, and convert its files",
    ),
    (
        b"\xFD7zXZ",
        "compressed by xz; unpack it, and convert its files",
    ),
    (
        b"7z\xBC\xAF",
        "a 7-Zip archive; unpack it, and convert its files",
    ),
    (
        b"Rar!\x1A",
        "a RAR archive; unpack it, and convert its files",
    ),
    (
        b"SQLite format 3\0",
        "a database of SQLite; export the contacts as vCard or CSV",
    ),
    (
        b"bplist00",
        "a property list of Apple; export the contacts as vCard or CSV",
    ),
    (
        b"\xFF\xD8\xFF",
        "a picture; export the contacts as vCard or CSV",
    ),
    (b"\x89PNG", "a picture; export the contacts as vCard or CSV"),
];

/// What a file of a known format is, and what to do with it.
fn format_words(head: &[u8]) -> Option<&'static str> {
    for (front, words) in FORMATS {
        if head.starts_with(*front) {
            return Some(*words);
        }
    }
    None
}

/// Whether the octets have these among them.
fn has_octets(octets: &[u8], wanted: &[u8]) -> bool {
    for start in 0..octets.len() {
        if octets[start..].starts_with(wanted) {
            return true;
        }
    }
    false
}

/// What an archive is that begins with these octets.
fn archive_words(head: &[u8]) -> &'static str {
    if has_octets(head, b"opendocument.spreadsheet") {
        "a spreadsheet of LibreOffice; save it as CSV in UTF-8"
    } else if has_octets(head, b"xl/") {
        "an Excel workbook; save it as CSV UTF-8"
    } else {
        "a ZIP archive; unpack it, and convert its files"
    }
}

/// Whether the text is LDIF (RFC 2849).
fn is_ldif(text: &[u8]) -> bool {
    text.starts_with(b"dn:")
        || text.starts_with(b"version: 1\n")
        || text.starts_with(b"version: 1\r\n")
}

/// Whether a delimiter of cells follows the first `>`, as after a first cell like `<none>`.
fn ends_cell(text: &[u8]) -> bool {
    match text.iter().position(|octet| *octet == b'>') {
        Some(place) => {
            let after = text.get(place.saturating_add(1)).copied();
            matches!(after, Some(b',' | b';' | b'\t' | b'|'))
        }
        None => false,
    }
}

/// Whether the text, which begins with no white space, is XML or HTML: a tag, a declaration or a
/// comment, after which no cell ends.
fn is_markup(text: &[u8]) -> bool {
    match text.strip_prefix(b"<") {
        Some([next, ..]) if next.is_ascii_alphabetic() || *next == b'?' || *next == b'!' => {
            !ends_cell(text)
        }
        _ => false,
    }
}

/// Whether the text, which begins with no white space, is JSON: an object or an array.
fn is_json(text: &[u8]) -> bool {
    match text.split_first() {
        Some((b'{' | b'[', rest)) => matches!(
            rest.trim_ascii_start().first(),
            Some(b'"' | b'{' | b'[' | b'}' | b']')
        ),
        _ => false,
    }
}

/// What a file of text is, and what to do with it, if its front says so whatever comes after it.
fn text_words(text: &[u8]) -> Option<&'static str> {
    if is_saved_export(text) {
        Some(
            "rows of cards that were saved again, without commas between uid and vcard; convert \
             the file as it was exported",
        )
    } else if is_ldif(text) {
        Some("LDIF; export the contacts as vCard or CSV")
    } else {
        None
    }
}

/// Whether a card begins somewhere among the octets.
pub fn has_card(octets: &[u8]) -> bool {
    let (piece, after) = split_piece(octets);
    is_card(piece) || !after.is_empty()
}

/// The octets after one that is the first, if it is; else all.
fn after_octet(octets: &[u8], first: u8) -> &[u8] {
    match octets.split_first() {
        Some((octet, rest)) if *octet == first => rest,
        _ => octets,
    }
}

/// The octets after the word at their front, which may be in quotes.
fn after_word<'a>(octets: &'a [u8], word: &[u8]) -> Option<&'a [u8]> {
    let rest = after_octet(octets, b'"').strip_prefix(word)?;
    Some(after_octet(rest, b'"'))
}

/// The octet between the names `uid` and `vcard`, each perhaps in quotes, if they are the first
/// line.
fn export_delimiter(text: &[u8]) -> Option<u8> {
    let (delimiter, rest) = after_word(text, b"uid")?.split_first()?;
    let end = after_word(rest, b"vcard")?;
    if end.is_empty() || end.starts_with(b"\n") || end.starts_with(b"\r") {
        Some(*delimiter)
    } else {
        None
    }
}

/// Whether a file that begins with these octets has rows of cards whose header is `uid,vcard`, with
/// each name in quotes or without: programs write them that quote all cells.
pub fn is_quoted_export(head: &[u8]) -> bool {
    export_delimiter(without_bom(head)) == Some(b',')
}

/// Whether the text has rows of cards that a spreadsheet saved, with something else than commas
/// between its cells.
fn is_saved_export(text: &[u8]) -> bool {
    matches!(export_delimiter(text), Some(b';' | b'\t' | b'|'))
}

/// Whether a file that begins with these octets is text in UTF-32: it has a byte order mark, or two
/// characters below 256.
pub fn is_utf32(front: &[u8]) -> bool {
    if front.starts_with(b"\xFF\xFE\0\0") || front.starts_with(b"\0\0\xFE\xFF") {
        return true;
    }
    match front {
        [a, 0, 0, 0, b, 0, 0, 0, ..] => *a != 0 && *b != 0,
        [0, 0, 0, a, 0, 0, 0, b, ..] => *a != 0 && *b != 0,
        _ => false,
    }
}

/// What a file is, and what to do with it, if it begins with these octets and has a format that
/// isn't converted, whatever else is in it.
pub fn foreign_format(head: &[u8]) -> Option<&'static str> {
    if head.starts_with(b"PK\x03\x04") {
        Some(archive_words(head))
    } else {
        format_words(head).or(text_words(without_bom(head)))
    }
}

/// What a file of text is that begins with these octets, and what to do with it: XML, HTML, JSON or
/// a calendar in which no card begins. A table may begin so, too: its header is looked for first.
pub fn foreign_text(head: &[u8]) -> Option<&'static str> {
    let start = without_bom(head).trim_ascii_start();
    let words = if is_markup(start) {
        "XML or HTML; export the contacts as vCard or CSV"
    } else if is_json(start) {
        "JSON; export the contacts as vCard or CSV"
    } else if begins_with_word(start, b"BEGIN:VCALENDAR") {
        "a calendar; export the contacts as vCard or CSV"
    } else {
        return None;
    };
    if has_card(head) { None } else { Some(words) }
}
