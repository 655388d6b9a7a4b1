//! Encodes octets as a field of a row, and decodes them.
use crate::printout::Printout;

/// The code point of the first picture of a control character, that of NUL.
const PICTURES: u32 = 0x2400;

/// The control character that the picture shows.
fn control_octet(picture: char) -> u8 {
    u8::try_from(u32::from(picture).saturating_sub(PICTURES)).unwrap_or(0)
}

/// Decodes the text, character by character.
fn add_plain(text: &str, octets: &mut Printout) {
    for c in text.chars() {
        match c {
            '¶' => octets.add("\r\n"),
            '⊠' => octets.add_octet(0xFF),
            '␡' => octets.add_octet(0x7F),
            '\u{2400}'..='\u{241F}' => octets.add_octet(control_octet(c)),
            c => octets.add_char(c),
        }
    }
}

/// Decodes a repetition, such as `3*ab`.
fn add_repeated(repeated: &str, octets: &mut Printout) {
    let (count, text) = repeated.split_once('*').unwrap_or(("1", repeated));
    let mut once = Printout::new(octets.alloc());
    add_plain(text, &mut once);
    for _ in 0..count.parse::<u32>().unwrap_or(0) {
        octets.add_printout(&once);
    }
}

/// Decodes the field.
pub(crate) fn decode_field(field: &str, octets: &mut Printout) {
    for part in field.split('«') {
        let (repeated, rest) = part.split_once('»').unwrap_or(("", part));
        add_repeated(repeated, octets);
        add_plain(rest, octets);
    }
}

/// The picture of a control character; any other character unchanged.
fn picture_of(c: char) -> char {
    match c {
        '\u{7F}' => '␡',
        '\u{0}'..='\u{1F}' => {
            char::from_u32(u32::from(c).saturating_add(PICTURES)).unwrap_or('?')
        }
        c => c,
    }
}

/// Prints the octets as a field, up to 2,000 characters. What isn't UTF-8 becomes `\u{FFFD}`.
pub(crate) fn print_field(octets: &[u8], report: &mut Printout) {
    let text = String::from_utf8_lossy(report.alloc(), octets);
    if let Some(text) = report.supply.keep(text) {
        for c in text.chars().take(2_000) {
            report.add_char(picture_of(c));
        }
    }
}
