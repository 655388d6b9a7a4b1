//! Character sets that have one octet for each character, by the names of the registry of IANA.
ghost use Rattle.std.specs.Prelude.{◌≡◌, IfOk, map, string_bytes};
ghost use Rattle.std.specs.Str.{encode_utf8_all};
ghost use Rattle.import_text.specs.Encodings.{char_in};

use crate::encodings::WINDOWS_1252;
use crate::iso_tables::{
    ISO_8859_2, ISO_8859_3, ISO_8859_4, ISO_8859_5, ISO_8859_6, ISO_8859_7, ISO_8859_8,
    ISO_8859_10, ISO_8859_13, ISO_8859_14, ISO_8859_15, ISO_8859_16, KOI8_R, KOI8_U,
};
use crate::mac_tables::MAC_ROMAN;
use crate::windows_tables::{
    WINDOWS_874, WINDOWS_1250, WINDOWS_1251, WINDOWS_1253, WINDOWS_1254, WINDOWS_1255,
    WINDOWS_1256, WINDOWS_1257, WINDOWS_1258,
};
use base_types::NoMemory;
use std::alloc::Global;

/// A character set.
#[derive(Clone, Copy)]
pub struct Charset {
    /// The first octet whose character is in the table. The character of an octet below it, or
    /// after those of the table, is the one of its number.
    pub first: u8,
    /// The characters of that octet and the next ones.
    pub chars: &'static [char],
}

/// Each character set with its names, in lower case and without hyphens and the like.
const CHARSETS: [(&str, u8, &[char]); 25] = [
    ("iso88591 latin1 l1 windows1252 cp1252", 128, &WINDOWS_1252),
    ("iso88592 latin2 l2", 160, &ISO_8859_2),
    ("iso88593 latin3 l3", 160, &ISO_8859_3),
    ("iso88594 latin4 l4", 160, &ISO_8859_4),
    ("iso88595 cyrillic", 160, &ISO_8859_5),
    ("iso88596 arabic", 160, &ISO_8859_6),
    ("iso88597 greek", 160, &ISO_8859_7),
    ("iso88598 hebrew", 160, &ISO_8859_8),
    ("iso88599 latin5 l5 windows1254 cp1254", 128, &WINDOWS_1254),
    ("iso885910 latin6 l6", 160, &ISO_8859_10),
    ("iso885911 tis620 windows874 cp874", 128, &WINDOWS_874),
    ("iso885913 latin7", 160, &ISO_8859_13),
    ("iso885914 latin8", 160, &ISO_8859_14),
    ("iso885915 latin9", 160, &ISO_8859_15),
    ("iso885916 latin10", 160, &ISO_8859_16),
    ("koi8r", 128, &KOI8_R),
    ("koi8u", 128, &KOI8_U),
    ("windows1250 cp1250", 128, &WINDOWS_1250),
    ("windows1251 cp1251", 128, &WINDOWS_1251),
    ("windows1253 cp1253", 128, &WINDOWS_1253),
    ("windows1255 cp1255", 128, &WINDOWS_1255),
    ("windows1256 cp1256", 128, &WINDOWS_1256),
    ("windows1257 cp1257", 128, &WINDOWS_1257),
    ("windows1258 cp1258", 128, &WINDOWS_1258),
    (
        "macintosh macroman xmacroman mac csmacintosh",
        128,
        &MAC_ROMAN,
    ),
];

/// The letters, in lower case, and the digits of a name.
fn plain_name(alloc: Global, name: &str) -> Result<String, NoMemory> {
    let mut plain = String::new(alloc);
    for c in name.chars() {
        if c.is_ascii_alphanumeric() {
            plain.push(c.to_ascii_lowercase())?;
        }
    }
    Ok(plain)
}

/// Whether the word is one of those between spaces.
fn has_name(names: &str, name: &str) -> bool {
    for other in names.split(' ') {
        if other == name {
            return true;
        }
    }
    false
}

/// The character set of that name, in any case and with any hyphens. `None` if none is known that
/// has one octet for each character. The only `Err` is out of memory.
pub fn charset_named(alloc: Global, name: &str) -> Result<Option<Charset>, NoMemory> {
    let name = plain_name(alloc, name)?;
    for (names, first, chars) in CHARSETS {
        if has_name(names, name.as_str()) {
            return Ok(Some(Charset { first, chars }));
        }
    }
    Ok(None)
}

/// The character of an octet.
fn char_in(charset: Charset, octet: u8) -> char
    ensures { result ≡ char_in charset.first charset.chars.now octet }
{
    if octet < charset.first {
        return char::from(octet);
    }
    match charset.chars.get(usize::from(octet - charset.first)) {
        Some(c) => *c,
        None => char::from(octet),
    }
}

/// The text of the octets in a character set. The only `Err` is out of memory.
pub fn read_charset(alloc: Global, charset: Charset, octets: &[u8]) -> Result<String, NoMemory>
    ensures { IfOk result (λ text. string_bytes text
        ≡ encode_utf8_all (map (char_in charset.first charset.chars.now) octets.now)) }
{
    let mut text = String::new(alloc);
    for octet in octets {
        text.push(char_in(charset, *octet))?;
    }
    Ok(text)
}
