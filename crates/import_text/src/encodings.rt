//! Octets as text: UTF-8 where they are, if only in part, and otherwise Windows-1252, which extends
//! Latin-1 (ISO/IEC 8859-1).
ghost use Rattle.std.specs.Prelude.{◌≡◌, IfOk, count_by, map, string_bytes};
ghost use Rattle.std.specs.Str.{chars, encode_utf8_all, is_utf8};
ghost use Rattle.std.specs.Str.Lossy.{utf8_lossy};
ghost use Rattle.import_text.specs.Encodings.{damaged_text, is_guessed, is_lost, is_mostly_read};
ghost use Rattle.import_text.specs.Encodings.{is_wide, windows_char, text_of};

use crate::charsets::{Charset, read_charset};
use base_types::NoMemory;
use std::alloc::Global;

/// The characters of Windows-1252 for the octets 128 to 159. U+FFFD stands for an octet without a
/// character.
pub(crate) const WINDOWS_1252: [char; 32] = [
    '\u{20AC}', '\u{FFFD}', '\u{201A}', '\u{192}', '\u{201E}', '\u{2026}', '\u{2020}', '\u{2021}',
    '\u{2C6}', '\u{2030}', '\u{160}', '\u{2039}', '\u{152}', '\u{FFFD}', '\u{17D}', '\u{FFFD}',
    '\u{FFFD}', '\u{2018}', '\u{2019}', '\u{201C}', '\u{201D}', '\u{2022}', '\u{2013}', '\u{2014}',
    '\u{2DC}', '\u{2122}', '\u{161}', '\u{203A}', '\u{153}', '\u{FFFD}', '\u{17E}', '\u{178}',
];

/// The text whose characters are those of the octets in Windows-1252. So Latin-1 (ISO/IEC 8859-1)
/// is read too, but for its control characters. The only `Err` is out of memory.
pub fn read_windows1252(alloc: Global, octets: &[u8]) -> Result<String, NoMemory>
    ensures { IfOk result (λ text. string_bytes text
        ≡ encode_utf8_all (map windows_char octets.now)) }
{
    let charset = Charset {
        first: 128,
        chars: &WINDOWS_1252,
    };
    read_charset(alloc, charset, octets)
}

/// Whether the character is U+FFFD, which stands for what is no character.
fn is_lost(c: char) -> bool
    ensures { result ≡ is_lost c }
{
    c == '\u{FFFD}'
}

/// Whether the character isn't ASCII, and isn't lost.
fn is_wide(c: char) -> bool
    ensures { result ≡ is_wide c }
{
    c >= '\u{80}' && !is_lost(c)
}

/// How many characters of the text are lost.
#[tactic(auto, using(std::proofs::lemmas::Str::chars_from_encodes))]
fn count_lost(text: &str) -> usize
    ensures { result ≡ count_by is_lost (chars text.now) }
{
    text.chars().filter(|c| is_lost(*c)).count()
}

/// How many characters of the text aren't ASCII, and aren't lost.
#[tactic(auto, using(std::proofs::lemmas::Str::chars_from_encodes))]
fn count_wide(text: &str) -> usize
    ensures { result ≡ count_by is_wide (chars text.now) }
{
    text.chars().filter(|c| is_wide(*c)).count()
}

/// Whether more characters of the text aren't ASCII than are lost.
fn is_mostly_read(text: &str) -> bool
    ensures { result ≡ is_mostly_read text.now }
{
    count_lost(text) < count_wide(text)
}

fn is_utf8(octets: &[u8]) -> bool
    ensures { result ≡ is_utf8 octets.now }
{
    match str::from_utf8(octets) {
        Ok(_) => true,
        Err(_) => false,
    }
}

/// Whether more characters of the text of the octets aren't ASCII than are lost.
fn are_mostly_read(alloc: Global, octets: &[u8]) -> Result<bool, NoMemory>
    ensures { IfOk result (λ mostly. mostly ≡ is_mostly_read (utf8_lossy octets.now)) }
{
    let text = String::from_utf8_lossy(alloc, octets)?;
    Ok(is_mostly_read(text.as_str()))
}

/// Whether the octets aren't UTF-8, and `read_text` takes them for Windows-1252. The only `Err` is
/// out of memory.
pub fn is_guessed(alloc: Global, octets: &[u8]) -> Result<bool, NoMemory>
    ensures { IfOk result (λ guessed. guessed ≡ is_guessed octets.now) }
{
    if is_utf8(octets) {
        return Ok(false);
    }
    Ok(!are_mostly_read(alloc, octets)?)
}

/// The text of octets that aren't UTF-8: that of UTF-8 which was damaged, or of Windows-1252.
fn read_damaged(alloc: Global, octets: &[u8]) -> Result<String, NoMemory>
    ensures { IfOk result (λ text. string_bytes text ≡ damaged_text octets.now) }
{
    let text = String::from_utf8_lossy(alloc, octets)?;
    if is_mostly_read(text.as_str()) {
        return Ok(text);
    }
    read_windows1252(alloc, octets)
}

/// The text of the octets: themselves if they are UTF-8. If they aren't, U+FFFD stands for what is no
/// character of it; but if these are as many as its characters that aren't ASCII, the octets are read
/// as Windows-1252. The only `Err` is out of memory.
pub fn read_text(alloc: Global, octets: &[u8]) -> Result<String, NoMemory>
    ensures { IfOk result (λ text. string_bytes text ≡ text_of octets.now) }
{
    match str::from_utf8(octets) {
        Ok(text) => Ok(String::from_str(alloc, text)?),
        Err(_) => read_damaged(alloc, octets),
    }
}
