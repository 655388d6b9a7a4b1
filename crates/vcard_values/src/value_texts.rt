//! The text of the value of a logical line, if the line says in a clear way how it is encoded.
ghost use Rattle.std.specs.Prelude.{◌≡◌, ◌||◌, IfOk, OnOk, not, string_bytes};
ghost use Rattle.std.specs.Char.{is_ascii_graphic};
ghost use Rattle.std.specs.List.{list_all, list_any};
ghost use Rattle.import_text.specs.Encodings.{text_of};
ghost use Rattle.vcard_values.specs.Forms.{says};
ghost use Rattle.vcard_values.specs.ValueTexts.{charset_text, has_clear_encoding, is_b};
ghost use Rattle.vcard_values.specs.ValueTexts.{is_bare_b, may_name_encoding, names_ascii};
ghost use Rattle.vcard_values.specs.ValueTexts.{names_no_encoding, names_nothing, names_plain};
ghost use Rattle.vcard_values.specs.ValueTexts.{names_quoted, names_utf8, names_windows};
ghost use Rattle.vcard_values.specs.ValueTexts.{value_of, value_text, with_line_feeds};
ghost use Rattle.vcard_values.specs.internal.BreakLoop.{break_char, break_state};

use crate::components::decoded_value;
use crate::cuts::after;
use crate::forms::params;
use base_types::NoMemory;
use import_text::{is_encoded_as, read_text, read_windows1252};
use std::alloc::Global;

/// Whether a parameter says that the value is quoted-printable.
fn names_quoted(part: &[u8]) -> bool
    ensures { result ≡ names_quoted part.now }
{
    part.eq_ignore_ascii_case(b"ENCODING=QUOTED-PRINTABLE")
        || part.eq_ignore_ascii_case(b"QUOTED-PRINTABLE")
}

/// Whether a parameter says that the value isn't encoded.
fn names_plain(part: &[u8]) -> bool
    ensures { result ≡ names_plain part.now }
{
    part.eq_ignore_ascii_case(b"ENCODING=8BIT")
        || part.eq_ignore_ascii_case(b"ENCODING=7BIT")
        || part.eq_ignore_ascii_case(b"ENCODING=8-BIT")
}

/// Whether a parameter may say that the value isn't encoded.
fn names_no_encoding(part: &[u8]) -> bool
    ensures { result ≡ names_no_encoding part.now }
{
    is_encoded_as(part, b"8BIT") || is_encoded_as(part, b"7BIT") || is_encoded_as(part, b"8-BIT")
}

/// Whether a parameter says that the value is in UTF-8.
fn names_utf8(part: &[u8]) -> bool
    ensures { result ≡ names_utf8 part.now }
{
    part.eq_ignore_ascii_case(b"CHARSET=UTF-8") || part.eq_ignore_ascii_case(b"CHARSET=UTF8")
}

/// Whether a parameter says that the value is in ASCII.
fn names_ascii(part: &[u8]) -> bool
    ensures { result ≡ names_ascii part.now }
{
    part.eq_ignore_ascii_case(b"CHARSET=US-ASCII")
}

/// Whether a parameter names no encoding or no character set.
fn names_nothing(part: &[u8]) -> bool
    ensures { result ≡ names_nothing part.now }
{
    part.eq_ignore_ascii_case(b"ENCODING=") || part.eq_ignore_ascii_case(b"CHARSET=")
}

/// Whether a parameter says that the value is in Windows-1252, or in Latin-1.
fn names_windows(part: &[u8]) -> bool
    ensures { result ≡ names_windows part.now }
{
    part.eq_ignore_ascii_case(b"CHARSET=ISO-8859-1")
        || part.eq_ignore_ascii_case(b"CHARSET=WINDOWS-1252")
}

fn is_b(octet: u8) -> bool
    ensures { result ≡ is_b octet }
{
    matches!(octet, b'B' | b'b')
}

fn has_b(part: &[u8]) -> bool
    ensures { result ≡ list_any is_b part.now }
{
    part.iter().any(|octet| is_b(*octet))
}

/// Whether the part has no visible character of ASCII but B.
fn has_only_b(part: &[u8]) -> bool
    ensures { result ≡ list_all (λ octet. is_b octet || not (is_ascii_graphic octet)) part.now }
{
    part.iter()
        .all(|octet| is_b(*octet) || !octet.is_ascii_graphic())
}

/// Whether a parameter is the word B, perhaps with white space around it.
fn is_bare_b(part: &[u8]) -> bool
    ensures { result ≡ is_bare_b part.now }
{
    has_b(part) && has_only_b(part)
}

/// Whether a parameter says in one of the ways above how the value is encoded, or says nothing.
fn names_known(part: &[u8]) -> bool
    ensures { result ≡ (names_quoted part.now || names_plain part.now || names_utf8 part.now
        || names_ascii part.now || names_windows part.now || names_nothing part.now) }
{
    names_quoted(part)
        || names_plain(part)
        || names_utf8(part)
        || names_ascii(part)
        || names_windows(part)
        || names_nothing(part)
}

/// Whether a parameter may say how the value is encoded, in another way than those above.
fn may_name_encoding(part: &[u8]) -> bool
    ensures { result ≡ may_name_encoding part.now }
{
    !names_known(part)
        && (is_encoded_as(part, b"CHARSET")
            || is_encoded_as(part, b"ENCODING")
            || is_encoded_as(part, b"QUOTED-PRINTABLE")
            || is_encoded_as(part, b"BASE64")
            || is_bare_b(part))
}

/// Whether the line says that its value is quoted-printable.
pub(crate) fn is_quoted(line: &[u8]) -> bool
    ensures { result ≡ says names_quoted line.now }
{
    params(line)
        .split(|octet| *octet == b';')
        .any(|part| names_quoted(part))
}

/// Whether a parameter is the word B.
pub(crate) fn says_bare_b(line: &[u8]) -> bool
    ensures { result ≡ says is_bare_b line.now }
{
    params(line)
        .split(|octet| *octet == b';')
        .any(|part| is_bare_b(part))
}

fn says_no_encoding(line: &[u8]) -> bool
    ensures { result ≡ says names_no_encoding line.now }
{
    params(line)
        .split(|octet| *octet == b';')
        .any(|part| names_no_encoding(part))
}

fn says_utf8(line: &[u8]) -> bool
    ensures { result ≡ says names_utf8 line.now }
{
    params(line)
        .split(|octet| *octet == b';')
        .any(|part| names_utf8(part))
}

fn says_ascii(line: &[u8]) -> bool
    ensures { result ≡ says names_ascii line.now }
{
    params(line)
        .split(|octet| *octet == b';')
        .any(|part| names_ascii(part))
}

/// Whether the line says that its value is in Windows-1252, or in Latin-1.
fn says_windows(line: &[u8]) -> bool
    ensures { result ≡ says names_windows line.now }
{
    params(line)
        .split(|octet| *octet == b';')
        .any(|part| names_windows(part))
}

fn may_say_encoding(line: &[u8]) -> bool
    ensures { result ≡ says may_name_encoding line.now }
{
    params(line)
        .split(|octet| *octet == b';')
        .any(|part| may_name_encoding(part))
}

/// Whether it is clear how the value is encoded.
pub(crate) fn has_clear_encoding(line: &[u8]) -> bool
    ensures { result ≡ has_clear_encoding line.now }
{
    !may_say_encoding(line)
        && !(is_quoted(line) && says_no_encoding(line))
        && !((says_utf8(line) || says_ascii(line)) && says_windows(line))
}

/// Appends a character, if it isn't the second of a line break.
fn push_break(out: &mut String, is_after_return: &mut bool, c: char) -> Result<(), NoMemory>
    ensures { OnOk result (break_state (string_bytes out.new) is_after_return.new
        ≡ break_char (break_state (string_bytes out.old) is_after_return.old) c) }
{
    if c == '\r' {
        out.push('\n')?;
    } else if c != '\n' || !*is_after_return {
        out.push(c)?;
    }
    *is_after_return = c == '\r';
    Ok(())
}

/// The text with a line feed for each line break: CRLF, and CR or LF alone.
pub fn with_line_feeds(alloc: Global, text: &str) -> Result<String, NoMemory>
    ensures { IfOk result (λ new. string_bytes new ≡ with_line_feeds text.now) }
{
    let mut out = String::new(alloc);
    let mut is_after_return = false;
    for c in text.chars() {
        push_break(&mut out, &mut is_after_return, c)?;
    }
    Ok(out)
}

/// The text of octets that were quoted-printable, in the character set that the line names, or in
/// one that isn't known.
fn charset_text(alloc: Global, line: &[u8], octets: &[u8]) -> Result<String, NoMemory>
    ensures { IfOk result (λ text. string_bytes text ≡ charset_text line.now octets.now) }
{
    if says_windows(line) {
        return read_windows1252(alloc, octets);
    }
    if says_utf8(line) {
        return Ok(String::from_utf8_lossy(alloc, octets)?);
    }
    read_text(alloc, octets)
}

/// What is after the first colon of a text.
fn value_of(text: &str) -> &str
    ensures { result.now ≡ value_of text.now }
{
    match text.split_once(':') {
        Some((_, value)) => value,
        None => "",
    }
}

/// The text of the value of a line with these octets and this text.
pub fn value_text(alloc: Global, line: &[u8], text: &str) -> Result<String, NoMemory>
    ensures { text.now ≡ text_of line.now
        → IfOk result (λ value. string_bytes value ≡ value_text line.now) }
{
    let octets = after(line, b':');
    if is_quoted(line) {
        let octets = decoded_value(alloc, line, octets)?;
        let text = charset_text(alloc, line, octets.as_slice())?;
        return with_line_feeds(alloc, text.as_str());
    }
    if says_windows(line) {
        return read_windows1252(alloc, octets);
    }
    Ok(String::from_str(alloc, value_of(text))?)
}
