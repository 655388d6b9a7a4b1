//! Lines whose value is known, and pictures, sounds and keys in base64.
ghost use Rattle.std.specs.Prelude.{◌≡◌, IfOk};
ghost use Rattle.std.specs.Option.{option_map};
ghost use Rattle.vcard_values.specs.Values.{has_closed_quotes, has_known_text, has_known_value};
ghost use Rattle.vcard_values.specs.Values.{has_media};
ghost use Rattle.vcard_values.specs.Values.{has_open_quote, has_other_form};
ghost use Rattle.vcard_values.specs.Values.{has_plain_value, is_in_base64, is_media_name};
ghost use Rattle.vcard_values.specs.Values.{is_named_so, is_plain_name, may_be_base64};
ghost use Rattle.vcard_values.specs.Values.{may_lack_backslash};
ghost use Rattle.vcard_values.specs.Values.{media_of, names_base64};

use crate::binary::decoded_octets;
use crate::cuts::{after, has_octet};
use crate::forms::{has_clear_form, head, written_name};
use crate::value_texts::{has_clear_encoding, is_quoted, says_bare_b};
use base_types::NoMemory;
use std::alloc::Global;

/// Whether the name has only letters, digits, hyphens and dots.
fn is_plain_name(name: &[u8]) -> bool
    ensures { result ≡ is_plain_name name.now }
{
    name.iter().all(|octet| octet.is_ascii_alphanumeric() || matches!(*octet, b'-' | b'.'))
}

/// Whether the values of a property of that name have another form in vCard 4.0.
fn has_other_form(name: &[u8]) -> bool
    ensures { result ≡ has_other_form name.now }
{
    name.eq_ignore_ascii_case(b"LABEL")
        || name.eq_ignore_ascii_case(b"GEO")
        || name.eq_ignore_ascii_case(b"BDAY")
        || name.eq_ignore_ascii_case(b"ANNIVERSARY")
        || name.eq_ignore_ascii_case(b"X-ANNIVERSARY")
        || name.eq_ignore_ascii_case(b"REV")
}

/// Whether a comma of a text of that name may need a backslash that it doesn't have.
fn may_lack_backslash(name: &[u8]) -> bool
    ensures { result ≡ may_lack_backslash name.now }
{
    name.eq_ignore_ascii_case(b"FN")
        || name.eq_ignore_ascii_case(b"NOTE")
        || name.eq_ignore_ascii_case(b"TITLE")
        || name.eq_ignore_ascii_case(b"ROLE")
        || name.eq_ignore_ascii_case(b"ORG")
        || name.eq_ignore_ascii_case(b"N")
        || name.eq_ignore_ascii_case(b"ADR")
}

/// Whether the name of a line, or its group, is one whose values have another form in vCard 4.0.
fn is_named_as_other(line: &[u8]) -> bool
    ensures { result ≡ is_named_so has_other_form line.now }
{
    written_name(line)
        .split(|octet| *octet == b'.')
        .any(|name| has_other_form(name))
}

/// Whether the name of a line, or its group, is one whose values may need backslashes before
/// commas.
fn is_named_as_text(line: &[u8]) -> bool
    ensures { result ≡ is_named_so may_lack_backslash line.now }
{
    written_name(line)
        .split(|octet| *octet == b'.')
        .any(|name| may_lack_backslash(name))
}

/// Whether a quote of the octets isn't closed.
fn has_open_quote(octets: &[u8]) -> bool
    ensures { result ≡ has_open_quote octets.now }
{
    let mut is_open = false;
    for octet in octets {
        if *octet == b'"' {
            is_open = !is_open;
        }
    }
    is_open
}

/// Whether each quote of the head is closed before the next semicolon.
fn has_closed_quotes(line: &[u8]) -> bool
    ensures { result ≡ has_closed_quotes line.now }
{
    !head(line)
        .split(|octet| *octet == b';')
        .any(|part| has_open_quote(part))
}

/// Whether no character of the value is escaped in any version, or encoded.
fn has_plain_value(line: &[u8]) -> bool
    ensures { result ≡ has_plain_value line.now }
{
    let value = after(line, b':');
    !is_quoted(line)
        && !has_octet(value, b'\\')
        && (!has_octet(value, b',') || !is_named_as_text(line))
}

/// Whether the text of the value of the line is known.
pub(crate) fn has_known_text(line: &[u8]) -> bool
    ensures { result ≡ has_known_text line.now }
{
    has_octet(line, b':')
        && is_plain_name(written_name(line))
        && has_closed_quotes(line)
        && has_clear_encoding(line)
}

/// Whether the text of the value of the line is known, in a form that is clear or makes no
/// difference.
pub fn has_known_value(line: &[u8]) -> bool
    ensures { result ≡ has_known_value line.now }
{
    has_known_text(line)
        && !is_named_as_other(line)
        && (has_clear_form(line) || has_plain_value(line))
}

fn is_media_name(name: &[u8]) -> bool
    ensures { result ≡ is_media_name name.now }
{
    name.eq_ignore_ascii_case(b"PHOTO")
        || name.eq_ignore_ascii_case(b"LOGO")
        || name.eq_ignore_ascii_case(b"SOUND")
        || name.eq_ignore_ascii_case(b"KEY")
}

/// Whether a part of a head says that the value is base64.
fn names_base64(part: &[u8]) -> bool
    ensures { result ≡ names_base64 part.now }
{
    part.eq_ignore_ascii_case(b"ENCODING=B")
        || part.eq_ignore_ascii_case(b"ENCODING=BASE64")
        || part.eq_ignore_ascii_case(b"BASE64")
}

/// Whether the head says that the value is base64.
fn is_in_base64(line: &[u8]) -> bool
    ensures { result ≡ is_in_base64 line.now }
{
    head(line)
        .split(|octet| *octet == b';')
        .any(|part| names_base64(part))
}

/// Whether the head may say that the value is base64, also by the word B alone.
pub fn may_be_base64(line: &[u8]) -> bool
    ensures { result ≡ may_be_base64 line.now }
{
    is_in_base64(line) || says_bare_b(line)
}

/// Whether the line is a picture, a sound or a key, and its head says that its value is base64.
fn has_media(line: &[u8]) -> bool
    ensures { result ≡ has_media line.now }
{
    is_media_name(written_name(line)) && is_in_base64(line)
}

/// The octets of the picture, the sound or the key that the line has in it. `None` if its value
/// isn't base64.
pub fn media_of(alloc: Global, line: &[u8]) -> Result<Option<Vec<u8>>, NoMemory>
    ensures { IfOk result (λ found.
        option_map (λ octets. octets.items) found ≡ media_of line.now) }
{
    if !has_media(line) {
        return Ok(None);
    }
    decoded_octets(alloc, after(line, b':'))
}
