//! How the value of a logical line is written: as a text or as a URI, and whether its commas are
//! parts of the text.
ghost use Rattle.std.specs.Prelude.{◌≡◌, ◌∷◌};
ghost use Rattle.std.specs.List.{list_all};
ghost use Rattle.base_types.specs.Octets.{dot};
ghost use Rattle.import_text.specs.RawLines.{head};
ghost use Rattle.vcard_values.specs.Forms.{commas_are_text, ends_with_word, has_clear_form};
ghost use Rattle.vcard_values.specs.Forms.{has_components, has_parts, has_scheme, has_uri};
ghost use Rattle.vcard_values.specs.Forms.{is_in_words, is_old, is_property, is_scheme_octet};
ghost use Rattle.vcard_values.specs.Forms.{is_text_property, is_uri_property, may_name_form};
ghost use Rattle.vcard_values.specs.Forms.{names_text, names_uri, params, says, value_form};
ghost use Rattle.vcard_values.specs.Forms.{written_name};
ghost use Rattle.vcard_values.specs.internal.UriNames.{is_link_property, is_name_property};

use crate::cuts::{after, before, has_octet};
use crate::escapes::{TextForm, ValueForm};
use crate::version::Version;
use import_text::is_encoded_as;

/// The octets before the first colon.
pub(crate) fn head(line: &[u8]) -> &[u8]
    ensures { result.now ≡ head line.now }
{
    before(line, b':')
}

/// The name of a property with its group, as the line has it.
pub fn written_name(line: &[u8]) -> &[u8]
    ensures { result.now ≡ written_name line.now }
{
    before(head(line), b';')
}

/// The parameters, as the line has them.
pub fn params(line: &[u8]) -> &[u8]
    ensures { result.now ≡ params line.now }
{
    after(head(line), b';')
}

/// Whether the octets end with a dot and the word, in any case.
fn ends_with_word(octets: &[u8], word: &[u8]) -> bool
    ensures { result ≡ ends_with_word (dot ∷ word.now) octets.now }
{
    if octets.len() <= word.len() {
        return false;
    }
    let (_, end) = octets.split_at(octets.len() - word.len() - 1);
    match end.split_first() {
        Some((first, rest)) => *first == b'.' && rest.eq_ignore_ascii_case(word),
        None => false,
    }
}

/// Whether the property has the name, with or without a group.
pub fn is_property(line: &[u8], name: &[u8]) -> bool
    ensures { result ≡ is_property name.now line.now }
{
    let written = written_name(line);
    written.eq_ignore_ascii_case(name) || ends_with_word(written, name)
}

/// Whether the property is a link.
fn is_link_property(line: &[u8]) -> bool
    ensures { result ≡ is_link_property line.now }
{
    is_property(line, b"URL")
        || is_property(line, b"SOURCE")
        || is_property(line, b"IMPP")
        || is_property(line, b"FBURL")
        || is_property(line, b"CALURI")
}

/// Whether the property is a link, or names a card or a calendar.
fn is_name_property(line: &[u8]) -> bool
    ensures { result ≡ is_name_property line.now }
{
    is_link_property(line)
        || is_property(line, b"CALADRURI")
        || is_property(line, b"UID")
        || is_property(line, b"MEMBER")
        || is_property(line, b"X-ADDRESSBOOKSERVER-MEMBER")
        || is_property(line, b"RELATED")
}

/// Whether the values of the property are URIs or the like.
fn is_uri_property(line: &[u8]) -> bool
    ensures { result ≡ is_uri_property line.now }
{
    is_name_property(line)
        || is_property(line, b"PHOTO")
        || is_property(line, b"LOGO")
        || is_property(line, b"SOUND")
        || is_property(line, b"KEY")
}

/// Whether the value of the property is one text.
fn is_text_property(line: &[u8]) -> bool
    ensures { result ≡ is_text_property line.now }
{
    is_property(line, b"FN")
        || is_property(line, b"NOTE")
        || is_property(line, b"TITLE")
        || is_property(line, b"ROLE")
        || is_property(line, b"ORG")
}

/// Whether the value of the property has components.
fn has_components(line: &[u8]) -> bool
    ensures { result ≡ has_components line.now }
{
    is_property(line, b"N") || is_property(line, b"ADR")
}

/// Whether semicolons part the value of the property.
pub(crate) fn has_parts(line: &[u8]) -> bool
    ensures { result ≡ has_parts line.now }
{
    has_components(line) || is_property(line, b"ORG")
}

/// Whether a parameter says that the value is a URI.
fn names_uri(part: &[u8]) -> bool
    ensures { result ≡ names_uri part.now }
{
    part.eq_ignore_ascii_case(b"VALUE=URI")
        || part.eq_ignore_ascii_case(b"VALUE=URL")
        || part.eq_ignore_ascii_case(b"URL")
}

/// Whether a parameter says that the value is a text.
fn names_text(part: &[u8]) -> bool
    ensures { result ≡ names_text part.now }
{
    part.eq_ignore_ascii_case(b"VALUE=TEXT")
}

/// Whether a parameter may say that the value is a URI or a text, in another way.
fn may_name_form(part: &[u8]) -> bool
    ensures { result ≡ may_name_form part.now }
{
    !(names_uri(part) || names_text(part))
        && (is_encoded_as(part, b"URL")
            || (is_encoded_as(part, b"VALUE")
                && (is_encoded_as(part, b"URI") || is_encoded_as(part, b"TEXT"))))
}

/// Whether a parameter says that the value is a URI.
pub fn says_uri(line: &[u8]) -> bool
    ensures { result ≡ says names_uri line.now }
{
    params(line)
        .split(|octet| *octet == b';')
        .any(|part| names_uri(part))
}

pub(crate) fn says_text(line: &[u8]) -> bool
    ensures { result ≡ says names_text line.now }
{
    params(line)
        .split(|octet| *octet == b';')
        .any(|part| names_text(part))
}

fn may_say_form(line: &[u8]) -> bool
    ensures { result ≡ says may_name_form line.now }
{
    params(line)
        .split(|octet| *octet == b';')
        .any(|part| may_name_form(part))
}

/// Whether what the line says of the form of its value is clear.
pub fn has_clear_form(line: &[u8]) -> bool
    ensures { result ≡ has_clear_form line.now }
{
    !may_say_form(line)
}

fn is_scheme_octet(octet: u8) -> bool
    ensures { result ≡ is_scheme_octet octet }
{
    octet.is_ascii_alphanumeric() || matches!(octet, b'-' | b'.' | b'+')
}

fn are_scheme_octets(octets: &[u8]) -> bool
    ensures { result ≡ list_all is_scheme_octet octets.now }
{
    octets.iter().all(|octet| is_scheme_octet(*octet))
}

/// Whether the value begins as a URI does: with the octets of a scheme and a colon.
pub fn has_scheme(value: &[u8]) -> bool
    ensures { result ≡ has_scheme value.now }
{
    let scheme = before(value, b':');
    has_octet(value, b':') && !scheme.is_empty() && are_scheme_octets(scheme)
}

/// Whether the value is a person in words (RFC 6350, section 6.6.6).
fn is_in_words(line: &[u8]) -> bool
    ensures { result ≡ is_in_words line.now }
{
    is_property(line, b"RELATED") && !has_scheme(after(line, b':'))
}

/// Whether the value is a URI or the like.
fn has_uri(line: &[u8]) -> bool
    ensures { result ≡ has_uri line.now }
{
    says_uri(line) || (is_uri_property(line) && !(says_text(line) || is_in_words(line)))
}

/// Whether a comma is a part of the text.
fn commas_are_text(version: Version, line: &[u8]) -> bool
    ensures { result ≡ commas_are_text version line.now }
{
    match version {
        Version::Old => is_text_property(line) || has_components(line),
        Version::Third => is_text_property(line),
        Version::Fourth => false,
    }
}

fn is_old(version: Version) -> bool
    ensures { result ≡ is_old version }
{
    match version {
        Version::Old => true,
        Version::Third | Version::Fourth => false,
    }
}

/// How the value of a line of that version is written.
pub fn value_form(version: Version, line: &[u8]) -> ValueForm
    ensures { result ≡ value_form version line.now }
{
    if has_uri(line) {
        return ValueForm::Uri;
    }
    ValueForm::Text(TextForm {
        commas_are_text: commas_are_text(version, line),
        is_old: is_old(version),
    })
}
