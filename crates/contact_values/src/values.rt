//! Values of properties that take only some texts (RFC 6350, section 6).

use crate::exchange::is_exchange_address;
use base_types::NoMemory;
use std::alloc::Global;
use vcard_lines::escape;

/// The words for the sexes of a vCard in a cell of genders (section 6.2.7).
const SEXES: &[(&str, &str)] = &[
    ("m", "M"),
    ("male", "M"),
    ("männlich", "M"),
    ("masculin", "M"),
    ("f", "F"),
    ("w", "F"),
    ("female", "F"),
    ("weiblich", "F"),
    ("féminin", "F"),
];

/// The sex that a text names; empty if it names none.
fn sex_of(text: &str) -> &'static str {
    for (word, sex) in SEXES {
        if word.eq_ignore_ascii_case(text) {
            return *sex;
        }
    }
    ""
}

/// The value of GENDER: a sex alone, or with the text of the cell after it.
pub(crate) fn gender_value(alloc: Global, text: &str) -> Result<String, NoMemory> {
    if matches!(text, "M" | "F" | "O" | "N" | "U") {
        return Ok(String::from_str(alloc, text)?);
    }
    let sex = sex_of(text);
    let text = escape(alloc, text)?;
    let text = text.as_str();
    Ok(format!(in alloc; "{sex};{text}")?)
}

fn is_tag_char(c: char) -> bool {
    c.is_ascii_alphanumeric() || c == '-'
}

/// Whether the text has the form of a language tag, as `de` or `en-GB` (RFC 5646, section 2.1).
fn is_language_tag(text: &str) -> bool {
    let first = match text.split_once('-') {
        Some((first, _)) => first,
        None => text,
    };
    let len = first.len();
    len >= 2 && len <= 3 && text.chars().all(is_tag_char)
}

fn is_scheme_char(c: char) -> bool {
    is_tag_char(c) || c == '+' || c == '.'
}

/// Whether the text has the form of a URI, as `xmpp:ann@example.com` (RFC 3986, section 3).
fn is_uri(text: &str) -> bool {
    match text.split_once(':') {
        Some((scheme, rest)) => {
            // One letter is the drive of a path in Windows.
            let is_scheme = scheme.len() > 1 && scheme.chars().all(is_scheme_char);
            is_scheme && !rest.is_empty() && !rest.contains(" ")
        }
        None => false,
    }
}

/// Whether the text has one `@`, as an address of electronic mail has.
fn is_mail_address(text: &str) -> bool {
    match text.split_once('@') {
        Some((_, domain)) => !domain.contains("@"),
        None => false,
    }
}

/// Whether a line of the property can have the text as its value.
pub(crate) fn takes_text(property: &str, text: &str) -> bool {
    match property {
        "LANG" => is_language_tag(text),
        "IMPP" | "PHOTO" | "FBURL" => is_uri(text),
        "EMAIL" => is_mail_address(text) && !is_exchange_address(text),
        "TEL" => text.chars().any(|c| c.is_numeric()),
        _ => true,
    }
}
