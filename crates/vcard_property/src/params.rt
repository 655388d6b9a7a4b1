//! Reads the parameters of a property of any version.

use crate::head::split_parts;
use crate::line_parts::{make_value, with_carets};
use crate::names::legal_name;
use crate::property::{CharsetParam, Encoding, Property};
use import_text::charset_named;
use std::alloc::Global;
use vcard_text::{Items, NoMemory, Param, ParamValue};
use vcard_values::{Version, own_label_type};

fn is_word(text: &str, word: &str) -> bool {
    text.eq_ignore_ascii_case(word)
}

/// The encoding that a word names. `None` if it names none; the text is then no encoding.
fn encoding_of(word: &str) -> Option<Encoding> {
    if is_word(word, "QUOTED-PRINTABLE") {
        Some(Encoding::QuotedPrintable)
    } else if is_word(word, "BASE64") || is_word(word, "B") {
        Some(Encoding::Base64)
    } else if is_word(word, "8BIT") || is_word(word, "7BIT") {
        Some(Encoding::Plain)
    } else {
        None
    }
}

/// Reads ENCODING. An empty one says nothing. The name of one that isn't known is kept as a
/// parameter, and the value as it is encoded.
fn read_encoding(alloc: Global, property: &mut Property, name: &str) -> Result<(), NoMemory> {
    if name.is_empty() {
        return Ok(());
    }
    if let Some(encoding) = encoding_of(name) {
        property.encoding = encoding;
        return Ok(());
    }
    property.encoding = Encoding::Plain;
    if is_word(name, "8-BIT") {
        return Ok(());
    }
    add_param(alloc, property, "X-ENCODING", name)
}

/// Whether CHARSET names UTF-8.
fn is_utf8(charset: &str) -> bool {
    is_word(charset, "UTF-8") || is_word(charset, "UTF8")
}

/// Reads CHARSET. An empty one says nothing. The name of one that isn't known is kept as a
/// parameter.
fn read_charset(alloc: Global, property: &mut Property, name: &str) -> Result<(), NoMemory> {
    if name.is_empty() {
        return Ok(());
    }
    if is_utf8(name) {
        property.charset = CharsetParam::Utf8;
        return Ok(());
    }
    if is_word(name, "US-ASCII") {
        property.charset = CharsetParam::Unnamed;
        return Ok(());
    }
    match charset_named(alloc, name)? {
        Some(charset) => {
            property.charset = CharsetParam::Known(charset);
            Ok(())
        }
        None => {
            property.charset = CharsetParam::Unknown;
            add_param(alloc, property, "X-CHARSET", name)
        }
    }
}

/// Adds a value of TYPE.
fn add_type(alloc: Global, property: &mut Property, word: &str) -> Result<(), NoMemory> {
    let word = word.trim();
    if is_word(word, "PREF") {
        property.is_preferred = true;
        return Ok(());
    }
    if word.is_empty() {
        return Ok(());
    }
    let word = word.to_ascii_lowercase(alloc)?;
    property
        .types
        .push(make_value(alloc, word.as_str(), false)?)?;
    Ok(())
}

/// Adds the values of TYPE, which commas separate, also within quotes.
fn add_types(alloc: Global, property: &mut Property, words: &str) -> Result<(), NoMemory> {
    for word in words.split(',') {
        add_type(alloc, property, word.trim_matches('"'))?;
    }
    Ok(())
}

/// A value without its quotes, if it has them.
fn read_value(alloc: Global, part: &str) -> Result<ParamValue, NoMemory> {
    match part.strip_prefix('"') {
        Some(inside) => make_value(alloc, inside.trim_end_matches('"'), true),
        None => make_value(alloc, part, false),
    }
}

/// A value without its quotes, as vCard 4.0 writes it. In an older version a caret is a character
/// like any other; in vCard 4.0 it begins an escape (RFC 6868).
fn read_value_of(alloc: Global, part: &str, version: Version) -> Result<ParamValue, NoMemory> {
    if version == Version::Fourth {
        return read_value(alloc, part);
    }
    let part = with_carets(alloc, part)?;
    read_value(alloc, part.as_str())
}

/// The values of a parameter.
fn read_values(alloc: Global, text: &str, version: Version) -> Result<Items<ParamValue>, NoMemory> {
    let mut values = Items::new(alloc);
    let parts = split_parts(alloc, text, b',')?;
    for part in &parts {
        values.push(read_value_of(alloc, *part, version)?)?;
    }
    Ok(values)
}

/// Adds a parameter that vCard 4.0 has too, or that it doesn't know.
fn add_param(
    alloc: Global,
    property: &mut Property,
    name: &str,
    text: &str,
) -> Result<(), NoMemory> {
    let Some(name) = legal_name(alloc, name)? else {
        return Ok(());
    };
    let values = read_values(alloc, text, property.version)?;
    property.params.push(Param { name, values })?;
    Ok(())
}

/// Whether VALUE with the word says what vCard 4.0 takes for granted: that a property of dates has
/// a date (RFC 6350, section 6.2.5), or what the encoding says.
fn is_known_value_type(name: &str, word: &str) -> bool {
    let is_date = matches!(name, "BDAY" | "ANNIVERSARY");
    is_word(word, "BINARY")
        || is_word(word, "INLINE")
        || (is_date && (is_word(word, "DATE") || is_word(word, "DATE-TIME")))
}

/// Adds VALUE. `URL` is the old word for `uri`.
fn add_value_type(alloc: Global, property: &mut Property, word: &str) -> Result<(), NoMemory> {
    if is_word(word, "URL") || is_word(word, "URI") {
        property.is_uri = true;
        return add_param(alloc, property, "VALUE", "uri");
    }
    if is_known_value_type(property.name.as_str(), word) {
        return Ok(());
    }
    add_param(alloc, property, "VALUE", word)
}

/// Reads a parameter without a name, as vCard 2.1 has them.
fn read_bare(alloc: Global, property: &mut Property, word: &str) -> Result<(), NoMemory> {
    if let Some(encoding) = encoding_of(word) {
        property.encoding = encoding;
        return Ok(());
    }
    if is_word(word, "URL") || is_word(word, "INLINE") {
        return add_value_type(alloc, property, word);
    }
    add_types(alloc, property, word)
}

fn read_named(
    alloc: Global,
    property: &mut Property,
    name: &str,
    text: &str,
) -> Result<(), NoMemory> {
    if is_word(name, "ENCODING") {
        return read_encoding(alloc, property, text.trim_matches('"'));
    }
    if is_word(name, "CHARSET") {
        return read_charset(alloc, property, text.trim_matches('"'));
    }
    if is_word(name, "TYPE") {
        return add_types(alloc, property, text);
    }
    if is_word(name, "VALUE") {
        return add_value_type(alloc, property, text.trim_matches('"'));
    }
    add_param(alloc, property, name, text)
}

/// The name of a parameter that a parenthesis follows, as in `X-CUSTOM(a=b)`, and the text from the
/// parenthesis on. `None` if none follows, or an equals sign comes first.
fn split_parenthesis(part: &str) -> Option<(&str, &str)> {
    let place = part
        .as_bytes()
        .iter()
        .position(|octet| matches!(*octet, b'=' | b'('))?;
    let (name, text) = part.split_at_checked(place)?;
    if name.is_empty() || !text.starts_with('(') {
        return None;
    }
    Some((name, text))
}

/// Reads one parameter. A label of one's own is a value of TYPE.
pub(crate) fn read_param(
    alloc: Global,
    property: &mut Property,
    part: &str,
) -> Result<(), NoMemory> {
    if let Some(value) = own_label_type(alloc, part.as_bytes())? {
        property.types.push(value)?;
        return Ok(());
    }
    let Some((name, text)) = part.split_once('=') else {
        return read_bare(alloc, property, part);
    };
    if let Some((name, text)) = split_parenthesis(part) {
        return add_param(alloc, property, name, text);
    }
    read_named(alloc, property, name.trim(), text.trim())
}
