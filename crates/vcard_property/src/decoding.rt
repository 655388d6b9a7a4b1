//! Decodes the value of a property: quoted-printable, base64 of a text, and what CHARSET names.
ghost use Rattle.std.specs.Prelude.{◌≡◌, true, codes, IfOk, IfSome};
ghost use Rattle.import_text.specs.RawLines.{is_encoded_as};

use crate::head::after_head;
use crate::names::is_binary_name;
use crate::property::{CharsetParam, Encoding, Property, read_property};
use import_text::{is_encoded_as, read_charset, read_quoted_printable, read_text};
use std::alloc::Global;
use vcard_text::{NoMemory, Text};
use vcard_values::{Version, decoded_base64, decoded_value, with_line_feeds};

/// The text of octets that were encoded. In UTF-8, U+FFFD stands for what is no character. Those of
/// a character set that isn't known are read as if it weren't named.
fn text_in(alloc: Global, octets: &[u8], charset: CharsetParam) -> Result<String, NoMemory> {
    match charset {
        CharsetParam::Known(charset) => read_charset(alloc, charset, octets),
        CharsetParam::Utf8 => Ok(String::from_utf8_lossy(alloc, octets)?),
        CharsetParam::Unnamed | CharsetParam::Unknown => read_text(alloc, octets),
    }
}

/// The text that octets encode which were decoded.
fn decoded_text(alloc: Global, octets: &[u8], charset: CharsetParam) -> Result<String, NoMemory> {
    let text = text_in(alloc, octets, charset)?;
    with_line_feeds(alloc, text.as_str())
}

/// The text of a base64 value, if it is one: the property has no binary values, and the octets are
/// UTF-8 or have a character set.
fn base64_text(alloc: Global, property: &Property) -> Result<Option<String>, NoMemory> {
    if is_binary_name(property.name.as_str()) {
        return Ok(None);
    }
    let Some(octets) = decoded_base64(alloc, property.value.as_str())? else {
        return Ok(None);
    };
    let is_known = matches!(property.charset, CharsetParam::Known(_));
    if !is_known && str::from_utf8(octets.as_slice()).is_err() {
        return Ok(None);
    }
    Ok(Some(decoded_text(alloc, octets.as_slice(), property.charset)?))
}

/// The text of the value of a line, if it isn't the one that the property has.
fn value_text(alloc: Global, property: &Property, line: &[u8]) -> Result<Option<String>, NoMemory> {
    let octets = after_head(line);
    match property.encoding {
        Encoding::Plain => match property.charset {
            CharsetParam::Known(charset) => Ok(Some(read_charset(alloc, charset, octets)?)),
            CharsetParam::Unnamed | CharsetParam::Utf8 | CharsetParam::Unknown => Ok(None),
        },
        Encoding::QuotedPrintable => {
            let octets = decoded_value(alloc, line, octets)?;
            Ok(Some(decoded_text(alloc, octets.as_slice(), property.charset)?))
        }
        Encoding::Base64 => base64_text(alloc, property),
    }
}

/// Decodes the value of the property of a line, unless it is binary.
pub(crate) fn decode(alloc: Global, property: &mut Property, line: &[u8]) -> Result<(), NoMemory> {
    if let Some(text) = value_text(alloc, property, line)? {
        property.value = Text::new(text);
        property.encoding = Encoding::Plain;
    }
    Ok(())
}

/// Whether each of the octets is a character in any character set: one of ASCII, but for the
/// escape, which begins other characters in ISO/IEC 2022.
fn are_plain(octets: &[u8]) -> bool {
    octets.iter().all(|octet| *octet < 128 && *octet != 0x1B)
}

/// Whether the value of a property of a character set that isn't known has an octet that depends on
/// the set.
fn depends_on_charset(alloc: Global, property: &Property, octets: &[u8]) -> Result<bool, NoMemory> {
    match property.encoding {
        Encoding::Plain => Ok(!are_plain(octets)),
        Encoding::QuotedPrintable => {
            let octets = read_quoted_printable(alloc, octets)?;
            Ok(!are_plain(octets.as_slice()))
        }
        Encoding::Base64 => Ok(false),
    }
}

/// The name of a character set in a parameter that keeps it.
fn charset_name(alloc: Global, property: &Property) -> Result<Text, NoMemory> {
    for param in property.params.as_slice() {
        if param.name.as_str() == "X-CHARSET" {
            if let Some(value) = param.values.as_slice().first() {
                return value.text.try_copy();
            }
        }
    }
    Ok(Text::new(String::new(alloc)))
}

/// The name of the character set of a line, if it isn't known and the text of the value depends on
/// it. The only `Err` is out of memory.
pub fn unknown_charset(
    alloc: Global,
    line: &[u8],
    version: Version,
) -> Result<Option<Text>, NoMemory>
    // The head of the line has the word CHARSET.
    ensures { IfOk result (λ found. IfSome found (λ _.
        is_encoded_as (codes "CHARSET") line.now ≡ true)) }
{
    if !is_encoded_as(line, b"CHARSET") {
        return Ok(None);
    }
    let text = read_text(alloc, line)?;
    let Some(property) = read_property(alloc, text.as_str(), version)? else {
        return Ok(None);
    };
    if !matches!(property.charset, CharsetParam::Unknown)
        || !depends_on_charset(alloc, &property, after_head(line))?
    {
        return Ok(None);
    }
    Ok(Some(charset_name(alloc, &property)?))
}
