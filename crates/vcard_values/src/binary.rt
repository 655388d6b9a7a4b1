//! Values of base64 as `data:` URIs (RFC 6350, sections 6.2.4 and 6.8.1; RFC 2397).
ghost use Rattle.std.specs.Prelude.{◌≡◌, IfOk, IfSome, false, not, true, filter, string_bytes};
ghost use Rattle.std.specs.Option.{option_map};
ghost use Rattle.std.specs.Char.{is_ascii_whitespace};
ghost use Rattle.base_types.specs.Octets.{comma};
ghost use Rattle.vcard_values.specs.Media.{base64_octets};
ghost use Rattle.vcard_values.specs.Cuts.{has_octet};
ghost use Rattle.vcard_values.specs.Values.{IsUriOf};

use crate::cuts::has_octet;
use base_types::NoMemory;
use base64::DecodeAllocError;
use base64::engine::general_purpose::{STANDARD, STANDARD_PAD_INDIFFERENT};
use std::alloc::Global;
use vcard_lines::ParamValue;

/// The octets that aren't white space.
fn without_space(alloc: Global, text: &[u8]) -> Result<Vec<u8>, NoMemory>
    ensures { IfOk result (λ octets. octets.items
        ≡ filter (λ octet. not (is_ascii_whitespace octet)) text.now) }
{
    let mut octets = Vec::new(alloc);
    for octet in text {
        if !octet.is_ascii_whitespace() {
            octets.push(*octet)?;
        }
    }
    Ok(octets)
}

/// The octets that a text encodes in base64 (RFC 4648, section 4), with or without padding and with
/// white space anywhere. `None` if it isn't base64. The only `Err` is out of memory.
pub(crate) fn decoded_octets(alloc: Global, text: &[u8]) -> Result<Option<Vec<u8>>, NoMemory>
    ensures { IfOk result (λ decoded.
        option_map (λ octets. octets.items) decoded ≡ base64_octets text.now) }
{
    let octets = without_space(alloc, text)?;
    match STANDARD_PAD_INDIFFERENT.decode(alloc, octets.as_slice()) {
        Ok(decoded) => Ok(Some(decoded)),
        Err(DecodeAllocError::DecodeError(_)) => Ok(None),
        Err(DecodeAllocError::OutOfMemory) => Err(NoMemory),
    }
}

/// The octets that the base64 of a text encodes. `None` if it is no base64.
pub fn decoded_base64(alloc: Global, text: &str) -> Result<Option<Vec<u8>>, NoMemory>
    ensures { IfOk result (λ decoded.
        option_map (λ octets. octets.items) decoded ≡ base64_octets text.now) }
{
    decoded_octets(alloc, text.as_bytes())
}

/// The media type that a value of TYPE names for a property, if it names one. No media type has a
/// comma.
fn media_type(name: &str, word: &str) -> Option<&'static str>
    ensures { IfSome result (λ media_type. has_octet comma media_type.now ≡ false) }
{
    match (name, word) {
        ("KEY", "x509" | "pkix-cert") => Some("application/pkix-cert"),
        ("KEY", "pgp" | "pgp-keys") => Some("application/pgp-keys"),
        ("SOUND", "wave" | "wav") => Some("audio/wav"),
        ("SOUND", "basic" | "pcm") => Some("audio/basic"),
        ("PHOTO" | "LOGO", "jpg" | "jpeg") => Some("image/jpeg"),
        ("PHOTO" | "LOGO", "png") => Some("image/png"),
        ("PHOTO" | "LOGO", "gif") => Some("image/gif"),
        ("PHOTO" | "LOGO", "bmp") => Some("image/bmp"),
        ("PHOTO" | "LOGO", "tiff") => Some("image/tiff"),
        ("PHOTO" | "LOGO", "webp") => Some("image/webp"),
        ("PHOTO" | "LOGO", "heic") => Some("image/heic"),
        ("PHOTO" | "LOGO", "svg" | "svg+xml") => Some("image/svg+xml"),
        _ => None,
    }
}

/// Whether the text has only characters that media types have (RFC 6838, section 4.2).
fn are_media_chars(text: &str) -> bool {
    text.chars().all(|c| c.is_ascii_alphanumeric() || matches!(c, '/' | '.' | '+' | '-' | '_'))
}

/// Whether the word is a media type that a value of the property may have.
fn is_media_type(name: &str, word: &str) -> bool
    ensures { result ≡ true → has_octet comma word.now ≡ false }
{
    let start = match name {
        "PHOTO" | "LOGO" => "image/",
        "SOUND" => "audio/",
        _ => "application/",
    };
    word.len() > start.len()
        && word.starts_with(start)
        && are_media_chars(word)
        && !has_octet(word.as_bytes(), b',')
}

/// The media type for a word of TYPE, which may be a whole media type, as image/jpeg.
fn media_type_of<'a>(name: &str, word: &'a str) -> Option<&'a str>
    ensures { IfSome result (λ media_type. has_octet comma media_type.now ≡ false) }
{
    let format = match word.rsplit_once('/') {
        Some((_, format)) => format,
        None => word,
    };
    if let Some(media_type) = media_type(name, format) {
        return Some(media_type);
    }
    if is_media_type(name, word) {
        return Some(word);
    }
    None
}

/// Whether the octets begin as those of WebP do (RFC 9649, section 2.3).
fn is_webp(octets: &[u8]) -> bool {
    octets.starts_with(b"RIFF") && octets.get(8..12) == Some(b"WEBP".as_slice())
}

/// The media type of an image by its first octets, if they are those of a known format.
fn image_type(octets: &[u8]) -> Option<&'static str>
    ensures { IfSome result (λ media_type. has_octet comma media_type.now ≡ false) }
{
    if octets.starts_with(b"\xFF\xD8\xFF") {
        Some("image/jpeg")
    } else if octets.starts_with(b"\x89PNG") {
        Some("image/png")
    } else if octets.starts_with(b"GIF8") {
        Some("image/gif")
    } else if is_webp(octets) {
        Some("image/webp")
    } else {
        None
    }
}

/// The media type of a value: the one that a value of TYPE names, or else that of its first octets.
fn media_type_in<'a>(name: &str, types: &'a [ParamValue], octets: &[u8]) -> &'a str
    ensures { has_octet comma result.now ≡ false }
{
    for value in types {
        if let Some(media_type) = media_type_of(name, value.text.as_str()) {
            return media_type;
        }
    }
    match name {
        "PHOTO" | "LOGO" => image_type(octets).unwrap_or("application/octet-stream"),
        "SOUND" => "audio/basic",
        _ => "application/octet-stream",
    }
}

/// Whether a value of TYPE names the format of a value, and no longer belongs to TYPE in a `data:`
/// URI.
pub fn is_format(name: &str, word: &str) -> bool {
    media_type_of(name, word).is_some()
}

/// The `data:` URI of the octets: a media type, and their base64.
pub fn data_uri(
    alloc: Global,
    name: &str,
    types: &[ParamValue],
    octets: &[u8],
) -> Result<String, NoMemory>
    ensures { IfOk result (λ uri. IsUriOf octets.now (string_bytes uri)) }
{
    let mut uri = String::from_str(alloc, "data:")?;
    uri.push_str(media_type_in(name, types, octets))?;
    uri.push_str(";base64,")?;
    STANDARD.encode_string(octets, &mut uri)?;
    Ok(uri)
}
