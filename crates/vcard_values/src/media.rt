//! The octets of pictures and sounds that logical lines have in them.
ghost use Rattle.std.specs.Prelude.{◌≡◌, IfOk};
ghost use Rattle.std.specs.Option.{option_map};
ghost use Rattle.vcard_values.specs.Media.{media_octets, says_base64, uri_octets, value_octets};
ghost use Rattle.vcard_values.specs.Media.{without_backslash};

use crate::binary::decoded_octets;
use crate::cuts::{after, before};
use base_types::NoMemory;
use import_text::begins_with_word;
use std::alloc::Global;

/// The octets without a backslash at their end.
fn without_backslash(octets: &[u8]) -> &[u8]
    ensures { result.now ≡ without_backslash octets.now }
{
    if octets.ends_with(b"\\") {
        let (front, _) = octets.split_at(octets.len() - 1);
        front
    } else {
        octets
    }
}

/// Whether what is before the comma of a `data:` URI says that base64 follows.
fn says_base64(front: &[u8]) -> bool
    ensures { result ≡ says_base64 front.now }
{
    let front = without_backslash(front);
    if front.len() < 7 {
        return false;
    }
    let (_, word) = front.split_at(front.len() - 7);
    word.eq_ignore_ascii_case(b";base64")
}

/// The octets of a `data:` URI that has base64. `None` for any other.
fn uri_octets(alloc: Global, uri: &[u8]) -> Result<Option<Vec<u8>>, NoMemory>
    ensures { IfOk result (λ found.
        option_map (λ octets. octets.items) found ≡ uri_octets uri.now) }
{
    if says_base64(before(uri, b',')) {
        decoded_octets(alloc, after(uri, b','))
    } else {
        Ok(None)
    }
}

/// The octets of a value: a `data:` URI, or base64.
fn value_octets(alloc: Global, value: &[u8]) -> Result<Option<Vec<u8>>, NoMemory>
    ensures { IfOk result (λ found.
        option_map (λ octets. octets.items) found ≡ value_octets value.now) }
{
    if begins_with_word(value, b"DATA:") {
        uri_octets(alloc, value)
    } else {
        decoded_octets(alloc, value)
    }
}

/// The octets of the picture or the sound in a logical line: those that its value has as base64, or
/// as a `data:` URI. `None` if it has none, as with another URI, or if its base64 can't be read.
/// The only `Err` is out of memory.
pub fn media_octets(alloc: Global, line: &[u8]) -> Result<Option<Vec<u8>>, NoMemory>
    ensures { IfOk result (λ found.
        option_map (λ octets. octets.items) found ≡ media_octets line.now) }
{
    value_octets(alloc, after(line, b':'))
}
