//! Quoted-printable octets (RFC 2045, section 6.7), whose soft line breaks were joined before.

ghost use Rattle.std.specs.Prelude.{◌≡◌, IfOk};
ghost use Rattle.std.specs.Option.{option_map};
ghost use Rattle.import_text.specs.QuotedPrintable.{quoted_printable, hex_value};
ghost use Rattle.import_text.specs.internal.EscapeSteps.{split_escape, split_octet};

use base_types::NoMemory;
use std::alloc::Global;

/// The value of a hexadecimal digit, in either case.
fn hex_value(digit: u8) -> Option<u8>
    ensures { result ≡ hex_value digit }
{
    match digit {
        b'0'..=b'9' => Some(digit - b'0'),
        b'A'..=b'F' => Some(digit - b'A' + 10),
        b'a'..=b'f' => Some(digit - b'a' + 10),
        _ => None,
    }
}

/// The octet that an equals sign and two digits give, and the octets after them.
fn split_escape(octets: &[u8]) -> Option<(u8, &[u8])>
    ensures { option_map (λ split. (split.0, split.1.now)) result ≡ split_escape octets.now }
{
    let rest = octets.strip_prefix(b"=")?;
    let (high, rest) = rest.split_first()?;
    let (low, rest) = rest.split_first()?;
    let high = hex_value(*high)?;
    let low = hex_value(*low)?;
    Some((high * 16 + low, rest))
}

/// The first octet that is encoded, and the octets after it. `None` if there are none.
fn split_octet(octets: &[u8]) -> Option<(u8, &[u8])>
    ensures { option_map (λ split. (split.0, split.1.now)) result ≡ split_octet octets.now }
{
    if let Some(split) = split_escape(octets) {
        return Some(split);
    }
    let (first, rest) = octets.split_first()?;
    Some((*first, rest))
}

/// The octets that quoted-printable octets encode: each equals sign with two hexadecimal digits, in
/// either case, is the octet of that number, and any other octet is itself. The only `Err` is out
/// of memory.
pub fn read_quoted_printable(alloc: Global, octets: &[u8]) -> Result<Vec<u8>, NoMemory>
    ensures { IfOk result (λ read. read.items ≡ quoted_printable octets.now) }
{
    let mut read = Vec::new(alloc);
    let mut rest = octets;
    while let Some((octet, tail)) = split_octet(rest) {
        read.push(octet)?;
        rest = tail;
    }
    Ok(read)
}
