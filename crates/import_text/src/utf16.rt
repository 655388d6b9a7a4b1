//! UTF-16 with a byte order mark (RFC 2781, section 3.2).
ghost use Rattle.std.specs.Prelude.{◌≡◌, IfOk, string_bytes};
ghost use Rattle.std.specs.Option.{option_map};
ghost use Rattle.import_text.specs.Units.{units, split_unit, split_mark, utf16_text_of};

use base_types::NoMemory;
use std::alloc::Global;

/// The first unit, and the octets after it. `None` if there are fewer than two octets.
fn split_unit(octets: &[u8], big: bool) -> Option<(u16, &[u8])>
    ensures { option_map (λ split. (split.0, split.1.now)) result ≡ split_unit big octets.now }
{
    let (first, rest) = octets.split_first()?;
    let (second, rest) = rest.split_first()?;
    let unit = if big {
        u16::from(*first) * 256 + u16::from(*second)
    } else {
        u16::from(*second) * 256 + u16::from(*first)
    };
    Some((unit, rest))
}

/// The units of 16 bits; an odd last octet is left out.
fn read_units(alloc: Global, octets: &[u8], big: bool) -> Result<Vec<u16>, NoMemory>
    ensures { IfOk result (λ read. read.items ≡ units big octets.now) }
{
    let mut read = Vec::new(alloc);
    let mut rest = octets;
    while let Some((unit, tail)) = split_unit(rest, big) {
        read.push(unit)?;
        rest = tail;
    }
    Ok(read)
}

/// The order that the byte order mark gives, and the octets after the mark.
fn split_mark(octets: &[u8]) -> Option<(bool, &[u8])>
    ensures { option_map (λ split. (split.0, split.1.now)) result ≡ split_mark octets.now }
{
    if let Some(rest) = octets.strip_prefix(b"\xFE\xFF") {
        return Some((true, rest));
    }
    let rest = octets.strip_prefix(b"\xFF\xFE")?;
    Some((false, rest))
}

/// The text of octets that begin with a byte order mark of UTF-16, or `None` if they don't. A lone
/// surrogate becomes U+FFFD. The only `Err` is out of memory.
pub fn read_utf16(alloc: Global, octets: &[u8]) -> Result<Option<String>, NoMemory>
    ensures { IfOk result (λ text. option_map string_bytes text ≡ utf16_text_of octets.now) }
{
    let Some((big, rest)) = split_mark(octets) else {
        return Ok(None);
    };
    let units = read_units(alloc, rest, big)?;
    Ok(Some(String::from_utf16_lossy(alloc, units.as_slice())?))
}
