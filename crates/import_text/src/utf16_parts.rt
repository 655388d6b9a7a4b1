//! UTF-16 in parts (RFC 2781).
ghost use Rattle.std.specs.Prelude.{◌≡◌, ◌≤◌, ◌++◌, ℕ, List, IfOk, drop, length, take};
ghost use Rattle.std.specs.Char.Utf16.{is_high_surrogate};
ghost use Rattle.import_text.specs.Units.{unit_of};
ghost use Rattle.import_text.specs.Texts.{mark_order, utf16_octets};
ghost use Rattle.import_text.specs.internal.Units.{mark_of};

use crate::filling::joined;
use crate::read_utf16;
use base_types::NoMemory;
use std::alloc::Global;

/// Whether the first octet of each unit is the greater half, if the octets begin with a byte order
/// mark of UTF-16.
pub(crate) fn mark_order(octets: &[u8]) -> Option<bool>
    ensures { result ≡ mark_order octets.now }
{
    if octets.strip_prefix(b"\xFE\xFF").is_some() {
        return Some(true);
    }
    if octets.strip_prefix(b"\xFF\xFE").is_some() {
        return Some(false);
    }
    None
}

/// The byte order mark.
fn mark_of(is_big: bool) -> &'static [u8]
    ensures { result.now ≡ mark_of is_big }
{
    if is_big { b"\xFE\xFF" } else { b"\xFF\xFE" }
}

/// The text, in UTF-8, of octets without a mark. The only `Err` is out of memory.
pub(crate) fn decode(alloc: Global, is_big: bool, octets: &[u8]) -> Result<Vec<u8>, NoMemory>
    ensures { IfOk result (λ text. text.items ≡ utf16_octets is_big octets.now) }
{
    let marked = joined(alloc, mark_of(is_big), octets)?;
    match read_utf16(alloc, marked.as_slice())? {
        Some(text) => Ok(text.into_bytes()),
        None => Ok(Vec::new(alloc)),
    }
}

/// The unit of two octets.
fn unit_of(is_big: bool, first: u8, second: u8) -> u16
    ensures { result ≡ unit_of is_big first second }
{
    if is_big {
        u16::from(first) * 256 + u16::from(second)
    } else {
        u16::from(second) * 256 + u16::from(first)
    }
}

/// Whether the unit is the first half of a character.
fn is_high(unit: u16) -> bool
    ensures { result ≡ is_high_surrogate unit }
{
    0xD800 <= unit && unit < 0xDC00
}

/// The number of octets at the front whose text doesn't depend on those that come after them: whole
/// units, the last of which is no first half of a character.
pub(crate) fn whole_len(is_big: bool, octets: &[u8]) -> usize
    ensures within { result ≤ length octets.now }

    // The text of the octets and any others is that of the front, and then that of the rest.
    ensures apart { (more : List ℕ) → utf16_octets is_big (octets.now ++ more)
        ≡ utf16_octets is_big (take result octets.now)
        ++ utf16_octets is_big (drop result octets.now ++ more) }
{
    let units = octets.len() / 2;
    if units == 0 {
        return 0;
    }
    let before = (units - 1) * 2;
    if is_high(unit_of(is_big, octets[before], octets[before + 1])) {
        before
    } else {
        before + 2
    }
}
