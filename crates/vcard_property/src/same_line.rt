//! Lines that stay as they are, since each version of vCard writes them so.
ghost use Rattle.std.specs.Prelude.{◌≡◌, ◌↔◌, IfOk, IfSome, IsTrue, true};
ghost use Rattle.vcard_property.specs.SameLines.{has_encoding, is_encoding};
ghost use Rattle.vcard_text.specs.Cards.{IsProperLine, line_is_named, is_uid};
ghost use Rattle.vcard_text.specs.Spelling.{has_no_params};
ghost use Rattle.vcard_changes.specs.Lines.{IsUidLine};
ghost use Rattle.vcard_property.specs.SameLines.{AreLine, is_plain_text};
ghost use Rattle.vcard_property.specs.SameLines.{is_same_in_all, is_same_in, same_line, uid_line};

use std::alloc::Global;
use vcard_lines::read_line;
use vcard_text::{CardFault, Line, NoMemory, Param, Part, UID_OCTETS_MAX};
use vcard_values::{Version, has_octet};

/// Whether the line has the name.
pub(crate) fn is_named(line: &Line, name: &str) -> bool
    ensures { result ≡ line_is_named name.now line.now }
{
    line.name.as_str() == name
}

/// Whether the value is a legal UID (RFC 6350, section 6.7.6, and the limit of this profile).
fn is_uid(value: &str) -> bool
    ensures { result ≡ is_uid value.now }
{
    1 <= value.len() && value.len() <= UID_OCTETS_MAX && !has_octet(value.as_bytes(), b'\t')
}

fn is_plain_text(line: &Line) -> bool
    ensures { result ≡ is_plain_text line.now }
{
    is_named(line, "UID")
        || (!has_octet(line.value.as_str().as_bytes(), b',')
            && (is_named(line, "FN")
                || is_named(line, "NOTE")
                || is_named(line, "TITLE")
                || is_named(line, "ROLE")))
}

fn has_no_params(line: &Line) -> bool
    ensures { result ≡ has_no_params line.now.params }
{
    line.params.is_empty()
}

fn is_same_in_all(line: &Line) -> bool
    ensures { result ≡ is_same_in_all line.now }
{
    has_no_params(line) && !has_octet(line.value.as_str().as_bytes(), b'\\') && is_plain_text(line)
}

/// Whether the parameter is ENCODING.
fn is_encoding(param: &Param) -> bool
    ensures { result ≡ is_encoding param.now }
{
    param.name.as_str().eq_ignore_ascii_case("ENCODING")
}

/// Whether the line has the parameter ENCODING, which vCard 4.0 doesn't have.
pub fn has_encoding(line: &Line) -> bool
    ensures { result ≡ has_encoding line.now }
{
    line.params.as_slice().iter().any(is_encoding)
}

/// Whether the version writes the line as vCard 4.0 does.
fn is_same_in(version: Version, line: &Line) -> bool
    ensures { result ≡ is_same_in version line.now }
{
    match version {
        Version::Old | Version::Third => is_same_in_all(line),
        Version::Fourth => !has_encoding(line),
    }
}

/// The line that the octets spell, if the version writes it as vCard 4.0 does. The only `Err` is
/// out of memory.
pub(crate) fn read_same_line(
    alloc: Global,
    octets: &[u8],
    version: Version,
) -> Result<Option<Line>, NoMemory>
    ensures line { IfOk result (λ line. line ≡ same_line version octets.now) }
    ensures spelled { IfOk result (λ line. IfSome line (AreLine octets.now)) }
    ensures same { IfOk result (λ line. IfSome line (λ line. is_same_in version line ≡ true)) }
    ensures proper { IfOk result (λ line. IfSome line IsProperLine) }
{
    let Ok(text) = str::from_utf8(octets) else {
        return Ok(None);
    };
    match read_line(alloc, text) {
        Ok(line) if is_same_in(version, &line) => Ok(Some(line)),
        Err(CardFault::Memory) => Err(NoMemory),
        _ => Ok(None),
    }
}

/// The line that the octets spell, if it is a legal UID and the version writes it as vCard 4.0
/// does. The only `Err` is out of memory.
pub fn read_uid_line(
    alloc: Global,
    octets: &[u8],
    version: Version,
) -> Result<Option<Line>, NoMemory>
    ensures line { IfOk result (λ line. line ≡ uid_line version octets.now) }
    ensures spelled { IfOk result (λ line. IfSome line (AreLine octets.now)) }
    ensures same { IfOk result (λ line. IfSome line (λ line. is_same_in version line ≡ true)) }
    ensures legal { IfOk result (λ line. IfSome line IsUidLine) }
{
    match read_same_line(alloc, octets, version)? {
        Some(line) if is_named(&line, "UID") && is_uid(line.value.as_str()) => Ok(Some(line)),
        _ => Ok(None),
    }
}

/// Whether the octets are UTF-8 and spell the line. The only `Err` is out of memory.
pub fn are_line(alloc: Global, octets: &[u8], line: &Line) -> Result<bool, NoMemory>
    ensures { IfOk result (λ are. IsTrue are ↔ AreLine octets.now line.now) }
{
    let Ok(text) = str::from_utf8(octets) else {
        return Ok(false);
    };
    match read_line(alloc, text) {
        Ok(spelled) => Ok(spelled.is_same(line)),
        Err(CardFault::Memory) => Err(NoMemory),
        Err(_) => Ok(false),
    }
}
