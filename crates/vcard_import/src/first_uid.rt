//! Finds the UID of a card among its logical lines.
ghost use Rattle.std.specs.Prelude.{◌≡◌, ◌<◌, ◌&&◌, ◌||◌, IfOk, IfSome, length, option_map, true};
ghost use Rattle.vcard_changes.specs.Lines.{IsUidLine};
ghost use Rattle.vcard_property.specs.SameLines.{is_same_in};
ghost use Rattle.vcard_import.specs.Delimiters.{begins_card};
ghost use Rattle.vcard_import.specs.FirstUid.{first_uid};
ghost use Rattle.vcard_import.specs.internal.Steps.{IsSpelledAt};

use crate::delimiters::begins_card;
use import_text::RawLine;
use std::alloc::Global;
use vcard_property::{Version, read_uid_line};
use vcard_text::{Line, NoMemory};

/// The UID line of a card, and the number of logical lines before it.
#[derive(Drop)]
pub(crate) struct UidLine {
    pub(crate) line: Line,
    pub(crate) index: usize,
}

/// Whether a second card begins with the logical line.
fn begins_second(begun: bool, octets: &[u8]) -> bool
    ensures { result ≡ (begun && begins_card octets.now) }
{
    begun && begins_card(octets)
}

/// Whether a card began with the logical line or before.
fn has_begun(begun: bool, octets: &[u8]) -> bool
    ensures { result ≡ (begun || begins_card octets.now) }
{
    begun || begins_card(octets)
}

/// The first logical line that spells a legal UID as it is in vCard 4.0, if no second card begins
/// before it.
pub(crate) fn first_uid(
    alloc: Global,
    raws: &[RawLine],
    version: Version,
) -> Result<Option<UidLine>, NoMemory>
    ensures line { IfOk result (λ found. option_map (λ uid. uid.line) found
        ≡ first_uid version raws.now) }
    ensures legal { IfOk result (λ found. IfSome found (λ uid. IsUidLine uid.line)) }
    ensures within { IfOk result (λ found. IfSome found (λ uid. uid.index < length raws.now)) }
    ensures spelled { IfOk result (λ found. IfSome found (λ uid.
        IsSpelledAt raws.now uid.index uid.line)) }
    ensures same { IfOk result (λ found. IfSome found (λ uid.
        is_same_in version uid.line ≡ true)) }
{
    let mut begun = false;
    for (index, raw) in raws.iter().enumerate() {
        let octets = raw.octets.as_slice();
        if begins_second(begun, octets) {
            return Ok(None);
        }
        if let Some(line) = read_uid_line(alloc, octets, version)? {
            return Ok(Some(UidLine { line, index }));
        }
        begun = has_begun(begun, octets);
    }
    Ok(None)
}
