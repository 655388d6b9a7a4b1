//! Converts one card.
ghost use Rattle.std.specs.Prelude.{◌≡◌, ◌≢◌, ◌⊎◌, [], List, IfOk, IfErr, IsOkAnd, Err, false};
ghost use Rattle.vcard_changes.specs.declared.fault.ImportFault.TheVariants.{Memory};
ghost use Rattle.vcard_lines.specs.declared.line.Line.{Line};
ghost use Rattle.vcard_text.specs.Spelling.{Spells, without_bom};
ghost use Rattle.vcard_import.specs.Conversions.{HasCharset, IsConverted, IsRefused, has_encodings};
ghost use Rattle.vcard_import.specs.Conversions.{IsTooLong, LeavesOutIfLong};
ghost use Rattle.vcard_import.specs.LeftOut.{has_left_out};
ghost use Rattle.vcard_import.specs.internal.Steps.{AreFaultless};

use crate::card_lines::{CardLines, lines_of_card};
use crate::charsets::card_raw_lines;
use crate::faultless::card_in;
use crate::missing_lines::{add_lines, missing_lines};
use crate::version::version_of;
use std::alloc::Global;
use vcard_changes::{Change, Conversion, ImportFault};
use vcard_property::has_encoding;
use vcard_text::{CardFault, Items, Line, read_card};

/// The octets without their byte order mark, if they have one.
pub fn without_bom(octets: &[u8]) -> &[u8]
    ensures { result.now ≡ without_bom octets.now }
{
    octets.strip_prefix(b"\xEF\xBB\xBF").unwrap_or(octets)
}

/// The lines of the card, and the changes. They have no fault.
fn convert_lines(
    alloc: Global,
    octets: &[u8],
    leaves_out: bool,
) -> Result<(Items<Line>, Items<Change>), ImportFault>
    ensures refused { IfErr result (λ fault. fault ≢ Memory → HasCharset octets.now fault) }
    ensures converted { IfOk result (λ made. IsConverted octets.now made.0 made.1) }
    ensures faultless { IfOk result (λ made. AreFaultless made.0) }
    ensures whole { leaves_out ≡ false → IfOk result (λ made. has_left_out made.1 ≡ false) }
{
    let version = version_of(octets);
    let raws = card_raw_lines(alloc, octets)?;
    let CardLines {
        mut lines,
        mut changes,
        seen: _,
    } = lines_of_card(alloc, raws.as_slice(), version, leaves_out)?;
    let missing = missing_lines(alloc, octets, lines.as_slice())?;
    add_lines(&mut lines, &mut changes, missing)?;
    Ok((lines, changes))
}

/// Converts a card that would be too long with its pictures and sounds, and leaves these out.
fn convert_without_media(alloc: Global, octets: &[u8]) -> Result<Conversion, ImportFault>
    requires { IsTooLong octets.now }
    ensures converted { IfOk result (λ made. IsConverted octets.now made.card made.changes) }
    ensures refused { IfErr result (λ fault. fault ≢ Memory → IsRefused octets.now fault) }
{
    let (lines, changes) = convert_lines(alloc, octets, true)?;
    match card_in(alloc, lines) {
        Ok(card) => Ok(Conversion { card, changes }),
        Err(CardFault::Memory) => Err(ImportFault::Memory),
        Err(_) => Err(ImportFault::TooLong),
    }
}

/// Converts a card that the reader of vCard 4.0 refuses.
fn convert_refused(alloc: Global, octets: &[u8]) -> Result<Conversion, ImportFault>
    ensures converted { IfOk result (λ made. IsConverted octets.now made.card made.changes) }
    ensures left_out { IfOk result (λ made. LeavesOutIfLong octets.now made.changes) }
    ensures refused { IfErr result (λ fault. fault ≢ Memory → IsRefused octets.now fault) }
{
    let (lines, changes) = convert_lines(alloc, octets, false)?;
    match card_in(alloc, lines) {
        Ok(card) => Ok(Conversion { card, changes }),
        Err(CardFault::Memory) => Err(ImportFault::Memory),
        Err(_) => convert_without_media(alloc, octets),
    }
}

/// Whether one of the lines says how its value is encoded.
fn has_encodings(lines: &[Line]) -> bool
    ensures { result ≡ has_encodings lines.now }
{
    lines.iter().any(|line| has_encoding(line))
}

/// Converts one card of vCard 2.1, 3.0 or 4.0, from its `BEGIN:VCARD` to its `END:VCARD`, to a card
/// of vCard 4.0. A card of vCard 4.0 that the reader accepts stays as it is, unless a line has the
/// parameter ENCODING, which vCard 4.0 doesn't have.
///
/// A card whose canonical text would have more than 262,144 octets is converted without its
/// pictures and sounds. `TooLong` comes only if it would have more, also with all lines. `Charset`
/// comes only if a line names a character set. Of what a changed line becomes only its name, its
/// group and its types are proved, where they are clear, and a value that is known from its octets,
/// and a picture; so it isn't proved that no shorter or other card is refused. `Memory` comes if an
/// allocation fails. There are no other errors.
pub fn convert_card(alloc: Global, octets: &[u8]) -> Result<Conversion, ImportFault>
    // A card of vCard 4.0 that the reader accepts stays as it is, with no change, unless one of its
    // lines has an ENCODING.
    ensures same { (lines : List Line) → Spells octets.now lines → has_encodings lines ≡ false
        → result ≢ Err Memory
        → IsOkAnd result (λ made. (made.card ≡ lines) × (made.changes ≡ [])) }

    // Any other card has one line for each logical line, in order, but for those that begin or end
    // it or give its version, and those that are left out, and then the FN and the UID that it
    // lacked. The changes are those of the lines that aren't what their logical line spells. A line
    // keeps its name, its group and its types, where they are clear; a value that is known spells
    // the same, and a picture in base64 stays. The first legal UID that a line spells is the
    // card's.
    ensures converted { IfOk result (λ made.
        (Spells octets.now made.card × (made.changes ≡ []))
        ⊎ IsConverted octets.now made.card made.changes) }

    // A picture or a sound is left out only of a card that would be too long with all its lines.
    ensures left_out { IfOk result (λ made. LeavesOutIfLong octets.now made.changes) }

    // An `Err` is `Memory`, `TooLong` for lines that are a card but for their length, or `Charset`
    // for a card in which a line names a character set.
    ensures refused { IfErr result (λ fault. fault ≢ Memory → IsRefused octets.now fault) }
{
    match read_card(alloc, octets) {
        Ok(card) if !has_encodings(card.lines()) => Ok(Conversion {
            card,
            changes: Items::new(alloc),
        }),
        Ok(_) => convert_refused(alloc, octets),
        Err(CardFault::Memory) => Err(ImportFault::Memory),
        Err(_) => convert_refused(alloc, octets),
    }
}
