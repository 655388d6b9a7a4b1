//! The logical lines of a card, unless the text of one of them can't be read.
ghost use Rattle.std.specs.Prelude.{◌≡◌, ◌≢◌, true, codes, IfErr, IfOk, IfSome};
ghost use Rattle.std.specs.List.{list_any};
ghost use Rattle.import_text.specs.RawLines.{is_encoded_as};
ghost use Rattle.vcard_import.specs.Conversions.{HasCharset, card_raw_lines, has_charset};
ghost use Rattle.vcard_changes.specs.declared.fault.ImportFault.TheVariants.{Memory};

use crate::conversion::without_bom;
use crate::ends::without_end;
use crate::folds::folding_of;
use crate::version::version_of;
use import_text::{RawLine, read_raw_lines};
use std::alloc::Global;
use vcard_changes::ImportFault;
use vcard_property::{Version, unknown_charset};
use vcard_text::{NoMemory, Text};

/// The name of the first character set that isn't known, if a value depends on it.
#[tactic(auto, using(std::proofs::lemmas::List::Folds::list_any_at))]
fn first_unknown(
    alloc: Global,
    raws: &[RawLine],
    version: Version,
) -> Result<Option<Text>, NoMemory>
    ensures { IfOk result (λ found. IfSome found (λ _. list_any has_charset raws.now ≡ true)) }
{
    for raw in raws {
        if let Some(name) = unknown_charset(alloc, raw.octets.as_slice(), version)? {
            return Ok(Some(name));
        }
    }
    Ok(None)
}

/// The logical lines of the octets. The only `Err` is out of memory.
pub(crate) fn all_raw_lines(alloc: Global, octets: &[u8]) -> Result<Vec<RawLine>, NoMemory>
    ensures { IfOk result (λ raws. raws.items ≡ card_raw_lines octets.now) }
{
    let lines = without_end(without_bom(octets));
    let folding = folding_of(alloc, octets)?;
    read_raw_lines(alloc, lines, folding)
}

/// The logical lines of the octets, if the text of each is known.
pub(crate) fn card_raw_lines(alloc: Global, octets: &[u8]) -> Result<Vec<RawLine>, ImportFault>
    ensures lines { IfOk result (λ raws. raws.items ≡ card_raw_lines octets.now) }
    ensures refused { IfErr result (λ fault. fault ≢ Memory → HasCharset octets.now fault) }
{
    let version = version_of(octets);
    let raws = all_raw_lines(alloc, octets)?;
    match first_unknown(alloc, raws.as_slice(), version)? {
        Some(name) => Err(ImportFault::Charset(name)),
        None => Ok(raws),
    }
}
