//! The FN and the UID that a card must have and the lines of another program may lack.
ghost use Rattle.std.specs.Prelude.{◌≡◌, ◌++◌, ℕ, List, map, IfOk, OnOk, codes, string_bytes};
ghost use Rattle.std.specs.Str.{IsUtf8};
ghost use Rattle.vcard_lines.specs.Grammar.{AllInClass, is_permitted};
ghost use Rattle.vcard_import.specs.Conversions.{missing_line, missing_lines, addition};
ghost use Rattle.vcard_changes.specs.DerivedUid.{derived_uid};

use crate::parsed_name::name_value;
use crate::rules::has_line_named;
use std::alloc::Global;
use vcard_changes::{Change, ChangeKind, derived_uid, plain_line};
use vcard_text::{Items, Line, NoMemory};

/// The formatted name of lines without FN. Empty if they have one.
fn missing_name(alloc: Global, lines: &[Line]) -> Result<String, NoMemory>
    ensures { IfOk result (λ name. AllInClass is_permitted (string_bytes name)) }
{
    if has_line_named(lines, "FN") {
        return Ok(String::new(alloc));
    }
    name_value(alloc, lines)
}

/// Appends the line to those that are missing, unless a line has its name.
fn push_missing(
    alloc: Global,
    missing: &mut Items<Line>,
    lines: &[Line],
    name: &str,
    value: String,
) -> Result<(), NoMemory>
    ensures { OnOk result (missing.new
        ≡ missing.old ++ missing_line name.now (string_bytes value) lines.now) }
{
    if has_line_named(lines, name) {
        return Ok(());
    }
    missing.push(plain_line(alloc, name, value)?)?;
    Ok(())
}

/// Appends the UID of the octets to the lines that are missing, unless there is a UID.
fn push_missing_uid(
    alloc: Global,
    missing: &mut Items<Line>,
    lines: &[Line],
    octets: &[u8],
) -> Result<(), NoMemory>
    ensures { OnOk result (missing.new
        ≡ missing.old ++ missing_line (codes "UID") (derived_uid octets.now) lines.now) }
{
    if has_line_named(lines, "UID") {
        return Ok(());
    }
    let uid = derived_uid(alloc, octets)?;
    push_missing(alloc, missing, lines, "UID", uid)
}

/// The FN and the UID that the lines lack. The UID is that of the octets.
pub(crate) fn missing_lines(
    alloc: Global,
    octets: &[u8],
    lines: &[Line],
) -> Result<Items<Line>, NoMemory>
    ensures { IfOk result (λ missing. (name : List ℕ) × IsUtf8 name
        × AllInClass is_permitted name × (missing ≡ missing_lines octets.now name lines.now)) }
{
    let mut missing = Items::new(alloc);
    let name = missing_name(alloc, lines)?;
    push_missing(alloc, &mut missing, lines, "FN", name)?;
    push_missing_uid(alloc, &mut missing, lines, octets)?;
    Ok(missing)
}

/// Appends the lines, and a change for each.
pub(crate) fn add_lines(
    lines: &mut Items<Line>,
    changes: &mut Items<Change>,
    added: Items<Line>,
) -> Result<(), NoMemory>
    ensures lines { OnOk result (lines.new ≡ lines.old ++ added) }
    ensures changes { OnOk result (changes.new ≡ changes.old ++ map addition added) }
{
    for line in added.into_vec() {
        lines.push(line)?;
        changes.push(Change {
            place: 0,
            kind: ChangeKind::Added,
        })?;
    }
    Ok(())
}
