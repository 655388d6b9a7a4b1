//! Lines that are left out of a card that would be too long with them.
ghost use Rattle.std.specs.Prelude.{◌≡◌, ◌&&◌, ◌==◌, IfOk, IsTrue, filter, true};
ghost use Rattle.std.specs.List.{list_any};
ghost use Rattle.vcard_import.specs.Conversions.{left_out_lines};
ghost use Rattle.vcard_import.specs.LeftOut.{is_left_out, is_left_out_at, is_media, says_left_out};

use crate::charsets::all_raw_lines;
use import_text::{RawLine, begins_with_word, is_encoded_as};
use std::alloc::Global;
use vcard_changes::{Change, ChangeKind};
use vcard_text::{Line, NoMemory};

/// Whether the head of the logical line has the name of a property with pictures or sounds.
fn is_media(raw: &RawLine) -> bool
    ensures { result ≡ is_media raw.now }
{
    let octets = raw.octets.as_slice();
    is_encoded_as(octets, b"PHOTO")
        || is_encoded_as(octets, b"LOGO")
        || is_encoded_as(octets, b"SOUND")
}

/// Whether the line has a picture or a sound in it.
fn has_media(line: &Line) -> bool {
    let name = line.name.as_str();
    (name == "PHOTO" || name == "LOGO" || name == "SOUND")
        && begins_with_word(line.value.as_str().as_bytes(), b"DATA:")
}

/// Whether the line that the logical line becomes has a picture or a sound in it.
pub(crate) fn may_be_left_out(raw: &RawLine, line: &Line) -> bool
    ensures { IsTrue result → is_media raw.now ≡ true }
{
    is_media(raw) && has_media(line)
}

/// Whether the change says that the line at the place is left out.
fn says_left_out(change: &Change, place: usize) -> bool
    ensures { result ≡ (says_left_out change.now.kind && change.now.place == place) }
{
    matches!(change.kind, ChangeKind::LeftOut) && change.place == place
}

/// Whether one of the changes says that the line at the place is left out.
fn one_says_left_out(changes: &[Change], place: usize) -> bool
    ensures { result ≡ list_any
        (λ change. says_left_out change.kind && change.place == place) changes.now }
{
    changes.iter().any(|change| says_left_out(change, place))
}

/// Whether the logical line may have a picture or a sound, and one of the changes says that it is
/// left out.
fn is_left_out_at(changes: &[Change], raw: &RawLine) -> bool
    ensures { result ≡ is_left_out_at changes.now raw.now }
{
    is_media(raw) && one_says_left_out(changes, raw.place)
}

/// Whether the change says that a line is left out.
pub fn is_left_out(change: &Change) -> bool
    ensures { result ≡ is_left_out change.now }
{
    matches!(change.kind, ChangeKind::LeftOut)
}

/// The changes that say that a line is left out.
fn only_left_out(alloc: Global, changes: &[Change]) -> Result<Vec<Change>, NoMemory>
    ensures { IfOk result (λ only. only.items ≡ filter is_left_out changes.now) }
{
    let mut only = Vec::new(alloc);
    only.extend_from_slice(changes)?;
    only.retain(|change| is_left_out(change));
    Ok(only)
}

/// The logical lines of a card that the changes of its conversion call left out, in order. For each
/// line that may have a picture or a sound it looks at each change that leaves a line out. The only
/// `Err` is out of memory.
pub fn left_out_lines(
    alloc: Global,
    octets: &[u8],
    changes: &[Change],
) -> Result<Vec<RawLine>, NoMemory>
    ensures { IfOk result (λ lines. lines.items ≡ left_out_lines octets.now changes.now) }
{
    let only = only_left_out(alloc, changes)?;
    let told = only.as_slice();
    let mut raws = all_raw_lines(alloc, octets)?;
    raws.retain(|raw| is_left_out_at(told, raw));
    Ok(raws)
}
