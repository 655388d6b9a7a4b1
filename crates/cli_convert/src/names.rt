//! The names of the files that are written.
ghost use Rattle.std.specs.Prelude.{◌≡◌, IfOk, codes, nat_eq};
ghost use Rattle.std.specs.List.{ends_with, list_all};
ghost use Rattle.cli_convert.specs.Names.{bare_uid, card_front, card_name, ending_of};
ghost use Rattle.cli_convert.specs.Names.{is_name_octet, is_safe_name, is_webp, kind_word};
ghost use Rattle.cli_convert.specs.Names.{media_name, path_in};

use base_types::{NoMemory, Text};
use card_conversion::{MediaKind, MediaOwner};
use std::alloc::Global;

/// The most octets of a UID that names a file.
const NAME_OCTETS_MAX: usize = 200;

fn is_name_octet(octet: u8) -> bool
    ensures { result ≡ is_name_octet octet }
{
    octet.is_ascii_alphanumeric() || octet == b'-' || octet == b'_' || octet == b'.'
}

fn are_name_octets(octets: &[u8]) -> bool
    ensures { result ≡ list_all is_name_octet octets.now }
{
    octets.iter().all(|octet| is_name_octet(*octet))
}

/// Whether the text is the name of a file that each system takes, and stays in its folder: 1 to 200
/// octets of A-Z, a-z, 0-9, `-`, `_` and `.`, the first of which isn't `.`.
fn is_safe_name(text: &str) -> bool
    ensures { result ≡ is_safe_name text.now }
{
    let octets = text.as_bytes();
    octets.len() > 0
        && octets.len() <= NAME_OCTETS_MAX
        && octets[0] != b'.'
        && are_name_octets(octets)
}

/// Whether the path ends with a slash.
fn ends_with_slash(path: &str) -> bool
    ensures { result ≡ ends_with nat_eq path.now (codes "/") }
{
    path.ends_with("/")
}

/// The path of a name in a folder. The only `Err` is out of memory.
fn path_in(alloc: Global, folder: &str, name: &str) -> Result<Text, NoMemory>
    ensures { IfOk result (λ path. path ≡ path_in folder.now name.now) }
{
    if ends_with_slash(folder) {
        Ok(Text::new(format!(in alloc; "{folder}{name}")?))
    } else {
        Ok(Text::new(format!(in alloc; "{folder}/{name}")?))
    }
}

/// The UID without `urn:uuid:` before it.
fn bare_uid(uid: &str) -> &str
    ensures { result.now ≡ bare_uid uid.now }
{
    match uid.strip_prefix("urn:uuid:") {
        Some(bare) => bare,
        None => uid,
    }
}

/// The name of the file of a card. The only `Err` is out of memory.
fn card_name(alloc: Global, number: u64, uid: &str) -> Result<Text, NoMemory>
    ensures { IfOk result (λ name. name ≡ card_name number uid.now) }
{
    let uid = bare_uid(uid);
    if is_safe_name(uid) {
        Ok(Text::new(format!(in alloc; "{uid}.vcf")?))
    } else {
        Ok(Text::new(format!(in alloc; "card-{number}.vcf")?))
    }
}

/// The path of the file of a card in a folder. It is named after the card's UID where that is the
/// name of a file, and otherwise after its number.
pub(crate) fn card_path(
    alloc: Global,
    folder: &str,
    number: u64,
    uid: &str,
) -> Result<Text, NoMemory>
    ensures { IfOk result (λ path. path ≡ path_in folder.now (card_name number uid.now)) }
{
    let name = card_name(alloc, number, uid)?;
    path_in(alloc, folder, name.as_str())
}

/// What stands after the front of the name for a picture or a sound.
fn kind_word(kind: MediaKind) -> &'static str
    ensures { result.now ≡ kind_word kind }
{
    match kind {
        MediaKind::Photo => "-photo",
        MediaKind::Logo => "-logo",
        MediaKind::Sound => "-sound",
    }
}

/// Whether the octets begin as a picture of WebP.
fn is_webp(octets: &[u8]) -> bool
    ensures { result ≡ is_webp octets.now }
{
    octets.starts_with(b"RIFF") && octets.len() >= 8 && octets[8..].starts_with(b"WEBP")
}

/// The ending of a name, by the first octets of what the file has.
fn ending_of(octets: &[u8]) -> &'static str
    ensures { result.now ≡ ending_of octets.now }
{
    if octets.starts_with(b"\xFF\xD8\xFF") {
        ".jpg"
    } else if octets.starts_with(b"\x89PNG") {
        ".png"
    } else if octets.starts_with(b"GIF8") {
        ".gif"
    } else if is_webp(octets) {
        ".webp"
    } else if octets.starts_with(b"BM") {
        ".bmp"
    } else {
        ".bin"
    }
}

/// The front of the name of a picture or a sound: the card's UID where that is the name of a file,
/// and otherwise its number. The only `Err` is out of memory.
fn card_front(alloc: Global, number: u64, uid: &str) -> Result<Text, NoMemory>
    ensures { IfOk result (λ front. front ≡ card_front number uid.now) }
{
    let uid = bare_uid(uid);
    if is_safe_name(uid) {
        Text::copy_of(alloc, uid)
    } else {
        Ok(Text::new(format!(in alloc; "card-{number}")?))
    }
}

/// The name of the file of a picture or a sound. The second one of a kind and those after it have
/// their number. The only `Err` is out of memory.
fn media_name(alloc: Global, owner: MediaOwner<'_>, octets: &[u8]) -> Result<Text, NoMemory>
    ensures { IfOk result (λ name. name ≡ media_name owner.entry octets.now) }
{
    let front = card_front(alloc, owner.number, owner.uid)?;
    let front = front.as_str();
    let word = kind_word(owner.kind);
    let ending = ending_of(octets);
    let which = owner.which;
    if which > 1 {
        Ok(Text::new(format!(in alloc; "{front}{word}-{which}{ending}")?))
    } else {
        Ok(Text::new(format!(in alloc; "{front}{word}{ending}")?))
    }
}

/// The path of the file of a picture or a sound in a folder.
pub(crate) fn media_path(
    alloc: Global,
    folder: &str,
    owner: MediaOwner<'_>,
    octets: &[u8],
) -> Result<Text, NoMemory>
    ensures { IfOk result (λ path. path ≡ path_in folder.now (media_name owner.entry octets.now)) }
{
    let name = media_name(alloc, owner, octets)?;
    path_in(alloc, folder, name.as_str())
}

/// The name of the file at a path.
fn name_of(path: &str) -> &str {
    match path.rsplit_once('/') {
        Some((_, name)) => name,
        None => path,
    }
}

/// The path without the extension of its file's name.
fn without_extension(path: &str) -> &str {
    let name = name_of(path);
    match name.rsplit_once('.') {
        Some((front, extension)) if !front.is_empty() => {
            let len = path.len().saturating_sub(extension.len().saturating_add(1));
            path.get(..len).unwrap_or(path)
        }
        _ => path,
    }
}

/// The front of the paths of the files of rows: that of the file that is converted, in a folder if
/// one is given.
pub(crate) fn rows_front(
    alloc: Global,
    file: &str,
    folder: Option<&str>,
) -> Result<Text, NoMemory> {
    let front = without_extension(file);
    match folder {
        Some(folder) => path_in(alloc, folder, name_of(front)),
        None => Text::copy_of(alloc, front),
    }
}
