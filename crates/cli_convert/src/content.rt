//! What a file has: cards, rows of cards, or contacts.
ghost use Rattle.std.specs.Prelude.{◌≡◌, ◌≤◌, ◌<◌, IfOk, IsTrue, length};
ghost use Rattle.std.specs.Io.KnownBytes.{Consumes, IsAtEnd};
ghost use Rattle.csv_cards.specs.Exports.{is_export};
ghost use Rattle.cli_convert.specs.FileTexts.{is_card_head};
ghost use Rattle.cli_convert.specs.declared.content.Content.TheVariants.{Cards, Export};

use base_types::NoMemory;
use card_conversion::{is_quoted_export, without_bom};
use contact_csv::{Header, find_header};
use csv_cards::is_export;
use import_text::{begins_with_word, fill};
use std::alloc::Global;
use std::io::{Error, ErrorKind, Read};

/// The number of octets from which a file's content is known.
pub(crate) const HEAD_OCTETS: usize = 1_048_576;

/// What a file has.
#[derive(Clone, Copy)]
pub(crate) enum Content<'a> {
    /// Cards, or what is no card.
    Cards,
    /// Rows `uid,vcard`, whose header may be in quotes.
    Export,
    /// Contacts with this header.
    Contacts(Header<'a>),
    /// Rows with another header.
    OtherRows,
    /// What is said of a file in these words if no card comes in it, after a head without one.
    Foreign(&'a str),
}

/// Whether the path is that of a file of CSV.
fn is_csv_path(path: &str) -> bool {
    match path.rsplit_once('.') {
        Some((_, extension)) => extension.eq_ignore_ascii_case("csv"),
        None => false,
    }
}

/// Whether a text that begins with these octets is taken for cards.
pub(crate) fn is_card_head(head: &[u8]) -> bool
    ensures { result ≡ is_card_head head.now }
{
    !is_export(head) && begins_with_word(without_bom(head), b"BEGIN:VCARD")
}

/// What a file at the path has that begins with these octets. `columns` says what its columns
/// become, and may be empty.
pub(crate) fn content_of<'a>(
    alloc: Global,
    path: &str,
    head: &[u8],
    columns: &'a str,
) -> Result<Content<'a>, NoMemory>
    ensures export { IfOk result (λ content. IsTrue (is_export head.now) → content ≡ Export) }
    ensures cards { IfOk result (λ content. IsTrue (is_card_head head.now) → content ≡ Cards) }
{
    if is_card_head(head) {
        return Ok(Content::Cards);
    }
    if is_export(head) || is_quoted_export(head) {
        return Ok(Content::Export);
    }
    if let Some(header) = find_header(alloc, head, columns)? {
        return Ok(Content::Contacts(header));
    }
    if is_csv_path(path) {
        return Ok(Content::OtherRows);
    }
    Ok(Content::Cards)
}

/// Why the head of a file isn't read.
#[derive(Clone, Copy)]
pub(crate) enum HeadFault {
    /// An allocation failed.
    Memory,
    /// The file can't be read.
    Unreadable,
}

impl From<std::alloc::AllocError> for HeadFault {
    fn from(_error: std::alloc::AllocError) -> HeadFault {
        HeadFault::Memory
    }
}

/// The fault for an error of reading.
fn head_fault(error: Error) -> HeadFault {
    match error.kind() {
        ErrorKind::OutOfMemory => HeadFault::Memory,
        _ => HeadFault::Unreadable,
    }
}

/// The first octets of a reader, at most `size`.
pub(crate) fn read_head<R: Read>(
    alloc: Global,
    reader: &mut R,
    size: usize,
) -> Result<Vec<u8>, HeadFault>
    ensures len { IfOk result (λ head. length head.items ≤ size) }
    ensures read { IfOk result (λ head.
        Consumes (R.remaining reader.old) (R.remaining reader.new) head.items) }
    ensures end { IfOk result (λ head. length head.items < size
        → IsAtEnd (R.remaining reader.new)) }
{
    let mut head = Vec::new(alloc);
    head.resize(size, 0)?;
    match fill(reader, head.as_mut_slice()) {
        Ok(count) => {
            head.truncate(count);
            Ok(head)
        }
        Err(error) => Err(head_fault(error)),
    }
}
