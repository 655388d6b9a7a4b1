//! What the head of a logical line says of its encoding. The head is what is before the line's
//! first colon.
ghost use Rattle.std.specs.Prelude.{◌≡◌, length};
ghost use Rattle.import_text.specs.RawLines.{has_colon, head, is_encoded_as};
ghost use Rattle.import_text.specs.internal.Heads.{searched};

use crate::words::has_word;

/// The most octets of a word that can end a line before its last octet is appended: one less than
/// `QUOTED-PRINTABLE` has.
pub(crate) const WORD_START_OCTETS_MAX: usize = 15;

/// What the head of the line so far says.
#[derive(Clone, Copy)]
pub(crate) struct Head {
    /// Whether the line has a colon, so that its head no longer grows.
    pub(crate) is_complete: bool,
    /// Whether it has the word `QUOTED-PRINTABLE`.
    pub(crate) is_quoted_printable: bool,
    /// Whether it has the word `BASE64`.
    pub(crate) is_base64: bool,
}

/// The number of octets before the line's first colon.
fn head_len(line: &[u8]) -> usize
    ensures { result ≡ length (head line.now) }
{
    line.iter().take_while(|octet| **octet != b':').count()
}

/// Whether the word is before the line's first colon, in any case.
pub fn is_encoded_as(line: &[u8], word: &[u8]) -> bool
    ensures { result ≡ is_encoded_as word.now line.now }
{
    let (head, _) = line.split_at(head_len(line));
    has_word(head, word)
}

pub(crate) fn has_colon(octets: &[u8]) -> bool
    ensures { result ≡ has_colon octets.now }
{
    octets.iter().any(|octet| *octet == b':')
}

/// What the head says once these octets were appended to its line. The octets begin with the last
/// ones of the line before, in which a word may have begun.
pub(crate) fn searched(known: Head, octets: &[u8]) -> Head
    ensures { result ≡ searched known octets.now }
{
    if known.is_complete {
        return known;
    }
    Head {
        is_complete: has_colon(octets),
        is_quoted_printable: known.is_quoted_printable
            || is_encoded_as(octets, b"QUOTED-PRINTABLE"),
        is_base64: known.is_base64 || is_encoded_as(octets, b"BASE64"),
    }
}
