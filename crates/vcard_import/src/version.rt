//! The version that a card says it is written in.
ghost use Rattle.std.specs.Prelude.{◌≡◌, option_map};
ghost use Rattle.vcard_import.specs.Versions.{version_line, version_by, version_of_line};
ghost use Rattle.vcard_import.specs.Versions.{version_of};

use import_text::begins_with_word;
use vcard_property::Version;

/// The first physical line that begins with VERSION:, in any case.
fn version_line(octets: &[u8]) -> Option<&[u8]>
    ensures { option_map (λ line. line.now) result ≡ version_line octets.now }
{
    octets
        .split(|octet| *octet == b'\n')
        .find(|line| begins_with_word(*line, b"VERSION:"))
}

/// The version by the octet after `VERSION:`.
fn version_by(octet: u8) -> Version
    ensures { result ≡ version_by octet }
{
    match octet {
        b'2' => Version::Old,
        b'4' => Version::Fourth,
        _ => Version::Third,
    }
}

/// The version that the first VERSION line gives; vCard 3.0 if there is none.
pub(crate) fn version_of(octets: &[u8]) -> Version
    ensures { result ≡ version_of octets.now }
{
    match version_line(octets) {
        Some(line) => version_by(line.get(8).copied().unwrap_or(0)),
        None => Version::Third,
    }
}
