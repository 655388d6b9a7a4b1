//! What needs no report: a logical line that begins or ends the card or gives its version.
ghost use Rattle.std.specs.Prelude.{◌≡◌};
ghost use Rattle.vcard_import.specs.Delimiters.{begins_card, is_delimiter};

use import_text::{begins_with_word, is_word_line};

/// Whether a logical line begins or ends a card, or gives its version.
pub(crate) fn is_delimiter(octets: &[u8]) -> bool
    ensures { result ≡ is_delimiter octets.now }
{
    is_word_line(octets, b"BEGIN:VCARD")
        || is_word_line(octets, b"END:VCARD")
        || begins_with_word(octets, b"VERSION:")
}

/// Whether a logical line begins a card, also one that is the value of an AGENT.
pub(crate) fn begins_card(octets: &[u8]) -> bool
    ensures { result ≡ begins_card octets.now }
{
    is_word_line(octets, b"BEGIN:VCARD") || is_word_line(octets, b"AGENT:BEGIN:VCARD")
}
