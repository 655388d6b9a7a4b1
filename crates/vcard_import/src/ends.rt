//! Where the lines of a card stop: before its END.
ghost use Rattle.std.specs.Prelude.{◌≡◌, ◌≤◌, length};
ghost use Rattle.vcard_import.specs.Ends.{is_before_end, len_without_end, without_end};

use import_text::is_word_line;

/// Whether the octet is the line feed after which there is only the end of the card.
fn is_before_end(octet: u8, rest: &[u8]) -> bool
    ensures { result ≡ is_before_end octet rest.now }
{
    octet == b'\n' && is_word_line(rest, b"END:VCARD")
}

/// The number of octets up to the line feed after which there is only `END:VCARD`, in any case, and
/// white space; that of all octets if there is none.
fn len_without_end(octets: &[u8]) -> usize
    ensures len { result ≡ len_without_end octets.now }
    ensures within { result ≤ length octets.now }
{
    let mut rest = octets;
    while let Some((octet, tail)) = rest.split_first() {
        if is_before_end(*octet, tail) {
            return octets.len() - tail.len();
        }
        rest = tail;
    }
    octets.len()
}

/// The octets without their last line, if that ends the card: so no line before it goes on in it.
pub(crate) fn without_end(octets: &[u8]) -> &[u8]
    ensures { result.now ≡ without_end octets.now }
{
    &octets[..len_without_end(octets)]
}
