//! Words in octets, in any case.
ghost use Rattle.std.specs.Prelude.{◌≡◌};
ghost use Rattle.std.specs.List.{list_all};
ghost use Rattle.import_text.specs.RawLines.{begins_with_word, has_word};
ghost use Rattle.import_text.specs.Pieces.{is_white, is_word_line};

/// Whether the octets begin with the word, in any case.
pub fn begins_with_word(octets: &[u8], word: &[u8]) -> bool
    ensures { result ≡ begins_with_word word.now octets.now }
{
    word.len() <= octets.len() && octets[..word.len()].eq_ignore_ascii_case(word)
}

/// Whether the octet is a space, a tab, a carriage return or a line feed.
pub(crate) fn is_white(octet: u8) -> bool
    ensures { result ≡ is_white octet }
{
    matches!(octet, b' ' | b'\t' | b'\r' | b'\n')
}

/// Whether all octets are white space.
pub(crate) fn are_white(octets: &[u8]) -> bool
    ensures { result ≡ list_all is_white octets.now }
{
    octets.iter().all(|octet| is_white(*octet))
}

/// Whether the octets are the word, in any case, and then only white space.
pub fn is_word_line(octets: &[u8], word: &[u8]) -> bool
    ensures { result ≡ is_word_line word.now octets.now }
{
    begins_with_word(octets, word) && are_white(&octets[word.len()..])
}

/// Whether the word is somewhere in the octets, in any case.
pub(crate) fn has_word(octets: &[u8], word: &[u8]) -> bool
    ensures { result ≡ has_word word.now octets.now }
{
    let mut rest = octets;
    while let Some((_, tail)) = rest.split_first() {
        if begins_with_word(rest, word) {
            return true;
        }
        rest = tail;
    }
    false
}
