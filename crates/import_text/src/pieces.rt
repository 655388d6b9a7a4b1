//! Cuts a file into pieces: cards, and what is between them.
ghost use Rattle.std.specs.Prelude.{◌≡◌, ◌≢◌, ◌≤◌, ◌<◌, ◌-◌, ◌^◌, ◌++◌, [], length, count_by};
ghost use Rattle.std.specs.Prelude.{◌==◌, ◌+◌, ℕ, true, false, take, take_while};
ghost use Rattle.std.specs.List.{list_all};
ghost use Rattle.base_types.specs.Octets.{line_feed};
ghost use Rattle.import_text.specs.declared.pieces.Nesting.{Nesting};
ghost use Rattle.import_text.specs.declared.pieces.Step.TheVariants.{Ends, GoesOn};
ghost use Rattle.import_text.specs.internal.LineLens.{line_len};
ghost use Rattle.import_text.specs.Pieces.{after_end, after_other, begins_card, deeper};
ghost use Rattle.import_text.specs.Pieces.{ends_and_begins, first_line, first_piece, is_card};
ghost use Rattle.import_text.specs.Pieces.{begin_inside, first_text, may_end_line, step_in};
ghost use Rattle.import_text.specs.Pieces.{next_step, outside, piece_len, shallower, whole_lines};
ghost use Rattle.import_text.specs.Pieces.{is_before_agent, is_white, without_mark};

use crate::words::{are_white, begins_with_word, is_white, is_word_line};

/// The number of octets before the first line feed.
fn first_line_len(octets: &[u8]) -> usize
    ensures { result ≡ length (first_line octets.now) }
{
    octets.iter().take_while(|octet| **octet != b'\n').count()
}

/// The length of the first physical line, with its line feed.
fn line_len(octets: &[u8]) -> usize
    ensures within { result ≤ length octets.now }
    ensures nonempty { 0 < length octets.now → 0 < result }
    ensures len { result ≡ line_len octets.now }
{
    let end = first_line_len(octets);
    if end < octets.len() {
        end + 1
    } else {
        octets.len()
    }
}

/// The octets without a byte order mark of UTF-8.
fn without_mark(octets: &[u8]) -> &[u8]
    ensures { result.now ≡ without_mark octets.now }
{
    if begins_with_word(octets, b"\xEF\xBB\xBF") {
        return &octets[3..];
    }
    octets
}

/// Whether a line begins a card, perhaps after a byte order mark of UTF-8.
fn begins_card(line: &[u8]) -> bool
    ensures { result ≡ begins_card line.now }
{
    is_word_line(without_mark(line), b"BEGIN:VCARD")
}

/// The number of octets of white space before any others.
fn white_len(octets: &[u8]) -> usize
    ensures { result ≡ length (take_while is_white octets.now) }
{
    octets.iter().take_while(|octet| is_white(**octet)).count()
}

/// The octets after `END:VCARD` and the white space after it.
fn after_end(line: &[u8]) -> &[u8]
    requires { 9 ≤ length line.now }
    ensures after { result.now ≡ after_end line.now }
    ensures shorter { length result.now + 9 ≤ length line.now }
{
    let (_, rest) = line.split_at(9);
    let (_, after) = rest.split_at(white_len(rest));
    after
}

/// Whether a line ends a card and begins the next one, as where two files were joined of which the
/// first has no line feed at its end.
fn ends_and_begins(line: &[u8]) -> bool
    ensures { result ≡ ends_and_begins line.now }
{
    begins_with_word(line, b"END:VCARD") && begins_card(after_end(line))
}

/// Whether the octets before the first line feed are white space.
fn begins_white(octets: &[u8]) -> bool
    ensures { result ≡ list_all is_white (first_line octets.now) }
{
    octets
        .iter()
        .take_while(|octet| **octet != b'\n')
        .all(|octet| is_white(*octet))
}

/// Whether the octets begin with a card: their first line is `BEGIN:VCARD`, in any case, perhaps
/// after a byte order mark of UTF-8 and before white space. Looks no further than the first octet
/// that isn't white.
pub fn is_card(octets: &[u8]) -> bool
    ensures { result ≡ is_card octets.now }
{
    let text = without_mark(octets);
    begins_with_word(text, b"BEGIN:VCARD") && begins_white(&text[11..])
}

/// Whether a card may begin after the octet: a carriage return, or a NUL as damaged files have.
fn may_end_line(octet: u8) -> bool
    ensures { result ≡ may_end_line octet }
{
    octet == b'\r' || octet == 0
}

/// The number of octets in the first line before the first BEGIN:VCARD that comes after a carriage
/// return or a NUL. Looks no further than that.
fn begin_inside(octets: &[u8]) -> Option<usize>
    ensures { result ≡ begin_inside (take (line_len octets.now) octets.now) }
{
    let mut rest = octets;
    let mut count = 0;
    while let Some((octet, tail)) = rest.split_first() {
        if *octet == b'\n' {
            return None;
        }
        count += 1;
        if may_end_line(*octet) && begins_with_word(tail, b"BEGIN:VCARD") {
            return Some(count);
        }
        rest = tail;
    }
    None
}

/// The number of line feeds: how many lines end in the octets.
pub fn count_lines(octets: &[u8]) -> usize
    ensures { result ≡ count_by (λ octet. octet == line_feed) octets.now }
{
    octets.iter().filter(|octet| **octet == b'\n').count()
}

/// Where a line is among the cards of a piece.
#[derive(Clone, Copy)]
pub(crate) struct Nesting {
    /// The number of cards that began but didn't end.
    pub(crate) depth: usize,
    /// Whether a card that begins with the line belongs to the piece.
    pub(crate) may_begin: bool,
}

/// What a line does to the piece in which it is.
#[derive(Clone, Copy)]
pub(crate) enum Step {
    /// The piece ends after so many octets of the line.
    Ends(usize),
    /// The piece goes on after the line.
    GoesOn(Nesting),
}

/// Within one more card.
fn deeper(nesting: Nesting) -> Nesting
    requires { nesting.depth < 2 ^ 64 - 1 }
    ensures { result ≡ deeper nesting }
{
    Nesting {
        depth: nesting.depth + 1,
        may_begin: false,
    }
}

/// Within one card less.
fn shallower(nesting: Nesting) -> Nesting
    ensures { result ≡ shallower nesting }
{
    Nesting {
        depth: nesting.depth.saturating_sub(1),
        may_begin: false,
    }
}

/// Whether a card that begins after the line belongs to the one around it.
fn is_before_agent(nesting: Nesting, line: &[u8]) -> bool
    ensures { result ≡ is_before_agent nesting line.now }
{
    nesting.depth != 0 && (is_word_line(line, b"AGENT:") || (nesting.may_begin && are_white(line)))
}

/// After a line that neither begins nor ends a card.
fn after_other(nesting: Nesting, line: &[u8]) -> Nesting
    ensures { result ≡ after_other nesting line.now }
{
    Nesting {
        depth: nesting.depth,
        may_begin: is_before_agent(nesting, line),
    }
}

/// What a line does to the piece in which it is.
fn next_step(nesting: Nesting, line: &[u8]) -> Step
    requires { nesting.depth < 2 ^ 64 - 1 }
    ensures step { result ≡ next_step nesting line.now }

    // What the loop over the lines needs: it ends within the piece, and after its first octet.
    ensures within { (count : ℕ) → result ≡ Ends count → count ≤ length line.now }
    ensures nonempty { nesting.may_begin ≡ true → 0 < length line.now
        → (count : ℕ) → result ≡ Ends count → 0 < count }
    ensures depth { (next : Nesting) → result ≡ GoesOn next → next.depth ≤ nesting.depth + 1 }
{
    if begins_card(line) {
        if nesting.may_begin {
            return Step::GoesOn(deeper(nesting));
        }
        return Step::Ends(0);
    }
    if is_word_line(line, b"AGENT:BEGIN:VCARD") {
        return Step::GoesOn(deeper(nesting));
    }
    if is_word_line(line, b"END:VCARD") {
        if nesting.depth == 1 {
            return Step::Ends(line.len());
        }
        return Step::GoesOn(shallower(nesting));
    }
    if ends_and_begins(line) {
        return Step::Ends(line.len() - after_end(line).len());
    }
    Step::GoesOn(after_other(nesting, line))
}

/// What the first line does to the piece in which it is, and the line's length. If the piece ends
/// inside the line, no more of the line is looked at, and the length is 0.
fn step_in(octets: &[u8], nesting: Nesting, inside: bool) -> (Step, usize)
    requires few { nesting.depth < 2 ^ 64 - 1 }
    requires some { 0 < length octets.now }
    ensures step { result.0 ≡ step_in inside nesting (take (line_len octets.now) octets.now) }
    ensures len { (next : Nesting) → result.0 ≡ GoesOn next → result.1 ≡ line_len octets.now }
    ensures within { (count : ℕ) → result.0 ≡ Ends count → count ≤ length octets.now }
    ensures nonempty { nesting.may_begin ≡ true
        → (count : ℕ) → result.0 ≡ Ends count → 0 < count }
    ensures depth { (next : Nesting) → result.0 ≡ GoesOn next → next.depth ≤ nesting.depth + 1 }
{
    if inside {
        if let Some(count) = begin_inside(octets) {
            return (Step::Ends(count), 0);
        }
    }
    let len = line_len(octets);
    (next_step(nesting, &octets[..len]), len)
}

/// The length of the first piece, which may end inside a line or not.
fn piece_len(octets: &[u8], inside: bool) -> usize
    ensures within { result ≤ length octets.now }
    ensures nonempty { 0 < length octets.now → 0 < result }
    ensures len { result ≡ piece_len inside outside (whole_lines octets.now) }
{
    let mut nesting = Nesting {
        depth: 0,
        may_begin: true,
    };
    let mut end = 0;
    while end < octets.len() {
        let (_, rest) = octets.split_at(end);
        let (step, len) = step_in(rest, nesting, inside);
        match step {
            Step::Ends(count) => return end + count,
            Step::GoesOn(next) => nesting = next,
        }
        end += len;
    }
    end
}

/// The first piece of a file, and the octets after it. A piece is a card, from its `BEGIN:VCARD` up
/// to its `END:VCARD` (or up to the next card if it has none), with the cards of its AGENT lines;
/// or it is what comes before the next card. So two pieces are in one line where it ends a card and
/// begins the next.
pub fn split_piece(octets: &[u8]) -> (&[u8], &[u8])
    // The piece goes up to the end of its card, or to where the next card begins.
    ensures piece { result.0.now ≡ first_piece octets.now }

    // The piece and the octets after it are the octets.
    ensures whole { octets.now ≡ result.0.now ++ result.1.now }

    // Only no octets have an empty first piece.
    ensures nonempty { result.0.now ≡ [] → octets.now ≡ [] }
{
    octets.split_at(piece_len(octets, false))
}

/// The first piece of the octets, and the octets after it, also where line ends are mixed. If the
/// piece is no card, it also ends where a BEGIN:VCARD follows a carriage return or a NUL. So a card
/// whose lines end with a carriage return alone, in a file of other line ends, is a piece by itself,
/// and takes no other card with it. Its cost grows with the piece, not with the octets.
pub fn split_text(octets: &[u8]) -> (&[u8], &[u8])
    // The piece goes up to the end of its card, or to where the next card begins.
    ensures piece { result.0.now ≡ first_text octets.now }

    // The piece and the octets after it are the octets.
    ensures whole { octets.now ≡ result.0.now ++ result.1.now }

    // Only no octets have an empty first piece.
    ensures nonempty { result.0.now ≡ [] → octets.now ≡ [] }
{
    octets.split_at(piece_len(octets, !is_card(octets)))
}
