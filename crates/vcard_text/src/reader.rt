//! Reads a card from text.
ghost use Rattle.std.specs.Prelude.{◌≡◌, ◌≢◌, ◌∷◌, List, ℕ, IfOk, IfErr, OnOk, Ok, Err};
ghost use Rattle.std.specs.Prelude.{string_bytes};
ghost use Rattle.vcard_lines.specs.ParseSteps.{ResultIs};
ghost use Rattle.vcard_lines.specs.Unfolding.{cons_nonempty, line_so_far, unfold_from};
ghost use Rattle.vcard_lines.specs.Unfolding.{logical_lines};
ghost use Rattle.vcard_text.specs.Spelling.{without_bom, Spells};
ghost use Rattle.vcard_text.specs.FirstFaults.{IsFirstFaultOfText};
ghost use Rattle.vcard_text.specs.Scanning.{scan_from, scan_card, check_length};
ghost use Rattle.vcard_text.specs.CardOfText.{card_of_text};
ghost use Rattle.vcard_lines.specs.declared.fault.CardFault.TheVariants.{Memory};
ghost use Rattle.vcard_lines.specs.declared.line.Line.{Line};

use crate::bounds::TEXT_OCTETS_MAX;
use crate::card::Card;
use crate::scan::Scan;
use crate::writer::{LINE_OCTETS, canonical_len};
use base_types::Items;
use std::alloc::Global;
use vcard_lines::{CardFault, Line, continues, join, line_so_far};

/// Scans a logical line. Skips an empty one.
fn scan_nonempty_line(alloc: Global, scan: &mut Scan, line: &str) -> Result<(), CardFault>
    ensures advances { OnOk result ((others : List (List ℕ)) →
        scan_from scan.old (cons_nonempty line.now others) ≡ scan_from scan.new others) }
    ensures fails { IfErr result (λ fault. fault ≢ Memory → (others : List (List ℕ)) →
        scan_from scan.old (cons_nonempty line.now others) ≡ Err fault) }
{
    if line.is_empty() {
        return Ok(());
    }
    scan.scan_line(alloc, line)
}

/// Reads a physical line: continues the current logical line, or scans that and begins the next.
fn read_physical_line<'a>(
    alloc: Global,
    scan: &mut Scan,
    first: &'a str,
    joined: &mut String,
    piece: &'a str,
) -> Result<&'a str, CardFault>
    ensures advances { IfOk result (λ next. (pieces : List (List ℕ)) →
        scan_from scan.old (unfold_from (line_so_far first.now (string_bytes joined.old))
        (piece.now ∷ pieces))
        ≡ scan_from scan.new (unfold_from (line_so_far next.now (string_bytes joined.new))
        pieces)) }
    ensures fails { IfErr result (λ fault. fault ≢ Memory → (pieces : List (List ℕ)) →
        scan_from scan.old (unfold_from (line_so_far first.now (string_bytes joined.old))
        (piece.now ∷ pieces)) ≡ Err fault) }
{
    if continues(piece) {
        join(first, joined, piece)?;
        return Ok(first);
    }
    scan_nonempty_line(alloc, scan, line_so_far(first, joined))?;
    joined.clear();
    Ok(piece)
}

/// The lines of the card that a text's logical lines spell, or their first fault. A logical line is
/// borrowed from the text unless it is folded; a folded line is copied, one at a time.
fn read_lines(alloc: Global, text: &str) -> Result<Items<Line>, CardFault>
    ensures { ResultIs (λ lines. lines) result (scan_card (logical_lines text.now)) }
{
    let mut scan = Scan::start(alloc)?;
    let mut pieces = text.lines();
    let Some(mut first) = pieces.next() else {
        return scan.finish();
    };
    let mut joined = String::with_capacity(alloc, LINE_OCTETS)?;
    for piece in pieces {
        first = read_physical_line(alloc, &mut scan, first, &mut joined, piece)?;
    }
    scan_nonempty_line(alloc, &mut scan, line_so_far(first, &joined))?;
    scan.finish()
}

/// The text without its byte order mark, if it has one.
fn without_bom(text: &str) -> &str
    ensures { result.now ≡ without_bom text.now }
{
    text.strip_prefix('\u{FEFF}').unwrap_or(text)
}

/// The lines. `TooLong` if their canonical text is too long.
#[tactic(auto, unfolding(crate::specs::Scanning::check_length))]
pub(crate) fn check_length(lines: Items<Line>) -> Result<Items<Line>, CardFault>
    ensures { ResultIs (λ lines. lines) result (check_length lines) }
{
    if canonical_len(lines.as_slice()) <= TEXT_OCTETS_MAX {
        Ok(lines)
    } else {
        Err(CardFault::TooLong)
    }
}

/// The lines of the card that a text spells, or the text's first fault.
#[tactic(auto, unfolding(crate::specs::CardOfText::card_of_text))]
fn read_text(alloc: Global, text: &[u8]) -> Result<Items<Line>, CardFault>
    ensures { ResultIs (λ lines. lines) result (card_of_text text.now) }
{
    if text.len() > TEXT_OCTETS_MAX {
        return Err(CardFault::TooLong);
    }
    let Ok(text) = str::from_utf8(text) else {
        return Err(CardFault::NotUtf8);
    };
    let lines = read_lines(alloc, without_bom(text))?;
    check_length(lines)
}

/// Reads the card that a text spells (RFC 6350, section 3): at most 262,144 octets of UTF-8, with
/// or without a leading byte order mark, folded or not, with lines ended by CRLF or LF.
///
/// An `Err` is the text's first fault: `TooLong` or `NotUtf8`, then the first fault of the first
/// logical line that has one, then that of a text which ends too early (`NoBegin`, `BadVersion` or
/// `NoEnd`), then `NoName`, `NoUid`, `MemberOutsideGroup`, and then `TooLong` for the canonical
/// text. `Memory` replaces any result if an allocation fails.
pub fn read_card(alloc: Global, text: &[u8]) -> Result<Card, CardFault>
    // A card that is returned is the one that the text spells.
    ensures card { IfOk result (λ card. Spells text.now card) }

    // For a text that spells a card that card is returned, unless memory runs out.
    ensures every { (lines : List Line) → Spells text.now lines → result ≢ Err Memory
        → result ≡ Ok lines }

    // An `Err` is the text's first fault, unless memory ran out.
    ensures fault { IfErr result (λ fault. fault ≢ Memory → IsFirstFaultOfText text.now fault) }

    // The result is what `card_of_text` computes, unless memory ran out.
    ensures computed { result ≢ Err Memory → result ≡ card_of_text text.now }
{
    let lines = read_text(alloc, text)?;
    Ok(Card::from_lines(lines))
}
