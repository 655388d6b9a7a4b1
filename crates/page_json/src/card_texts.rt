//! Writes canonical texts of cards into buffers that are kept from card to card.
ghost use Rattle.std.specs.Prelude.{◌≡◌, ◌++◌, OnOk, flat_map, map, string_bytes};
ghost use Rattle.vcard_lines.specs.Folding.{folded_text};
ghost use Rattle.vcard_lines.specs.Grammar.{line_text};
ghost use Rattle.vcard_text.specs.Cards.{canonical_text};
ghost use Rattle.vcard_text.specs.Spelling.{Spells};

use vcard_lines::{Line, write_folded, write_line};
use vcard_text::laws::canonical_text_spells;
use vcard_text::{Card, NoMemory};

/// Appends the lines, each folded. `line` is a buffer for one unfolded line.
fn push_lines(text: &mut String, line: &mut String, lines: &[Line]) -> Result<(), NoMemory>
    ensures { OnOk result (string_bytes text.new
        ≡ string_bytes text.old ++ flat_map folded_text (map line_text lines.now)) }
{
    for each in lines {
        write_line(line, each)?;
        write_folded(text, line.as_str())?;
    }
    Ok(())
}

/// Replaces the contents of `text` by the card's canonical text. `line` is a buffer for one
/// unfolded line. Both keep their capacity, so that many cards allocate no more than the longest.
pub(crate) fn write_card_text(
    text: &mut String,
    line: &mut String,
    card: &Card,
) -> Result<(), NoMemory>
    ensures text { OnOk result (string_bytes text.new ≡ canonical_text card.now) }
    ensures read_back { OnOk result (Spells (canonical_text card.now) card.now) }
{
    // A law without effect: the canonical text of a card spells it.
    canonical_text_spells();

    text.clear();
    write_folded(text, "BEGIN:VCARD")?;
    write_folded(text, "VERSION:4.0")?;
    push_lines(text, line, card.lines())?;
    write_folded(text, "END:VCARD")?;
    Ok(())
}
