//! Laws of rows. Each law is an empty function whose clauses hold for all cards and texts.
ghost use Rattle.std.specs.Prelude.{◌≡◌, ◌⊎◌, ℕ, List};
ghost use Rattle.std.specs.FinMap as finite;
ghost use Rattle.base_types.specs.TextMaps.{text_cmp};
ghost use Rattle.vcard_lines.specs.declared.line.Line.{Line};
ghost use Rattle.csv_cards.specs.Reading.{TextHasCards, IsFirstRowFault};
ghost use Rattle.csv_cards.specs.ReadBack.{AreUnderOwnUids};
ghost use Rattle.csv_cards.specs.Writing.{csv_text};
ghost use Rattle.csv_cards.specs.declared.form.Form.TheVariants.{Cards};
ghost use Rattle.csv_cards.specs.declared.fault.CsvFault.{CsvFault};

use vcard_text::laws::{
    canonical_text_spells, card_is_unique, first_fault_of_lines_is_computed,
    first_fault_of_lines_without_card, first_fault_without_card,
};

/// The text that form `Cards` writes is read back as the same cards, in the octet order of their
/// UIDs.
pub fn written_cards_are_read()
    ensures { (book : finite.FinMap text_cmp (List Line)) → AreUnderOwnUids book
        → TextHasCards (csv_text Cards (finite.values book)) (finite.values book) }
{
    // A law: the canonical text of any card spells the card.
    canonical_text_spells();
}

/// A text's rows represent at most one list of cards.
pub fn cards_of_rows_are_unique()
    ensures { (text : List ℕ) (a b : List (List Line)) → TextHasCards text a → TextHasCards text b
        → a ≡ b }
{
    // A law: a text spells at most one card.
    card_is_unique();
}

/// A text has at most one first fault, and has one exactly if its rows don't represent cards.
pub fn first_fault_without_cards()
    ensures one { (text : List ℕ) (a b : CsvFault) → IsFirstRowFault text a → IsFirstRowFault text b
        → a ≡ b }
    ensures either { (text : List ℕ) → ((cards : List (List Line)) × TextHasCards text cards)
        ⊎ ((fault : CsvFault) × IsFirstRowFault text fault) }
    ensures not_both { (text : List ℕ) (cards : List (List Line)) (fault : CsvFault)
        → TextHasCards text cards → IsFirstRowFault text fault → ⊥ }
{
    // Laws: a text spells at most one card, and a text and lines have a card or one first fault.
    card_is_unique();
    first_fault_without_card();
    first_fault_of_lines_is_computed();
    first_fault_of_lines_without_card();
}
