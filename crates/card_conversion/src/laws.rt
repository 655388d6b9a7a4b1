//! Laws of the rows that are written. Each law is an empty function whose clauses hold for all
//! cards.
ghost use Rattle.std.specs.Prelude.{◌≡◌, ◌≢◌, [], List, map, flat_map, ◌++◌};
ghost use Rattle.std.specs.List.{AllByRecursion, AllPairs};
ghost use Rattle.vcard_lines.specs.declared.line.Line.{Line};
ghost use Rattle.vcard_text.specs.Cards.{IsCard, uid_of};
ghost use Rattle.csv_cards.specs.Reading.{TextHasCards};
ghost use Rattle.csv_cards.specs.Writing.{csv_text};
ghost use Rattle.csv_cards.specs.declared.form.Form.TheVariants.{Cards};
ghost use Rattle.card_conversion.specs.RowTexts.{card_row_text, header_row_text};
ghost use Rattle.card_conversion.specs.Courses.{AllHaveFates, Part, cards_of_all};

use vcard_text::laws::canonical_text_spells;

/// The header and the rows of cards with different UIDs are read back as these cards, in order.
pub fn written_rows_are_read()
    ensures text { (cards : List (List Line))
        → csv_text Cards cards ≡ header_row_text ++ flat_map card_row_text cards }
    ensures read { (cards : List (List Line)) → AllByRecursion IsCard cards
        → AllPairs (λ a b. a ≢ b) (map uid_of cards) → TextHasCards (csv_text Cards cards) cards }
{
    // A law: the canonical text of any card spells the card.
    canonical_text_spells();
}

/// The cards of files that are converted one after another keep the rules of a card, and no two of
/// them have the same UID.
pub fn written_cards_differ()
    ensures rules { (parts : List Part) → AllHaveFates [] parts
        → AllByRecursion IsCard (cards_of_all parts) }
    ensures distinct { (parts : List Part) → AllHaveFates [] parts
        → AllPairs (λ a b. a ≢ b) (map uid_of (cards_of_all parts)) }
{}
