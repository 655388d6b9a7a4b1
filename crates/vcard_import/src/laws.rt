//! Laws of the pieces that are converted. Each law is an empty function whose clause holds for all
//! octets.
ghost use Rattle.std.specs.Prelude.{◌≡◌, ◌++◌, ℕ, List};
ghost use Rattle.import_text.specs.Pieces.{first_piece};
ghost use Rattle.vcard_import.specs.WholeCards.{IsWholeCard};

/// `import_text::split_piece` takes a card that has no other card in it as one piece, whatever
/// comes after it.
pub fn whole_cards_are_pieces()
    ensures { (card rest : List ℕ) → IsWholeCard card → first_piece (card ++ rest) ≡ card }
{}
