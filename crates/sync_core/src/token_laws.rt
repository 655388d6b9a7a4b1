//! Laws of the texts of tokens.
ghost use Rattle.sync_core.specs.TokenTextLaws.{TokenTextsAreUnique};

/// No two tokens have the same valid token text. A token is the id of its book and the two numbers
/// of its mark, `at` and `base`; its text is valid if each of the three has at most 13 digits, and
/// `at` is at most `base` (`specs/TokenTextLaws.antt`).
pub fn token_texts_are_unique()
    ensures { TokenTextsAreUnique }
{}
