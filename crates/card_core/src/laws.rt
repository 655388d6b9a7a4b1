//! The law of expansions: an empty function whose clause holds for all cards.
ghost use Rattle.std.specs.Prelude.{◌≡◌, ℕ, List};
ghost use Rattle.card_core.specs.Groups.{Cards, IsExpansion};
ghost use Rattle.card_core.specs.declared.expansion.Expansion.{Expansion};

/// A group has at most one expansion.
pub fn expansion_is_unique()
    ensures { (cards : Cards) (group : List ℕ) (a b : Expansion) → IsExpansion cards group a
        → IsExpansion cards group b → a ≡ b }
{}
