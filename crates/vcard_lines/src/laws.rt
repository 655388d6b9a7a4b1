//! Laws of lines and of text values. Each law is an empty function whose clauses hold for all texts,
//! lines and values.
ghost use Rattle.std.specs.Prelude.{◌≡◌, ◌⊎◌, ◌↔◌, ℕ, true, List, Ok, Err, ◌<◌, map, length};
ghost use Rattle.std.specs.List.{list_all, AllByRecursion};
ghost use Rattle.vcard_lines.specs.LogicalLines.{AreLogicalLines};
ghost use Rattle.vcard_lines.specs.Folding.{IsFolding, physical_lines};
ghost use Rattle.vcard_lines.specs.LegalParts.{HasLegalParts, is_name, is_value, is_param};
ghost use Rattle.vcard_lines.specs.LegalParts.{has_legal_parts};
ghost use Rattle.vcard_lines.specs.Parsing.{parse_line};
ghost use Rattle.vcard_lines.specs.Unfolding.{logical_lines};
ghost use Rattle.vcard_lines.specs.Grammar.{is_permitted, AllInClass, IsName, IsValue, IsParam};
ghost use Rattle.vcard_lines.specs.Grammar.{SpellsLine};
ghost use Rattle.vcard_lines.specs.declared.fault.CardFault.{CardFault};
ghost use Rattle.vcard_lines.specs.declared.fault.CardFault.TheVariants.{BadChar, BadLine};
ghost use Rattle.vcard_lines.specs.declared.line.ParamValue.{ParamValue};
ghost use Rattle.vcard_lines.specs.declared.line.Param.{Param};
ghost use Rattle.vcard_lines.specs.declared.line.Line.{Line};
ghost use Rattle.std.specs.Str.{IsUtf8};
ghost use Rattle.vcard_lines.specs.TextValues.{TextChar, AreTextChars, text_chars};
ghost use Rattle.vcard_lines.specs.TextValues.{IsSplitAtSemicolons, split_at_semicolons};
ghost use Rattle.vcard_lines.specs.TextValues.{joined_by_semicolons, escaped_value, components};

/// A text has exactly one list of logical lines (RFC 6350, section 3.2); empty ones are left out.
pub fn logical_lines_are_unique()
    ensures { (text : List ℕ) (logical : List (List ℕ)) → AreLogicalLines text logical
        ↔ (logical ≡ logical_lines text) }
{}

/// A logical line has exactly one folding, which is the one written (RFC 6350, section 3.2).
pub fn folding_is_unique()
    ensures { (line : List ℕ) (physical : List (List ℕ)) → IsFolding line physical
        ↔ (physical ≡ physical_lines line) }
{}

/// A logical line spells at most one property line.
pub fn property_line_is_unique()
    ensures { (text : List ℕ) (a b : Line) → SpellsLine text a → SpellsLine text b → a ≡ b }
{}

/// A logical line spells a property line exactly if reading it from left to right returns that
/// line.
pub fn property_line_is_read()
    ensures { (text : List ℕ) (line : Line) → SpellsLine text line ↔ (parse_line text ≡ Ok line) }
{}

/// A logical line that isn't a property line has the fault `BadChar` if it has a forbidden
/// character, and otherwise `BadLine`.
pub fn unreadable_lines_have_a_fault()
    ensures { (text : List ℕ) (fault : CardFault) → parse_line text ≡ Err fault
        → ((fault ≡ BadChar) × (AllInClass is_permitted text → ⊥))
        ⊎ ((fault ≡ BadLine) × AllInClass is_permitted text) }
{}

/// The code's tests of a line's characters and parts agree with the grammar.
pub fn tests_agree_with_the_grammar()
    ensures characters { (text : List ℕ) → (list_all is_permitted text ≡ true)
        ↔ AllInClass is_permitted text }
    ensures name { (name : List ℕ) → (is_name name ≡ true) ↔ IsName name }
    ensures value { (value : ParamValue) → (is_value value ≡ true) ↔ IsValue value }
    ensures param { (param : Param) → (is_param param ≡ true) ↔ IsParam param }
    ensures parts { (line : Line) → (has_legal_parts line ≡ true) ↔ HasLegalParts line }
{}

/// A text value consists of exactly one list of characters, each plain or escaped by a backslash.
pub fn text_characters_are_unique()
    ensures { (value : List ℕ) (characters : List TextChar) → AreTextChars value characters
        ↔ (characters ≡ text_chars value) }
{}

/// A text value is split in exactly one way, with a plain semicolon between adjacent pieces and
/// none inside a piece.
pub fn semicolon_split_is_unique()
    ensures { (characters : List TextChar) (pieces : List (List TextChar))
        → IsSplitAtSemicolons characters pieces ↔ (pieces ≡ split_at_semicolons characters) }
{}

/// If one or more UTF-8 texts are escaped and joined by semicolons, the components of the value are
/// those texts.
pub fn joined_texts_are_components()
    ensures { (texts : List (List ℕ)) → AllByRecursion IsUtf8 texts → 0 < length texts
        → components (joined_by_semicolons (map escaped_value texts)) ≡ texts }
{}
