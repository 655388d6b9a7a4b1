//! Finds the card that a MEMBER value names.
ghost use Rattle.std.specs.Prelude.{◌≡◌, MatchOption, option_copied, drop, if◌then◌else◌};
ghost use Rattle.card_core.specs.Groups.{begins_with_urn, uid_named_by};
ghost use Rattle.card_core.specs.internal.Naming.{Names};

use crate::lookup::CardsByUid;
use vcard_text::Card;

/// The length in octets of `urn:uuid:`.
const URN_LEN: usize = 9;

/// The value after the prefix `urn:uuid:` in any case, or `None` without that prefix.
fn strip_urn(value: &str) -> Option<&str>
    ensures { option_copied result ≡ (if begins_with_urn value.now then Some (drop 9 value.now)
        else None) }
{
    let (front, rest) = value.split_at_checked(URN_LEN)?;
    if front.eq_ignore_ascii_case("urn:uuid:") {
        Some(rest)
    } else {
        None
    }
}

/// The UID that a value names, and its card. The whole value is tried first, since a UID may itself
/// begin with `urn:uuid:`.
pub(crate) fn find_named_card<'a, C: CardsByUid>(
    cards: &'a C,
    value: &'a str,
) -> Option<(&'a str, &'a Card)>
    ensures { MatchOption result (uid_named_by (C.cards cards.now) value.now ≡ None)
        (λ found. Names (C.cards cards.now) value.now found.0.now found.1.now) }
{
    if let Some(card) = cards.card_of(value) {
        return Some((value, card));
    }
    let rest = strip_urn(value)?;
    let card = cards.card_of(rest)?;
    Some((rest, card))
}
