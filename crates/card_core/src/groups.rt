//! Expands a group into the people that it reaches.
ghost use Rattle.std.specs.Prelude.{◌≡◌, ◌↔◌, IfOk, None};
ghost use Rattle.std.specs.FinMap as finite;
ghost use Rattle.card_core.specs.Groups.{IsExpansion, IsNonGroupCard};
ghost use Rattle.card_core.specs.declared.fault.GroupFault.TheVariants.{NoSuchCard, NotGroup};

use crate::expansion::Expansion;
use crate::fault::GroupFault;
use crate::lookup::CardsByUid;
use crate::walk::{is_group, walk_from};
use std::alloc::Global;
use vcard_text::Card;

/// Expands the group with this UID: follows its members, and those of each group among them (RFC
/// 6350, section 6.6.5). Groups may be nested to any depth and form cycles. A card's UID is the
/// one under which `cards` has it.
///
/// A member's value names the card with that UID. If there is none and the value begins with
/// `urn:uuid:` in any case, it names the card whose UID is the rest.
///
/// `NoSuchCard` if no card has the UID, `NotGroup` if its kind isn't group, and `Memory` if an
/// allocation fails.
pub fn expand<C: CardsByUid>(alloc: Global, cards: &C, group: &str) -> Result<Expansion, GroupFault>
    // The people are the UIDs of the cards that chains of members reach, through groups only, and
    // that aren't groups. Missing are the member values that name no card, of the group and of the
    // groups that it reaches. Each is there once, in octet order.
    ensures expansion { IfOk result (λ expansion. IsExpansion (C.cards cards.now) group.now
        expansion) }
    ensures no_such_card { (result ≡ Err NoSuchCard) ↔ (finite.get (C.cards cards.now) group.now
        ≡ None) }
    ensures not_group { (result ≡ Err NotGroup) ↔ IsNonGroupCard (C.cards cards.now) group.now }
{
    let Some(card) = cards.card_of(group) else {
        return Err(GroupFault::NoSuchCard);
    };
    if !is_group(card) {
        return Err(GroupFault::NotGroup);
    }
    let walk = walk_from(alloc, cards, group, card)?;
    Ok(Expansion {
        people: walk.people.into_items(alloc)?,
        missing: walk.missing.into_items(alloc)?,
    })
}
