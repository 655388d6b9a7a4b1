//! Walks from a group to all cards that it reaches. Pending groups wait in a list instead of on the
//! call stack, so nesting may have any depth.
ghost use Rattle.std.specs.Prelude.{◌≡◌, ◌≤◌, ◌↔◌, ℕ, List, [], Some, IsTrue, IfOk, OnOk};
ghost use Rattle.std.specs.FinMap as finite;
ghost use Rattle.vcard_text.specs.Cards.{kind_of};
ghost use Rattle.vcard_text.specs.declared.kind.Kind.TheVariants.{Group};
ghost use Rattle.card_core.specs.internal.Walks.{AddsGroup, RecordsMember, IsWalk, IsOpenWalk};
ghost use Rattle.card_core.specs.internal.Walks.{IsCompleteWalk, groups_left};

use crate::lookup::CardsByUid;
use crate::naming::find_named_card;
use crate::text_set::TextSet;
use std::alloc::Global;
use vcard_text::{Card, Kind, NoMemory};

/// The state of the walk. Its size depends on the members of the groups visited, not on the number
/// of cards.
#[derive(Drop)]
pub(crate) struct Walk<'a> {
    /// The UIDs of the cards found that aren't groups.
    pub(crate) people: TextSet,
    /// The UIDs of the groups found, including the first.
    pub(crate) groups: TextSet,
    /// The member values that name no card.
    pub(crate) missing: TextSet,
    /// The cards of the groups found whose members weren't visited yet.
    pub(crate) waiting: Vec<&'a Card>,
}

/// Whether the card's kind is group.
pub(crate) fn is_group(card: &Card) -> bool
    ensures { IsTrue result ↔ (kind_of card.now ≡ Group) }
{
    matches!(card.kind(), Kind::Group)
}

/// Adds a group to the walk. It waits to be visited, unless it was found before.
fn add_group<'a>(
    alloc: Global,
    uid: &str,
    card: &'a Card,
    walk: &mut Walk<'a>,
) -> Result<(), NoMemory>
    ensures { OnOk result (AddsGroup uid.now card.now walk.old walk.new) }
{
    if !walk.groups.contains(uid) {
        walk.groups.insert(alloc, uid)?;
        walk.waiting.push(card)?;
    }
    Ok(())
}

/// Records the card that a member value names, or the value if it names none.
fn record_member<'a, C: CardsByUid>(
    alloc: Global,
    cards: &'a C,
    value: &'a str,
    walk: &mut Walk<'a>,
) -> Result<(), NoMemory>
    ensures { OnOk result (RecordsMember (C.cards cards.now) value.now walk.old walk.new) }
{
    let Some((uid, card)) = find_named_card(cards, value) else {
        return walk.missing.insert(alloc, value);
    };
    if is_group(card) {
        add_group(alloc, uid, card, walk)
    } else {
        walk.people.insert(alloc, uid)
    }
}

/// Records each member of a group.
fn record_members<'a, C: CardsByUid>(
    alloc: Global,
    cards: &'a C,
    card: &'a Card,
    walk: &mut Walk<'a>,
) -> Result<(), NoMemory>
    ensures keeps_walk { OnOk result ((group : List ℕ)
        → IsOpenWalk (C.cards cards.now) group card.now walk.old
        → IsWalk (C.cards cards.now) group walk.new) }
    ensures decreases { OnOk result (groups_left (C.cards cards.now) walk.new
        ≤ groups_left (C.cards cards.now) walk.old) }
{
    for line in card.lines() {
        if line.name.as_str() == "MEMBER" {
            record_member(alloc, cards, line.value.as_str(), walk)?;
        }
    }
    Ok(())
}

/// Visits each waiting group, and the groups found on the way, until none waits.
fn visit_waiting<'a, C: CardsByUid>(
    alloc: Global,
    cards: &'a C,
    walk: &mut Walk<'a>,
) -> Result<(), NoMemory>
    ensures keeps_walk { OnOk result ((group : List ℕ) → IsWalk (C.cards cards.now) group walk.old
        → IsWalk (C.cards cards.now) group walk.new) }
    ensures none_waits { OnOk result (walk.new.waiting.items ≡ []) }
{
    while let Some(card) = walk.waiting.pop() {
        record_members(alloc, cards, card, walk)?;
    }
    Ok(())
}

/// The complete walk from a group.
pub(crate) fn walk_from<'a, C: CardsByUid>(
    alloc: Global,
    cards: &'a C,
    group: &str,
    card: &'a Card,
) -> Result<Walk<'a>, NoMemory>
    requires found { finite.get (C.cards cards.now) group.now ≡ Some card.now }
    requires is_group { kind_of card.now ≡ Group }
    ensures { IfOk result (IsCompleteWalk (C.cards cards.now) group.now) }
{
    let mut walk = Walk {
        people: TextSet::new(alloc),
        groups: TextSet::new(alloc),
        missing: TextSet::new(alloc),
        waiting: Vec::new(alloc),
    };
    add_group(alloc, group, card, &mut walk)?;
    visit_waiting(alloc, cards, &mut walk)?;
    Ok(walk)
}
