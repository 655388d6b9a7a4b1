//! One member of a page in JSON.
ghost use Rattle.std.specs.Prelude.{◌≡◌, ◌≢◌, ◌<◌, ◌≤◌, ℕ, List, IfOk, IfErr, IfSome, IfNone};
ghost use Rattle.serde_json.specs.Data.{Data};
ghost use Rattle.serde_json.specs.View.{view};
ghost use Rattle.vcard_text.specs.Cards.{uid_of};
ghost use Rattle.vcard_text.specs.Spelling.{Spells};
ghost use Rattle.page_json.specs.PageTexts.{MemberTexts, changed, removed, DescribesEntry};
ghost use Rattle.page_json.specs.PageValues.{EncodesMember, changed_object, removed_object};
ghost use Rattle.page_json.specs.FirstFaults.{HasMemberFault, HasCardFault};
ghost use Rattle.page_json.specs.internal.ParsedTexts.{texts_of};
ghost use Rattle.page_json.specs.declared.fault.ReportFault.TheVariants.{Memory};

use crate::fault::ReportFault;
use book_model::Entry;
use serde_json::Value;
use std::alloc::Global;
use vcard_text::{Card, Text, read_card};

/// The status of a member that is live (RFC 9110, section 15.3.1).
pub(crate) const STATUS_OK: u64 = 200;

/// The status of a member that was removed (RFC 9110, section 15.5.5).
pub(crate) const STATUS_NOT_FOUND: u64 = 404;

/// The greatest version.
const VERSION_MAX: u64 = 9_999_999_999_999;

/// A member whose card is still an unparsed text.
#[derive(Clone, Copy, Drop)]
pub(crate) enum Member<'a> {
    Changed {
        uid: &'a str,
        version: u64,
        card: &'a str,
    },
    Removed {
        uid: &'a str,
    },
}

/// The card, the status, the UID and the version of an object that has exactly these.
fn changed_parts(value: &Value) -> Option<(&Value, &Value, &Value, &Value)>
    ensures some { IfSome result (λ parts. view value.now ≡ changed_object (view parts.0.now)
        (view parts.1.now) (view parts.2.now) (view parts.3.now)) }
    ensures none { IfNone result ((card status uid version : Data) →
        view value.now ≢ changed_object card status uid version) }
{
    let mut members = value.as_object()?.iter();
    let (first, card) = members.next()?;
    let (second, status) = members.next()?;
    let (third, uid) = members.next()?;
    let (fourth, version) = members.next()?;
    if members.next().is_some() {
        return None;
    }
    if first.as_str() == "card"
        && second.as_str() == "status"
        && third.as_str() == "uid"
        && fourth.as_str() == "version"
    {
        Some((card, status, uid, version))
    } else {
        None
    }
}

/// The status and the UID of an object that has exactly these.
fn removed_parts(value: &Value) -> Option<(&Value, &Value)>
    ensures some { IfSome result (λ parts. view value.now
        ≡ removed_object (view parts.0.now) (view parts.1.now)) }
    ensures none { IfNone result ((status uid : Data) →
        view value.now ≢ removed_object status uid) }
{
    let mut members = value.as_object()?.iter();
    let (first, status) = members.next()?;
    let (second, uid) = members.next()?;
    if members.next().is_some() {
        return None;
    }
    if first.as_str() == "status" && second.as_str() == "uid" {
        Some((status, uid))
    } else {
        None
    }
}

/// The live member that the value encodes, if it encodes one.
fn changed_member(value: &Value) -> Option<Member<'_>>
    ensures some { IfSome result (λ member. EncodesMember (view value.now) (texts_of member)) }
    ensures none { IfNone result ((uid text : List ℕ) (version : ℕ) →
        EncodesMember (view value.now) (changed uid version text) → ⊥) }
{
    let (card, status, uid, version) = changed_parts(value)?;
    let card = card.as_str()?;
    let status = status.as_u64()?;
    let uid = uid.as_str()?;
    let version = version.as_u64()?;
    if status == STATUS_OK && 1 <= version && version <= VERSION_MAX {
        Some(Member::Changed { uid, version, card })
    } else {
        None
    }
}

/// The removed member that the value encodes, if it encodes one.
fn removed_member(value: &Value) -> Option<Member<'_>>
    ensures some { IfSome result (λ member. EncodesMember (view value.now) (texts_of member)) }
    ensures none { IfNone result
        ((uid : List ℕ) → EncodesMember (view value.now) (removed uid) → ⊥) }
{
    let (status, uid) = removed_parts(value)?;
    let status = status.as_u64()?;
    let uid = uid.as_str()?;
    if status == STATUS_NOT_FOUND {
        Some(Member::Removed { uid })
    } else {
        None
    }
}

/// The member that the value encodes, if it encodes one.
pub(crate) fn member_of(value: &Value) -> Option<Member<'_>>
    ensures some { IfSome result (λ member. EncodesMember (view value.now) (texts_of member)) }
    ensures none { IfNone result ((texts : MemberTexts) →
        EncodesMember (view value.now) texts → ⊥) }
{
    match changed_member(value) {
        Some(member) => Some(member),
        None => removed_member(value),
    }
}

/// The entry of the member: parses its card, if it is live.
pub(crate) fn entry_of(alloc: Global, member: Member<'_>) -> Result<Entry, ReportFault>
    ensures entry { IfOk result (λ entry. DescribesEntry (texts_of member.entry) entry) }
    ensures fault { IfErr result (λ fault. fault ≢ Memory
        → HasMemberFault (texts_of member.entry) fault) }
{
    match member {
        Member::Changed { uid, version, card } => {
            let card = card_of(alloc, uid, card)?;
            let uid = Text::copy_of(alloc, uid)?;
            Ok(Entry::Changed { uid, version, card })
        }
        Member::Removed { uid } => {
            let uid = Text::copy_of(alloc, uid)?;
            Ok(Entry::Removed { uid })
        }
    }
}

/// The card of the text. `BadShape` where it doesn't have the UID.
fn card_of(alloc: Global, uid: &str, text: &str) -> Result<Card, ReportFault>
    ensures spelled { IfOk result (λ card. Spells text.now card) }
    ensures uid { IfOk result (λ card. uid_of card ≡ uid.now) }
    ensures fault { IfErr result (λ fault. fault ≢ Memory
        → HasCardFault uid.now text.now fault) }
{
    let card = read_card(alloc, text.as_bytes())?;
    if card.uid() != uid {
        return Err(ReportFault::BadShape);
    }
    Ok(card)
}
