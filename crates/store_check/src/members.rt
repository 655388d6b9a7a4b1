//! Checks a row of `member`.
ghost use Rattle.store_check.specs.RowChecks.{IsMemberRow};
ghost use Rattle.store_check.specs.RowFaults.{JudgesCard, JudgesMemberOf};
ghost use Rattle.store_rows.specs.TableRows.{load_member};
ghost use Rattle.store_rows.specs.Values.{IsCanonical, IsLegalUid, natural, text_card};
ghost use Rattle.store_tables.specs.Books.{BookRow};
ghost use Rattle.std.specs.Prelude.{◌≡◌, ◌↔◌, IfOk, IfSome, IsTrue, is_some};

use crate::cells::{
    has_natural, has_number, has_text, has_text_if_any, natural_at, natural_of, text_at,
    text_if_any_at,
};
use crate::faults::MemberFault;
use crate::names::is_uid_text;
use sqlite::Row;
use std::alloc::Global;
use store_rows::canonical::is_canonical_text;
use vcard_text::{Card, CardFault, NoMemory, read_card};

/// The card whose canonical text this is. `None` if there is none.
fn canonical_card(alloc: Global, text: &[u8]) -> Result<Option<Card>, NoMemory>
    ensures canonical { IfOk result (λ card. IsTrue (is_some card) ↔ IsCanonical text.now) }
    ensures card { IfOk result (λ card. IfSome card (λ card. card ≡ text_card text.now)) }
{
    let Ok(text) = str::from_utf8(text) else {
        return Ok(None);
    };
    let card = match read_card(alloc, text.as_bytes()) {
        Ok(card) => card,
        Err(CardFault::Memory) => return Err(NoMemory),
        Err(_) => return Ok(None),
    };
    if is_canonical_text(alloc, text, &card)? {
        Ok(Some(card))
    } else {
        Ok(None)
    }
}

/// What is wrong with the text of a card that is to have the UID, if anything is.
fn card_fault(alloc: Global, text: &[u8], uid: &[u8]) -> Result<Option<MemberFault>, NoMemory>
    ensures { IfOk result (JudgesCard text.now uid.now) }
{
    let Some(card) = canonical_card(alloc, text)? else {
        return Ok(Some(MemberFault::Card));
    };
    if card.uid().as_bytes() == uid {
        Ok(None)
    } else {
        Ok(Some(MemberFault::Uid))
    }
}

/// Whether the member has a legal UID.
fn has_legal_uid(member: &Row) -> bool
    ensures { IsTrue result ↔ IsLegalUid (load_member member.now).uid }
{
    is_uid_text(text_at(member, 2))
}

/// What is wrong with the member in a book with this number and this horizon, if anything is.
pub(crate) fn fault_in_book(
    alloc: Global,
    member: &Row,
    number: u64,
    horizon: i64,
) -> Result<Option<MemberFault>, NoMemory>
    ensures { IfOk result (λ fault. (b : BookRow)
        → natural b.numbers.number ≡ number → b.numbers.horizon ≡ horizon
        → JudgesMemberOf member.now b fault) }
{
    let changed = natural_at(member, 3);
    if changed < 1 || changed > number {
        return Ok(Some(MemberFault::Number));
    }
    if !has_legal_uid(member) {
        return Ok(Some(MemberFault::Uid));
    }
    match text_if_any_at(member, 4) {
        Some(text) => card_fault(alloc, text, text_at(member, 2)),
        None => if natural_of(horizon) < changed {
            Ok(None)
        } else {
            Ok(Some(MemberFault::Tombstone))
        },
    }
}

/// Whether the row has a member's columns: its id, its book's id, a UID, a number that is not
/// negative, and a text or null.
pub(crate) fn is_member_row(row: &Row) -> bool
    ensures { IsTrue result ↔ IsMemberRow row.now }
{
    let is_keyed = has_number(row, 0) && has_number(row, 1) && has_text(row, 2);
    is_keyed && has_natural(row, 3) && has_text_if_any(row, 4)
}
