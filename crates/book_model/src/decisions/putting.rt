//! The decision of a put.
ghost use Rattle.std.specs.Prelude.{◌≡◌, ◌≤◌, ◌<◌, ◌^◌, IfOk, IsSome};
ghost use Rattle.book_model.specs.Putting.{answer_over_live, as_found_member, put_answer};
ghost use Rattle.book_model.specs.Putting.{put_store_reason, answered_version};

use crate::answers::PutAnswer;
use crate::change::StoreReason;
use crate::decisions::lookup::{MemberLookup, is_expected, next_number};
use crate::limits::Limits;
use crate::refusal::Refusal;
use vcard_text::Card;

/// The answer of a put once the expected version was checked.
fn answer_over_live(limits: Limits, found: MemberLookup, card: &Card) -> Result<PutAnswer, Refusal>
    ensures answer { result ≡
        answer_over_live limits (as_found_member found.entry) card.now
        (as_found_member found.entry).live }
    ensures within { IfOk result (λ answer. IsSome (put_store_reason answer) →
        answered_version answer ≤ limits.changes_max) }
    ensures room { IfOk result (λ answer. IsSome (put_store_reason answer) →
        (as_found_member found.entry).number < 2 ^ 63) }
{
    let Some((version, stored)) = found.live else {
        if found.cards >= limits.cards_max() {
            return Err(Refusal::BookFull);
        }
        let version = next_number(limits, found.number)?;
        return Ok(PutAnswer::Created { version });
    };
    if stored.is_same(card) {
        return Ok(PutAnswer::Unchanged { version });
    }
    let version = next_number(limits, found.number)?;
    Ok(PutAnswer::Edited { version })
}

/// The answer of a put of the card, given what was found under its UID.
///
/// Refused, by the first that applies, with `VersionMismatch`; `BookFull` where no card is live
/// under the UID; `ChangesSpent` unless an equal card is live.
pub fn answer_to_put(
    limits: Limits,
    found: MemberLookup,
    card: &Card,
    expect: Option<u64>,
) -> Result<PutAnswer, Refusal>
    ensures answer { result ≡ put_answer limits (as_found_member found.entry) card.now expect }
    ensures within { IfOk result (λ answer. IsSome (put_store_reason answer) →
        answered_version answer ≤ limits.changes_max) }
    ensures room { IfOk result (λ answer. IsSome (put_store_reason answer) →
        (as_found_member found.entry).number < 2 ^ 63) }
{
    let has = match found.live {
        Some((version, _)) => version,
        None => 0,
    };
    if !is_expected(expect, has) {
        return Err(Refusal::VersionMismatch { has });
    }
    answer_over_live(limits, found, card)
}

/// Why the card is stored; `None` where it is unchanged.
pub fn reason_of(answer: PutAnswer) -> Option<StoreReason>
    ensures { result ≡ put_store_reason answer }
{
    match answer {
        PutAnswer::Created { .. } => Some(StoreReason::Creation),
        PutAnswer::Edited { .. } => Some(StoreReason::Edit),
        PutAnswer::Unchanged { .. } => None,
    }
}
