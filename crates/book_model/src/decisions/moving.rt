//! The decision of a move.
ghost use Rattle.std.specs.Prelude.{◌≡◌, ◌≤◌, ◌<◌, ◌^◌, IfErr, IfOk, IfSome, Ok, Err, OnOk, IsSome};
ghost use Rattle.book_model.specs.Moving.{move_answer, move_numbers, moving_of};
ghost use Rattle.book_model.specs.Putting.{as_found_member};

use crate::answers::Moved;
use crate::decisions::lookup::{MemberLookup, is_expected, next_number};
use crate::limits::Limits;
use crate::refusal::Refusal;

/// The numbers of a move, where the target book has room.
fn numbers_of_move(limits: Limits, cards: u64, from: u64, to: u64) -> Result<Moved, Refusal>
    ensures numbers { result ≡ move_numbers limits cards from to }
    ensures from_within { IfOk result (λ moved. moved.from ≤ limits.changes_max) }
    ensures version_within { IfOk result (λ moved. moved.version ≤ limits.changes_max) }
    ensures from_room { OnOk result (from < 2 ^ 63) }
    ensures to_room { OnOk result (to < 2 ^ 63) }
{
    if cards >= limits.cards_max() {
        return Err(Refusal::BookFull);
    }
    let from = next_number(limits, from)?;
    let version = next_number(limits, to)?;
    Ok(Moved { from, version })
}

/// The numbers of a move, given what was found under the UID in the source and in the target book.
///
/// Refused, by the first that applies, with `NoSuchCard`; `UidTaken` where a card is live in the
/// target book; `VersionMismatch`; `BookFull` of the target book; `ChangesSpent` of either.
pub fn answer_to_move(
    limits: Limits,
    source: MemberLookup,
    target: MemberLookup,
    expect: Option<u64>,
) -> Result<Moved, Refusal>
    ensures answer { IfOk result (λ moved. IfSome (as_found_member source.entry).live (λ stored.
        move_answer limits (as_found_member source.entry) (as_found_member target.entry) expect
        ≡ Ok (moving_of stored.card moved))) }
    ensures live { OnOk result (IsSome (as_found_member source.entry).live) }
    ensures refusal { IfErr result (λ refusal.
        move_answer limits (as_found_member source.entry) (as_found_member target.entry) expect
        ≡ Err refusal) }
    ensures from_within { IfOk result (λ moved. moved.from ≤ limits.changes_max) }
    ensures version_within { IfOk result (λ moved. moved.version ≤ limits.changes_max) }
    ensures from_room { OnOk result ((as_found_member source.entry).number < 2 ^ 63) }
    ensures to_room { OnOk result ((as_found_member target.entry).number < 2 ^ 63) }
{
    let Some((version, _)) = source.live else {
        return Err(Refusal::NoSuchCard);
    };
    if target.live.is_some() {
        return Err(Refusal::UidTaken);
    }
    if !is_expected(expect, version) {
        return Err(Refusal::VersionMismatch { has: version });
    }
    numbers_of_move(limits, target.cards, source.number, target.number)
}
