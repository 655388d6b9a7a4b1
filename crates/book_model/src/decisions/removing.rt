//! The decision of a removal.
ghost use Rattle.std.specs.Prelude.{◌≡◌, ◌≤◌, ◌<◌, ◌^◌, IfOk, OnOk, IsSome};
ghost use Rattle.book_model.specs.Putting.{as_found_member};
ghost use Rattle.book_model.specs.Removing.{remove_number};

use crate::decisions::lookup::{MemberLookup, is_expected, next_number};
use crate::limits::Limits;
use crate::refusal::Refusal;

/// The number of the removal, given what was found under the UID.
///
/// Refused, by the first that applies, with `NoSuchCard`; `VersionMismatch`; `ChangesSpent`.
pub fn number_of_removal(
    limits: Limits,
    found: MemberLookup,
    expect: Option<u64>,
) -> Result<u64, Refusal>
    ensures number { result ≡ remove_number limits (as_found_member found.entry) expect }
    ensures within { IfOk result (λ number. number ≤ limits.changes_max) }
    ensures room { OnOk result ((as_found_member found.entry).number < 2 ^ 63) }
    ensures live { OnOk result (IsSome (as_found_member found.entry).live) }
{
    let Some((version, _)) = found.live else {
        return Err(Refusal::NoSuchCard);
    };
    if !is_expected(expect, version) {
        return Err(Refusal::VersionMismatch { has: version });
    }
    next_number(limits, found.number)
}
