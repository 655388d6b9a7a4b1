//! What a change of one member looks up in its book.
ghost use Rattle.std.specs.Prelude.{◌≡◌, ◌≤◌, ◌<◌, ◌^◌, IfOk, OnOk};
ghost use Rattle.book_model.specs.Putting.{is_expected, next_number};

use crate::limits::Limits;
use crate::refusal::Refusal;
use vcard_text::Card;

/// What was looked up in the book before one of its members is changed.
#[derive(Clone, Copy)]
pub struct MemberLookup<'a> {
    /// The version and the card under the UID, where one is live.
    pub live: Option<(u64, &'a Card)>,
    /// How many cards are live in the book.
    pub cards: u64,
    /// The number of the book's last change, or 0 where there was none.
    pub number: u64,
}

/// The number of the next change of a book with this number. Refused with `ChangesSpent` where the
/// book has had as many changes as its limit.
pub fn next_number(limits: Limits, number: u64) -> Result<u64, Refusal>
    ensures value { result ≡ next_number limits number }
    ensures within { IfOk result (λ next. next ≤ limits.changes_max) }
    ensures room { OnOk result (number < 2 ^ 63) }
{
    if number < limits.changes_max() {
        Ok(number + 1)
    } else {
        Err(Refusal::ChangesSpent)
    }
}

/// Whether the version is the expected one, if one is expected.
pub(crate) fn is_expected(expect: Option<u64>, version: u64) -> bool
    ensures { result ≡ is_expected expect version }
{
    match expect {
        None => true,
        Some(expect) => expect == version,
    }
}
