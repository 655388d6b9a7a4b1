//! Which books are resynced, and the numbers of a book after it.
ghost use Rattle.book_model.specs.Counting.{total_changes};
ghost use Rattle.book_resync.specs.Resyncing.{counts_after_pairs, has_pairs_left, has_room};
ghost use Rattle.book_resync.specs.Resyncing.{last_number, number_after_pairs};
ghost use Rattle.std.specs.Prelude.{◌≡◌, ◌<◌, ◌+◌, ◌*◌, ◌^◌, IfOk};

use book_model::{Counts, Limits, Refusal};

/// Whether a book with this number has the numbers of this many pairs left. A pair is a creation
/// and a removal.
fn has_pairs_left(limits: Limits, number: u64, pairs: u64) -> bool
    ensures { result ≡ has_pairs_left limits number pairs }
{
    match limits.changes_max().checked_sub(number) {
        Some(left) => pairs <= left / 2,
        None => false,
    }
}

/// Whether a book with this many live cards has room for one more. A resync renews a card of a book
/// without room.
pub fn has_room(limits: Limits, cards: u64) -> bool
    ensures { result ≡ has_room limits cards }
{
    cards < limits.cards_max()
}

/// The last number of a book after it took the numbers of this many pairs. Refused, in this order,
/// with `ChangesSpent` if that is above the limit of changes; `BookFull` if the book has more live
/// cards than the limit.
pub fn last_number(limits: Limits, pairs: u64, number: u64, cards: u64) -> Result<u64, Refusal>
    ensures value { result ≡ last_number limits pairs number cards }
    ensures sum { IfOk result (λ last. last ≡ number_after_pairs number pairs) }
    ensures within { IfOk result (λ last. last < 2 ^ 62) }
{
    // The proof needs the greatest limit of changes, which this call ensures.
    let _most = limits.changes_max();
    if !has_pairs_left(limits, number, pairs) {
        return Err(Refusal::ChangesSpent);
    }
    if cards > limits.cards_max() {
        return Err(Refusal::BookFull);
    }
    Ok(number + 2 * pairs)
}

/// The counts with this many more creations, and as many removals.
pub fn counts_after_pairs(counts: Counts, pairs: u64) -> Counts
    requires { total_changes counts + 2 * pairs < 2 ^ 63 }
    ensures { result ≡ counts_after_pairs counts pairs }
{
    let mut after = counts;
    after.created += pairs;
    after.deleted += pairs;
    after
}
