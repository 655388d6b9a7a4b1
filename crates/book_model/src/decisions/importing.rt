//! The decisions of an import.
ghost use Rattle.std.specs.Prelude.{◌≡◌, ◌<◌, ◌≤◌, ◌+◌, IfOk};
ghost use Rattle.book_model.specs.Importing.{import_reason, import_tally, imported_so_far};
ghost use Rattle.book_model.specs.Importing.{is_key_octet, is_legal_key};
ghost use Rattle.book_model.specs.Books.{as_stored};

use crate::answers::ImportTally;
use crate::change::StoreReason;
use crate::limits::Limits;
use crate::refusal::Refusal;
use vcard_text::Card;

fn is_octet_of_key(octet: u8) -> bool
    ensures { result ≡ is_key_octet octet }
{
    matches!(octet, b'A'..=b'Z' | b'a'..=b'z' | b'0'..=b'9' | b'.' | b'_' | b'-')
}

/// Whether an import may have the key: 1 to 64 of `A` to `Z`, `a` to `z`, `0` to `9`, the dot, the
/// underscore and the hyphen.
pub fn is_import_key(key: &str) -> bool
    ensures { result ≡ is_legal_key key.now }
{
    let octets = key.as_bytes();
    if octets.is_empty() || octets.len() > 64 {
        return false;
    }
    for octet in octets {
        if !is_octet_of_key(*octet) {
            return false;
        }
    }
    true
}

/// Why an import stores the card, given the live card under its UID. `None` where that is equal.
pub fn reason_to_import(live: Option<(u64, &Card)>, card: &Card) -> Option<StoreReason>
    ensures { result ≡ import_reason card.now (as_stored live.entry) }
{
    let Some((_, stored)) = live else {
        return Some(StoreReason::Import);
    };
    if stored.is_same(card) {
        return None;
    }
    Some(StoreReason::ImportEdit)
}

/// The answer of an import with these counts, given how many cards are live in the book after it,
/// and the book's number after it.
///
/// Refused, by the first that applies, with `BookFull` where cards were added and more cards are
/// live than the limit; `ChangesSpent` where cards were added or edited and the number is above the
/// limit. So where a card was added or edited, the returned number is within the limit.
pub fn tally_of_import(
    limits: Limits,
    added: u64,
    edited: u64,
    same: u64,
    cards: u64,
    number: u64,
) -> Result<ImportTally, Refusal>
    ensures tally { result ≡
        import_tally limits (imported_so_far added edited same) cards number }
    ensures within { IfOk result (λ tally.
        0 < tally.added + tally.edited → tally.number ≤ limits.changes_max) }
{
    if added > 0 && cards > limits.cards_max() {
        return Err(Refusal::BookFull);
    }
    if (added > 0 || edited > 0) && number > limits.changes_max() {
        return Err(Refusal::ChangesSpent);
    }
    Ok(ImportTally {
        added,
        edited,
        same,
        number,
    })
}
