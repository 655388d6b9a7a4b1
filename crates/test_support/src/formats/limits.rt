//! The limits of a store.

use crate::printout::Printout;
use sync_core::Limits;

/// The word as a number; 0, which is no legal limit, if it is none.
fn number_of(word: Option<&str>) -> u64 {
    word.unwrap_or_default().parse::<u64>().unwrap_or(0)
}

/// The limits with these numbers, of which the last may be left out.
fn limits_of(text: &str) -> Option<Limits> {
    if text == "standard" {
        return Some(Limits::standard());
    }
    let mut words = text.split(' ');
    let (pages, cards) = (number_of(words.next()), number_of(words.next()));
    let (changes, books) = (number_of(words.next()), number_of(words.next()));
    let limits = Limits::new(pages, cards, changes, books)?;
    match words.next() {
        Some(keep) => limits.with_keep(number_of(Some(keep))),
        None => Some(limits),
    }
}

/// `limits PAGE CARDS CHANGES BOOKS KEEP`, where the last may be left out, or `limits standard`:
/// the five numbers of the limits.
pub(crate) fn run_limits(text: &str, out: &mut Printout) {
    match limits_of(text) {
        Some(limits) => {
            out.add_number(limits.page_max());
            let (cards, changes) = (limits.cards_max(), limits.changes_max());
            out.add_numbers("", &[cards, changes, limits.books_max(), limits.keep()]);
        }
        None => out.add("none"),
    }
}
