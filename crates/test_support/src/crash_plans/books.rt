//! Queries all books of a store, as one text.

use crate::printout::Printout;
use crate::scripts::run_script;
use std::alloc::Global;
use sync_core::BookStore;

/// Commands that change nothing, and whose replies show all: an import with a nonsense body shows
/// the tally that is kept under its key.
const QUERIES: &str = "books
tally staff
tally clients
export staff cards
export clients cards
report staff
report clients
import staff k1 nonsense
import clients k1 nonsense
import clients k2 nonsense";

/// Each book of the store: its line, its tally, its live cards, the page of its initial report, and
/// its kept imports. Without books the text is empty.
pub fn query_books<S: BookStore>(alloc: Global, store: &mut S) -> Printout {
    let mut books = Printout::new(alloc);
    if !matches!(store.books(), Ok(lines) if lines.is_empty()) {
        run_script(store, QUERIES, &mut books);
    }
    books
}
