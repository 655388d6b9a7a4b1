//! Queries and compares the books of stores, and a small book.

use crate::oom::stores::replies_to;
use crate::supply::Supply;
use book_service::Reply;
use sync_core::{BookStore, Fault};

/// A book with two cards, one of them edited, and a removed card.
pub const FEW_CARDS: &str = "create staff
card staff a FN:Ann
card staff b FN:Bob
card staff c FN:Cy
card staff a FN:Anna
remove staff b";

/// Commands that change nothing. Their replies show all books: their lines, their tallies, the
/// cards, the tombstone that one of them keeps, and the tallies of kept imports.
const QUERIES: &str = "books
tally staff
tally clients
tally third
report staff
report staff http://contacts.invalid/sync/1/0/0
report clients
report third
import staff k
import staff k2
import clients k";

/// The replies that show the store's books.
pub fn query_books<S: BookStore>(store: &mut S, supply: &mut Supply) -> Vec<Reply> {
    replies_to(store, QUERIES, supply)
}

/// Whether the store has these books.
pub fn has_books<S: BookStore>(store: &mut S, books: &[Reply], supply: &mut Supply) -> bool {
    query_books(store, supply).as_slice() == books
}

/// Whether both stores have the same books.
pub fn have_same_books<S: BookStore>(store: &mut S, twin: &mut S, supply: &mut Supply) -> bool {
    let books = query_books(store, supply);
    has_books(twin, books.as_slice(), supply)
}

/// Whether the command ran out of memory.
pub fn is_no_memory(reply: &Reply) -> bool {
    matches!(reply, Reply::Fault(Fault::Memory))
}
