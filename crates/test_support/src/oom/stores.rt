//! Kinds of stores, and the commands that fill them before a call.

use crate::scripts::{parse_command, reply_to};
use crate::supply::Supply;
use base_types::NoMemory;
use book_service::Reply;
use std::alloc::Global;
use sync_core::{BookStore, Limits, PlainStore};

/// A kind of stores.
pub trait Stores {
    type Store: BookStore + Drop;

    /// The suffix of the names of cases over stores of this kind.
    fn over(&self) -> &'static str;

    /// A store with these limits, without books.
    fn new_store(&self, alloc: Global, limits: Limits) -> Result<Self::Store, NoMemory>;
}

/// Stores that keep their books in memory.
pub struct InMemory;

impl Stores for InMemory {
    type Store = PlainStore;

    fn over(&self) -> &'static str {
        ", in memory"
    }

    fn new_store(&self, alloc: Global, limits: Limits) -> Result<PlainStore, NoMemory> {
        Ok(PlainStore::new(alloc, limits))
    }
}

/// Fills a store before a call. A book keeps at most one tombstone, and `staff` has one.
pub const FILLING: &str = "create staff
create clients
card staff a FN:Ann\\nEMAIL:ann@office.invalid
card staff b FN:Bob\\nNOTE:Bob is in the office on Mondays and Tuesdays\\, and \
    elsewhere on each of the other days of the week.
card staff c FN:Cy
card staff d FN:Dee
card staff g FN:All\\nKIND:group\\nMEMBER:a\\nMEMBER:urn:uuid:b\\nMEMBER:nobody
card clients x FN:Xavier
import clients k uid,fn,family,given,email,tel,org,note\\nh,Hal,,,,,,\\ni,Ida,,,,,,\\n
remove staff d";

/// The limits of all stores here.
pub fn limits() -> Limits {
    let standard = Limits::standard();
    standard.with_keep(1).unwrap_or(standard)
}

/// The reply to the command of the line.
fn reply_to_line<S: BookStore>(store: &mut S, line: &str, supply: &mut Supply) -> Reply {
    let command = parse_command(line, supply);
    reply_to(supply.alloc, store, &command)
}

/// Performs the commands of the lines in turn, and returns the replies.
pub fn replies_to<S: BookStore>(store: &mut S, script: &str, supply: &mut Supply) -> Vec<Reply> {
    let mut replies = Vec::new(supply.alloc);
    for line in script.lines() {
        let reply = reply_to_line(store, line, supply);
        supply.note(replies.push(reply));
    }
    replies
}

/// A store of the kind, filled by these commands.
pub fn store_filled_by<K: Stores>(
    kind: &K,
    filling: &str,
    supply: &mut Supply,
) -> Option<K::Store> {
    let mut filled = supply.keep(kind.new_store(supply.alloc, limits()));
    if let Some(store) = &mut filled {
        drop(replies_to(store, filling, supply));
    }
    filled
}

/// A store of the kind, filled by the standard commands.
pub fn filled_store<K: Stores>(kind: &K, supply: &mut Supply) -> Option<K::Store> {
    store_filled_by(kind, FILLING, supply)
}
