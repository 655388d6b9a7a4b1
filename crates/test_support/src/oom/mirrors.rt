//! Mirrors of whole books.

use crate::oom::books::{FEW_CARDS, has_books, query_books};
use crate::oom::harness::Harness;
use crate::oom::stores::{Stores, store_filled_by};
use crate::scripts::mirror_of;
use book_service::Mirrored;
use std::alloc::Global;
use sync_core::{BookStore, Denied, Fault};

/// Mirrors the book `staff` in pages of one entry.
fn mirror_book<S: BookStore>(alloc: Global, store: &mut S) -> Result<Mirrored, Denied> {
    mirror_of(alloc, store, "staff", 1, 10)
}

/// Mirrors a book in a window, and reports the outcome. The twin store has the same books, which a
/// mirror must not change.
fn run_mirror_case<S: BookStore>(harness: &mut Harness, store: &mut S, twin: &mut S, over: &str) {
    let alloc = harness.alloc();
    let before = query_books(twin, &mut harness.supply);
    let expected = mirror_book(alloc, twin);
    harness.open_window_over("mirror", over);
    let answer = mirror_book(alloc, store);
    harness.close_window();
    let left = has_books(store, before.as_slice(), &mut harness.supply);
    let again = mirror_book(alloc, store);
    let ran_out = matches!(&answer, Err(Denied::Fault(Fault::Memory)));
    harness.report_read(left, expected, ran_out, answer, again);
}

/// Runs the case of `mirror`, if it is selected.
pub fn run_mirror<K: Stores>(harness: &mut Harness, kind: &K) {
    let over = kind.over();
    if harness.is_selected_over("mirror", over) {
        let store = store_filled_by(kind, FEW_CARDS, &mut harness.supply);
        let twin = store_filled_by(kind, FEW_CARDS, &mut harness.supply);
        if let (Some(mut store), Some(mut twin)) = (store, twin) {
            run_mirror_case(harness, &mut store, &mut twin, over);
        }
    }
}
