//! Single requests, with routes that are built for each of them.
use crate::checks::check;
use crate::service::new_store;
use base_types::Items;
use book_http::answer;
use http_requests::Head;
use sync_core::{BookStore, PlainStore};
use test_support::Printout;

/// Checks the beginning of the reply to a PUT of the target, which has no body.
fn check_put(store: &mut PlainStore, target: &str, expected: &[u8], out: &mut Printout) {
    let head = Head {
        method: out.supply.text("PUT"),
        target: out.supply.text(target),
        close: false,
        length: 0,
        user: Items::new(out.alloc()),
    };
    match answer(out.alloc(), store, &head, b"") {
        Ok(reply) => check(reply.as_slice().starts_with(expected), target, out),
        Err(_) => out.supply.ran_out = true,
    }
}

pub(crate) fn answers_single_requests(out: &mut Printout) {
    let mut store = new_store(out.alloc());
    check_put(&mut store, "/books/staff", b"HTTP/1.1 201 Created\r\n", out);
    check(store.book("staff").is_ok(), "the book", out);
    // The second target is one that no request has.
    for target in ["/staff", ""] {
        check_put(&mut store, target, b"HTTP/1.1 404 Not Found\r\n", out);
    }
}
