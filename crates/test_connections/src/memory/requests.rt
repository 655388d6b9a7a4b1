//! HTTP requests in one piece.

use base_types::NoMemory;
use book_http::Service;
use book_service::Reply;
use http_replies::reply_bytes;
use http_requests::{Handler, Session};
use std::alloc::Global;
use sync_core::{BookStore, Fault};
use test_support::oom::{Harness, Stores, have_same_books, limits};
use test_support::{Printout, Supply, feed};

/// The requests of the piece: a book is created, a card is put into it, a device asks for its first
/// report, and the card is removed. Each has a flag that says whether it was done.
type Requests = [(&'static str, bool); 4];

/// The number of subsets of the requests.
const WAYS: u8 = 16;

/// The subset in which none of them is done.
const NONE_DONE: u8 = 15;

/// The subset with this index. In the first one all requests are done.
fn way(place: u8) -> Requests {
    [
        (
            "PUT /books/staff HTTP/1.1\r\nHost: office\r\n\r\n",
            place & 8 == 0,
        ),
        (
            "PUT /books/staff/cards/a HTTP/1.1\r\nHost: office\r\nContent-Length: 52\r\n\r\n\
             BEGIN:VCARD\r\nVERSION:4.0\r\nUID:a\r\nFN:Ann\r\nEND:VCARD\r\n",
            place & 4 == 0,
        ),
        (
            "GET /books/staff/sync?token= HTTP/1.1\r\nHost: office\r\n\r\n",
            place & 2 == 0,
        ),
        (
            "DELETE /books/staff/cards/a HTTP/1.1\r\nHost: office\r\n\r\n",
            place & 1 == 0,
        ),
    ]
}

/// Whether no request is done after one that isn't.
fn is_prefix(requests: Requests) -> bool {
    let [(_, first), (_, second), (_, third), (_, fourth)] = requests;
    (first || !second) && (second || !third) && (third || !fourth)
}

/// The result of feeding octets to a session.
type Answer = Result<Vec<u8>, NoMemory>;

/// The reply to the request if it is done, or if it runs out of memory.
fn reply_to_request<H: Handler>(
    alloc: Global,
    session: &mut Session,
    handler: &mut H,
    request: &str,
    is_done: bool,
) -> Answer {
    if is_done {
        feed(alloc, session, handler, request.as_bytes())
    } else {
        reply_bytes(alloc, Reply::Fault(Fault::Memory), false)
    }
}

/// The replies if some requests are done, and each of the others runs out of memory.
fn replies_where<H: Handler>(handler: &mut H, requests: Requests, supply: &mut Supply) -> Printout {
    let mut session = Session::new(supply.alloc);
    let mut replies = Printout::new(supply.alloc);
    for (request, is_done) in requests {
        let reply = reply_to_request(supply.alloc, &mut session, handler, request, is_done);
        if let Some(reply) = supply.keep(reply) {
            replies.add_octets(reply.as_slice());
        }
    }
    supply.note(replies.result());
    replies
}

/// The octets of the requests that weren't done.
fn requests_left(requests: Requests, supply: &mut Supply) -> Printout {
    let mut left = Printout::new(supply.alloc);
    for (request, is_done) in requests {
        if !is_done {
            left.add(request);
        }
    }
    supply.note(left.result());
    left
}

/// Feeds the octets to a new session.
fn feed_octets<H: Handler>(alloc: Global, handler: &mut H, octets: &[u8]) -> Answer {
    let mut session = Session::new(alloc);
    feed(alloc, &mut session, handler, octets)
}

/// Does over both stores the requests that weren't done, and returns whether the replies agree.
fn are_replied_alike<H: Handler>(
    handler: &mut H,
    twin: &mut H,
    requests: Requests,
    supply: &mut Supply,
) -> bool {
    let left = requests_left(requests, supply);
    let replies = supply.keep(feed_octets(supply.alloc, handler, left.as_slice()));
    let others = supply.keep(feed_octets(supply.alloc, twin, left.as_slice()));
    match (replies, others) {
        (Some(replies), Some(others)) => replies.as_slice() == others.as_slice(),
        _ => false,
    }
}

/// Whether the result is that of this subset: its replies, or out of memory if the requests done
/// are the first ones.
fn is_answered<H: Handler>(
    twin: &mut H,
    answer: &Answer,
    requests: Requests,
    supply: &mut Supply,
) -> bool {
    let expected = replies_where(twin, requests, supply);
    match answer {
        Ok(replies) => replies.as_slice() == expected.as_slice(),
        Err(NoMemory) => is_prefix(requests),
    }
}

/// Whether the result and the books are those of this subset, by comparison with a new twin. The
/// remaining requests are then done over both stores, and their replies must agree.
fn is_as_twin<S: BookStore>(
    service: &mut Service<S>,
    twin: &mut Service<S>,
    answer: &Answer,
    requests: Requests,
    supply: &mut Supply,
) -> bool {
    is_answered(twin, answer, requests, supply)
        && have_same_books(&mut service.store, &mut twin.store, supply)
        && are_replied_alike(service, twin, requests, supply)
}

fn new_service<K: Stores>(kind: &K, supply: &mut Supply) -> Option<Service<K::Store>> {
    match supply.keep(kind.new_store(supply.alloc, limits())) {
        Some(store) => supply.keep(Service::new(supply.alloc, store)),
        None => None,
    }
}

/// The index of the first subset that gives this result and these books.
fn find_way<K: Stores>(
    kind: &K,
    service: &mut Service<K::Store>,
    answer: &Answer,
    supply: &mut Supply,
) -> Option<u8> {
    for place in 0..WAYS {
        if let Some(mut twin) = new_service(kind, supply) {
            if is_as_twin(service, &mut twin, answer, way(place), supply) {
                return Some(place);
            }
        }
    }
    None
}

/// Reports the outcome of the piece. `closes_rightly` says whether the session is closed exactly
/// after an error.
fn report_fed<K: Stores>(
    harness: &mut Harness,
    kind: &K,
    service: &mut Service<K::Store>,
    answer: &Answer,
    closes_rightly: bool,
) {
    let place = find_way(kind, service, answer, &mut harness.supply);
    if place == Some(0) && answer.is_ok() {
        harness.report_answer(closes_rightly, answer);
    } else {
        harness.report_no_memory(place.is_some() && closes_rightly, place.is_some(), answer);
    }
}

/// Feeds the piece to a session in a window.
fn run_piece<K: Stores>(
    harness: &mut Harness,
    kind: &K,
    service: &mut Service<K::Store>,
    piece: &[u8],
) {
    let mut session = Session::new(harness.alloc());
    harness.open_window_over("Session::feed", kind.over());
    let answer = feed(harness.alloc(), &mut session, service, piece);
    harness.close_window();
    let closes_rightly = session.closed() == answer.is_err();
    report_fed(harness, kind, service, &answer, closes_rightly);
}

/// Runs the case of `Session::feed`, if it is selected.
pub fn run_feed<K: Stores>(harness: &mut Harness, kind: &K) {
    if harness.is_selected_over("Session::feed", kind.over()) {
        let piece = requests_left(way(NONE_DONE), &mut harness.supply);
        if let Some(mut service) = new_service(kind, &mut harness.supply) {
            run_piece(harness, kind, &mut service, piece.as_slice());
        }
    }
}
