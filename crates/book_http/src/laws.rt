//! Laws of the octets of every connection to the service. Each law is a function that does nothing.
//! Each law is stated in `specs/OctetPromise.antt`.
ghost use Rattle.book_http.specs.OctetPromise.{ConnectionsRun, CutsRunAlike, FaultsLeaveRuns};
ghost use Rattle.book_http.specs.OctetPromise.{LostPiecesRun, ReadersAreDevices, RequestsRun};
ghost use Rattle.book_http.specs.OctetPromise.{SessionsRun};

use card_core::laws::expansion_is_unique;
use csv_cards::laws::{cards_of_rows_are_unique, first_fault_without_cards};
use page_json::laws::texts_determine_pages;
use sync_core::BookStore;
use sync_core::token_laws::token_texts_are_unique;
use vcard_text::laws::{card_is_unique, first_fault_without_card};

/// The guarantee of the service in terms of octets, over every store of books. Each clause but
/// `devices` assumes that the store matches the state before, and that its premise holds
/// afterwards.
/// - `requests`: requests that are handled in turn are a run, and the octets are its replies. The
///   run changes no device.
/// - `sessions`: all requests of the octets fed ran, and the octets returned are their replies. If
///   the session is closed, the list of requests has ended, or one more reply is to octets that
///   never become a head.
/// - `cuts`: however the octets are cut, a new session has the same value afterwards, and the same
///   requests ran. If no reply of either run is a fault, the runs, their replies and the rows are
///   the same. Both times, or neither, one reply follows to octets that never become a head.
/// - `out_of_memory`: if memory runs out during a feed, some requests, from the first on, ran.
/// - `connections`: on a connection served to its end, all requests of the octets read ran. The
///   octets written are the replies and at most one more, to octets that never become a head.
/// - `faults`: after a fault some requests of the octets read, from the first on, ran.
/// - `devices`: if a report with a device's token gets a page whose reply body is a text of the
///   page, and a client reads a page from this body and applies it, then that is a step of the
///   device.
pub fn octets_keep_the_promise<S: BookStore>()
    ensures requests { RequestsRun S.model }
    ensures sessions { SessionsRun S.model }
    ensures cuts { CutsRunAlike S.model }
    ensures out_of_memory { LostPiecesRun S.model }
    ensures connections { ConnectionsRun S.model }
    ensures faults { FaultsLeaveRuns S.model }
    ensures devices { ReadersAreDevices }
{
    // These are laws and do nothing: a text is that of one token, one page, one card or one list of
    // cards, or has one fault; and a group has one expansion.
    token_texts_are_unique();
    texts_determine_pages();
    card_is_unique();
    first_fault_without_card();
    cards_of_rows_are_unique();
    first_fault_without_cards();
    expansion_is_unique();
}
