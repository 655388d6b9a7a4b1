//! Laws of requests in a stream, and of sessions that are fed piece by piece. Each law is a
//! function that does nothing.
ghost use Rattle.http_requests.specs.SessionFeeding.{CutsMakeNoDifference, PiecesAreFedAsOne};
ghost use Rattle.http_requests.specs.RequestLaws.{RequestsAreDetermined, RequestsConcatenate};
ghost use Rattle.http_requests.specs.RequestLaws.{EndedListIsFinal, LeadingRequestsArePrefix};

use crate::handler::Handler;

/// The requests of a stream (`specs/RequestLaws.antt`).
/// - `determined`: octets have at most one list of all requests, with one rest.
/// - `concatenated`: if the list of a first piece hasn't ended, the requests of two pieces are
///   those of the first, then those of its rest and the second piece.
/// - `ended`: if the list of the first piece has ended, the requests of two pieces are those of the
///   first.
/// - `prefix`: requests at the front of the octets are a prefix of the list of all requests.
pub fn streams_can_be_cut()
    ensures determined { RequestsAreDetermined }
    ensures concatenated { RequestsConcatenate }
    ensures ended { EndedListIsFinal }
    ensures prefix { LeadingRequestsArePrefix }
{}

/// Two feeds of the same octets from the same state leave the same session: closed, or open with
/// the same octets held (`specs/SessionFeeding.antt`).
pub fn cuts_make_no_difference<H: Handler>()
    ensures { CutsMakeNoDifference H.does H.fault_reply }
{}

/// Feeding pieces to a new session is feeding all of them joined, with all replies joined
/// (`specs/SessionFeeding.antt`).
pub fn pieces_are_fed_as_one<H: Handler>()
    ensures { PiecesAreFedAsOne H.does H.fault_reply }
{}
