//! Laws of every interleaving of connections. Each law is a function that does nothing.
ghost use Rattle.http_hub.specs.FedPieces.{InterleavingsAreOneRun};
ghost use Rattle.http_hub.specs.HubRuns.{HubsSeparateConnections};
ghost use Rattle.http_hub.specs.PieceRequests.{PiecesCompleteFewRequests};

use http_requests::Handler;

/// The pieces of any number of connections may be interleaved in any way. The handler makes one run
/// of all requests, in the order in which they became complete. Each connection gets the replies
/// to its own requests, as if it were the only one. The last replies are lost only if the memory
/// ran out within one of its own pieces.
pub fn interleavings_are_one_run<H: Handler>()
    ensures { InterleavingsAreOneRun H.does H.fault_reply }
{}

/// The operations of a hub may come in any order. The octets sent to a connection, followed by
/// those that are pending or were when it was ended, are the replies to its own requests in order.
/// A place that is used again starts with a new session.
pub fn hubs_separate_connections<H: Handler>()
    ensures { HubsSeparateConnections H.does H.fault_reply }
{}

/// A piece completes at most one request, and one more for every two line feeds in it. So a piece
/// whose only line feed is its last octet completes at most one.
pub fn pieces_complete_few_requests()
    ensures { PiecesCompleteFewRequests }
{}
