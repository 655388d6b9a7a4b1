//! Laws of every run of a server. Each law is a function that does nothing.
ghost use Rattle.hub_server.specs.ServerLaws.{ServerRunsAreHubRuns, ServersHoldWithin};

use http_requests::Handler;

/// Every run of a server is a run of its hub. The octets fed for a connection are the first of
/// those read from it, and the octets written to it are those that the hub sends. So what was
/// written to each connection, followed by what is pending, is the replies to its own requests in
/// order, and after them that to `HeadFault::Busy`, if it was refused.
pub fn server_runs_are_hub_runs<H: Handler>()
    ensures { ServerRunsAreHubRuns H.does H.fault_reply }
{}

/// Connections that hold more than 16,384 octets, of incomplete requests with all their announced
/// octets and of replies until their last octet is sent, hold at most `limits.held` together, or
/// there is only one of them. So after each step of a run all connections hold at most that, or all
/// of one connection that is larger by itself, and at most 16,384 octets of each other one; beside
/// what was read and not fed. This is said of the hub of a run, not of the server's memory.
pub fn servers_hold_within<H: Handler>()
    ensures { ServersHoldWithin H.does H.fault_reply }
{}
