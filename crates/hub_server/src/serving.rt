//! Serves all connections of an endpoint.
ghost use Rattle.std.specs.Prelude.{◌≡◌, ◌<◌, ◌↔◌, IfErr, IfOk, OnOk, IsTrue, replicate};
ghost use Rattle.std.specs.Prelude.{false};
ghost use Rattle.hub_server.specs.Needs.{HasTurnAt, KeepsOthers, steps_left};
ghost use Rattle.hub_server.specs.Rounds.{FailsInRound, ServesRound};
ghost use Rattle.hub_server.specs.ServedEndpoints.{ServesAll, StopsAtEndpoint};
ghost use Rattle.hub_server.specs.ServerRuns.{ReachesBySteps};
ghost use Rattle.hub_server.specs.Servers.{AreTurnsOver, HasToWait, IsServerDone};

use crate::endpoint::Endpoint;
use crate::endpoint_fault::EndpointFault;
use crate::limits::ServeLimits;
use crate::need::Need;
use crate::server::Server;
use base_types::NoMemory;
use http_requests::Handler;
use std::alloc::Global;

/// A list of `limit` places, none of which is ready.
fn none_ready(alloc: Global, limit: usize) -> Result<Vec<bool>, NoMemory>
    ensures { IfOk result (λ ready. ready.items ≡ replicate limit false) }
{
    let mut ready = Vec::new(alloc);
    ready.resize(limit, false)?;
    Ok(ready)
}

impl Server {
    /// The next step of the connection at the place.
    fn step<H: Handler, E: Endpoint>(
        &mut self,
        alloc: Global,
        handler: &mut H,
        endpoint: &mut E,
        place: usize,
        limits: ServeLimits,
    )
        requires { HasTurnAt self.old place }
        ensures steps { ReachesBySteps H.does H.fault_reply E.calls limits 0
            self.old handler.old endpoint.old self.new handler.new endpoint.new }
        ensures others { KeepsOthers place self.old self.new }
        ensures less { steps_left self.new place < steps_left self.old place }
    {
        match self.need(place) {
            Need::Input => self.read(endpoint, place),
            Need::Output => self.write(endpoint, place),
            Need::Feeding => self.feed(alloc, handler, place, limits),
            Need::Closing => self.finish(endpoint, place),
        }
    }

    /// Serves the connection at the place until it isn't ready any more, or its turn is over.
    fn serve_place<H: Handler, E: Endpoint>(
        &mut self,
        alloc: Global,
        handler: &mut H,
        endpoint: &mut E,
        place: usize,
        limits: ServeLimits,
    )
        ensures steps { ReachesBySteps H.does H.fault_reply E.calls limits 0
            self.old handler.old endpoint.old self.new handler.new endpoint.new }
        ensures others { KeepsOthers place self.old self.new }
        ensures over { HasTurnAt self.new place → ⊥ }
    {
        while self.has_turn(place) {
            self.step(alloc, handler, endpoint, place, limits);
        }
    }

    /// Serves each connection until it isn't ready any more, or its turn is over.
    fn serve_ready<H: Handler, E: Endpoint>(
        &mut self,
        alloc: Global,
        handler: &mut H,
        endpoint: &mut E,
        limits: ServeLimits,
    )
        ensures steps { ReachesBySteps H.does H.fault_reply E.calls limits 0
            self.old handler.old endpoint.old self.new handler.new endpoint.new }
        ensures over { AreTurnsOver self.new }
    {
        for place in 0..self.places_end() {
            self.serve_place(alloc, handler, endpoint, place, limits);
        }
    }

    /// Serves the connections that a wait reported, closes those that have expired, and accepts
    /// those that wait.
    fn serve_round<H: Handler, E: Endpoint>(
        &mut self,
        alloc: Global,
        handler: &mut H,
        endpoint: &mut E,
        limits: ServeLimits,
        ready: &mut [bool],
    ) -> Result<(), EndpointFault>
        requires due { HasToWait limits self.old ready.old }
        ensures round { OnOk result (ServesRound H.does H.fault_reply E.calls limits
            self.old handler.old endpoint.old self.new handler.new endpoint.new) }
        ensures failed { IfErr result (λ fault. FailsInRound H.does H.fault_reply E.calls limits
            fault self.old handler.old endpoint.old self.new handler.new endpoint.new) }
    {
        self.wait(endpoint, limits, ready)?;
        self.serve_ready(alloc, handler, endpoint, limits);
        self.expire(endpoint, limits);
        self.accept_all(alloc, endpoint, limits)
    }

    /// Whether all connections were accepted and none is open any more.
    fn is_done(&self, connections: u64) -> bool
        ensures { IsTrue result ↔ IsServerDone connections self.now }
    {
        self.hub.opened_count() == connections && self.hub.len() == 0
    }
}

/// Accepts `limits.connections` connections, at most `limits.together` of them open at once, and
/// serves them together, each until it ends.
///
/// A connection that the endpoint reports is served until it isn't ready any more, but has at most
/// 32 steps between two waits. The next wait comes once each that is ready has had its steps, in
/// whatever order, and is asked to end at once if one of them was cut off. A step reads at most
/// 16,384 octets, feeds one piece of them to the session, or writes pending octets. Nothing is read
/// or fed while octets are pending.
///
/// A connection is closed only if its session is closed and nothing is pending, if its input
/// has ended, if reading or writing failed, or if it has expired by the time of the last wait. When
/// the next wait begins, none has. With `limits.together` open connections accepting waits. If the
/// endpoint answers `Later`, it is tried again after 100 milliseconds, or before if the listener is
/// reported.
///
/// In the run, the connections that hold more than 16,384 octets of an incomplete request or of
/// replies that aren't wholly sent hold at most `limits.held` together, or there is only one of
/// them. One that would hold more is refused (`HeadFault::Busy`, or without a reply) and closed.
///
/// `Wait` or `Accept` at once if the endpoint fails; `TooManyWaits` after 2^64 - 1 waits; `Memory`
/// if an allocation fails before the first wait, and nothing was done. Later only the connection
/// within which memory runs out is closed.
///
/// By reading alone, since no clause says it: it allocates 16,384 octets for each place before the
/// first wait, and nothing when it accepts a connection.
pub fn serve_endpoint<H: Handler, E: Endpoint>(
    alloc: Global,
    handler: &mut H,
    endpoint: &mut E,
    limits: ServeLimits,
) -> Result<(), EndpointFault>
    ensures served { OnOk result (ServesAll H.does H.fault_reply E.calls limits
        handler.old endpoint.old handler.new endpoint.new) }
    ensures stopped { IfErr result (λ fault. StopsAtEndpoint H.does H.fault_reply E.calls limits
        fault handler.old endpoint.old handler.new endpoint.new) }
{
    let mut server = Server::new(alloc, limits.together)?;
    let mut ready = none_ready(alloc, limits.together)?;
    for _wait in 0..u64::MAX {
        if server.is_done(limits.connections) {
            return Ok(());
        }
        server.serve_round(alloc, handler, endpoint, limits, ready.as_mut_slice())?;
    }
    Err(EndpointFault::TooManyWaits)
}
