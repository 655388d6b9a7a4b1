//! Closes the connections of a server that have expired.
ghost use Rattle.std.specs.Prelude.{◌↔◌, IsTrue};
ghost use Rattle.hub_server.specs.EndpointRuns.{ReachesByActs};
ghost use Rattle.hub_server.specs.Expiries.{ExpiresAt, HasExpiredAt, KeepsTurnsOver};
ghost use Rattle.hub_server.specs.Servers.{NoneExpired};

use crate::endpoint::Endpoint;
use crate::limits::ServeLimits;
use crate::server::Server;

impl Server {
    /// Whether the connection at the place, if there is one, has expired.
    fn has_expired(&self, place: usize, limits: ServeLimits) -> bool
        ensures { IsTrue result ↔ HasExpiredAt limits self.now place }
    {
        if place >= self.seats.len() {
            return false;
        }
        if !self.hub.is_open(place) {
            return false;
        }
        self.hub.has_expired(place, self.time, limits.patience)
    }

    /// Closes the connection at the place if it has expired.
    fn expire_at<E: Endpoint>(&mut self, endpoint: &mut E, place: usize, limits: ServeLimits)
        ensures { ExpiresAt E.calls limits place
            self.old endpoint.old self.new endpoint.new }
    {
        if self.has_expired(place, limits) {
            self.close(endpoint, place);
        }
    }

    /// Closes each connection that has expired.
    pub fn expire<E: Endpoint>(&mut self, endpoint: &mut E, limits: ServeLimits)
        ensures acts { ReachesByActs E.calls limits
            self.old endpoint.old self.new endpoint.new }
        ensures none_expired { NoneExpired limits self.new }
        ensures turns { KeepsTurnsOver self.old self.new }
    {
        for place in 0..self.places_end() {
            self.expire_at(endpoint, place, limits);
        }
    }
}
