//! The faults of a request that asks for no command.
ghost use Rattle.std.specs.Prelude.{◌≡◌, option_map};
ghost use Rattle.http_routes.specs.RouteFaults.{route_fault_allow, route_fault_number};
ghost use Rattle.http_routes.specs.RouteFaults.{route_fault_status, route_fault_text};

use crate::route::Route;

/// Why a complete request asks for no command. None of these closes the connection.
#[derive(Clone, Copy, Debug, PartialEq, Eq)]
pub enum RouteFault {
    /// No route matches the path, or the target doesn't start with a slash.
    NoRoute,
    /// The route doesn't have the method.
    BadMethod(Route),
    /// A percent-decoded part of the path isn't UTF-8.
    BadPath,
    /// The query has an unknown name or a name twice, lacks a required name, or has an invalid
    /// value.
    BadQuery,
}

impl RouteFault {
    /// The number of the fault: 27 to 30, in the order of the variants.
    pub fn number(self) -> u8
        ensures { result ≡ route_fault_number self }
    {
        match self {
            RouteFault::NoRoute => 27,
            RouteFault::BadMethod(_) => 28,
            RouteFault::BadPath => 29,
            RouteFault::BadQuery => 30,
        }
    }

    /// The status of the reply (RFC 9110, section 15.5).
    pub fn status(self) -> u16
        ensures { result ≡ route_fault_status self }
    {
        match self {
            RouteFault::NoRoute => 404,
            RouteFault::BadMethod(_) => 405,
            RouteFault::BadPath => 400,
            RouteFault::BadQuery => 400,
        }
    }

    /// The text of the fault in replies, as `no-route`.
    pub fn text(self) -> &'static str
        ensures { result.now ≡ route_fault_text self }
    {
        match self {
            RouteFault::NoRoute => "no-route",
            RouteFault::BadMethod(_) => "bad-method",
            RouteFault::BadPath => "bad-path",
            RouteFault::BadQuery => "bad-query",
        }
    }

    /// The value of the Allow field that a reply to a wrong method must have (RFC 9110, section
    /// 15.5.6).
    pub fn allow(self) -> Option<&'static str>
        ensures { option_map (λ methods. methods.now) result ≡ route_fault_allow self }
    {
        match self {
            RouteFault::BadMethod(route) => Some(route.allow()),
            RouteFault::NoRoute | RouteFault::BadPath | RouteFault::BadQuery => None,
        }
    }
}
