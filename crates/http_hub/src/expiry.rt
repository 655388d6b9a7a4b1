//! When the connections of a hub expire.
ghost use Rattle.std.specs.Prelude.{◌≡◌, ◌||◌, ℕ, Bool};
ghost use Rattle.http_hub.specs.Hubs.{IsAt, IsOpenAt, any_expired, is_expired_slot};
ghost use Rattle.http_hub.specs.Links.{IsFirstTime, LinkValue, has_expired};

use crate::hub::Hub;
use crate::link::Link;

/// The first time at which the connection of the place has expired.
fn slot_expiry(link: &Option<Link>, patience: u64) -> Option<u64>
    ensures { IsFirstTime (λ now. is_expired_slot now patience link.now) result }
{
    match link {
        Some(link) => link.expiry(patience),
        None => None,
    }
}

/// The earlier of two times at which something first holds. `None` is never.
pub fn earlier(first: Option<u64>, second: Option<u64>) -> Option<u64>
    ensures { (test other : ℕ → Bool) → IsFirstTime test first → IsFirstTime other second
        → IsFirstTime (λ now. test now || other now) result }
{
    match (first, second) {
        (Some(first), Some(second)) => Some(first.min(second)),
        (Some(first), None) => Some(first),
        (None, second) => second,
    }
}

impl Hub {
    /// Whether the connection at the place has expired: for more than `patience` milliseconds it
    /// was not active, or the rest of a request has been awaited for longer than it may take
    /// (`Link::has_expired`).
    pub fn has_expired(&self, place: usize, now: u64, patience: u64) -> bool
        requires { IsOpenAt self.now place }
        ensures { (link : LinkValue) → IsAt self.now place link
            → result ≡ has_expired link now patience }
    {
        let Some(link) = &self.slots[place] else {
            unreachable!()
        };
        link.has_expired(now, patience)
    }

    /// The first time at which some connection has expired, if nothing is received or sent before.
    /// `None` if there is no such time below 2^64.
    pub fn next_expiry(&self, patience: u64) -> Option<u64>
        ensures { IsFirstTime (λ now. any_expired self.now.slots now patience) result }
    {
        let mut next = None;
        for link in &self.slots[..self.places_end] {
            next = earlier(next, slot_expiry(link, patience));
        }
        next
    }
}
