//! The places of a hub: how many have a connection, and how one is opened at a free place.
ghost use Rattle.std.specs.Prelude.{◌≡◌, ◌<◌, ◌≤◌, None, Some, MatchOption};
ghost use Rattle.std.specs.Prelude.{count_by, is_some, length, slice_get};
ghost use Rattle.http_hub.specs.PlaceCounts.{AreOpenBelow};
ghost use Rattle.http_hub.specs.Hubs.{IsFreeAt, OpensAt, is_full, most_opened, open_count};

use crate::hub::Hub;
use crate::link::Link;
use std::alloc::Global;

/// A place without a connection, if there is one.
fn first_free(slots: &[Option<Link>]) -> Option<usize>
    ensures { MatchOption result (count_by is_some slots.now ≡ length slots.now)
        (λ place. slice_get slots.now place ≡ Some None) }
{
    for (place, link) in slots.iter().enumerate() {
        if link.is_none() {
            return Some(place);
        }
    }
    None
}

/// One past the last place below `end` that has a connection, or 0. That bounds the places of all
/// connections if `end` does.
pub(crate) fn last_end(slots: &[Option<Link>], end: usize) -> usize
    requires below { AreOpenBelow slots.now end }
    requires within { end ≤ length slots.now }
    ensures below { AreOpenBelow slots.now result }
    ensures less { result ≤ end }
{
    let mut last = end;
    for _place in 0..end {
        if last == 0 || slots[last - 1].is_some() {
            return last;
        }
        last -= 1;
    }
    last
}

impl Hub {
    /// The number of open connections.
    pub fn len(&self) -> usize
        ensures { result ≡ open_count self.now }
    {
        self.open_count
    }

    /// A number that the place of every connection is below. It is the least one, unless the
    /// connection at the last of these places is being served.
    pub fn places_end(&self) -> usize
        ensures below { AreOpenBelow self.now.slots result }
        ensures within { result ≤ length self.now.slots }
    {
        self.places_end
    }

    /// The number of connections that were opened so far.
    pub fn opened_count(&self) -> u64
        ensures { result ≡ self.now.opened }
    {
        self.opened
    }

    /// Whether no further connection can be opened: every place has one, or 2^64 - 1 were opened so
    /// far.
    pub fn is_full(&self) -> bool
        ensures { result ≡ is_full self.now }
    {
        self.len() == self.slots.len() || self.opened == u64::MAX
    }

    /// A place without a connection, or `None` if every place has one.
    pub fn free_place(&self) -> Option<usize>
        ensures { MatchOption result (open_count self.now ≡ length self.now.slots)
            (λ place. IsFreeAt self.now place) }
    {
        first_free(&self.slots)
    }

    /// Opens a connection, with a new session, at a place without one. It allocates nothing.
    pub fn open_at(&mut self, alloc: Global, place: usize, now: u64)
        requires is_free { IsFreeAt self.old place }
        requires few { self.old.opened < most_opened }
        ensures { OpensAt place self.old now self.new }
    {
        let serial = self.opened;
        self.put_link(place, Link::new(alloc, serial, now));
        self.opened += 1;
    }
}
