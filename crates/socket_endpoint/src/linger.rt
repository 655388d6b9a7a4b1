//! When a closed connection that lingers is given up.
ghost use Rattle.std.specs.Prelude.{◌≡◌, min};
ghost use Rattle.socket_endpoint.specs.Lingers.{deadline_of, is_given_up, linger_after, new_linger};
ghost use Rattle.socket_endpoint.specs.Lingers.{octets_left};
ghost use Rattle.socket_endpoint.specs.PollTimes.{most_time};

/// The longest time without octets from the client, in milliseconds.
const SILENCE_MAX: u64 = 1_000;

/// The longest time in all, in milliseconds.
const LINGER_MAX: u64 = 10_000;

/// The most octets that are dropped.
const DROPPED_OCTETS_MAX: u64 = 16_384_000;

/// What is known of a closed connection of which the client hasn't ended its side.
#[derive(Clone, Copy, Debug, PartialEq, Eq)]
pub(crate) struct Linger {
    /// When it was closed, in milliseconds.
    pub(crate) closed_at: u64,
    /// When it was closed or octets came last.
    pub(crate) heard_at: u64,
    /// The number of octets that were dropped.
    pub(crate) dropped: u64,
}

impl Linger {
    /// A connection that is closed now.
    pub(crate) fn new(now: u64) -> Linger
        ensures { result ≡ new_linger now }
    {
        Linger {
            closed_at: now,
            heard_at: now,
            dropped: 0,
        }
    }

    /// The number of octets that may still be dropped.
    pub(crate) fn octets_left(&self) -> u64
        ensures { result ≡ octets_left self.now }
    {
        DROPPED_OCTETS_MAX.saturating_sub(self.dropped)
    }

    /// Records that `count` octets were dropped.
    pub(crate) fn note_dropped(&mut self, count: u64, now: u64)
        ensures { self.new ≡ linger_after self.old count now }
    {
        if count > 0 {
            self.heard_at = now;
            self.dropped = self.dropped.saturating_add(count);
        }
    }

    /// When it is given up if no octets come.
    pub(crate) fn deadline(&self) -> u64
        ensures { result ≡ min (deadline_of self.now) most_time }
    {
        let silent = self.heard_at.saturating_add(SILENCE_MAX);
        silent.min(self.closed_at.saturating_add(LINGER_MAX))
    }

    /// Whether it is to be given up.
    pub(crate) fn is_given_up(&self, now: u64) -> bool
        ensures { result ≡ is_given_up self.now now }
    {
        now.saturating_sub(self.heard_at) >= SILENCE_MAX
            || now.saturating_sub(self.closed_at) >= LINGER_MAX
            || self.dropped >= DROPPED_OCTETS_MAX
    }
}
