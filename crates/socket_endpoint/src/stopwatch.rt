//! The time since the endpoint was bound.
ghost use Rattle.std.specs.Prelude.{◌≡◌};
ghost use Rattle.std.specs.Duration.{as_nanos};
ghost use Rattle.socket_endpoint.specs.PollTimes.{whole_millis};

use std::io;
use std::rt::HostRuntime;
use std::time::{Duration, Instant};

/// A clock that starts at 0.
#[derive(Clone, Copy)]
pub(crate) struct Stopwatch {
    clock: HostRuntime,
    start: Instant,
}

/// The milliseconds of a time that are over.
fn whole_millis(elapsed: Duration) -> u64
    ensures { result ≡ whole_millis (as_nanos elapsed) }
{
    match u64::try_from(elapsed.as_millis()) {
        Ok(millis) => millis,
        Err(_) => u64::MAX,
    }
}

impl Stopwatch {
    /// Starts now.
    pub(crate) fn new(clock: HostRuntime) -> io::Result<Stopwatch> {
        let start = Instant::now(&clock)?;
        Ok(Stopwatch { clock, start })
    }

    /// The whole milliseconds since the start.
    pub(crate) fn millis(&self) -> io::Result<u64> {
        let elapsed = self.start.elapsed(&self.clock)?;
        Ok(whole_millis(elapsed))
    }
}
