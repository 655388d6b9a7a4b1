//! How long a poll waits.
ghost use Rattle.std.specs.Prelude.{◌≡◌};
ghost use Rattle.socket_endpoint.specs.PollTimes.{earlier, nanos_in, nanos_of, time_left};

use std::time::Duration;

/// The earlier of two times, if there is one.
pub(crate) fn earlier(first: Option<u64>, second: Option<u64>) -> Option<u64>
    ensures { result ≡ earlier first second }
{
    match (first, second) {
        (Some(first), Some(second)) => Some(first.min(second)),
        (Some(first), None) => Some(first),
        (None, second) => second,
    }
}

/// The milliseconds until the time. They are counted from the last whole millisecond, so a poll of
/// this length doesn't end before the time. `None` without a time: the poll waits for an event.
pub(crate) fn time_left(until: Option<u64>, now: u64) -> Option<u64>
    ensures { result ≡ time_left until now }
{
    match until {
        Some(until) => Some(until.saturating_sub(now)),
        None => None,
    }
}

/// The timeout of a poll that waits for this number of milliseconds.
pub(crate) fn timeout_of(millis: Option<u64>) -> Option<Duration>
    ensures { nanos_in result ≡ nanos_of millis }
{
    match millis {
        Some(millis) => Some(Duration::from_millis(millis)),
        None => None,
    }
}
