//! Where the lines of requests go.

ghost use Rattle.std.specs.Prelude.{◌≡◌, None};
ghost use Rattle.request_log.specs.LogLines.{IsLogLine};

use std::time::Instant;

/// Where the lines of requests are printed, and the clock that times requests. No call changes what
/// a server replies, and none of them fails.
pub trait RequestLog {
    /// Prints a line. If it can't be printed, it is lost.
    fn print(&self, line: &[u8])
        requires { IsLogLine line.now };

    /// The time now, or `None` if the clock can't be read.
    fn now(&self) -> Option<Instant>;

    /// The microseconds since then. 0 if the clock can't be read now, or couldn't be read then.
    fn micros_since(&self, start: Option<Instant>) -> u64;
}

/// A log that prints nothing and has no clock.
#[derive(Clone, Copy, Debug)]
pub struct SilentLog;

impl RequestLog for SilentLog {
    fn print(&self, _line: &[u8]) {}

    fn now(&self) -> Option<Instant>
        ensures { result ≡ None }
    {
        None
    }

    fn micros_since(&self, _start: Option<Instant>) -> u64 {
        0
    }
}
