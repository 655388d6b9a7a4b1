//! The log of the program: standard error, and the clock of the system.

use crate::log::RequestLog;
use std::io::Write;
use std::rt::HostRuntime;
use std::time::Instant;

impl RequestLog for HostRuntime {
    /// Prints the line on standard error in one write, so that lines of several programs don't mix.
    /// If standard error is closed or its disk is full, the line is lost. It waits for a pipe that
    /// is full until its reader reads on.
    fn print(&self, line: &[u8]) {
        let _printed = self.stderr().write(line);
    }

    fn now(&self) -> Option<Instant> {
        Instant::now(self).ok()
    }

    fn micros_since(&self, start: Option<Instant>) -> u64 {
        let Some(start) = start else {
            return 0;
        };
        match start.elapsed(self) {
            Ok(elapsed) => u64::try_from(elapsed.as_micros()).unwrap_or(u64::MAX),
            Err(_) => 0,
        }
    }
}
