//! An endpoint whose faults are printed.
ghost use Rattle.std.specs.Prelude.{◌≡◌};
ghost use Rattle.request_log.specs.LogLines.{IsLogLine};

use crate::log::RequestLog;
use hub_server::{Accepted, Endpoint, Received, Sent, WaitFailed, Woken};
use std::marker::Model;

/// An endpoint that prints a line for each fault, if it has a log. In contracts it is the endpoint
/// that it is made of: its calls have the outcomes of that one's.
#[derive(Drop)]
pub struct LoggedEndpoint<'a, E, L> {
    endpoint: E,
    log: Option<&'a L>,
    is_deferred: bool,
}

impl<'a, E, L> Model for LoggedEndpoint<'a, E, L> {
    ghost Value = { E };

    ghost coded = { E.code };

    ghost view = { λ logged. logged.endpoint };
}

impl<'a, E, L> LoggedEndpoint<'a, E, L> {
    /// The endpoint with this log, or without one.
    pub fn new(endpoint: E, log: Option<&'a L>) -> LoggedEndpoint<'a, E, L>
        ensures { result ≡ endpoint }
    {
        LoggedEndpoint {
            endpoint,
            log,
            is_deferred: false,
        }
    }

    /// The endpoint.
    pub fn into_endpoint(self) -> E
        ensures { result ≡ self.entry }
    {
        let LoggedEndpoint {
            endpoint,
            log: _,
            is_deferred: _,
        } = self;
        endpoint
    }
}

impl<'a, E, L: RequestLog> LoggedEndpoint<'a, E, L> {
    /// Prints a line.
    fn note(&self, line: &[u8])
        requires { IsLogLine line.now }
    {
        if let Some(log) = self.log {
            log.print(line);
        }
    }

    /// Prints what came of accepting a connection if it failed. While accepting is deferred again
    /// and again, this is printed once.
    fn note_accepted(&mut self, accepted: Accepted)
        ensures { self.new ≡ self.old }
    {
        match accepted {
            Accepted::Connection => self.is_deferred = false,
            Accepted::NoneNow => {}
            Accepted::Later => {
                if !self.is_deferred {
                    self.note(b"accepting is deferred: too few descriptors or too little memory\n");
                }
                self.is_deferred = true;
            }
            Accepted::Failed => self.note(b"accepting failed\n"),
        }
    }
}

impl<'a, E: Endpoint, L: RequestLog> Endpoint for LoggedEndpoint<'a, E, L> {
    ghost calls = { E.calls };

    fn wait(&mut self, until: Option<u64>, ready: &mut [bool]) -> Result<Woken, WaitFailed> {
        let woken = self.endpoint.wait(until, ready);
        if woken.is_err() {
            self.note(b"waiting for connections failed\n");
        }
        woken
    }

    fn accept(&mut self, place: usize) -> Accepted {
        let accepted = self.endpoint.accept(place);
        self.note_accepted(accepted);
        accepted
    }

    fn read(&mut self, place: usize, buffer: &mut [u8]) -> Received {
        let received = self.endpoint.read(place, buffer);
        if let Received::Failed = received {
            self.note(b"a connection failed while it was read\n");
        }
        received
    }

    fn write(&mut self, place: usize, octets: &[u8]) -> Sent {
        let sent = self.endpoint.write(place, octets);
        if let Sent::Failed = sent {
            self.note(b"a connection failed while it was written\n");
        }
        sent
    }

    fn close(&mut self, place: usize) {
        self.endpoint.close(place)
    }
}
