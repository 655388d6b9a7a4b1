//! The sockets of the system.
use crate::sockets::Sockets;
use crate::stopwatch::Stopwatch;
use crate::streams::{Listener, Stream};
use mio::{Events, Interest, Poll, Token};
use std::alloc::Global;
use std::io;
use std::net::Shutdown;
use std::rt::HostRuntime;
use std::time::Duration;

/// The sockets of the system, TCP or Unix, which `mio` polls (`epoll(7)`, edge-triggered). Nothing
/// is known of its calls.
#[derive(Drop)]
pub(crate) struct SystemSockets {
    stopwatch: Stopwatch,
    poll: Poll,
}

impl SystemSockets {
    /// Starts the time.
    pub(crate) fn new(rt: &HostRuntime) -> io::Result<SystemSockets> {
        let stopwatch = Stopwatch::new(*rt)?;
        let poll = Poll::new(rt)?;
        Ok(SystemSockets { stopwatch, poll })
    }
}

impl Sockets<Listener, Stream> for SystemSockets {
    ghost use Rattle.socket_endpoint.specs.SystemEvents.{system_log};

    ghost log = { system_log };

    fn millis(&mut self) -> io::Result<u64> {
        self.stopwatch.millis()
    }

    fn poll(&mut self, events: &mut Events<Global>, timeout: Option<Duration>) -> io::Result<()> {
        self.poll.poll(events, timeout)
    }

    fn watch_listener(&mut self, listener: &mut Listener, token: Token) -> io::Result<()> {
        listener.register(self.poll.registry(), token, Interest::READABLE)
    }

    fn accept(&mut self, listener: &Listener) -> io::Result<Stream> {
        listener.accept()
    }

    fn send_at_once(&mut self, stream: &Stream) {
        stream.send_at_once()
    }

    fn watch(&mut self, stream: &mut Stream, token: Token) -> io::Result<()> {
        let interest = Interest::READABLE | Interest::WRITABLE;
        stream.register(self.poll.registry(), token, interest)
    }

    fn watch_input(&mut self, stream: &mut Stream, token: Token) -> io::Result<()> {
        stream.reregister(self.poll.registry(), token, Interest::READABLE)
    }

    fn read(&mut self, stream: &Stream, buffer: &mut [u8]) -> io::Result<usize> {
        stream.read(buffer)
    }

    fn write(&mut self, stream: &Stream, octets: &[u8]) -> io::Result<usize> {
        stream.write(octets)
    }

    fn end_sending(&mut self, stream: &Stream) -> io::Result<()> {
        stream.shutdown(Shutdown::Write)
    }
}
