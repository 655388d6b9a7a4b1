//! The trait of systems of sockets.
ghost use Rattle.std.specs.Prelude.{◌≡◌};
ghost use Rattle.std.specs.Io.{ReadsAtMost, WritesAtMost};
ghost use Rattle.mio.specs.Events.{capacity as events_capacity, items};
ghost use Rattle.socket_endpoint.specs.PollTimes.{nanos_in};
ghost use Rattle.socket_endpoint.specs.SocketCalls.{SocketCall, SocketLog, logged};
ghost use Rattle.socket_endpoint.specs.SocketCalls.SocketCall.{Accepts, EndsSending, Polls};
ghost use Rattle.socket_endpoint.specs.SocketCalls.SocketCall.{ReadsClock, ReadsSocket};
ghost use Rattle.socket_endpoint.specs.SocketCalls.SocketCall.{SendsAtOnce, Watches, WatchesInput};
ghost use Rattle.socket_endpoint.specs.SocketCalls.SocketCall.{WatchesListener, WritesSocket};

use mio::{Events, Token};
use std::alloc::Global;
use std::io;
use std::time::Duration;

/// A system of sockets that don't block, with a clock. `L` are its listeners, and `C` the sockets
/// of connections. No call blocks but `poll`. A socket is closed when it is dropped.
///
/// Nothing is known of the calls of the real system. Over a system of which they are known,
/// contracts say which calls are made of it. The code is the same for both.
pub trait Sockets<L, C> {
    /// All calls that were made so far, the newest first, each with its answer, if they are known.
    ghost log: { Self → SocketLog L C };

    /// The milliseconds since the system was made.
    fn millis(&mut self) -> io::Result<u64>
        ensures { log self.new ≡ logged (ReadsClock result) (log self.old) };

    /// Waits until a socket is ready or the time is up, and puts what is ready into `events`, as
    /// far as there is room. A socket is reported once when it becomes ready (edge-triggered).
    fn poll(&mut self, events: &mut Events<Global>, timeout: Option<Duration>) -> io::Result<()>
        ensures capacity { events_capacity events.new ≡ events_capacity events.old }
        ensures logged { log self.new ≡ logged
            (Polls (events_capacity events.old) (nanos_in timeout) result (items events.new))
            (log self.old) };

    /// Has connections that wait at the listener reported under the token.
    fn watch_listener(&mut self, listener: &mut L, token: Token) -> io::Result<()>
        ensures same { listener.new ≡ listener.old }
        ensures logged { log self.new ≡ logged (WatchesListener listener.old token.0 result)
            (log self.old) };

    /// Accepts a connection at the listener.
    fn accept(&mut self, listener: &L) -> io::Result<C>
        ensures { log self.new ≡ logged (Accepts listener.now result) (log self.old) };

    /// Has what is written to the socket sent without delay.
    fn send_at_once(&mut self, stream: &C)
        ensures { log self.new ≡ logged (SendsAtOnce stream.now) (log self.old) };

    /// Has input of the socket, and room for output, reported under the token.
    fn watch(&mut self, stream: &mut C, token: Token) -> io::Result<()>
        ensures same { stream.new ≡ stream.old }
        ensures logged { log self.new ≡ logged (Watches stream.old token.0 result)
            (log self.old) };

    /// Has input of the socket alone reported, under another token, first what is there now.
    fn watch_input(&mut self, stream: &mut C, token: Token) -> io::Result<()>
        ensures same { stream.new ≡ stream.old }
        ensures logged { log self.new ≡ logged (WatchesInput stream.old token.0 result)
            (log self.old) };

    /// Reads octets from the socket.
    fn read(&mut self, stream: &C, buffer: &mut [u8]) -> io::Result<usize>
        ensures bound { ReadsAtMost result buffer.new }
        ensures logged { log self.new ≡ logged (ReadsSocket stream.now buffer.new result)
            (log self.old) };

    /// Writes octets to the socket.
    fn write(&mut self, stream: &C, octets: &[u8]) -> io::Result<usize>
        ensures bound { WritesAtMost result octets.now }
        ensures logged { log self.new ≡ logged (WritesSocket stream.now octets.now result)
            (log self.old) };

    /// Ends the sending side of the socket.
    fn end_sending(&mut self, stream: &C) -> io::Result<()>
        ensures { log self.new ≡ logged (EndsSending stream.now result) (log self.old) };
}
