//! The trait of connections.
ghost use Rattle.std.specs.Prelude.{◌≡◌, ℕ, [], ◌∷◌, None, Option};
ghost use Rattle.std.specs.Io.{ReadsAtMost, WritesAtMost};
ghost use Rattle.std.specs.Io.KnownBytes.{Keeps, ReadConsumes, WriteAppends};
ghost use Rattle.book_http.specs.ConnectionCalls.{AddsCalls, flush_call, receive_call, send_call};
ghost use Rattle.book_http.specs.ConnectionCalls.{Closes};
ghost use Rattle.book_http.specs.ConnectionModels.{ConnectionModel};

use crate::closing::close_stream;
use std::io;
use std::io::{Read, Write};
use std::net::TcpStream;

/// A connection, from which requests are read and to which replies are written.
pub trait Connection {
    /// What contracts know of the connection: its octets and the calls so far, if known.
    ghost model: { ConnectionModel Self } = { record {
      remaining = λ _. None;
      contents = λ _. None;
      calls = λ _. None;
    } };

    /// The reader and the writer that it borrows, by their ghost names, if any.
    ghost borrowed: { Self → Option (ℕ × ℕ) } = { λ _. None };

    /// Reads some octets: none only at the end of the input, or if there is no room.
    fn receive(&mut self, room: &mut [u8]) -> io::Result<usize>
        ensures bound { ReadsAtMost result room.new }
        ensures read { ReadConsumes (model.remaining self.old) (model.remaining self.new)
            result room.new }
        ensures kept { model.contents self.new ≡ model.contents self.old }
        ensures called { AddsCalls (model.calls self.old) (model.calls self.new)
            (receive_call result room.new ∷ []) }
        ensures borrows { borrowed self.new ≡ borrowed self.old };

    /// Writes some of the octets, from the first on.
    fn send(&mut self, octets: &[u8]) -> io::Result<usize>
        ensures bound { WritesAtMost result octets.now }
        ensures written { WriteAppends (model.contents self.old) (model.contents self.new)
            result octets.now }
        ensures kept { model.remaining self.new ≡ model.remaining self.old }
        ensures called { AddsCalls (model.calls self.old) (model.calls self.new)
            (send_call result ∷ []) }
        ensures borrows { borrowed self.new ≡ borrowed self.old };

    /// Flushes what was written.
    fn flush(&mut self) -> io::Result<()>
        ensures written { Keeps (model.contents self.old) (model.contents self.new) }
        ensures kept { model.remaining self.new ≡ model.remaining self.old }
        ensures called { AddsCalls (model.calls self.old) (model.calls self.new)
            (flush_call result ∷ []) }
        ensures borrows { borrowed self.new ≡ borrowed self.old };

    /// Ends the replies. Then it drops what still comes, for a moment, so that the client can read
    /// the replies.
    fn close(&mut self)
        ensures called { AddsCalls (model.calls self.old) (model.calls self.new)
            (Closes ∷ []) };
}

/// Contracts know neither the octets that a socket brings nor those that it is sent.
impl Connection for TcpStream {
    fn receive(&mut self, room: &mut [u8]) -> io::Result<usize> {
        self.read(room)
    }

    fn send(&mut self, octets: &[u8]) -> io::Result<usize> {
        self.write(octets)
    }

    fn flush(&mut self) -> io::Result<()> {
        Write::flush(self)
    }

    fn close(&mut self) {
        close_stream(self);
    }
}
