//! The trait of listeners.
ghost use Rattle.std.specs.Prelude.{List, [], ◌∷◌, IfErr, IfOk, None, Option, Some};
ghost use Rattle.book_http.specs.Listening.{NextArrival};

use crate::connection::Connection;
use std::io;
use std::net::{TcpListener, TcpStream};

/// A source of connections, one after another.
pub trait Listener {
    /// The type of the connections.
    type Stream: Connection + Drop;

    /// The results of the waits to come, in order, if known: a connection, or `None`
    /// if the wait fails.
    ghost coming: { Self → Option (List (Option Self.Stream)) } = { λ _. None };

    /// Waits for the next connection.
    fn accept(&mut self) -> io::Result<Self::Stream>
        ensures arrived { IfOk result (λ stream.
            NextArrival (coming self.old) (Some stream ∷ []) (coming self.new)) }
        ensures failed { IfErr result (λ error.
            NextArrival (coming self.old) (None ∷ []) (coming self.new)) };
}

/// Contracts know neither what connects to a socket nor when a wait fails.
impl Listener for &TcpListener {
    type Stream = TcpStream;

    fn accept(&mut self) -> io::Result<TcpStream> {
        let listener: &TcpListener = self;
        let (stream, _address) = TcpListener::accept(listener)?;
        Ok(stream)
    }
}

impl Listener for TcpListener {
    type Stream = TcpStream;

    fn accept(&mut self) -> io::Result<TcpStream> {
        let (stream, _address) = TcpListener::accept(self)?;
        Ok(stream)
    }
}
