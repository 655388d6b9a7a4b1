//! Connections and listeners over TCP, and at Unix sockets. None of them blocks.
ghost use Rattle.std.specs.Prelude.{◌≡◌};
ghost use Rattle.std.specs.Io.{ReadsAtMost, WritesAtMost};

use mio::net::{TcpListener, TcpStream, UnixListener, UnixStream};
use mio::{Interest, Registry, Token};
use std::io;
use std::io::{ErrorKind, Read, Write};
use std::net::{Shutdown, SocketAddr};

/// A connection that was accepted.
#[derive(Drop)]
pub(crate) enum Stream {
    /// Over TCP.
    Tcp(TcpStream),
    /// At a Unix socket.
    Unix(UnixStream),
}

/// What accepts connections.
#[derive(Drop)]
pub(crate) enum Listener {
    /// At a port.
    Tcp(TcpListener),
    /// At a Unix socket.
    Unix(UnixListener),
}

impl Stream {
    /// Has what is written sent without delay, as at a Unix socket it always is.
    pub(crate) fn send_at_once(&self) {
        if let Stream::Tcp(stream) = self {
            // without it replies are only slower
            let _ = stream.set_nodelay(true);
        }
    }

    /// Ends one side, or both.
    pub(crate) fn shutdown(&self, how: Shutdown) -> io::Result<()> {
        match self {
            Stream::Tcp(stream) => stream.shutdown(how),
            Stream::Unix(stream) => stream.shutdown(how),
        }
    }

    /// Reads octets.
    pub(crate) fn read(&self, buffer: &mut [u8]) -> io::Result<usize>
        ensures { ReadsAtMost result buffer.new }
    {
        match self {
            Stream::Tcp(stream) => (&*stream).read(buffer),
            Stream::Unix(stream) => (&*stream).read(buffer),
        }
    }

    /// Writes octets.
    pub(crate) fn write(&self, octets: &[u8]) -> io::Result<usize>
        ensures { WritesAtMost result octets.now }
    {
        match self {
            Stream::Tcp(stream) => (&*stream).write(octets),
            Stream::Unix(stream) => (&*stream).write(octets),
        }
    }

    /// Has its events reported under the token.
    pub(crate) fn register(
        &mut self,
        registry: &Registry,
        token: Token,
        interest: Interest,
    ) -> io::Result<()>
        ensures { self.new ≡ self.old }
    {
        match self {
            Stream::Tcp(stream) => registry.register(stream, token, interest),
            Stream::Unix(stream) => registry.register(stream, token, interest),
        }
    }

    /// Has them reported under another token, first those that are due now.
    pub(crate) fn reregister(
        &mut self,
        registry: &Registry,
        token: Token,
        interest: Interest,
    ) -> io::Result<()>
        ensures { self.new ≡ self.old }
    {
        match self {
            Stream::Tcp(stream) => registry.reregister(stream, token, interest),
            Stream::Unix(stream) => registry.reregister(stream, token, interest),
        }
    }
}

impl Listener {
    /// Accepts a connection, or fails with `WouldBlock` if none waits.
    pub(crate) fn accept(&self) -> io::Result<Stream> {
        match self {
            Listener::Tcp(listener) => {
                let (stream, _address) = listener.accept()?;
                Ok(Stream::Tcp(stream))
            }
            Listener::Unix(listener) => {
                let (stream, _address) = listener.accept()?;
                Ok(Stream::Unix(stream))
            }
        }
    }

    /// The address; a Unix socket has none.
    pub(crate) fn local_addr(&self) -> io::Result<SocketAddr> {
        match self {
            Listener::Tcp(listener) => listener.local_addr(),
            Listener::Unix(_) => Err(io::Error::from(ErrorKind::Unsupported)),
        }
    }

    /// Has a waiting connection reported under the token.
    pub(crate) fn register(
        &mut self,
        registry: &Registry,
        token: Token,
        interest: Interest,
    ) -> io::Result<()>
        ensures { self.new ≡ self.old }
    {
        match self {
            Listener::Tcp(listener) => registry.register(listener, token, interest),
            Listener::Unix(listener) => registry.register(listener, token, interest),
        }
    }
}
