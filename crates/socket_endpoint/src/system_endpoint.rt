//! The endpoint of a server over the sockets of the system.
ghost use Rattle.std.specs.Prelude.{IfOk};
ghost use Rattle.socket_endpoint.specs.SocketEvents.{IsNewWith};
ghost use Rattle.socket_endpoint.specs.SystemEvents.{FinishesAtSystem, endpoint_over};

use crate::bind_fault::BindFault;
use crate::endpoint::{EndpointOver, free_places};
use crate::polling::Polling;
use crate::socket_files::bind_socket;
use crate::streams::{Listener, Stream};
use crate::system::SystemSockets;
use hub_server::{Accepted, Endpoint, Received, Sent, WaitFailed, Woken};
use mio::net::TcpListener;
use std::alloc::Global;
use std::io;
use std::net::SocketAddr;
use std::rt::HostRuntime;

/// The endpoint over the sockets of the system, TCP or Unix. Each call is the one of
/// `EndpointOver`. The time is the number of milliseconds since it was bound.
#[derive(Drop)]
pub struct SocketEndpoint {
    over: EndpointOver<SystemSockets, Listener, Stream>,
}

impl SocketEndpoint {
    /// Listens at the address, with the places 0 to `together` - 1. All memory is allocated here.
    /// The system's queue of connections that wait to be accepted is as long as it allows.
    ///
    /// `Memory` if an allocation fails. `Device` if the system refuses the address or the port, or
    /// has no descriptors.
    pub fn bind(
        rt: &HostRuntime,
        alloc: Global,
        address: SocketAddr,
        together: usize,
    ) -> Result<SocketEndpoint, BindFault>
        ensures { IfOk result (λ endpoint. IsNewWith together (endpoint_over endpoint)) }
    {
        let places = free_places(alloc, together)?;
        let polling = Polling::new(alloc, SystemSockets::new(rt)?, together)?;
        let listener = Listener::Tcp(TcpListener::bind(rt, address)?);
        let over = EndpointOver::over(polling, listener, places)?;
        Ok(SocketEndpoint { over })
    }

    /// Listens at a new Unix socket at the path, with the places 0 to `together` - 1. All memory is
    /// allocated here. The socket's file has the mode 0660: its owner and its group may connect. A
    /// socket file at which nobody listens is replaced. Nothing removes the file at the end.
    ///
    /// `Device` also if anything else is at the path, or if the path is empty or has more than 107
    /// octets.
    pub fn bind_path(
        rt: &HostRuntime,
        alloc: Global,
        path: &str,
        together: usize,
    ) -> Result<SocketEndpoint, BindFault>
        ensures { IfOk result (λ endpoint. IsNewWith together (endpoint_over endpoint)) }
    {
        let places = free_places(alloc, together)?;
        let polling = Polling::new(alloc, SystemSockets::new(rt)?, together)?;
        let listener = Listener::Unix(bind_socket(rt, path)?);
        let over = EndpointOver::over(polling, listener, places)?;
        Ok(SocketEndpoint { over })
    }

    /// The address at which it listens. If it was bound to port 0, its port is the one that the
    /// system chose. An error if it was bound to a path.
    pub fn local_addr(&self) -> io::Result<SocketAddr> {
        self.over.listener().local_addr()
    }

    /// Stops listening, closes the connections that are open, and waits until no socket lingers:
    /// at most 1 second for silent clients, and 10 seconds in all.
    ///
    /// Nothing is known of the system, so the clause is true whatever is done: that of `finish` of
    /// `EndpointOver` says it.
    pub fn finish(self)
        ensures { FinishesAtSystem self }
    {
        let SocketEndpoint { over } = self;
        let _system = over.finish();
    }
}

impl Endpoint for SocketEndpoint {
    ghost use Rattle.socket_endpoint.specs.SystemEvents.{DoesAtSystem};

    ghost calls = { DoesAtSystem };

    fn wait(&mut self, until: Option<u64>, ready: &mut [bool]) -> Result<Woken, WaitFailed> {
        self.over.wait(until, ready)
    }

    /// `Failed` also if the place has a connection, or isn't a place.
    fn accept(&mut self, place: usize) -> Accepted {
        self.over.accept(place)
    }

    fn read(&mut self, place: usize, buffer: &mut [u8]) -> Received {
        self.over.read(place, buffer)
    }

    fn write(&mut self, place: usize, octets: &[u8]) -> Sent {
        self.over.write(place, octets)
    }

    fn close(&mut self, place: usize) {
        self.over.close(place)
    }
}
