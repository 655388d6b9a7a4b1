//! Binds endpoints and listeners to the ports of 127.0.0.1, and endpoints to Unix sockets.
ghost use Rattle.std.specs.Prelude.{◌≡◌, ◌≢◌, ◌⊎◌, IfErr, IfOk};
ghost use Rattle.std.specs.Net.Socket.{socket_ip, socket_port};
ghost use Rattle.cli_host.specs.Hosts.{IsBoundAs};
ghost use Rattle.cli_orders.specs.Stops.{out_of_memory};
ghost use Rattle.file_host.specs.FileHosts.{loopback_ip, stop_of_binding};

use cli_orders::{Address, Stop};
use socket_endpoint::{BindFault, SocketEndpoint};
use std::alloc::Global;
use std::net::{IpAddr, Ipv4Addr, SocketAddr, TcpListener};
use std::rt::HostRuntime;

/// The socket address of the port at 127.0.0.1, which only programs of this host can connect to.
pub(crate) fn loopback(port: u16) -> SocketAddr
    ensures ip { socket_ip result ≡ loopback_ip }
    ensures port { socket_port result ≡ port }
{
    SocketAddr::new(IpAddr::V4(Ipv4Addr::LOCALHOST), port)
}

/// The stop for an endpoint that couldn't be bound.
fn stop_of_binding(fault: BindFault) -> Stop
    ensures { result ≡ stop_of_binding fault }
{
    match fault {
        BindFault::Memory => Stop::out_of_memory(),
        BindFault::Device => Stop::Device,
    }
}

/// Binds an endpoint to the port of 127.0.0.1, and returns it with its port.
fn listen_at_port(
    rt: &HostRuntime,
    alloc: Global,
    port: u16,
    together: usize,
) -> Result<(SocketEndpoint, u16), Stop>
    ensures port { IfOk result (λ bound. port ≢ 0 → bound.1 ≡ port) }
    ensures stop { IfErr result (λ stop. (stop ≡ out_of_memory) ⊎ (stop ≡ Stop.Device)) }
{
    let endpoint = match SocketEndpoint::bind(rt, alloc, loopback(port), together) {
        Ok(endpoint) => endpoint,
        Err(fault) => return Err(stop_of_binding(fault)),
    };
    if port != 0 {
        return Ok((endpoint, port));
    }
    let Ok(address) = endpoint.local_addr() else {
        return Err(Stop::Device);
    };
    Ok((endpoint, address.port()))
}

/// Binds an endpoint to a Unix socket at the path.
fn listen_at_path(
    rt: &HostRuntime,
    alloc: Global,
    path: &str,
    together: usize,
) -> Result<SocketEndpoint, Stop>
    ensures { IfErr result (λ stop. (stop ≡ out_of_memory) ⊎ (stop ≡ Stop.Device)) }
{
    match SocketEndpoint::bind_path(rt, alloc, path, together) {
        Ok(endpoint) => Ok(endpoint),
        Err(fault) => Err(stop_of_binding(fault)),
    }
}

/// Binds an endpoint to the address, and returns it with its address.
pub(crate) fn listen_at(
    rt: &HostRuntime,
    alloc: Global,
    address: Address,
    together: usize,
) -> Result<(SocketEndpoint, Address), Stop>
    ensures bound { IfOk result (λ bound. IsBoundAs address bound.1) }
    ensures stop { IfErr result (λ stop. (stop ≡ out_of_memory) ⊎ (stop ≡ Stop.Device)) }
{
    match address {
        Address::Port(port) => {
            let (endpoint, port) = listen_at_port(rt, alloc, port, together)?;
            Ok((endpoint, Address::Port(port)))
        }
        Address::Socket(path) => {
            let endpoint = listen_at_path(rt, alloc, path.as_str(), together)?;
            Ok((endpoint, Address::Socket(path)))
        }
    }
}

/// Binds a listener to the port of 127.0.0.1, and returns it with its port.
pub(crate) fn listener_at(rt: &HostRuntime, port: u16) -> Result<(TcpListener, u16), Stop>
    ensures port { IfOk result (λ bound. port ≢ 0 → bound.1 ≡ port) }
    ensures stop { IfErr result (λ stop. stop ≡ Stop.Device) }
{
    let Ok(listener) = TcpListener::bind(rt, loopback(port)) else {
        return Err(Stop::Device);
    };
    if port != 0 {
        return Ok((listener, port));
    }
    let Ok(address) = listener.local_addr() else {
        return Err(Stop::Device);
    };
    Ok((listener, address.port()))
}
