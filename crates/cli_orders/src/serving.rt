//! Announces the address and serves connections.
ghost use Rattle.std.specs.Prelude.{◌≡◌, ◌⊎◌, IfErr, IfOk, OnErr, OnOk};
ghost use Rattle.cli_orders.specs.Announcements.{AnnouncesAndServes, StopsServing, listening_line};
ghost use Rattle.cli_orders.specs.declared.address.Address.TheVariants.{Port, Socket};
ghost use Rattle.cli_orders.specs.Outputs.{Flushes, IsFlushed};
ghost use Rattle.cli_orders.specs.TurnServing.{AnnouncesAndServesInTurn, StopsServingInTurn};

use crate::address::Address;
use crate::output::Output;
use crate::stop::Stop;
use crate::writing::write_out;
use book_http::{Listener, serve_listener};
use http_requests::Handler;
use hub_server::{Endpoint, ServeLimits, serve_endpoint};
use std::alloc::Global;
use vcard_text::NoMemory;

/// The line that announces a port, for example `listening 127.0.0.1:8080`.
fn port_text(alloc: Global, port: u16) -> Result<Vec<u8>, NoMemory>
    ensures { IfOk result (λ text. text.items ≡ listening_line (Port port)) }
{
    Ok(format!(in alloc; "listening 127.0.0.1:{port}\n")?.into_bytes())
}

/// The line that announces a Unix socket, for example `listening unix:/run/tosculai/socket`.
fn socket_text(alloc: Global, path: &str) -> Result<Vec<u8>, NoMemory>
    ensures { IfOk result (λ text. text.items ≡ listening_line (Socket path.now)) }
{
    Ok(format!(in alloc; "listening unix:{path}\n")?.into_bytes())
}

/// The line that announces the address.
fn listening_text(alloc: Global, address: &Address) -> Result<Vec<u8>, NoMemory>
    ensures { IfOk result (λ text. text.items ≡ listening_line address.now) }
{
    match address {
        Address::Port(port) => port_text(alloc, *port),
        Address::Socket(path) => socket_text(alloc, path.as_str()),
    }
}

/// Writes and flushes the line that announces the address, and then serves connections at the
/// endpoint, as `hub_server::serve_endpoint` does.
///
/// Stops with `Memory` if an allocation fails before the first connection is accepted, for the line
/// or after it was written; and with `Device` if the writer or the endpoint fails. A connection
/// that fails, is silent, or finds no memory ends alone.
pub fn announce_and_serve<H: Handler, E: Endpoint, W: Output>(
    alloc: Global,
    handler: &mut H,
    endpoint: &mut E,
    address: &Address,
    limits: ServeLimits,
    writer: &mut W,
) -> Result<(), Stop>
    ensures served { OnOk result (AnnouncesAndServes H.does H.fault_reply E.calls address.now limits
        handler.old endpoint.old (W.contents writer.old) (W.contents writer.new)
        handler.new endpoint.new) }
    ensures stopped { IfErr result (λ stop. StopsServing H.does H.fault_reply E.calls
        address.now limits handler.old endpoint.old (W.contents writer.old) (W.contents writer.new)
        stop handler.new endpoint.new) }
    ensures flushed { Flushes W.contents W.flushed writer.old writer.new result }

    // The line is flushed before anything is handled or called, and nothing is written after it.
    ensures flushed_first { OnErr result
        ((handler.new ≡ handler.old) × (endpoint.new ≡ endpoint.old)
        ⊎ IsFlushed W.contents W.flushed writer.new) }
{
    let line = listening_text(alloc, address)?;
    write_out(writer, line.as_slice())?;
    serve_endpoint(alloc, handler, endpoint, limits)?;
    Ok(())
}

/// Writes and flushes the line that announces the port, and then serves `connections` connections
/// of the listener one after another, as `book_http::serve_listener` does. At the end it drops the
/// listener.
///
/// Stops with `Memory` if an allocation fails for the line; with `Device` if the writer or the
/// listener fails; and, once all connections were served, with `Serve` if some were aborted, for
/// the fault of the first.
pub fn announce_and_serve_in_turn<H: Handler, L: Listener + Drop, W: Output>(
    alloc: Global,
    handler: &mut H,
    listener: L,
    port: u16,
    connections: u64,
    writer: &mut W,
) -> Result<(), Stop>
    ensures served { OnOk result (AnnouncesAndServesInTurn H.does H.fault_reply
        L.Stream.model port connections (L.coming listener)
        handler.old (W.contents writer.old) (W.contents writer.new) handler.new) }
    ensures stopped { IfErr result (λ stop. StopsServingInTurn H.does H.fault_reply
        L.Stream.model port connections (L.coming listener)
        handler.old (W.contents writer.old) (W.contents writer.new) stop handler.new) }
    ensures flushed { Flushes W.contents W.flushed writer.old writer.new result }

    // The line is flushed before anything is handled, and nothing is written after it.
    ensures flushed_first { OnErr result ((handler.new ≡ handler.old)
        ⊎ IsFlushed W.contents W.flushed writer.new) }
{
    let line = port_text(alloc, port)?;
    write_out(writer, line.as_slice())?;
    serve_listener(alloc, handler, listener, connections)?;
    Ok(())
}
