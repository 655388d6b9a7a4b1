//! Serves the store in a file.
ghost use Rattle.std.specs.Prelude.{IfErr, OnOk, true};
ghost use Rattle.cli_host.specs.Hosts.{LogsCalls};
ghost use Rattle.cli_host.specs.OrdersOnHost.{GetsStore, RunsFile, RunsFolder, RunsGuarded};
ghost use Rattle.cli_host.specs.OrdersOnHost.{RunsSite, ServesAt, StopsAt, StopsFolder};
ghost use Rattle.cli_host.specs.OrdersOnHost.{StopsGuarded, StopsRun, StopsSite};
ghost use Rattle.cli_host.specs.OrdersInTurn.{ServesAtPort, ServesFile, StopsAtPort, StopsServe};
ghost use Rattle.cli_orders.specs.Outputs.{Flushes};

use crate::host::Host;
use crate::progress::open_watched;
use base_types::{Items, Text};
use book_http::{Listener, Service};
use cli_orders::{Address, Output, Stop, announce_and_serve, announce_and_serve_in_turn};
use http_fronts::WithFront;
use http_requests::{Guarded, Handler};
use hub_server::{Endpoint, ServeLimits};
use request_log::{LoggedEndpoint, LoggedHandler};
use site_files::{Site, WithSite};
use std::alloc::Global;
use store_schema::OpenFault;
use sync_core::BookStore;

/// The log, if it is on.
fn log_if<L>(is_on: bool, log: &L) -> Option<&L> {
    if is_on { Some(log) } else { None }
}

/// The store of the books in the file, which is created without books if there is no such file, or
/// an empty one.
fn open_or_create<S, P, L, M: Host<S, P, L>>(
    alloc: Global,
    host: &mut M,
    file: &str,
) -> Result<S, OpenFault>
    ensures { LogsCalls M.calls host.old host.new (GetsStore file.now true result) }
{
    if host.is_vacant(file) {
        host.create(file)
    } else {
        open_watched(alloc, host, file)
    }
}

/// The store of the books in the file, which is created only if that is asked for.
fn get_store<S, P, L, M: Host<S, P, L>>(
    alloc: Global,
    host: &mut M,
    file: &str,
    creates: bool,
) -> Result<S, OpenFault>
    ensures { LogsCalls M.calls host.old host.new (GetsStore file.now creates result) }
{
    if creates {
        open_or_create(alloc, host, file)
    } else {
        open_watched(alloc, host, file)
    }
}

/// Serves the connections to the address. The endpoint is closed last, however serving ended. If it
/// is logged, the host prints a line for each request and for each fault of a connection.
fn serve_at<S, P: Endpoint, L, M: Host<S, P, L>, H: Handler + Drop, W: Output>(
    alloc: Global,
    host: &mut M,
    handler: H,
    address: Address,
    limits: ServeLimits,
    is_logged: bool,
    writer: &mut W,
) -> Result<(), Stop>
    ensures done { OnOk result (LogsCalls M.calls host.old host.new
        (ServesAt H.does H.fault_reply P.calls address limits handler
        (W.contents writer.old) (W.contents writer.new))) }
    ensures stopped { IfErr result (λ stop. LogsCalls M.calls host.old host.new
        (StopsAt H.does H.fault_reply P.calls address limits stop handler
        (W.contents writer.old) (W.contents writer.new))) }
    ensures flushed { Flushes W.contents W.flushed writer.old writer.new result }
{
    let (endpoint, address) = host.listen(alloc, address, limits.together)?;
    let log = log_if(is_logged, &*host);
    // At a port every local user can send a name; at the socket those that its group has.
    let names_users = matches!(&address, Address::Socket(_));
    let mut logged = LoggedHandler::new(handler, log, names_users);
    let mut connections = LoggedEndpoint::new(endpoint, log);
    let served = announce_and_serve(
        alloc,
        &mut logged,
        &mut connections,
        &address,
        limits,
        writer,
    );
    // Both borrow the host for its log.
    drop(logged);
    let left = connections.into_endpoint();
    host.finish(left);
    served
}

/// Serves the books of the service at the port, to one connection after another.
fn serve_at_port<S: BookStore, P, L: Listener + Drop, M: Host<S, P, L>, W: Output>(
    alloc: Global,
    host: &mut M,
    service: &mut Service<S>,
    port: u16,
    connections: u64,
    writer: &mut W,
) -> Result<(), Stop>
    ensures done { OnOk result (LogsCalls M.calls host.old host.new
        (ServesAtPort S.model L.Stream.model L.coming port connections service.old
        (W.contents writer.old) (W.contents writer.new) service.new)) }
    ensures stopped { IfErr result (λ stop. LogsCalls M.calls host.old host.new
        (StopsAtPort S.model L.Stream.model L.coming port connections stop service.old
        (W.contents writer.old) (W.contents writer.new) service.new)) }
    ensures flushed { Flushes W.contents W.flushed writer.old writer.new result }
{
    let (listener, port) = host.bind_listener(port)?;
    announce_and_serve_in_turn(alloc, service, listener, port, connections, writer)
}

/// Serves the books in the file at the port, to one connection after another. The store is opened
/// first, and closed last.
pub(crate) fn run_serve<S: BookStore + Drop, P, L: Listener + Drop, M: Host<S, P, L>, W: Output>(
    alloc: Global,
    host: &mut M,
    file: Text,
    port: u16,
    connections: u64,
    writer: &mut W,
) -> Result<(), Stop>
    ensures done { OnOk result (LogsCalls M.calls host.old host.new
        (ServesFile S.model L.Stream.model L.coming file port connections
        (W.contents writer.old) (W.contents writer.new))) }
    ensures stopped { IfErr result (λ stop. LogsCalls M.calls host.old host.new
        (StopsServe S.model L.Stream.model L.coming file port connections stop
        (W.contents writer.old) (W.contents writer.new))) }
    ensures flushed { Flushes W.contents W.flushed writer.old writer.new result }
{
    let store = open_watched(alloc, host, file.as_str())?;
    let mut service = Service::new(alloc, store)?;
    let served = serve_at_port(alloc, host, &mut service, port, connections, writer);
    host.close(service.store);
    served
}

/// Serves the books in the file, with the host's front before them, at the address behind a guard
/// of a server with these names, beside those of the loopback. The store is opened or created
/// first.
fn run_guarded<S: BookStore + Drop, P: Endpoint, L, M: Host<S, P, L>, W: Output>(
    alloc: Global,
    host: &mut M,
    file: Text,
    creates: bool,
    names: Items<Text>,
    address: Address,
    limits: ServeLimits,
    is_logged: bool,
    writer: &mut W,
) -> Result<(), Stop>
    ensures done { OnOk result (LogsCalls M.calls host.old host.new
        (RunsGuarded S.model M.Front.answers P.calls file creates names address limits
        (W.contents writer.old) (W.contents writer.new))) }
    ensures stopped { IfErr result (λ stop. LogsCalls M.calls host.old host.new
        (StopsGuarded S.model M.Front.answers P.calls file creates names address limits stop
        (W.contents writer.old) (W.contents writer.new))) }
    ensures flushed { Flushes W.contents W.flushed writer.old writer.new result }
{
    let store = get_store(alloc, host, file.as_str(), creates)?;
    let service = Service::new(alloc, store)?;
    let fronted = WithFront::new(host.front(), service);
    let handler = Guarded::new(names, fronted);
    serve_at(alloc, host, handler, address, limits, is_logged, writer)
}

/// Serves the books in the file and the site beside them, with the host's front before both, at the
/// address behind a guard of a server with these names. The store is opened or created first.
fn run_site<S: BookStore + Drop, P: Endpoint, L, M: Host<S, P, L>, W: Output>(
    alloc: Global,
    host: &mut M,
    site: Site,
    file: Text,
    creates: bool,
    names: Items<Text>,
    address: Address,
    limits: ServeLimits,
    is_logged: bool,
    writer: &mut W,
) -> Result<(), Stop>
    ensures done { OnOk result (LogsCalls M.calls host.old host.new
        (RunsSite S.model M.Front.answers P.calls site file creates names address limits
        (W.contents writer.old) (W.contents writer.new))) }
    ensures stopped { IfErr result (λ stop. LogsCalls M.calls host.old host.new
        (StopsSite S.model M.Front.answers P.calls site file creates names address limits stop
        (W.contents writer.old) (W.contents writer.new))) }
    ensures flushed { Flushes W.contents W.flushed writer.old writer.new result }
{
    let store = get_store(alloc, host, file.as_str(), creates)?;
    let service = Service::new(alloc, store)?;
    let beside = WithSite::new(site, service);
    let fronted = WithFront::new(host.front(), beside);
    let handler = Guarded::new(names, fronted);
    serve_at(alloc, host, handler, address, limits, is_logged, writer)
}

/// Serves the books in the file and the site of a folder, as `run_site` does. The files of the
/// folder are read first.
fn run_folder<S: BookStore + Drop, P: Endpoint, L, M: Host<S, P, L>, W: Output>(
    alloc: Global,
    host: &mut M,
    dir: Text,
    file: Text,
    creates: bool,
    names: Items<Text>,
    address: Address,
    limits: ServeLimits,
    is_logged: bool,
    writer: &mut W,
) -> Result<(), Stop>
    ensures done { OnOk result (LogsCalls M.calls host.old host.new
        (RunsFolder S.model M.Front.answers P.calls dir file creates names address limits
        (W.contents writer.old) (W.contents writer.new))) }
    ensures stopped { IfErr result (λ stop. LogsCalls M.calls host.old host.new
        (StopsFolder S.model M.Front.answers P.calls dir file creates names address limits stop
        (W.contents writer.old) (W.contents writer.new))) }
    ensures flushed { Flushes W.contents W.flushed writer.old writer.new result }
{
    let site = host.read_site(dir.as_str())?;
    run_site(
        alloc, host, site, file, creates, names, address, limits, is_logged, writer,
    )
}

/// Serves the books in the file behind a guard, with the site of a folder beside them if one is
/// given.
pub(crate) fn run_file<S: BookStore + Drop, P: Endpoint, L, M: Host<S, P, L>, W: Output>(
    alloc: Global,
    host: &mut M,
    file: Text,
    creates: bool,
    names: Items<Text>,
    address: Address,
    limits: ServeLimits,
    is_logged: bool,
    site: Option<Text>,
    writer: &mut W,
) -> Result<(), Stop>
    ensures done { OnOk result (LogsCalls M.calls host.old host.new
        (RunsFile S.model M.Front.answers P.calls file creates names address limits site
        (W.contents writer.old) (W.contents writer.new))) }
    ensures stopped { IfErr result (λ stop. LogsCalls M.calls host.old host.new
        (StopsRun S.model M.Front.answers P.calls file creates names address limits site stop
        (W.contents writer.old) (W.contents writer.new))) }
    ensures flushed { Flushes W.contents W.flushed writer.old writer.new result }
{
    match site {
        None => run_guarded(
            alloc, host, file, creates, names, address, limits, is_logged, writer,
        ),
        Some(dir) => run_folder(
            alloc, host, dir, file, creates, names, address, limits, is_logged, writer,
        ),
    }
}
