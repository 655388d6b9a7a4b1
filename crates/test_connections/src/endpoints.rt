//! Single calls of an endpoint over real sockets of 127.0.0.1.

use crate::checks::check;
use hub_server::{Accepted, Endpoint, Received, Sent, Woken};
use socket_endpoint::{BindFault, SocketEndpoint};
use std::alloc::Global;
use std::io;
use std::io::{ErrorKind, Read, Write};
use std::net::{Ipv4Addr, Shutdown, SocketAddr, TcpStream};
use std::time::{Duration, Instant};
use test_support::Printout;

/// An address of this host, with any free port.
fn any_port() -> SocketAddr {
    SocketAddr::from((Ipv4Addr::LOCALHOST, 0))
}

/// An endpoint with this number of places, at any free port.
fn bind(rt: &HostRuntime, together: usize, out: &mut Printout) -> Option<SocketEndpoint> {
    let bound = SocketEndpoint::bind(rt, rt.alloc(), any_port(), together);
    check(bound.is_ok(), "an endpoint", out);
    bound.ok()
}

/// A client that gives up after 5 seconds.
fn connect_to(rt: &HostRuntime, endpoint: &SocketEndpoint) -> io::Result<TcpStream> {
    let stream = TcpStream::connect(rt, endpoint.local_addr()?)?;
    stream.set_read_timeout(Some(Duration::from_secs(5)))?;
    Ok(stream)
}

/// A client of the endpoint.
fn connect(rt: &HostRuntime, endpoint: &SocketEndpoint, out: &mut Printout) -> Option<TcpStream> {
    let connected = connect_to(rt, endpoint);
    check(connected.is_ok(), "a client", out);
    connected.ok()
}

/// Sends the octets.
fn send(client: &mut TcpStream, octets: &[u8], out: &mut Printout) {
    check(client.write_all(octets).is_ok(), "the client sends", out);
}

/// Ends the client's side.
fn end(client: &TcpStream, out: &mut Printout) {
    let ended = client.shutdown(Shutdown::Write);
    check(ended.is_ok(), "the client ends its side", out);
}

/// Checks that the client gets exactly these octets.
fn check_reply(client: &mut TcpStream, expected: &[u8], out: &mut Printout) {
    let mut octets = Vec::new(out.alloc());
    let read = client.read_to_end(&mut octets);
    let is_reply = read.is_ok() && octets.as_slice() == expected;
    check(is_reply, "the client gets the reply", out);
}

/// Waits until the time, or until something is reported.
fn wait<E: Endpoint>(
    endpoint: &mut E,
    until: Option<u64>,
    ready: &mut [bool],
    out: &mut Printout,
) -> Woken {
    match endpoint.wait(until, ready) {
        Ok(woken) => woken,
        Err(_) => {
            out.add("** a wait\n");
            Woken {
                listener: false,
                now: 0,
            }
        }
    }
}

/// Checks the outcome of an accept at the place.
fn check_accept<E: Endpoint>(
    endpoint: &mut E,
    place: usize,
    expected: Accepted,
    out: &mut Printout,
) {
    check(endpoint.accept(place) == expected, "an accept", out);
}

/// Waits until the listener is reported, and accepts a connection at the place.
fn accept_at<E: Endpoint>(endpoint: &mut E, place: usize, out: &mut Printout) {
    let mut ready = [false; 4];
    for _wait in 0..1_000u32 {
        if wait(endpoint, None, &mut ready, out).listener {
            check_accept(endpoint, place, Accepted::Connection, out);
            return;
        }
    }
    out.add("** the listener isn't reported\n");
}

/// Checks the outcome of a read at the place.
fn check_read<E: Endpoint>(endpoint: &mut E, place: usize, expected: Received, out: &mut Printout) {
    let mut buffer = [0u8; 8];
    check(endpoint.read(place, &mut buffer) == expected, "a read", out);
}

/// Checks that a read at the place gives these octets.
fn check_gets<E: Endpoint>(endpoint: &mut E, place: usize, expected: &[u8], out: &mut Printout) {
    let mut buffer = [0u8; 8];
    let received = endpoint.read(place, &mut buffer);
    let gets = received == Received::Octets(expected.len()) && buffer.starts_with(expected);
    check(gets, "a read of octets", out);
}

/// Checks the outcome of a write of octets at the place.
fn check_write<E: Endpoint>(
    endpoint: &mut E,
    place: usize,
    octets: &[u8],
    expected: Sent,
    out: &mut Printout,
) {
    if !octets.is_empty() {
        check(endpoint.write(place, octets) == expected, "a write", out);
    }
}

/// The time of the endpoint's clock.
fn now<E: Endpoint>(endpoint: &mut E, out: &mut Printout) -> u64 {
    let mut ready = [true; 4];
    wait(endpoint, Some(0), &mut ready, out).now
}

/// Waits until the place is reported, at most 2 seconds. Returns whether it was. (It may have been
/// reported before.)
fn is_reported<E: Endpoint>(endpoint: &mut E, place: usize, out: &mut Printout) -> bool {
    let mut ready = [true; 4];
    let end = wait(endpoint, Some(0), &mut ready, out)
        .now
        .saturating_add(2_000);
    for _wait in 0..1_000u32 {
        if ready.get(place) == Some(&true) {
            return true;
        }
        if wait(endpoint, Some(end), &mut ready, out).now >= end {
            return false;
        }
    }
    false
}

/// Checks that the place is reported within 2 seconds.
fn check_reported<E: Endpoint>(endpoint: &mut E, place: usize, out: &mut Printout) {
    let reported = is_reported(endpoint, place, out);
    check(reported, "the place is reported", out);
}

/// Checks that a wait until the time reports nothing. Returns when it ended.
fn check_silent<E: Endpoint>(endpoint: &mut E, until: u64, out: &mut Printout) -> u64 {
    let mut ready = [true; 4];
    let woken = wait(endpoint, Some(until), &mut ready, out);
    let is_silent = !woken.listener && ready == [false; 4];
    check(is_silent, "nothing is reported", out);
    woken.now
}

/// Checks that waits last until their times.
fn check_waits<E: Endpoint>(endpoint: &mut E, out: &mut Printout) {
    for until in [0, 1, 30, 31] {
        let ended = check_silent(endpoint, until, out);
        check(ended >= until, "a wait lasts until its time", out);
    }
}

/// An endpoint waits until a time.
fn waits_until_the_time(rt: &HostRuntime, out: &mut Printout) {
    if let Some(mut endpoint) = bind(rt, 4, out) {
        check_waits(&mut endpoint, out);
        endpoint.finish();
    }
}

/// Checks that the port of the endpoint is taken, until that is finished.
fn check_port(rt: &HostRuntime, endpoint: SocketEndpoint, address: SocketAddr, out: &mut Printout) {
    let at_host = address.port() != 0 && address.ip() == any_port().ip();
    check(at_host, "the address", out);
    let second = SocketEndpoint::bind(rt, rt.alloc(), address, 1).err();
    let is_refused = second == Some(BindFault::Device);
    check(is_refused, "a second endpoint at the port", out);
    endpoint.finish();
    let again = SocketEndpoint::bind(rt, rt.alloc(), address, 1).is_ok();
    check(again, "another endpoint at the port afterwards", out);
}

/// A port that is taken is refused.
fn refuses_a_port_that_is_taken(rt: &HostRuntime, out: &mut Printout) {
    if let Some(endpoint) = bind(rt, 1, out) {
        match endpoint.local_addr() {
            Ok(address) => check_port(rt, endpoint, address, out),
            Err(_) => out.add("** no address\n"),
        }
    }
}

/// A place that has a connection, here 2, and one that isn't there can't be accepted at; and one
/// without a connection can't be used.
fn check_places<E: Endpoint>(endpoint: &mut E, out: &mut Printout) {
    check_accept(endpoint, 3, Accepted::NoneNow, out);
    check_accept(endpoint, 2, Accepted::Failed, out);
    check_accept(endpoint, 4, Accepted::Failed, out);
    check_read(endpoint, 3, Received::Failed, out);
    check_write(endpoint, 4, b"x", Sent::Failed, out);
}

/// Ten octets come in two reads, and then none are there.
fn check_ten<E: Endpoint>(endpoint: &mut E, client: &mut TcpStream, out: &mut Printout) {
    check_reported(endpoint, 2, out);
    check_read(endpoint, 2, Received::NoneNow, out);
    send(client, b"0123456789", out);
    check_reported(endpoint, 2, out);
    check_gets(endpoint, 2, b"01234567", out);
    check_gets(endpoint, 2, b"89", out);
    check_read(endpoint, 2, Received::NoneNow, out);
}

/// The end of the client is read, and a place that was closed is used no more.
fn check_end<E: Endpoint>(endpoint: &mut E, client: &TcpStream, out: &mut Printout) {
    end(client, out);
    check_reported(endpoint, 2, out);
    check_read(endpoint, 2, Received::End, out);
    endpoint.close(2);
    check_read(endpoint, 2, Received::Failed, out);
}

/// An endpoint reads and writes until it would wait.
fn reads_and_writes<E: Endpoint>(endpoint: &mut E, client: &mut TcpStream, out: &mut Printout) {
    accept_at(endpoint, 2, out);
    check_places(endpoint, out);
    check_ten(endpoint, client, out);
    check_write(endpoint, 2, b"reply", Sent::Octets(5), out);
    check_end(endpoint, client, out);
    check_reply(client, b"reply", out);
}

/// What comes to the old socket is neither reported nor read at the place.
fn check_old_is_silent<E: Endpoint>(endpoint: &mut E, old: &mut TcpStream, out: &mut Printout) {
    check_read(endpoint, 1, Received::NoneNow, out);
    send(old, b"late", out);
    let until = now(endpoint, out).saturating_add(50);
    for _wait in 0..5u32 {
        let _ended = check_silent(endpoint, until, out);
    }
    check_read(endpoint, 1, Received::NoneNow, out);
}

/// Accepts the first client at a place, replies, and closes the place.
fn reply_and_close<E: Endpoint>(endpoint: &mut E, out: &mut Printout) {
    accept_at(endpoint, 1, out);
    check_reported(endpoint, 1, out);
    check_write(endpoint, 1, b"old", Sent::Octets(3), out);
    endpoint.close(1);
}

/// A place is used again while the old socket lingers: `new` is the second client at it.
fn uses_a_place_again<E: Endpoint>(
    endpoint: &mut E,
    old: &mut TcpStream,
    new: &mut TcpStream,
    out: &mut Printout,
) {
    accept_at(endpoint, 1, out);
    check_reported(endpoint, 1, out);
    check_old_is_silent(endpoint, old, out);
    send(new, b"new", out);
    check_reported(endpoint, 1, out);
    check_gets(endpoint, 1, b"new", out);
    // the old client can read its reply, though it sent octets that nobody read
    check_reply(old, b"old", out);
}

/// The milliseconds since then.
fn millis_since(rt: &HostRuntime, start: io::Result<Instant>) -> io::Result<u128> {
    Ok(start?.elapsed(rt)?.as_millis())
}

/// Checks that finishing the endpoint takes at least and at most this number of milliseconds.
fn check_finish(
    rt: &HostRuntime,
    endpoint: SocketEndpoint,
    least: u128,
    most: u128,
    out: &mut Printout,
) {
    let start = Instant::now(rt);
    endpoint.finish();
    match millis_since(rt, start) {
        Ok(took) => check(least <= took && took <= most, "the time to finish", out),
        Err(_) => out.add("** no clock\n"),
    }
}

/// Accepts the client and closes its connection.
fn accept_and_close<E: Endpoint>(endpoint: &mut E, out: &mut Printout) {
    accept_at(endpoint, 0, out);
    endpoint.close(0);
}

/// The kind of the first write that fails.
fn kind_of_failure(client: &mut TcpStream) -> Option<ErrorKind> {
    for _write in 0..100u32 {
        if let Err(error) = client.write(b"late") {
            return Some(error.kind());
        }
    }
    None
}

/// Checks that the client was given up: the system refuses what it sends.
fn check_given_up(client: &mut TcpStream, out: &mut Printout) {
    let kind = kind_of_failure(client);
    let is_broken = kind == Some(ErrorKind::BrokenPipe);
    check(
        is_broken || kind == Some(ErrorKind::ConnectionReset),
        "the oldest client is given up",
        out,
    );
}

/// The tests with a client.
#[derive(Clone, Copy)]
enum WithClient {
    /// An endpoint reads and writes until it would wait.
    ReadsAndWrites,
    /// A place is used again while the old socket lingers.
    UsesAPlaceAgain,
    /// The end waits for a silent client.
    WaitsForASilentClient,
    /// It waits for no client that has ended its side.
    WaitsForNoEndedClient,
    /// The oldest client goes first.
    OldestGoesFirst,
}

/// Connects a second client to the place of the first one, which is closed.
fn connect_again(
    rt: &HostRuntime,
    endpoint: &mut SocketEndpoint,
    old: &mut TcpStream,
    out: &mut Printout,
) {
    reply_and_close(endpoint, out);
    if let Some(mut new) = connect(rt, endpoint, out) {
        uses_a_place_again(endpoint, old, &mut new, out);
    }
}

/// Accepts and closes a second client where only one socket may linger: the first one is given up.
fn close_another(
    rt: &HostRuntime,
    endpoint: &mut SocketEndpoint,
    first: &mut TcpStream,
    out: &mut Printout,
) {
    accept_and_close(endpoint, out);
    if let Some(second) = connect(rt, endpoint, out) {
        accept_and_close(endpoint, out);
        check_given_up(first, out);
        end(&second, out);
    }
}

/// Runs the test over the endpoint and its client, and finishes the endpoint.
fn run_with(
    rt: &HostRuntime,
    test: WithClient,
    endpoint: SocketEndpoint,
    client: &mut TcpStream,
    out: &mut Printout,
) {
    let mut endpoint = endpoint;
    let (least, most) = match test {
        WithClient::ReadsAndWrites => {
            reads_and_writes(&mut endpoint, client, out);
            (0, u128::MAX)
        }
        WithClient::UsesAPlaceAgain => {
            connect_again(rt, &mut endpoint, client, out);
            (0, u128::MAX)
        }
        WithClient::WaitsForASilentClient => {
            accept_and_close(&mut endpoint, out);
            (900, 5_000)
        }
        WithClient::WaitsForNoEndedClient => {
            end(client, out);
            accept_and_close(&mut endpoint, out);
            (0, 800)
        }
        WithClient::OldestGoesFirst => {
            close_another(rt, &mut endpoint, client, out);
            (0, 800)
        }
    };
    check_finish(rt, endpoint, least, most, out);
}

/// Runs the test over a new endpoint with this number of places, and a client of it.
fn run(rt: &HostRuntime, test: WithClient, together: usize, out: &mut Printout) {
    if let Some(endpoint) = bind(rt, together, out) {
        if let Some(mut client) = connect(rt, &endpoint, out) {
            run_with(rt, test, endpoint, &mut client, out);
        }
    }
}

/// Runs the tests, each after its title.
pub(crate) fn run_endpoints(rt: &HostRuntime, out: &mut Printout) {
    out.add("an endpoint waits until a time\n");
    waits_until_the_time(rt, out);
    out.add("a port that is taken is refused\n");
    refuses_a_port_that_is_taken(rt, out);
    out.add("it reads and writes until it would wait\n");
    run(rt, WithClient::ReadsAndWrites, 4, out);
    out.add("a place is used again while the old socket lingers\n");
    run(rt, WithClient::UsesAPlaceAgain, 4, out);
    out.add("the end waits for a silent client\n");
    run(rt, WithClient::WaitsForASilentClient, 4, out);
    out.add("it waits for no client that has ended its side\n");
    run(rt, WithClient::WaitsForNoEndedClient, 4, out);
    out.add("of the sockets that linger the oldest goes first\n");
    run(rt, WithClient::OldestGoesFirst, 1, out);
}
