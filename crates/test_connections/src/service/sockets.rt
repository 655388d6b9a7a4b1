//! A listener at which nobody waits. (`tests/test_serve.py` tests connections in turn.)
use crate::checks::check;
use crate::service::new_service;
use book_http::{ListenFault, serve_listener};
use http_requests::Handler;
use std::io;
use std::net::{Ipv4Addr, SocketAddr, TcpListener};
use test_support::Printout;

/// A listener that doesn't wait.
fn new_listener(rt: &HostRuntime) -> io::Result<TcpListener> {
    let listener = TcpListener::bind(rt, SocketAddr::from((Ipv4Addr::LOCALHOST, 0)))?;
    listener.set_nonblocking(true)?;
    Ok(listener)
}

/// Checks that no connection is served, and that a wait for one fails.
fn check_nobody<H: Handler>(handler: &mut H, listener: &TcpListener, out: &mut Printout) {
    let done = serve_listener(out.alloc(), handler, listener, 0);
    check(done == Ok(()), "no connection", out);
    let none = serve_listener(out.alloc(), handler, listener, 1);
    check(none == Err(ListenFault::Device), "one connection", out);
}

pub(crate) fn serves_nobody_where_none_waits(rt: &HostRuntime, out: &mut Printout) {
    let service = new_service(&mut out.supply);
    match (service, new_listener(rt)) {
        (Some(mut service), Ok(listener)) => check_nobody(&mut service, &listener, out),
        _ => out.add("** no listener\n"),
    }
}
