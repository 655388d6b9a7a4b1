//! Runs the rows.

use crate::failing_devices::print_failures;
use crate::first_path::{print_paths, print_stops};
use crate::parts::{CONNECTION, Connections, ROW, first_line, split_at_mark};
use crate::service::new_service;
use crate::serving::print_connections;
use crate::settings::{Setting, parse_setting};
use book_http::Service;
use http_requests::Handler;
use http_requests::laws::{cuts_make_no_difference, pieces_are_fed_as_one, streams_can_be_cut};
use std::alloc::Global;
use sync_core::Fault;
use test_support::Printout;
use test_support::scripts::FailingStore;

/// Laws, without effect at run time: the replies to a connection depend only on the octets that it
/// sends, not on how these are cut into pieces.
fn replies_depend_on_octets_alone<H: Handler>() {
    streams_can_be_cut();
    cuts_make_no_difference::<H>();
    pieces_are_fed_as_one::<H>();
}

/// Prints the replies over a store that returns the fault from each call.
fn print_over_failing(connections: Connections, fault: Fault, out: &mut Printout) {
    replies_depend_on_octets_alone::<Service<FailingStore>>();
    let service = Service::new(out.alloc(), FailingStore::new(fault));
    if let Some(mut service) = out.supply.keep(service) {
        print_connections(&mut service, connections, true, out);
    }
}

/// Prints the replies if nothing fails, and then those if the reader or the writer fails.
fn print_with_devices(connections: Connections, out: &mut Printout) {
    if let Some(mut service) = new_service(&mut out.supply) {
        print_connections(&mut service, connections, true, out);
    }
    print_failures(connections, out);
}

/// Prints the output of the row, given its text below the title.
fn print_row(text: &[u8], out: &mut Printout) {
    let (front, left) = split_at_mark(text, CONNECTION);
    let connections = Connections { left };
    match parse_setting(front) {
        Some(Setting::Store(fault)) => print_over_failing(connections, fault, out),
        Some(Setting::Devices) => print_with_devices(connections, out),
        Some(Setting::FirstPath) => print_paths(connections.first().octets, out),
        Some(Setting::Stops) => print_stops(out),
        None => out.add("** no such setting **"),
    }
}

/// Prints the title and the output of the row at the front of the text. Returns the text after the
/// next row's mark.
fn print_next<'a>(text: &'a [u8], out: &mut Printout) -> Option<&'a [u8]> {
    let (title, rest) = first_line(text);
    let (row, next) = split_at_mark(rest, ROW);
    out.add_octets(ROW);
    out.add_octets(title);
    out.add("\n");
    print_row(row, out);
    next
}

/// The output of all rows of the input, each below its title.
pub fn run_connection_rows(alloc: Global, input: &[u8]) -> Printout {
    let mut out = Printout::new(alloc);
    let (_, mut left) = split_at_mark(input, ROW);
    for _row in 0..input.len() {
        if let Some(text) = left {
            left = print_next(text, &mut out);
        }
    }
    out
}
