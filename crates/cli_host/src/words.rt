//! Says a sentence before the line of a stop: what it is about, what is wrong, and what to do next.
//!
//! The sentence is no part of what is reported, as the lines are that a long import prints: if it
//! can't be made or written, it is lost.

use crate::host::Host;
use base_types::Text;
use cli_orders::{FoundCause, OrderKind, OrderNames, Stop, stop_sentence};
use std::alloc::Global;
use store_schema::OpenFault;
use sync_core::{Fault, Refusal};

/// The names of an order with its files exchanged, for a stop that is about the other file.
fn about_other(names: OrderNames) -> OrderNames {
    let OrderNames {
        kind,
        file,
        makes_file: _,
        other,
        port,
    } = names;
    OrderNames {
        kind,
        file: other,
        makes_file: matches!(kind, OrderKind::Copy),
        other: file,
        port,
    }
}

/// Whether the stop is about the other file of the order: the new file of a copy, which is there
/// already, or the copy that is put back, which isn't a store.
fn is_about_other(kind: OrderKind, stop: Stop) -> bool {
    match kind {
        OrderKind::Copy => matches!(stop, Stop::Open(OpenFault::NotEmpty)),
        OrderKind::Restore => match stop {
            Stop::Open(OpenFault::NotOurs)
            | Stop::Open(OpenFault::OtherSchema { .. })
            | Stop::Open(OpenFault::Damaged) => true,
            _ => false,
        },
        _ => false,
    }
}

/// Asks the host why a device can't be used.
fn device_cause<S, P, L, M: Host<S, P, L>>(host: &M, names: &OrderNames) -> FoundCause {
    match names.kind {
        OrderKind::Run if !names.other.as_str().is_empty() => {
            host.cause_of_socket(names.other.as_str())
        }
        OrderKind::Serve | OrderKind::Run => host.cause_of_port(names.port),
        OrderKind::Import | OrderKind::Check => host.cause_of_rows(names.other.as_str()),
        _ => FoundCause::Nothing,
    }
}

/// Asks the host for the cause of a stop, if it can know more than the stop says.
fn cause_of_stop<S, P, L, M: Host<S, P, L>>(
    host: &M,
    names: &OrderNames,
    stop: Stop,
) -> FoundCause {
    match stop {
        Stop::Open(OpenFault::Store) | Stop::Fault(Fault::Store) => {
            host.cause_of_store(names.file.as_str(), names.makes_file)
        }
        Stop::Refused(Refusal::BadImport { .. }) => host.cause_of_rows(names.other.as_str()),
        Stop::Device => device_cause(host, names),
        _ => FoundCause::Nothing,
    }
}

/// Whether the order has two stores, and nothing was found of the first.
fn may_be_other(names: &OrderNames, stop: Stop, cause: FoundCause) -> bool {
    match (names.kind, stop, cause) {
        (OrderKind::Copy | OrderKind::Restore, Stop::Open(OpenFault::Store), FoundCause::Nothing) =>
            true,
        _ => false,
    }
}

/// Says the sentence.
fn say_sentence<S, P, L, M: Host<S, P, L>>(
    alloc: Global,
    host: &M,
    names: &OrderNames,
    stop: Stop,
    cause: FoundCause,
) {
    if let Ok(text) = stop_sentence(alloc, names, stop, cause) {
        host.say(text.as_bytes());
    }
}

/// Whether the stop is that of a folder that can't be served, which was said when it was read.
fn is_said<S, P, L, M: Host<S, P, L>>(host: &M, site: Option<&Text>, stop: Stop) -> bool {
    match (site, stop) {
        (Some(dir), Stop::Device) => !host.has_site(dir.as_str()),
        _ => false,
    }
}

/// Says what the stop is about, if the names are those of an order whose stop is told in words.
pub(crate) fn say_why<S, P, L, M: Host<S, P, L>>(
    alloc: Global,
    host: &M,
    names: Option<OrderNames>,
    site: Option<&Text>,
    stop: Stop,
) {
    let Some(names) = names else {
        return;
    };
    if is_said(host, site, stop) {
        return;
    }
    let names = if is_about_other(names.kind, stop) {
        about_other(names)
    } else {
        names
    };
    let cause = cause_of_stop(host, &names, stop);
    if may_be_other(&names, stop, cause) {
        let names = about_other(names);
        let cause = cause_of_stop(host, &names, stop);
        say_sentence(alloc, host, &names, stop, cause);
    } else {
        say_sentence(alloc, host, &names, stop, cause);
    }
}
