//! What an order names, for what is said of its stop.
ghost use Rattle.std.specs.Prelude.{◌≡◌, ◌||◌, [], IfOk, false};
ghost use Rattle.cli_host.specs.Naming.{given, kind_of, named, names_in_file, names_of};
ghost use Rattle.cli_host.specs.Naming.{uses_words};

use crate::host::Host;
use base_types::{NoMemory, Text};
use cli_args::Order;
use cli_orders::{OrderKind, OrderNames};
use std::alloc::Global;

/// Which order it is.
fn kind_of(order: &Order) -> OrderKind
    ensures { result ≡ kind_of order.now }
{
    match order {
        Order::Try => OrderKind::Try,
        Order::Serve { .. } => OrderKind::Serve,
        Order::Run { .. } => OrderKind::Run,
        Order::Import { .. } => OrderKind::Import,
        Order::Check { .. } => OrderKind::Check,
        Order::Books { .. } => OrderKind::Books,
        Order::Verify { .. } => OrderKind::Verify,
        Order::Copy { .. } => OrderKind::Copy,
        Order::Restore { .. } => OrderKind::Restore,
        Order::Resync { .. } => OrderKind::Resync,
        _ => OrderKind::Other,
    }
}

/// Whether an order says its sentence also where nobody watches. The others print the lines of the
/// formats alone there.
fn uses_words(kind: OrderKind) -> bool
    ensures { result ≡ uses_words kind }
{
    match kind {
        OrderKind::Run
        | OrderKind::Check
        | OrderKind::Books
        | OrderKind::Verify
        | OrderKind::Copy
        | OrderKind::Restore
        | OrderKind::Resync => true,
        _ => false,
    }
}

/// The names of an order with these arguments.
fn named(
    alloc: Global,
    kind: OrderKind,
    file: &str,
    makes_file: bool,
    other: &str,
    port: u16,
) -> Result<OrderNames, NoMemory>
    ensures { IfOk result (λ names. names ≡ named kind file.now makes_file other.now port) }
{
    Ok(OrderNames {
        kind,
        file: Text::copy_of(alloc, file)?,
        makes_file,
        other: Text::copy_of(alloc, other)?,
        port,
    })
}

/// The names of an order on a store file alone.
fn of_file(alloc: Global, kind: OrderKind, file: &Text) -> Result<OrderNames, NoMemory>
    ensures { IfOk result (λ names. names ≡ named kind file.now false [] 0) }
{
    named(alloc, kind, file.as_str(), false, "", 0)
}

/// The names of an order on a store file and another file.
fn of_files(
    alloc: Global,
    kind: OrderKind,
    file: &Text,
    makes_file: bool,
    other: &Text,
) -> Result<OrderNames, NoMemory>
    ensures { IfOk result (λ names. names ≡ named kind file.now makes_file other.now 0) }
{
    named(alloc, kind, file.as_str(), makes_file, other.as_str(), 0)
}

/// The text, or none if there is none.
fn given(text: &Option<Text>) -> &str
    ensures { result.now ≡ given text.now }
{
    match text {
        Some(text) => text.as_str(),
        None => "",
    }
}

/// The names of an order that names a store file alone. For any other order: none.
fn names_in_file(alloc: Global, order: &Order) -> Result<OrderNames, NoMemory>
    ensures { IfOk result (λ names. names ≡ names_in_file order.now) }
{
    match order {
        Order::Book { file, .. } => of_file(alloc, OrderKind::Other, file),
        Order::Export { file, .. } => of_file(alloc, OrderKind::Other, file),
        Order::ExportCards { file, .. } => of_file(alloc, OrderKind::Other, file),
        Order::Tally { file, .. } => of_file(alloc, OrderKind::Other, file),
        Order::Forget { file, .. } => of_file(alloc, OrderKind::Other, file),
        Order::Mirror { file, .. } => of_file(alloc, OrderKind::Other, file),
        Order::Expand { file, .. } => of_file(alloc, OrderKind::Other, file),
        Order::Migrate { file } => of_file(alloc, OrderKind::Other, file),
        Order::Books { file } => of_file(alloc, OrderKind::Books, file),
        Order::Verify { file } => of_file(alloc, OrderKind::Verify, file),
        Order::Resync { file, .. } => of_file(alloc, OrderKind::Resync, file),
        _ => named(alloc, OrderKind::Other, "", false, "", 0),
    }
}

/// The names of an order.
fn names_of(alloc: Global, order: &Order) -> Result<OrderNames, NoMemory>
    ensures { IfOk result (λ names. names ≡ names_of order.now) }
{
    match order {
        Order::Init { file } => named(alloc, OrderKind::Other, file.as_str(), true, "", 0),
        Order::Serve { file, port, .. } => {
            named(alloc, OrderKind::Serve, file.as_str(), false, "", *port)
        }
        Order::Run {
            file,
            port,
            socket,
            creates,
            ..
        } => named(
            alloc,
            OrderKind::Run,
            file.as_str(),
            *creates,
            given(socket),
            *port,
        ),
        Order::Import { file, csv, .. } => of_files(alloc, OrderKind::Import, file, false, csv),
        Order::Check { file } => named(alloc, OrderKind::Check, "", false, file.as_str(), 0),
        Order::Copy { file, target, .. } => of_files(alloc, OrderKind::Copy, file, false, target),
        Order::Restore { backup, file, .. } => {
            of_files(alloc, OrderKind::Restore, file, true, backup)
        }
        Order::Try => named(alloc, OrderKind::Try, "", false, "", 0),
        other => names_in_file(alloc, other),
    }
}

/// The folder of files that the order serves beside the books, if it does.
pub(crate) fn site_of(alloc: Global, order: &Order) -> Option<Text> {
    match order {
        Order::Run {
            site: Some(site),
            ..
        } => Text::copy_of(alloc, site.as_str()).ok(),
        _ => None,
    }
}

/// Whether something is said of a stop of an order of this kind.
fn says(is_watched: bool, kind: OrderKind) -> bool
    ensures { result ≡ is_watched || uses_words kind }
{
    is_watched || uses_words(kind)
}

/// The names of an order, if something is to be said of its stop: if somebody watches, or the order
/// always says a sentence. None without memory for them.
pub(crate) fn names_to_say<S, P, L, M: Host<S, P, L>>(
    alloc: Global,
    host: &M,
    order: &Order,
) -> Option<OrderNames> {
    if !says(host.has_watcher(), kind_of(order)) {
        return None;
    }
    names_of(alloc, order).ok()
}
