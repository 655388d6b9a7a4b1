//! Runs orders on the host that the program runs on.
ghost use Rattle.std.specs.Prelude.{◌≡◌, ◌≢◌, ◌⊎◌, List, ℕ, IfErr, IfSome, OnOk, Ok, Err};
ghost use Rattle.std.specs.Io.KnownBytes.{Keeps};
ghost use Rattle.cli_args.specs.declared.fault.LineFault.{LineFault as TheFault};
ghost use Rattle.cli_args.specs.declared.order.Order.{Order as TheOrder};
ghost use Rattle.cli_host.specs.Exits.{EndsOrder, IsTryDone, IsTryStopped, ReportsBadArguments};
ghost use Rattle.cli_host.specs.Exits.{ReportsStop};
ghost use Rattle.cli_host.specs.OrdersOnHost.{KeepsOrderOutput, RunsOnHost, StopsOnHost};
ghost use Rattle.cli_orders.specs.Inputs.{read_octets_max};
ghost use Rattle.cli_orders.specs.Outputs.{Flushes, IsFlushed, LeavesFlushed};
ghost use Rattle.cli_orders.specs.Stops.{out_of_memory};
ghost use Rattle.book_http.specs.Streams.{ReadsAtMost};
ghost use Rattle.file_host.specs.FileHosts.{HasLog};

use crate::host::FileHost;
use book_http::{Connection, Listener};
use book_store::FileBooks;
use cli_args::{LineFault, Order};
use cli_host::{ProgramExit, run_and_report, run_on_host};
use cli_orders::{Output, Stop};
use http_fronts::Front;
use hub_server::Endpoint;
use socket_endpoint::SocketEndpoint;
use std::io::Read;
use std::net::{TcpListener, TcpStream};
use std::rt::HostRuntime;
use sync_core::BookStore;

/// `run_on_host`, on the host that the program runs on, whose server has this front.
///
/// No contract connects a store with a real file, or an endpoint or a listener with sockets. So the
/// clauses only say that there are stores, endpoints and listeners with which this is the order's
/// log.
pub fn run_order<F: Front + Copy, W: Output>(
    rt: &HostRuntime,
    front: F,
    order: Order,
    writer: &mut W,
) -> Result<(), Stop>
    ensures done { OnOk result (HasLog (RunsOnHost ⟦<FileBooks as BookStore>⟧.model
        F.answers ⟦<SocketEndpoint as Endpoint>⟧.calls
        ⟦<TcpStream as Connection>⟧.model ⟦<TcpListener as Listener>⟧.coming order
        (W.contents writer.old) (W.contents writer.new))) }
    ensures stopped { IfErr result (λ stop. HasLog (StopsOnHost ⟦<FileBooks as BookStore>⟧.model
        F.answers ⟦<SocketEndpoint as Endpoint>⟧.calls
        ⟦<TcpStream as Connection>⟧.model ⟦<TcpListener as Listener>⟧.coming order stop
        (W.contents writer.old) (W.contents writer.new))) }

    // Nothing is written on a refusal, on a fault, or if the file can't be opened. But the order
    // `run` may have announced its port before memory ran out, the order to check a file has
    // written why it refuses the file, and the order to verify one which row is at fault.
    ensures output_kept { IfErr result (λ stop.
        KeepsOrderOutput order stop (W.contents writer.old) (W.contents writer.new)) }
    ensures flushed { Flushes W.contents W.flushed writer.old writer.new result }
{
    let mut host = FileHost::new(*rt, front);
    run_on_host(rt.alloc(), &mut host, order, writer)
}

/// `run_and_report`, on the host that the program runs on, whose server has this front. This is all
/// that the program does for an order but `convert`.
///
/// As for `run_order`, the clauses only say that there are stores, endpoints and listeners with
/// which this is the order's log.
pub fn run_and_report_on_files<F: Front + Copy, R: Read, W: Output, E: Output>(
    rt: &HostRuntime,
    front: F,
    order: Result<Order, LineFault>,
    reader: &mut R,
    writer: &mut W,
    errors: &mut E,
) -> ProgramExit
    // The output for the input is printed and nothing is reported, or the stop is reported; and
    // then nothing was printed, or all that was printed was flushed, unless a device failed.
    ensures try_order { order ≡ Ok TheOrder.Try → IfSome (R.remaining reader.old) (λ input.
        IsTryDone input (W.contents writer.old) (W.contents writer.new) (E.contents errors.old)
        (E.contents errors.new) result
        ⊎ IsTryStopped input (W.contents writer.old) (W.contents writer.new)
        (E.contents errors.old) (E.contents errors.new)
        (LeavesFlushed W.contents W.flushed writer.old writer.new) result) }

    // `try` reads no more than a prefix of its input.
    ensures at_most { order ≡ Ok TheOrder.Try →
        ReadsAtMost read_octets_max (R.remaining reader.old) (R.remaining reader.new) }

    // The output of another order is printed and nothing is reported, or the stop is reported; and
    // then nothing was printed, or all that was printed was flushed, unless a device failed.
    ensures other_order { (other : TheOrder) → order ≡ Ok other → other ≢ TheOrder.Try →
        HasLog (EndsOrder ⟦<FileBooks as BookStore>⟧.model F.answers
        ⟦<SocketEndpoint as Endpoint>⟧.calls ⟦<TcpStream as Connection>⟧.model
        ⟦<TcpListener as Listener>⟧.coming other (W.contents writer.old) (W.contents writer.new)
        (E.contents errors.old) (E.contents errors.new)
        (LeavesFlushed W.contents W.flushed writer.old writer.new) result) }

    // Another order reads no input.
    ensures unread { order ≢ Ok TheOrder.Try → reader.new ≡ reader.old }

    // For invalid arguments it reports the text, and prints nothing.
    ensures bad_arguments { (text : List ℕ) → order ≡ Err (TheFault.Bad text) →
        ReportsBadArguments text (E.contents errors.old) (E.contents errors.new) result
        × Keeps (W.contents writer.old) (W.contents writer.new) }

    // If memory ran out while the arguments were read, it reports that, and prints nothing.
    ensures memory { order ≡ Err TheFault.Memory →
        ReportsStop out_of_memory (E.contents errors.old) (E.contents errors.new) result
        × Keeps (W.contents writer.old) (W.contents writer.new) }

    // If the status is 0, all that was printed was flushed.
    ensures flushed { result.status ≡ 0 → IsFlushed W.contents W.flushed writer.new }

    // If the status isn't 3, nothing was printed, or all that was printed was flushed: also where
    // the input isn't known.
    ensures left_flushed { result.status ≢ 3
        → LeavesFlushed W.contents W.flushed writer.old writer.new }

    // Nothing was reported, or all that was reported was flushed, unless standard error failed.
    ensures errors_flushed { OnOk result.reported
        (LeavesFlushed E.contents E.flushed errors.old errors.new) }
{
    let mut host = FileHost::new(*rt, front);
    run_and_report(rt.alloc(), &mut host, order, reader, writer, errors)
}
