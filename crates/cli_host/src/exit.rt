//! The entry point of the program: runs an order, reports errors, and returns how it ended.
ghost use Rattle.std.specs.Prelude.{◌≡◌, ◌≢◌, ◌⊎◌, List, ℕ, IfOk, IfSome, OnOk, Ok, Err};
ghost use Rattle.std.specs.Prelude.{string_bytes};
ghost use Rattle.std.specs.Io.KnownBytes.{Keeps};
ghost use Rattle.cli_args.specs.declared.fault.LineFault.{LineFault as TheFault};
ghost use Rattle.cli_args.specs.declared.order.Order.{Order as TheOrder};
ghost use Rattle.cli_host.specs.Exits.{EndsOrder, IsTryDone, IsTryStopped, ReportsBadArguments};
ghost use Rattle.cli_host.specs.Exits.{ReportsResult, ReportsStop, with_line_feed};
ghost use Rattle.cli_host.specs.Hosts.{LogsCalls};
ghost use Rattle.cli_orders.specs.Inputs.{read_octets_max};
ghost use Rattle.cli_orders.specs.Outputs.{IsFlushed, LeavesFlushed};
ghost use Rattle.cli_orders.specs.Stops.{out_of_memory, stop_line};
ghost use Rattle.book_http.specs.Streams.{ReadsAtMost};

use crate::host::Host;
use crate::naming::{names_to_say, site_of};
use crate::running::run_on_host;
use crate::words::say_why;
use book_http::Listener;
use book_resync::AdminStore;
use cli_args::{LineFault, Order};
use cli_orders::{Output, Stop, run_try, write_out};
use hub_server::Endpoint;
use std::alloc::Global;
use std::io::Read;
use vcard_text::NoMemory;

/// How the program ended.
#[derive(Clone, Copy)]
pub struct ProgramExit {
    /// The exit status: 0 for success, 1 for a refusal, 2 for invalid arguments or help, and 3 if
    /// memory ran out, or a file, a connection or a device failed.
    pub status: u8,
    /// Whether standard error accepted what was reported on it, if anything was.
    pub reported: Result<(), Stop>,
}

/// The line that reports a stop.
fn format_stop(alloc: Global, stop: Stop) -> Result<String, NoMemory>
    ensures { IfOk result (λ line. string_bytes line ≡ with_line_feed (stop_line stop)) }
{
    Ok(format!(in alloc; "{stop}\n")?)
}

/// Prints the line of a stop. Without memory for the line, it prints the stop for memory instead.
fn report_stop<E: Output>(alloc: Global, errors: &mut E, stop: Stop) -> ProgramExit
    ensures reports { ReportsStop stop (E.contents errors.old) (E.contents errors.new) result }
    ensures flushed { OnOk result.reported
        (LeavesFlushed E.contents E.flushed errors.old errors.new) }
{
    match format_stop(alloc, stop) {
        Ok(line) => ProgramExit {
            reported: write_out(errors, line.as_bytes()),
            status: stop.status(),
        },
        Err(NoMemory) => ProgramExit {
            reported: write_out(errors, b"fault no-memory 20\n"),
            status: Stop::out_of_memory().status(),
        },
    }
}

/// Reports the stop, if any.
fn report_result<E: Output>(alloc: Global, errors: &mut E, done: Result<(), Stop>) -> ProgramExit
    ensures reports { ReportsResult done (E.contents errors.old) (E.contents errors.new) result }
    ensures flushed { OnOk result.reported
        (LeavesFlushed E.contents E.flushed errors.old errors.new) }
{
    match done {
        Ok(()) => ProgramExit {
            reported: Ok(()),
            status: 0,
        },
        Err(stop) => report_stop(alloc, errors, stop),
    }
}

/// Prints the text for invalid arguments or for help.
fn report_bad_arguments<E: Output>(errors: &mut E, text: &str) -> ProgramExit
    ensures reports { ReportsBadArguments text.now
        (E.contents errors.old) (E.contents errors.new) result }
    ensures flushed { OnOk result.reported
        (LeavesFlushed E.contents E.flushed errors.old errors.new) }
{
    ProgramExit {
        reported: write_out(errors, text.as_bytes()),
        status: 2,
    }
}

/// Runs the order `try`, and reports a stop.
fn run_try_order<S, P, L, M: Host<S, P, L>, R: Read, W: Output, E: Output>(
    alloc: Global,
    host: &M,
    reader: &mut R,
    writer: &mut W,
    errors: &mut E,
) -> ProgramExit
    ensures ends { IfSome (R.remaining reader.old) (λ input.
        IsTryDone input (W.contents writer.old) (W.contents writer.new) (E.contents errors.old)
        (E.contents errors.new) result
        ⊎ IsTryStopped input (W.contents writer.old) (W.contents writer.new)
        (E.contents errors.old) (E.contents errors.new)
        (LeavesFlushed W.contents W.flushed writer.old writer.new) result) }
    ensures at_most { ReadsAtMost read_octets_max
        (R.remaining reader.old) (R.remaining reader.new) }
    ensures flushed { result.status ≡ 0 → IsFlushed W.contents W.flushed writer.new }
    ensures left_flushed { result.status ≢ 3
        → LeavesFlushed W.contents W.flushed writer.old writer.new }
    ensures errors_flushed { OnOk result.reported
        (LeavesFlushed E.contents E.flushed errors.old errors.new) }
{
    let names = names_to_say(alloc, host, &Order::Try);
    let done = run_try(alloc, reader, writer);
    if let Err(stop) = &done {
        say_why(alloc, host, names, None, *stop);
    }
    report_result(alloc, errors, done)
}

/// Runs another order, and reports a stop.
fn run_other_order<
    S: AdminStore + Drop,
    P: Endpoint,
    L: Listener + Drop,
    M: Host<S, P, L>,
    W: Output,
    E: Output,
>(alloc: Global, host: &mut M, order: Order, writer: &mut W, errors: &mut E) -> ProgramExit
    ensures ends { LogsCalls M.calls host.old host.new
        (EndsOrder S.model M.Front.answers P.calls L.Stream.model L.coming order
        (W.contents writer.old) (W.contents writer.new)
        (E.contents errors.old) (E.contents errors.new)
        (LeavesFlushed W.contents W.flushed writer.old writer.new) result) }
    ensures flushed { result.status ≡ 0 → IsFlushed W.contents W.flushed writer.new }
    ensures left_flushed { result.status ≢ 3
        → LeavesFlushed W.contents W.flushed writer.old writer.new }
    ensures errors_flushed { OnOk result.reported
        (LeavesFlushed E.contents E.flushed errors.old errors.new) }
{
    let names = names_to_say(alloc, &*host, &order);
    let site = site_of(alloc, &order);
    let done = run_on_host(alloc, host, order, writer);
    if let Err(stop) = &done {
        say_why(alloc, &*host, names, site.as_ref(), *stop);
    }
    report_result(alloc, errors, done)
}

/// Runs an order on a host, and reports errors on standard error.
pub fn run_and_report<
    S: AdminStore + Drop,
    P: Endpoint,
    L: Listener + Drop,
    M: Host<S, P, L>,
    R: Read,
    W: Output,
    E: Output,
>(
    alloc: Global,
    host: &mut M,
    order: Result<Order, LineFault>,
    reader: &mut R,
    writer: &mut W,
    errors: &mut E,
) -> ProgramExit
    // The output for the input is printed and nothing is reported, or the stop is reported; and
    // then nothing was printed, or all that was printed was flushed, unless a device failed.
    ensures try_order { order ≡ Ok TheOrder.Try → IfSome (R.remaining reader.old) (λ input.
        IsTryDone input (W.contents writer.old) (W.contents writer.new) (E.contents errors.old)
        (E.contents errors.new) result
        ⊎ IsTryStopped input (W.contents writer.old) (W.contents writer.new)
        (E.contents errors.old) (E.contents errors.new)
        (LeavesFlushed W.contents W.flushed writer.old writer.new) result) }

    // `try` reads no more than a prefix of its input, and calls no host.
    ensures at_most { order ≡ Ok TheOrder.Try →
        ReadsAtMost read_octets_max (R.remaining reader.old) (R.remaining reader.new)
        × (host.new ≡ host.old) }

    // The output of another order is printed and nothing is reported, or the stop is reported; and
    // then nothing was printed, or all that was printed was flushed, unless a device failed. The
    // whole log of calls that were made of the host is that of the order.
    ensures other_order { (other : TheOrder) → order ≡ Ok other → other ≢ TheOrder.Try →
        LogsCalls M.calls host.old host.new
        (EndsOrder S.model M.Front.answers P.calls L.Stream.model L.coming other
        (W.contents writer.old) (W.contents writer.new)
        (E.contents errors.old) (E.contents errors.new)
        (LeavesFlushed W.contents W.flushed writer.old writer.new) result) }

    // Another order reads no input.
    ensures unread { order ≢ Ok TheOrder.Try → reader.new ≡ reader.old }

    // For invalid arguments it reports the text, and does nothing else.
    ensures bad_arguments { (text : List ℕ) → order ≡ Err (TheFault.Bad text) →
        ReportsBadArguments text (E.contents errors.old) (E.contents errors.new) result
        × Keeps (W.contents writer.old) (W.contents writer.new)
        × (host.new ≡ host.old) }

    // If memory ran out while the arguments were read, it reports that, and does nothing else.
    ensures memory { order ≡ Err TheFault.Memory →
        ReportsStop out_of_memory (E.contents errors.old) (E.contents errors.new) result
        × Keeps (W.contents writer.old) (W.contents writer.new)
        × (host.new ≡ host.old) }

    // If the status is 0, all that was printed was flushed.
    ensures flushed { result.status ≡ 0 → IsFlushed W.contents W.flushed writer.new }

    // If the status isn't 3, nothing was printed, or all that was printed was flushed: also where
    // the input isn't known.
    ensures left_flushed { result.status ≢ 3
        → LeavesFlushed W.contents W.flushed writer.old writer.new }

    // Nothing was reported, or all that was reported was flushed, unless standard error failed.
    ensures errors_flushed { OnOk result.reported
        (LeavesFlushed E.contents E.flushed errors.old errors.new) }
{
    match order {
        Ok(Order::Try) => run_try_order(alloc, &*host, reader, writer, errors),
        Ok(order) => run_other_order(alloc, host, order, writer, errors),
        Err(LineFault::Bad { text }) => report_bad_arguments(errors, text.as_str()),
        Err(LineFault::Memory) => report_stop(alloc, errors, Stop::out_of_memory()),
    }
}
