//! Says on a terminal what the program waits for.
ghost use Rattle.std.specs.Prelude.{◌≡◌, IfErr, OnOk};
ghost use Rattle.std.specs.Io.KnownBytes.{Appends};
ghost use Rattle.book_http.specs.Streams.{WritesPrefix};
ghost use Rattle.cli_host.specs.Waiting.{waiting_text};
ghost use Rattle.cli_orders.specs.Outputs.{Flushes};

use cli_args::{LineFault, Order};
use cli_orders::{Output, Stop, write_out};

/// The line for a user at a terminal.
const WAITING: &str =
    "waiting for a vCard on standard input; Ctrl-D ends it, contacts --help lists commands\n";

/// What is said before an order runs.
fn waiting_text(is_terminal: bool, order: &Result<Order, LineFault>) -> &'static str
    ensures { result.now ≡ waiting_text is_terminal order.now }
{
    match order {
        Ok(Order::Try) if is_terminal => WAITING,
        _ => "",
    }
}

/// Says on standard error that the program waits for a vCard, if standard input is a terminal and
/// the order is `try`. Otherwise it writes nothing.
///
/// `Device` if standard error fails.
pub fn note_waiting<E: Output>(
    is_terminal: bool,
    order: &Result<Order, LineFault>,
    errors: &mut E,
) -> Result<(), Stop>
    ensures written { OnOk result (Appends (E.contents errors.old) (E.contents errors.new)
        (waiting_text is_terminal order.now)) }
    ensures prefix { WritesPrefix (waiting_text is_terminal order.now)
        (E.contents errors.old) (E.contents errors.new) }
    ensures stop { IfErr result (λ stop. stop ≡ Stop.Device) }
    ensures flushed { Flushes E.contents E.flushed errors.old errors.new result }
{
    write_out(errors, waiting_text(is_terminal, order).as_bytes())
}
