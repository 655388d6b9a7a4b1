//! The program `contacts`: keeps address books in a file and serves them over HTTP. Without an
//! argument it reads one vCard from standard input, puts it into an empty book in memory, and
//! prints the book's initial report.
#![tactic(auto)]

mod streams;

use base_types::Text;
use cli_args::{LineFault, Order};
use cli_convert::{ConvertOptions, DateOrder, RowsSink, run_convert};
use cli_host::{note_waiting, order_of_args};
use convert_posts::Converter;
use file_host::run_and_report_on_files;
use std::env;
use std::io::IsTerminal;
use std::process::ExitCode;
use streams::hold_streams;

/// The text that was given, if any was.
fn given(text: &Option<Text>) -> Option<&str> {
    match text {
        Some(text) => Some(text.as_str()),
        None => None,
    }
}

/// The order of day and month in dates with slashes, if one was given.
fn date_order(day_first: bool, month_first: bool) -> Option<DateOrder> {
    if day_first {
        Some(DateOrder::DayFirst)
    } else if month_first {
        Some(DateOrder::MonthFirst)
    } else {
        None
    }
}

/// What to convert, if that is the order.
fn conversion_of(order: &Result<Order, LineFault>) -> Option<ConvertOptions<'_>> {
    match order {
        Ok(
            Order::Convert {
                file,
                more,
                folder,
                rows,
                octets,
                day_first,
                month_first,
                columns,
                charset,
                report,
                photos,
            },
        ) => Some(ConvertOptions {
            file: file.as_str(),
            more: more.as_slice(),
            folder: given(folder),
            rows: *rows,
            octets: *octets,
            dates: date_order(*day_first, *month_first),
            columns: given(columns).unwrap_or(""),
            charset: given(charset),
            report: given(report),
            photos: given(photos),
        }),
        _ => None,
    }
}

/// Converts, and returns the exit status.
fn convert(rt: &HostRuntime, wanted: ConvertOptions<'_>) -> u8 {
    let mut rows = RowsSink {
        writer: rt.stdout(),
    };
    run_convert(rt.alloc(), rt, wanted, &mut rows, rt.stderr())
}

/// Runs another order on the files and ports of the system, and returns the exit status.
fn run(rt: &HostRuntime, order: Result<Order, LineFault>) -> u8 {
    let exit = run_and_report_on_files(
        rt,
        Converter,
        order,
        &mut rt.stdin(),
        &mut rt.stdout(),
        &mut rt.stderr(),
    );
    exit.status
}

fn main(rt: HostRuntime) -> ExitCode {
    // Before anything is opened, so that no file or socket gets the number of a stream.
    hold_streams(&rt);
    let order = order_of_args(rt.alloc(), env::args(&rt));
    if let Some(wanted) = conversion_of(&order) {
        return ExitCode::from(convert(&rt, wanted));
    }
    // Nothing depends on this line, so a standard error that fails changes nothing.
    let _noted = note_waiting(rt.stdin().is_terminal(), &order, &mut rt.stderr());
    ExitCode::from(run(&rt, order))
}
