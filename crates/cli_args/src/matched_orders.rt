//! From `clap`'s matches to an `Order`.
ghost use Rattle.clap.specs.Words.{found_of, rows_of, subcommand_rows_of};
ghost use Rattle.cli_args.specs.ParsedOrders as parsed;
ghost use Rattle.cli_args.specs.ParsedOrders.{ParsesTo};

use crate::backup_orders::{copy_order, restore_order, resync_order};
use crate::export_command::export_order;
use crate::fault::LineFault;
use crate::host_names::{has_host_names, wrong_host_name};
use crate::order::Order;
use crate::values::{
    given_text, given_texts, given_u64, is_given, is_given_empty, later_texts, port_arg, refuse,
    refuse_both_orders, refuse_socket_and_port, text_arg, u64_arg,
};
use clap::ArgMatches;
use std::alloc::Global;

fn init_order(alloc: Global, matches: &ArgMatches<'_>) -> Result<Order, LineFault>
    ensures { ParsesTo (parsed.init_order (rows_of (found_of matches.now))) result }
{
    let file = text_arg(alloc, matches, "FILE")?;
    Ok(Order::Init { file })
}

fn book_order(alloc: Global, matches: &ArgMatches<'_>) -> Result<Order, LineFault>
    ensures { ParsesTo (parsed.book_order (rows_of (found_of matches.now))) result }
{
    let file = text_arg(alloc, matches, "FILE")?;
    let book = text_arg(alloc, matches, "BOOK")?;
    Ok(Order::Book { file, book })
}

fn serve_order(alloc: Global, matches: &ArgMatches<'_>) -> Result<Order, LineFault>
    ensures { ParsesTo (parsed.serve_order (rows_of (found_of matches.now))) result }
{
    let file = text_arg(alloc, matches, "FILE")?;
    let port = port_arg(alloc, matches)?;
    let connections = u64_arg(alloc, matches, "N")?;
    Ok(Order::Serve {
        file,
        port,
        connections,
    })
}

/// The order `run`, at the socket if one was given, and else at the port.
fn run_order_of(alloc: Global, matches: &ArgMatches<'_>) -> Result<Order, LineFault>
    ensures { ParsesTo (parsed.run_order_of (rows_of (found_of matches.now))) result }
{
    let file = text_arg(alloc, matches, "FILE")?;
    let port = port_arg(alloc, matches)?;
    let max_open = u64_arg(alloc, matches, "M")?;
    let idle_timeout = u64_arg(alloc, matches, "S")?;
    let max_held = u64_arg(alloc, matches, "MIB")?;
    let socket = given_text(alloc, matches, "PATH")?;
    let names = given_texts(alloc, matches, "NAME")?;
    let site = given_text(alloc, matches, "DIR")?;
    Ok(Order::Run {
        file,
        port,
        socket,
        names,
        max_open,
        idle_timeout,
        max_held,
        creates: is_given(matches, "create"),
        is_logged: is_given(matches, "log"),
        site,
    })
}

/// What is wrong with an empty path, and the name of the option, for messages.
const EMPTY_PATH: &str = "'--socket <PATH>': it needs the path of a socket";

/// What is wrong with a name that is none of a host, and the name of the option, for messages.
const WRONG_HOST: &str = "'--host <NAME>': it needs the name of a host, as office.example, and one \
     --host for each name";

/// The order `run`, if a socket and a port weren't both given, the socket has a path, and each name
/// is that of a host.
fn run_order(alloc: Global, matches: &ArgMatches<'_>) -> Result<Order, LineFault>
    ensures { ParsesTo (parsed.run_order (rows_of (found_of matches.now))) result }
{
    if is_given(matches, "PATH") && is_given(matches, "P") {
        refuse_socket_and_port(alloc)
    } else if is_given_empty(matches, "PATH") {
        refuse(alloc, EMPTY_PATH, "")
    } else if has_host_names(matches, "NAME") {
        run_order_of(alloc, matches)
    } else {
        refuse(alloc, WRONG_HOST, wrong_host_name(matches, "NAME"))
    }
}

fn import_order(alloc: Global, matches: &ArgMatches<'_>) -> Result<Order, LineFault>
    ensures { ParsesTo (parsed.import_order (rows_of (found_of matches.now))) result }
{
    let file = text_arg(alloc, matches, "FILE")?;
    let book = text_arg(alloc, matches, "BOOK")?;
    let key = text_arg(alloc, matches, "KEY")?;
    let csv = text_arg(alloc, matches, "CSV")?;
    Ok(Order::Import {
        file,
        book,
        key,
        csv,
    })
}

fn tally_order(alloc: Global, matches: &ArgMatches<'_>) -> Result<Order, LineFault>
    ensures { ParsesTo (parsed.tally_order (rows_of (found_of matches.now))) result }
{
    let file = text_arg(alloc, matches, "FILE")?;
    let book = text_arg(alloc, matches, "BOOK")?;
    Ok(Order::Tally { file, book })
}

fn forget_order(alloc: Global, matches: &ArgMatches<'_>) -> Result<Order, LineFault>
    ensures { ParsesTo (parsed.forget_order (rows_of (found_of matches.now))) result }
{
    let file = text_arg(alloc, matches, "FILE")?;
    let book = text_arg(alloc, matches, "BOOK")?;
    let upto = u64_arg(alloc, matches, "UPTO")?;
    Ok(Order::Forget { file, book, upto })
}

fn mirror_order(alloc: Global, matches: &ArgMatches<'_>) -> Result<Order, LineFault>
    ensures { ParsesTo (parsed.mirror_order (rows_of (found_of matches.now))) result }
{
    let file = text_arg(alloc, matches, "FILE")?;
    let book = text_arg(alloc, matches, "BOOK")?;
    let limit = u64_arg(alloc, matches, "L")?;
    let pages = u64_arg(alloc, matches, "P")?;
    Ok(Order::Mirror {
        file,
        book,
        limit,
        pages,
    })
}

fn expand_order(alloc: Global, matches: &ArgMatches<'_>) -> Result<Order, LineFault>
    ensures { ParsesTo (parsed.expand_order (rows_of (found_of matches.now))) result }
{
    let file = text_arg(alloc, matches, "FILE")?;
    let book = text_arg(alloc, matches, "BOOK")?;
    let uid = text_arg(alloc, matches, "UID")?;
    Ok(Order::Expand { file, book, uid })
}

fn migrate_order(alloc: Global, matches: &ArgMatches<'_>) -> Result<Order, LineFault>
    ensures { ParsesTo (parsed.migrate_order (rows_of (found_of matches.now))) result }
{
    let file = text_arg(alloc, matches, "FILE")?;
    Ok(Order::Migrate { file })
}

fn check_order(alloc: Global, matches: &ArgMatches<'_>) -> Result<Order, LineFault>
    ensures { ParsesTo (parsed.check_order (rows_of (found_of matches.now))) result }
{
    let file = text_arg(alloc, matches, "FILE")?;
    Ok(Order::Check { file })
}

fn convert_order_of(alloc: Global, matches: &ArgMatches<'_>) -> Result<Order, LineFault>
    ensures { ParsesTo (parsed.convert_order_of (rows_of (found_of matches.now))) result }
{
    let file = text_arg(alloc, matches, "FILE")?;
    let more = later_texts(alloc, matches, "FILE")?;
    let folder = given_text(alloc, matches, "DIR")?;
    let rows = given_u64(matches, "ROWS");
    let octets = given_u64(matches, "OCTETS");
    let columns = given_text(alloc, matches, "COLUMNS")?;
    let charset = given_text(alloc, matches, "CHARSET")?;
    let report = given_text(alloc, matches, "REPORT")?;
    let photos = given_text(alloc, matches, "PHOTOS")?;
    Ok(Order::Convert {
        file,
        more,
        folder,
        rows,
        octets,
        day_first: is_given(matches, "day-first"),
        month_first: is_given(matches, "month-first"),
        columns,
        charset,
        report,
        photos,
    })
}

/// The order `convert`, if the day and the month don't both come first.
fn convert_order(alloc: Global, matches: &ArgMatches<'_>) -> Result<Order, LineFault>
    ensures { ParsesTo (parsed.convert_order (rows_of (found_of matches.now))) result }
{
    if is_given(matches, "day-first") && is_given(matches, "month-first") {
        refuse_both_orders(alloc)
    } else {
        convert_order_of(alloc, matches)
    }
}

fn books_order(alloc: Global, matches: &ArgMatches<'_>) -> Result<Order, LineFault>
    ensures { ParsesTo (parsed.books_order (rows_of (found_of matches.now))) result }
{
    let file = text_arg(alloc, matches, "FILE")?;
    Ok(Order::Books { file })
}

fn verify_order(alloc: Global, matches: &ArgMatches<'_>) -> Result<Order, LineFault>
    ensures { ParsesTo (parsed.verify_order (rows_of (found_of matches.now))) result }
{
    let file = text_arg(alloc, matches, "FILE")?;
    Ok(Order::Verify { file })
}

/// The order with this name, if it is one that only looks at a file.
fn file_order_of(alloc: Global, name: &str, matches: &ArgMatches<'_>) -> Result<Order, LineFault>
    ensures { ParsesTo (parsed.file_order_of name.now (rows_of (found_of matches.now))) result }
{
    if name == "check" {
        check_order(alloc, matches)
    } else if name == "convert" {
        convert_order(alloc, matches)
    } else if name == "books" {
        books_order(alloc, matches)
    } else if name == "verify" {
        verify_order(alloc, matches)
    } else {
        refuse(alloc, "ORDER", name)
    }
}

/// The order with this name, if it is one that only reads a book or a file.
fn query_order_of(alloc: Global, name: &str, matches: &ArgMatches<'_>) -> Result<Order, LineFault>
    ensures { ParsesTo (parsed.query_order_of name.now (rows_of (found_of matches.now))) result }
{
    if name == "export" {
        export_order(alloc, matches)
    } else if name == "tally" {
        tally_order(alloc, matches)
    } else if name == "mirror" {
        mirror_order(alloc, matches)
    } else if name == "expand" {
        expand_order(alloc, matches)
    } else {
        file_order_of(alloc, name, matches)
    }
}

/// The order with this name, if it creates, changes or reads a book.
fn book_order_of(alloc: Global, name: &str, matches: &ArgMatches<'_>) -> Result<Order, LineFault>
    ensures { ParsesTo (parsed.book_order_of name.now (rows_of (found_of matches.now))) result }
{
    if name == "book" {
        book_order(alloc, matches)
    } else if name == "import" {
        import_order(alloc, matches)
    } else if name == "forget" {
        forget_order(alloc, matches)
    } else {
        query_order_of(alloc, name, matches)
    }
}

/// The order with this name, if it copies a file, puts a copy back, or is about books.
fn backup_order_of(alloc: Global, name: &str, matches: &ArgMatches<'_>) -> Result<Order, LineFault>
    ensures { ParsesTo (parsed.backup_order_of name.now (rows_of (found_of matches.now))) result }
{
    if name == "copy" {
        copy_order(alloc, matches)
    } else if name == "resync" {
        resync_order(alloc, matches)
    } else if name == "restore" {
        restore_order(alloc, matches)
    } else {
        book_order_of(alloc, name, matches)
    }
}

/// The order with this name. (The names are split over four functions because in one list the
/// prover would carry all earlier names into each later case.)
fn order_of(alloc: Global, name: &str, matches: &ArgMatches<'_>) -> Result<Order, LineFault>
    ensures { ParsesTo (parsed.order_of name.now (rows_of (found_of matches.now))) result }
{
    if name == "try" {
        Ok(Order::Try)
    } else if name == "init" {
        init_order(alloc, matches)
    } else if name == "run" {
        run_order(alloc, matches)
    } else if name == "serve" {
        serve_order(alloc, matches)
    } else if name == "migrate" {
        migrate_order(alloc, matches)
    } else {
        backup_order_of(alloc, name, matches)
    }
}

/// The order of the matched name; without one it is `Try`.
fn named_order(alloc: Global, matches: &ArgMatches<'_>) -> Result<Order, LineFault>
    ensures { ParsesTo (parsed.named_order (subcommand_rows_of matches.now)) result }
{
    match matches.subcommand() {
        Some((name, words)) => order_of(alloc, name, words),
        None => Ok(Order::Try),
    }
}

/// The matched order. With `--version` it is `Version`, whatever follows.
pub(crate) fn matched_order(alloc: Global, matches: &ArgMatches<'_>) -> Result<Order, LineFault>
    ensures { ParsesTo (parsed.matched_order (rows_of (found_of matches.now))
        (subcommand_rows_of matches.now)) result }
{
    if is_given(matches, "version") {
        return Ok(Order::Version);
    }
    named_order(alloc, matches)
}
