//! The command line of `export`, and its orders.
ghost use Rattle.std.specs.Prelude.{◌≡◌, IfOk, None};
ghost use Rattle.clap.specs.Words.{found_of, rows_of};
ghost use Rattle.cli_args.specs.ParsedOrders as parsed;
ghost use Rattle.cli_args.specs.ParsedOrders.{ParsesTo};
ghost use Rattle.cli_args.specs.Subcommands as lines;
ghost use Rattle.cli_args.specs.Subcommands.{IsOrderCommand};

use crate::arguments::{book_arg, file_arg, option_arg, switch};
use crate::fault::LineFault;
use crate::order::Order;
use crate::subcommands::order_command;
use crate::values::{form_arg, is_given, refuse, text_arg};
use base_types::Text;
use clap::{ArgMatches, Command};
use std::alloc::{AllocError, Global};

// ---- the command line

pub(crate) fn export_command<'a>(alloc: Global) -> Result<Command<'a>, AllocError>
    ensures { IfOk result (IsOrderCommand lines.export_command) }
{
    let form = option_arg(
        alloc,
        "F",
        "form",
        "cards",
        "CSV format: `cards` for a UID and a vCard per row, `columns` for one property per column",
    );
    let vcf = switch(
        alloc,
        "vcf",
        "vcf",
        "Write one file of vCards in place of CSV",
    );
    let version = option_arg(
        alloc,
        "V",
        "as",
        "4.0",
        "With --vcf, the version of the vCards: `4.0`, or `3.0` for phones and Outlook",
    );
    order_command(
        alloc,
        "export",
        "Write the cards of a book to standard output as CSV or as vCards",
        "Examples:\n  contacts export office.db staff --form columns > people.csv\n  contacts \
         export office.db staff --vcf --as 3.0 > people.vcf",
        Vec::from_array(
            alloc,
            [file_arg(alloc), book_arg(alloc), form, vcf, version],
        )?,
    )
}

// ---- the orders

/// The message for two options that exclude each other, in the form of `clap`'s own messages.
const VCF_AND_FORM: &str = "error: the argument '--vcf' cannot be used with '--form <F>'\n\nUsage: \
     contacts export [OPTIONS] <FILE> <BOOK>\n\nFor more information, try '--help'.\n";

/// The message for a version of vCards without vCards, in the form of `clap`'s own messages.
const VERSION_ALONE: &str =
    "error: the argument '--as <V>' needs '--vcf'\n\nUsage: contacts export \
     [OPTIONS] <FILE> <BOOK>\n\nFor more information, try '--help'.\n";

/// The fault with that message.
fn refuse_line<T>(alloc: Global, message: &str) -> Result<T, LineFault>
    ensures { ParsesTo None result }
{
    let text = Text::copy_of(alloc, message)?;
    Err(LineFault::Bad { text })
}

/// The name and the possible values of `--as`, for messages.
const VERSIONS: &str = "'--as <V>'\n  [possible values: 4.0, 3.0]";

/// Whether the version is 3.0, and not 4.0. `None` for any other.
fn older_of(text: &str) -> Option<bool>
    ensures { result ≡ parsed.older_of text.now }
{
    if text == "4.0" {
        Some(false)
    } else if text == "3.0" {
        Some(true)
    } else {
        None
    }
}

/// Whether the vCards are written as vCard 3.0.
fn older_arg(alloc: Global, matches: &ArgMatches<'_>) -> Result<bool, LineFault>
    ensures { ParsesTo (parsed.older_arg (rows_of (found_of matches.now))) result }
{
    let Some(text) = matches.get_str("V") else {
        return refuse(alloc, VERSIONS, "");
    };
    match older_of(text) {
        Some(is_older) => Ok(is_older),
        None => refuse(alloc, VERSIONS, text),
    }
}

/// An export as vCards.
fn cards_order(alloc: Global, matches: &ArgMatches<'_>) -> Result<Order, LineFault>
    ensures { ParsesTo (parsed.cards_order (rows_of (found_of matches.now))) result }
{
    let file = text_arg(alloc, matches, "FILE")?;
    let book = text_arg(alloc, matches, "BOOK")?;
    let is_older = older_arg(alloc, matches)?;
    Ok(Order::ExportCards {
        file,
        book,
        is_older,
    })
}

/// An export as CSV.
fn rows_order(alloc: Global, matches: &ArgMatches<'_>) -> Result<Order, LineFault>
    ensures { ParsesTo (parsed.rows_order (rows_of (found_of matches.now))) result }
{
    let file = text_arg(alloc, matches, "FILE")?;
    let book = text_arg(alloc, matches, "BOOK")?;
    let form = form_arg(alloc, matches)?;
    Ok(Order::Export { file, book, form })
}

pub(crate) fn export_order(alloc: Global, matches: &ArgMatches<'_>) -> Result<Order, LineFault>
    ensures { ParsesTo (parsed.export_order (rows_of (found_of matches.now))) result }
{
    if is_given(matches, "vcf") && is_given(matches, "F") {
        refuse_line(alloc, VCF_AND_FORM)
    } else if is_given(matches, "vcf") {
        cards_order(alloc, matches)
    } else if is_given(matches, "V") {
        refuse_line(alloc, VERSION_ALONE)
    } else {
        rows_order(alloc, matches)
    }
}
