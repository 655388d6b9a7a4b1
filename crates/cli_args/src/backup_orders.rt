//! The orders that copy a file and put a copy back: their command lines, and their orders.
ghost use Rattle.std.specs.Prelude.{◌≡◌, IfOk};
ghost use Rattle.clap.specs.Words.{found_of, rows_of};
ghost use Rattle.cli_args.specs.ParsedOrders as parsed;
ghost use Rattle.cli_args.specs.ParsedOrders.{ParsesTo};
ghost use Rattle.cli_args.specs.Subcommands as lines;
ghost use Rattle.cli_args.specs.Subcommands.{IsArgument, IsOrderCommand};

use crate::arguments::{argument, file_arg, number_option, repeated_option};
use crate::fault::LineFault;
use crate::order::Order;
use crate::subcommands::order_command;
use crate::values::{given_texts, refuse, text_arg, u64_arg};
use clap::{Arg, ArgMatches, Command};
use std::alloc::{AllocError, Global};

// ---- the command lines

fn without_option<'a>(alloc: Global) -> Arg<'a>
    ensures { IsArgument lines.without_option result }
{
    repeated_option(
        alloc,
        "BOOK",
        "without",
        "Name of a book to leave out. May be given more than once",
    )
}

pub(crate) fn copy_command<'a>(alloc: Global) -> Result<Command<'a>, AllocError>
    ensures { IfOk result (IsOrderCommand lines.copy_command) }
{
    let target = argument(alloc, "NEW", "Path of the copy; nothing may be there");
    order_command(
        alloc,
        "copy",
        "Copy the books of a store file into a new file, and print their number",
        "Example:\n  contacts copy office.db backup.db\n\nThe copy is one file, without a log \
         beside it. It was opened and compared before the command ends. It holds no text of a card \
         that was removed or replaced, nor of a book that is left out. While a server has the file \
         open, it can't be copied.\n\nIf a book is left out, those made after it keep their names \
         and cards, but get new ids. So every device copies them anew, as after `resync`.",
        Vec::from_array(alloc, [file_arg(alloc), target, without_option(alloc)])?,
    )
}

fn skip_option<'a>(alloc: Global) -> Arg<'a>
    ensures { IsArgument lines.skip_option result }
{
    number_option(
        alloc,
        "N",
        "skip",
        2,
        1_000_000_000,
        "1000000",
        "Even number of changes to skip in each book, 2 to 1000000000; it must be greater than the \
         number of changes that were lost",
    )
}

pub(crate) fn resync_command<'a>(alloc: Global) -> Result<Command<'a>, AllocError>
    ensures { IfOk result (IsOrderCommand lines.resync_command) }
{
    order_command(
        alloc,
        "resync",
        "Make every device start again after the file was put back from a copy, and print its \
         number of books",
        "Example:\n  contacts resync office.db\n\nEach book takes N change numbers and forgets all \
         removals, so every older sync token is refused and every device copies the book anew. \
         Cards stay as they are. All books change in one transaction. Refused if a book would pass \
         1,000,000,000,000 changes.",
        Vec::from_array(alloc, [file_arg(alloc), skip_option(alloc)])?,
    )
}

pub(crate) fn restore_command<'a>(alloc: Global) -> Result<Command<'a>, AllocError>
    ensures { IfOk result (IsOrderCommand lines.restore_command) }
{
    let backup = argument(alloc, "BACKUP", "Path of a copy of the store file");
    order_command(
        alloc,
        "restore",
        "Put a copy back in place of a store file, and make every device start again",
        "Example:\n  contacts restore backup.db office.db\n\nThe copy is tested first, and stays as \
         it is. What was at FILE is kept under the names that are printed. A book that FILE has \
         and the copy hasn't is made again, empty. Then every device copies the books anew, as \
         after `resync`. Stop the server first.",
        Vec::from_array(alloc, [backup, file_arg(alloc), skip_option(alloc)])?,
    )
}

// ---- the orders

/// What is wrong with an odd number, and the name of the option, for messages.
const SKIP: &str = "'--skip <N>': it is odd, and half of the numbers are creations, the others \
                    removals";

/// Half of the number, if it is even.
fn half_of(number: u64) -> Option<u64>
    ensures { result ≡ parsed.half_of number }
{
    if number % 2 == 0 {
        Some(number / 2)
    } else {
        None
    }
}

/// Half of the numbers to skip.
fn pairs_arg(alloc: Global, matches: &ArgMatches<'_>) -> Result<u64, LineFault>
    ensures { ParsesTo (parsed.pairs_arg (rows_of (found_of matches.now))) result }
{
    let number = u64_arg(alloc, matches, "N")?;
    match half_of(number) {
        Some(pairs) => Ok(pairs),
        None => {
            let odd = format!(in alloc; "{number}")?;
            refuse(alloc, SKIP, odd.as_str())
        }
    }
}

pub(crate) fn copy_order(alloc: Global, matches: &ArgMatches<'_>) -> Result<Order, LineFault>
    ensures { ParsesTo (parsed.copy_order (rows_of (found_of matches.now))) result }
{
    let file = text_arg(alloc, matches, "FILE")?;
    let target = text_arg(alloc, matches, "NEW")?;
    let without = given_texts(alloc, matches, "BOOK")?;
    Ok(Order::Copy {
        file,
        target,
        without,
    })
}

pub(crate) fn resync_order(alloc: Global, matches: &ArgMatches<'_>) -> Result<Order, LineFault>
    ensures { ParsesTo (parsed.resync_order (rows_of (found_of matches.now))) result }
{
    let file = text_arg(alloc, matches, "FILE")?;
    let pairs = pairs_arg(alloc, matches)?;
    Ok(Order::Resync { file, pairs })
}

pub(crate) fn restore_order(alloc: Global, matches: &ArgMatches<'_>) -> Result<Order, LineFault>
    ensures { ParsesTo (parsed.restore_order (rows_of (found_of matches.now))) result }
{
    let backup = text_arg(alloc, matches, "BACKUP")?;
    let file = text_arg(alloc, matches, "FILE")?;
    let pairs = pairs_arg(alloc, matches)?;
    Ok(Order::Restore {
        backup,
        file,
        pairs,
    })
}
