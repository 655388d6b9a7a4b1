//! Parsing the command line.
ghost use Rattle.std.specs.Prelude.{Err, IfErr, IfOk, map, string_bytes};
ghost use Rattle.clap.specs.Words.{found_of, kind_of, rows_of, subcommand_rows_of};
ghost use Rattle.cli_args.specs.ParsedOrders as parsed;
ghost use Rattle.cli_args.specs.ParsedOrders.{ParsesTo, IsMatched, IsFaultOfKind};

use crate::fault::LineFault;
use crate::matched_orders::matched_order;
use crate::order::Order;
use crate::subcommands::contacts_command;
use base_types::Text;
use clap::error::ErrorKind;
use clap::{ArgMatches, Error};
use std::alloc::{AllocError, Global};
use std::fmt::Display;

/// The text that the value is displayed as. (Over an error of `clap`, the prover would spell out what
/// each error says.)
fn text_of<T: Display>(alloc: Global, value: &T) -> Result<Text, AllocError> {
    Ok(Text::new(format!(in alloc; "{value}")?))
}

/// The fault for an error of `clap`.
fn fault_of(alloc: Global, error: Error) -> LineFault
    ensures { IsFaultOfKind (kind_of error) result }
{
    if error.kind() == ErrorKind::OutOfMemory {
        return LineFault::Memory;
    }
    match text_of(alloc, &error) {
        Ok(text) => LineFault::Bad { text },
        Err(_) => LineFault::Memory,
    }
}

/// Runs `clap` on the arguments.
fn matches_of<'a>(alloc: Global, words: &'a [String]) -> Result<ArgMatches<'a>, LineFault>
    ensures ok { IfOk result (λ matches.
        IsMatched (map string_bytes words.entry.now) (rows_of (found_of matches))
        (subcommand_rows_of matches)) }
    ensures err { IfErr result (λ fault.
        ParsesTo (parsed.order_from (map string_bytes words.entry.now)) (Err fault)) }
{
    let line = contacts_command(alloc)?;
    match line.try_get_matches_from(words) {
        Ok(matches) => Ok(matches),
        Err(error) => Err(fault_of(alloc, error)),
    }
}

/// Parses the arguments after the program's name. Without arguments the order is `Try`.
///
/// The fault is `Bad` if an argument or option is unknown, missing, repeated or invalid, or if help
/// is requested; its text is for the user. The fault is `Memory` if an allocation fails.
pub fn read_order(alloc: Global, words: &[String]) -> Result<Order, LineFault>
    ensures { ParsesTo (parsed.order_from (map string_bytes words.now)) result }
{
    let matches = matches_of(alloc, words)?;
    matched_order(alloc, &matches)
}
