//! Reads the arguments of the program.
ghost use Rattle.std.specs.Prelude.{◌≡◌, IfErr, IfOk, IsErrAnd, drop, map, string_bytes};
ghost use Rattle.std.specs.IoError.{error_kind};
ghost use Rattle.std.specs.Vec.Iter.{into_iter_items};
ghost use Rattle.cli_args.specs.ParsedOrders.{ParsesTo, order_from};
ghost use Rattle.cli_host.specs.Arguments.{IsBadWith, IsUnreadFault};

use base_types::{NoMemory, Text};
use cli_args::{LineFault, Order, read_order};
use std::alloc::Global;
use std::io::ErrorKind;
use std::{env, io};

/// The text for an argument that isn't UTF-8, in the form of `clap`'s texts.
const NOT_UTF8: &str = "error: invalid UTF-8 was detected in one or more arguments\n\n\
     For more information, try '--help'.\n";

/// The fault of an argument that isn't UTF-8.
fn not_utf8_fault(alloc: Global) -> LineFault
    ensures { IsBadWith NOT_UTF8.now result }
{
    match Text::copy_of(alloc, NOT_UTF8) {
        Ok(text) => LineFault::Bad { text },
        Err(_) => LineFault::Memory,
    }
}

/// The arguments after the program's name, which is the first.
fn without_name(alloc: Global, given: env::Args) -> Result<Vec<String>, NoMemory>
    ensures { IfOk result (λ rest. rest.items ≡ drop 1 (into_iter_items given)) }
{
    let mut given = given;
    let _name = given.next();
    let mut rest = Vec::new(alloc);
    for word in given {
        if rest.push(word).is_err() {
            return Err(NoMemory);
        }
    }
    Ok(rest)
}

/// The order that the arguments of a program ask for, if they could be read. The first is the
/// program's name.
///
/// `Bad` for invalid arguments, for help, and if an argument isn't UTF-8; `Memory` if an allocation
/// fails.
pub fn order_of_args(alloc: Global, given: io::Result<env::Args>) -> Result<Order, LineFault>
    ensures order { IfOk given (λ args.
        ParsesTo (order_from (map string_bytes (drop 1 (into_iter_items args)))) result) }
    ensures unread { IfErr given (λ error.
        IsErrAnd result (IsUnreadFault (error_kind error) NOT_UTF8.now)) }
{
    match given {
        Ok(args) => {
            let arg_list = without_name(alloc, args)?;
            read_order(alloc, arg_list.as_slice())
        }
        Err(error) if error.kind() == ErrorKind::OutOfMemory => Err(LineFault::Memory),
        Err(_) => Err(not_utf8_fault(alloc)),
    }
}
