//! Builders of the arguments and options of an order, with their help.
ghost use Rattle.cli_args.specs.Subcommands as lines;
ghost use Rattle.cli_args.specs.Subcommands.{IsArgument};

use clap::builder::ValueParser;
use clap::{Arg, ArgAction};
use std::alloc::Global;

/// A required argument.
pub(crate) fn argument<'a>(alloc: Global, id: &'a str, help: &'a str) -> Arg<'a>
    ensures { IsArgument (lines.argument id.entry.now) result }
{
    Arg::new(alloc, id).help(help).required(true)
}

/// An argument that is given once or more often.
pub(crate) fn repeated_argument<'a>(alloc: Global, id: &'a str, help: &'a str) -> Arg<'a>
    ensures { IsArgument (lines.repeated_argument id.entry.now) result }
{
    argument(alloc, id, help).action(ArgAction::Append)
}

/// A required number.
pub(crate) fn number_arg<'a>(
    alloc: Global,
    id: &'a str,
    least: u64,
    most: u64,
    help: &'a str,
) -> Arg<'a>
    ensures { IsArgument (lines.number_arg id.entry.now least most) result }
{
    argument(alloc, id, help).value_parser(ValueParser::Unsigned(least, most))
}

/// An option with one value.
pub(crate) fn option_arg<'a>(
    alloc: Global,
    id: &'a str,
    name: &'a str,
    default: &'a str,
    help: &'a str,
) -> Arg<'a>
    ensures { IsArgument (lines.option_arg id.entry.now name.entry.now default.entry.now) result }
{
    Arg::new(alloc, id)
        .long(name)
        .default_value(default)
        .help(help)
}

/// An option whose value is a number from `least` to `most`.
pub(crate) fn number_option<'a>(
    alloc: Global,
    id: &'a str,
    name: &'a str,
    least: u64,
    most: u64,
    default: &'a str,
    help: &'a str,
) -> Arg<'a>
    ensures { IsArgument
        (lines.number_option id.entry.now name.entry.now least most default.entry.now) result }
{
    option_arg(alloc, id, name, default, help).value_parser(ValueParser::Unsigned(least, most))
}

/// An option with one value and no default.
pub(crate) fn free_option<'a>(alloc: Global, id: &'a str, name: &'a str, help: &'a str) -> Arg<'a>
    ensures { IsArgument (lines.free_option id.entry.now name.entry.now) result }
{
    Arg::new(alloc, id).long(name).help(help)
}

/// An option with one value, which may be given more than once.
pub(crate) fn repeated_option<'a>(
    alloc: Global,
    id: &'a str,
    name: &'a str,
    help: &'a str,
) -> Arg<'a>
    ensures { IsArgument (lines.repeated_option id.entry.now name.entry.now) result }
{
    free_option(alloc, id, name, help).action(ArgAction::Append)
}

/// An option without a default, whose value is a number from `least` to `most`.
pub(crate) fn free_number_option<'a>(
    alloc: Global,
    id: &'a str,
    name: &'a str,
    least: u64,
    most: u64,
    help: &'a str,
) -> Arg<'a>
    ensures { IsArgument
        (lines.free_number_option id.entry.now name.entry.now least most) result }
{
    free_option(alloc, id, name, help).value_parser(ValueParser::Unsigned(least, most))
}

/// An option without a value, also with a name of one letter.
pub(crate) fn flag<'a>(
    alloc: Global,
    id: &'a str,
    name: &'a str,
    letter: char,
    help: &'a str,
) -> Arg<'a>
    ensures { IsArgument (lines.flag id.entry.now name.entry.now letter) result }
{
    Arg::new(alloc, id)
        .short(letter)
        .long(name)
        .action(ArgAction::SetTrue)
        .help(help)
}

/// An option without a value, which has no letter.
pub(crate) fn switch<'a>(alloc: Global, id: &'a str, name: &'a str, help: &'a str) -> Arg<'a>
    ensures { IsArgument (lines.switch id.entry.now name.entry.now) result }
{
    Arg::new(alloc, id)
        .long(name)
        .action(ArgAction::SetTrue)
        .help(help)
}

pub(crate) fn file_arg<'a>(alloc: Global) -> Arg<'a>
    ensures { IsArgument lines.file_arg result }
{
    argument(alloc, "FILE", "Path of the store file")
}

pub(crate) fn book_arg<'a>(alloc: Global) -> Arg<'a>
    ensures { IsArgument lines.book_arg result }
{
    argument(
        alloc,
        "BOOK",
        "Name of the book, 1 to 40 characters of a-z, 0-9 and -",
    )
}

pub(crate) fn site_option<'a>(alloc: Global) -> Arg<'a>
    ensures { IsArgument lines.site_option result }
{
    free_option(
        alloc,
        "DIR",
        "site",
        "A folder whose files are served at / and below, beside the books at /books, as \
         clients/desk/site; they are read once, at the start, and may have up to 16 MiB together",
    )
}
