//! The values of matched arguments and options.
ghost use Rattle.std.specs.Prelude.{◌≡◌, [], IfOk, None, Some, bytes_eq, drop, map};
ghost use Rattle.clap.specs.Words.{found_of, rows_of};
ghost use Rattle.cli_args.specs.ParsedOrders as parsed;
ghost use Rattle.cli_args.specs.ParsedOrders.{ParsesTo};

use crate::fault::LineFault;
use base_types::{Items, NoMemory, Text};
use clap::ArgMatches;
use clap::parser::ValueSource;
use csv_cards::Form;
use std::alloc::{AllocError, Global};

/// The message for an invalid value, in the form of `clap`'s own messages.
fn value_text(alloc: Global, wanted: &str, value: &str) -> Result<Text, AllocError> {
    Ok(Text::new(format!(in alloc;
        "error: invalid value '{value}' for {wanted}\n\nFor more information, try '--help'.\n"
    )?))
}

/// The fault for a value that `clap` accepts but that is invalid.
pub(crate) fn refuse<T>(alloc: Global, wanted: &str, value: &str) -> Result<T, LineFault>
    ensures { ParsesTo None result }
{
    let text = value_text(alloc, wanted, value)?;
    Err(LineFault::Bad { text })
}

/// The message for two options of `run` that exclude each other, in the form of `clap`'s own
/// messages.
const SOCKET_AND_PORT: &str = "error: the argument '--socket <PATH>' cannot be used with '--port \
     <P>'\n\nUsage: contacts run [OPTIONS] <FILE>\n\nFor more information, try '--help'.\n";

/// The fault for a socket and a port.
pub(crate) fn refuse_socket_and_port<T>(alloc: Global) -> Result<T, LineFault>
    ensures { ParsesTo None result }
{
    let text = Text::copy_of(alloc, SOCKET_AND_PORT)?;
    Err(LineFault::Bad { text })
}

/// The message for two options of `convert` that exclude each other, in the form of `clap`'s own
/// messages.
const BOTH_ORDERS: &str = "error: the argument '--day-first' cannot be used with \
     '--month-first'\n\nUsage: contacts convert [OPTIONS] <FILE>...\n\nFor more information, try \
     '--help'.\n";

/// The fault for both orders of dates.
pub(crate) fn refuse_both_orders<T>(alloc: Global) -> Result<T, LineFault>
    ensures { ParsesTo None result }
{
    let text = Text::copy_of(alloc, BOTH_ORDERS)?;
    Err(LineFault::Bad { text })
}

/// The text of an argument.
pub(crate) fn text_arg(alloc: Global, matches: &ArgMatches<'_>, id: &str) -> Result<Text, LineFault>
    ensures { ParsesTo (parsed.text_arg id.now (rows_of (found_of matches.now))) result }
{
    match matches.get_str(id) {
        Some(text) => Ok(Text::copy_of(alloc, text)?),
        None => refuse(alloc, id, ""),
    }
}

/// Whether the text is empty.
fn is_empty(text: &str) -> bool
    ensures { result ≡ bytes_eq text.now [] }
{
    text == ""
}

/// Whether the option was given with an empty text.
pub(crate) fn is_given_empty(matches: &ArgMatches<'_>, id: &str) -> bool
    ensures { result ≡ parsed.is_given_empty id.now (rows_of (found_of matches.now)) }
{
    match matches.get_str(id) {
        Some(text) => is_empty(text),
        None => false,
    }
}

/// The number of an argument or option.
pub(crate) fn u64_arg(alloc: Global, matches: &ArgMatches<'_>, id: &str) -> Result<u64, LineFault>
    ensures { ParsesTo (parsed.u64_arg id.now (rows_of (found_of matches.now))) result }
{
    match matches.get_one::<u64>(id) {
        Some(number) => Ok(number),
        None => refuse(alloc, id, ""),
    }
}

/// The text of an option, if it was given.
pub(crate) fn given_text(
    alloc: Global,
    matches: &ArgMatches<'_>,
    id: &str,
) -> Result<Option<Text>, LineFault>
    ensures { ParsesTo (Some (parsed.text_arg id.now (rows_of (found_of matches.now)))) result }
{
    match matches.get_str(id) {
        Some(text) => Ok(Some(Text::copy_of(alloc, text)?)),
        None => Ok(None),
    }
}

/// Copies of these texts.
fn copies_of(alloc: Global, texts: &[&str]) -> Result<Items<Text>, NoMemory>
    ensures { IfOk result (λ copies. copies ≡ map (λ text. text.now) texts.now) }
{
    let mut copies = Vec::new(alloc);
    for text in texts {
        copies.push(Text::copy_of(alloc, text)?)?;
    }
    Ok(Items::from_vec(copies))
}

/// The texts of an option that may be given more than once.
pub(crate) fn given_texts(
    alloc: Global,
    matches: &ArgMatches<'_>,
    id: &str,
) -> Result<Items<Text>, LineFault>
    ensures { ParsesTo (Some (parsed.texts_arg id.now (rows_of (found_of matches.now)))) result }
{
    match matches.get_strs(id) {
        Some(texts) => Ok(copies_of(alloc, texts)?),
        None => Ok(Items::new(alloc)),
    }
}

/// Copies of these texts after the first one.
fn later_copies(alloc: Global, texts: &[&str]) -> Result<Items<Text>, NoMemory>
    ensures { IfOk result (λ copies. copies ≡ drop 1 (map (λ text. text.now) texts.now)) }
{
    match texts.split_first() {
        Some((_, later)) => copies_of(alloc, later),
        None => Ok(Items::new(alloc)),
    }
}

/// The texts of an argument after the first one.
pub(crate) fn later_texts(
    alloc: Global,
    matches: &ArgMatches<'_>,
    id: &str,
) -> Result<Items<Text>, LineFault>
    ensures { ParsesTo (Some (parsed.later_texts id.now (rows_of (found_of matches.now)))) result }
{
    match matches.get_strs(id) {
        Some(texts) => Ok(later_copies(alloc, texts)?),
        None => Ok(Items::new(alloc)),
    }
}

/// The number of an option, if it was given.
pub(crate) fn given_u64(matches: &ArgMatches<'_>, id: &str) -> Option<u64>
    ensures { result ≡ parsed.u64_arg id.now (rows_of (found_of matches.now)) }
{
    matches.get_one::<u64>(id)
}

/// Where the value of an argument or option came from.
fn source_of(matches: &ArgMatches<'_>, id: &str) -> Option<ValueSource>
    ensures { result ≡ parsed.source_of id.now (rows_of (found_of matches.now)) }
{
    matches.value_source(id)
}

/// Whether the option was given on the command line. Its default doesn't count.
pub(crate) fn is_given(matches: &ArgMatches<'_>, id: &str) -> bool
    ensures { result ≡ parsed.is_given id.now (rows_of (found_of matches.now)) }
{
    match source_of(matches, id) {
        Some(ValueSource::CommandLine) => true,
        Some(ValueSource::DefaultValue) | None => false,
    }
}

/// The port to listen on.
pub(crate) fn port_arg(alloc: Global, matches: &ArgMatches<'_>) -> Result<u16, LineFault>
    ensures { ParsesTo (parsed.port_arg (rows_of (found_of matches.now))) result }
{
    match matches.get_one::<u16>("P") {
        Some(port) => Ok(port),
        None => refuse(alloc, "P", ""),
    }
}

/// The name and the possible values of `--form`, for messages.
const FORMS: &str = "'--form <F>'\n  [possible values: cards, columns]";

/// The CSV form with this name.
fn form_of(text: &str) -> Option<Form>
    ensures { result ≡ parsed.form_of text.now }
{
    if text == "cards" {
        Some(Form::Cards)
    } else if text == "columns" {
        Some(Form::Columns)
    } else {
        None
    }
}

/// The CSV form to export.
pub(crate) fn form_arg(alloc: Global, matches: &ArgMatches<'_>) -> Result<Form, LineFault>
    ensures { ParsesTo (parsed.form_arg (rows_of (found_of matches.now))) result }
{
    let Some(text) = matches.get_str("F") else {
        return refuse(alloc, FORMS, "");
    };
    match form_of(text) {
        Some(form) => Ok(form),
        None => refuse(alloc, FORMS, text),
    }
}
