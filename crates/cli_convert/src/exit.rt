//! How the order ends.
ghost use Rattle.std.specs.Prelude.{◌≡◌, ◌⊎◌, ◌&&◌, MatchResult};
ghost use Rattle.cli_convert.specs.Endings.{status_of};

use base_types::{NoMemory, Text};
use card_conversion::{ConversionFault, Summary};
use contact_columns::{suggested_columns, unknown_columns};
use std::alloc::Global;
use std::io::Write;

/// Why the order stopped.
#[derive(Drop)]
pub(crate) enum ConvertStop {
    /// An allocation failed.
    Memory,
    /// A file or a device can't be used, in words.
    Device(Text),
    /// Standard error can't be written.
    Report,
}

impl From<std::alloc::AllocError> for ConvertStop {
    fn from(_error: std::alloc::AllocError) -> ConvertStop {
        ConvertStop::Memory
    }
}

impl From<NoMemory> for ConvertStop {
    fn from(_error: NoMemory) -> ConvertStop {
        ConvertStop::Memory
    }
}

/// The stop for a fault of a conversion.
pub(crate) fn stop_of(alloc: Global, fault: ConversionFault, file: &str) -> ConvertStop {
    match fault {
        ConversionFault::Memory => ConvertStop::Memory,
        ConversionFault::Input => unreadable(alloc, file),
        ConversionFault::Output(words) => ConvertStop::Device(words),
        ConversionFault::Report => ConvertStop::Report,
    }
}

/// The stop for a file that can't be read.
pub(crate) fn unreadable(alloc: Global, file: &str) -> ConvertStop {
    match format!(in alloc; "{file} can't be read") {
        Ok(words) => ConvertStop::Device(Text::new(words)),
        Err(_) => ConvertStop::Memory,
    }
}

/// The stop for a file that can't be opened. `-` is no name of standard input here.
pub(crate) fn unopened(alloc: Global, file: &str) -> ConvertStop {
    if file != "-" {
        return unreadable(alloc, file);
    }
    match format!(in alloc; "- can't be read; standard input is /dev/stdin") {
        Ok(words) => ConvertStop::Device(Text::new(words)),
        Err(_) => ConvertStop::Memory,
    }
}

/// The words for a file of rows whose header isn't known.
fn header_words(alloc: Global, file: &str, head: &[u8]) -> Result<String, NoMemory> {
    let names = unknown_columns(alloc, head)?;
    let names = names.as_str();
    if names.is_empty() {
        return Ok(format!(in alloc; "{file} has no header of contacts that is known")?);
    }
    Ok(format!(in alloc; "{file} has a header whose columns aren't known: {names}")?)
}

/// The words for a file of rows whose header isn't known, and then the value of `--columns` to
/// begin with, if one can be made of the header.
fn header_help(alloc: Global, file: &str, head: &[u8]) -> Result<String, NoMemory> {
    let mut words = header_words(alloc, file, head)?;
    let columns = suggested_columns(alloc, head)?;
    let columns = columns.as_str();
    if !columns.is_empty() {
        let help = format!(in alloc;
            "; say what its columns are, beginning with --columns '{columns}'"
        )?;
        words.push_str(help.as_str())?;
    }
    Ok(words)
}

/// The stop for a file of rows whose header isn't known. `head` is the beginning of the file.
pub(crate) fn unknown_header(alloc: Global, file: &str, head: &[u8]) -> ConvertStop {
    match header_help(alloc, file, head) {
        Ok(words) => ConvertStop::Device(Text::new(words)),
        Err(_) => ConvertStop::Memory,
    }
}

/// The stop for a file in a format that isn't converted, with words on the format.
pub(crate) fn foreign_file(alloc: Global, file: &str, words: &str) -> ConvertStop {
    match format!(in alloc; "{file} is {words}") {
        Ok(words) => ConvertStop::Device(Text::new(words)),
        Err(_) => ConvertStop::Memory,
    }
}

/// The stop for a file that should be new, and is there.
pub(crate) fn existing_file(alloc: Global, path: &str) -> ConvertStop {
    match format!(in alloc; "{path} exists") {
        Ok(words) => ConvertStop::Device(Text::new(words)),
        Err(_) => ConvertStop::Memory,
    }
}

/// The stop for a file after the first one that isn't a file, as a pipe.
pub(crate) fn no_second_reading(alloc: Global, file: &str) -> ConvertStop {
    match format!(in alloc; "{file} can't be read twice; convert it alone, or first") {
        Ok(words) => ConvertStop::Device(Text::new(words)),
        Err(_) => ConvertStop::Memory,
    }
}

/// The stop for a file with dates that may be two.
pub(crate) fn open_dates(alloc: Global, file: &str) -> ConvertStop {
    match format!(in alloc;
        "{file} has dates that may be two, as 05/04/1980; say which number is the day, by \
         --day-first or --month-first"
    ) {
        Ok(words) => ConvertStop::Device(Text::new(words)),
        Err(_) => ConvertStop::Memory,
    }
}

/// The stop for a character set that isn't known.
pub(crate) fn unknown_charset(alloc: Global, file: &str, name: &str) -> ConvertStop {
    match format!(in alloc;
        "{name} is no character set that is known here; make UTF-8 of {file}, as by iconv -f {name}"
    ) {
        Ok(words) => ConvertStop::Device(Text::new(words)),
        Err(_) => ConvertStop::Memory,
    }
}

/// The stop for columns that the file doesn't have, or that can't be read, with words on them.
pub(crate) fn wrong_columns(alloc: Global, file: &str, words: &str) -> ConvertStop {
    match format!(in alloc; "{file}, --columns: {words}") {
        Ok(words) => ConvertStop::Device(Text::new(words)),
        Err(_) => ConvertStop::Memory,
    }
}

/// The line that reports a stop.
fn stop_line(alloc: Global, stop: &ConvertStop) -> Result<Text, NoMemory> {
    match stop {
        ConvertStop::Device(words) => {
            let words = words.as_str();
            Ok(Text::new(format!(in alloc; "fault device 1: {words}\n")?))
        }
        ConvertStop::Memory | ConvertStop::Report => Err(NoMemory),
    }
}

/// Writes the line of a stop. Without memory for the line it writes that of the stop for memory.
fn report_stop<E: Write>(alloc: Global, stop: &ConvertStop, errors: &mut E) {
    // The status says that it stopped, also where the line can't be written.
    let _written = match stop_line(alloc, stop) {
        Ok(line) => errors.write_all(line.as_str().as_bytes()),
        Err(NoMemory) => errors.write_all(b"fault no-memory 20\n"),
    };
}

/// Reports a stop, and returns the exit status: 0 if all was carried, 1 if something wasn't, or if
/// there was nothing, and 3 for a stop. `photos` says that photos are to be written beside their
/// cards, and `lost` that one of them wasn't.
pub(crate) fn end<E: Write>(
    alloc: Global,
    done: Result<Summary, ConvertStop>,
    photos: bool,
    lost: bool,
    errors: &mut E,
) -> u8
    ensures status { (result ≡ 0) ⊎ ((result ≡ 1) ⊎ (result ≡ 3)) }
    ensures ended { MatchResult done
        (λ summary. result ≡ status_of (photos && lost) summary) (λ _. result ≡ 3) }
{
    match done {
        Ok(summary) if summary.refused == 0 && summary.written > 0 && !(photos && lost) => 0,
        Ok(_) => 1,
        Err(stop) => {
            report_stop(alloc, &stop, errors);
            3
        }
    }
}
