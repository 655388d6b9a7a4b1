//! The tests by rows that the gate runs. Each part is a library. Its rows are in a file of the
//! program's working directory, and their results are printed below the part's name. Standard input
//! may choose one part, as `part cards`, or one case of the part `memory`, to be run alone.
#![tactic(auto)]

mod commands;
mod damage;
mod first_schema;
mod lives;
mod memory;
mod stops;
mod tables;

use crate::commands::run_sections;
use crate::damage::run_lines;
use crate::memory::{run_all_cases, run_chosen};
use crate::stops::run_sweeps;
use crate::tables::{NewTables, TablesInMemory};
use std::fs;
use std::io::{Read, Write};
use std::process::ExitCode;
use test_connections::{run_calls, run_connection_rows};
use test_support::{Printout, check_rows};

/// A part.
#[derive(Clone, Copy)]
enum Part {
    /// Calls with little free memory. This part is run first, since it allocates all memory that
    /// the process can have. It has no rows.
    Memory,
    /// Reading and writing of cards, and the formats of the service.
    Rows,
    /// Lists of commands, over three kinds of stores.
    Commands,
    /// Connections over a store, a reader or a writer that fails.
    Connections,
    /// Calls of an endpoint and of the service. They have no rows.
    Calls,
    /// Damaged tables.
    Damage,
    /// Disks that fail.
    Stops,
}

/// The parts, in the order in which they are run.
const PARTS: [(&str, Part); 8] = [
    ("memory", Part::Memory),
    ("cards", Part::Rows),
    ("formats", Part::Rows),
    ("commands", Part::Commands),
    ("connections", Part::Connections),
    ("endpoints", Part::Calls),
    ("damage", Part::Damage),
    ("stops", Part::Stops),
];

fn print(rt: &HostRuntime, octets: &[u8]) -> bool {
    rt.stdout().write_all(octets).is_ok()
}

/// The output for the rows, of a part that has rows.
fn output_of<N: NewTables>(rt: &HostRuntime, tables: &N, part: Part, rows: &[u8]) -> Printout {
    let text = str::from_utf8(rows).unwrap_or("** not UTF-8 **");
    match part {
        Part::Memory => Printout::new(rt.alloc()),
        Part::Rows => check_rows(rt.alloc(), text),
        Part::Commands => run_sections(rt, tables, text),
        Part::Connections => run_connection_rows(rt.alloc(), rows),
        Part::Calls => run_calls(rt),
        Part::Damage => run_lines(rt.alloc(), tables, text),
        Part::Stops => run_sweeps(rt.alloc(), text),
    }
}

/// Prints the output of the part for the rows. Returns whether that succeeded, and all was run.
fn print_output<N: NewTables>(rt: &HostRuntime, tables: &N, part: Part, rows: &[u8]) -> bool {
    let output = output_of(rt, tables, part, rows);
    print(rt, output.as_slice()) && output.result().is_ok()
}

/// Runs a part whose rows are in the file of its name.
fn run_with_rows<N: NewTables>(rt: &HostRuntime, tables: &N, name: &str, part: Part) -> bool {
    match fs::read(rt, name) {
        Ok(rows) => print_output(rt, tables, part, rows.as_slice()),
        Err(_) => false,
    }
}

/// Runs a part, and prints its output below its name. Returns whether that succeeded, and all was
/// run.
fn run_part<N: NewTables>(rt: &HostRuntime, tables: &N, name: &str, part: Part) -> bool {
    let titled = print(rt, b"######## ") && print(rt, name.as_bytes()) && print(rt, b"\n");
    let ran = match part {
        Part::Memory => run_all_cases(rt, tables).is_ok(),
        Part::Calls => print_output(rt, tables, part, b""),
        _ => run_with_rows(rt, tables, name, part),
    };
    titled && ran && print(rt, b"\n")
}

/// Runs the part of that name, or all parts if it is empty.
fn run_parts<N: NewTables>(rt: &HostRuntime, tables: &N, chosen: &str) -> bool {
    let mut found = false;
    for (name, part) in PARTS {
        if chosen.is_empty() || chosen == name {
            if !run_part(rt, tables, name, part) {
                return false;
            }
            found = true;
        }
    }
    found
}

/// Runs what standard input chooses: one part, one case of the part `memory`, or else all parts.
fn run_input<N: NewTables>(rt: &HostRuntime, tables: &N, input: &str) -> bool {
    if input.is_empty() {
        return run_parts(rt, tables, "");
    }
    match input.strip_prefix("part ") {
        Some(part) => run_parts(rt, tables, part),
        None => run_chosen(rt, tables, input).is_ok(),
    }
}

fn main(rt: HostRuntime) -> ExitCode {
    let mut input = Vec::new(rt.alloc());
    if rt.stdin().read_to_end(&mut input).is_err() {
        return ExitCode::FAILURE;
    }
    let Ok(chosen) = str::from_utf8(input.as_slice()) else {
        return ExitCode::FAILURE;
    };
    if run_input(&rt, &TablesInMemory, chosen.trim()) {
        ExitCode::SUCCESS
    } else {
        ExitCode::FAILURE
    }
}
