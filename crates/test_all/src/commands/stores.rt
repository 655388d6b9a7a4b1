//! Runs a section's lines over a new store of each kind.

use crate::tables::NewTables;
use book_store::{OpenFault, SqlStore};
use sqlite::Alter;
use std::alloc::Global;
use sync_core::{BookStore, Device, Limits, PlainStore};
use test_support::Printout;
use test_support::scripts::run_store_line;

/// Separates two parts of a section, between which the stores over tables are opened again.
const AGAIN: &str = "\nagain\n";

/// Devices of a store's books, and the results of the lines that were run over it so far, one a
/// line.
#[derive(Drop)]
pub(crate) struct StoreRun {
    devices: Vec<Device>,
    pub(crate) output: Printout,
}

impl StoreRun {
    /// A run without devices and without results.
    pub(crate) fn new(alloc: Global) -> StoreRun {
        StoreRun {
            devices: Vec::new(alloc),
            output: Printout::new(alloc),
        }
    }
}

/// Whether the line is run over a store, and is neither limits nor `again`.
pub(crate) fn is_store_line(line: &str) -> bool {
    line != "again" && !line.starts_with("limits ")
}

/// Runs the lines over the store.
fn do_lines<B: BookStore>(store: &mut B, lines: &str, store_run: &mut StoreRun) {
    for line in lines.lines() {
        if is_store_line(line) {
            run_store_line(store, &mut store_run.devices, line, &mut store_run.output);
            store_run.output.add("\n");
        }
    }
}

/// Runs the lines over a store in memory.
pub(crate) fn do_in_memory(limits: Limits, lines: &str, store_run: &mut StoreRun) {
    let mut store = PlainStore::new(store_run.output.alloc(), limits);
    do_lines(&mut store, lines, store_run);
}

/// Runs the part over the store. Its connection is then adopted again.
fn do_part_over<S: Alter + Drop>(
    limits: Limits,
    store: SqlStore<S>,
    part: &str,
    store_run: &mut StoreRun,
) -> Result<SqlStore<S>, OpenFault> {
    let mut store = store;
    do_lines(&mut store, part, store_run);
    let tables = store.into_connection();
    if !tables.is_autocommit() {
        return Err(OpenFault::NotOurs);
    }
    SqlStore::adopt(store_run.output.alloc(), tables, limits)
}

/// Runs the lines over the store. Between two parts its connection is adopted again.
fn do_parts_over<S: Alter + Drop>(
    limits: Limits,
    store: SqlStore<S>,
    lines: &str,
    store_run: &mut StoreRun,
) -> Result<(), OpenFault> {
    let mut store = store;
    for part in lines.split(AGAIN) {
        store = do_part_over(limits, store, part, store_run)?;
    }
    Ok(())
}

/// Runs the lines over a store with new tables of the kind.
pub(crate) fn do_over_tables<N: NewTables>(
    tables: &N,
    limits: Limits,
    lines: &str,
    store_run: &mut StoreRun,
) -> Result<(), OpenFault> {
    let store = tables.new_store(store_run.output.alloc(), limits)?;
    do_parts_over(limits, store, lines, store_run)
}

/// Runs a part over the store in the file at the path, and closes it. (A store in a file has a type
/// that is expensive in proofs: only this function names it.)
fn do_part_in_file(
    rt: &HostRuntime,
    path: &str,
    limits: Limits,
    is_new: bool,
    part: &str,
    store_run: &mut StoreRun,
) -> Result<(), OpenFault> {
    let opened = if is_new {
        SqlStore::create(rt, path, limits)
    } else {
        SqlStore::open(rt, path, limits)
    };
    let mut store = opened?;
    do_lines(&mut store, part, store_run);
    Ok(())
}

/// Runs the lines over a store in a new file at the path. Between two parts the file is closed and
/// opened again.
pub(crate) fn do_in_file(
    rt: &HostRuntime,
    path: &str,
    limits: Limits,
    lines: &str,
    store_run: &mut StoreRun,
) -> Result<(), OpenFault> {
    let mut is_new = true;
    for part in lines.split(AGAIN) {
        do_part_in_file(rt, path, limits, is_new, part, store_run)?;
        is_new = false;
    }
    Ok(())
}
