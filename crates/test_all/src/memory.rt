//! Calls over stores of two kinds, each in a window in which allocations may be refused. Runs them
//! and those of `test_support` and `test_connections`, with all memory and with little.

mod cases;
mod low_memory;
mod migration;
mod opening;
mod tables;

use crate::memory::cases::run_cases;
use crate::memory::low_memory::run_low_memory;
use crate::tables::NewTables;
use base_types::NoMemory;
use test_support::oom::Harness;

/// Runs the case of the name, or `all` of them. Allocations may be refused from outside. An error
/// if a case couldn't be prepared or checked, or an output failed.
pub(crate) fn run_chosen<N: NewTables>(
    rt: &HostRuntime,
    tables: &N,
    chosen: &str,
) -> Result<(), NoMemory> {
    let mut harness = Harness::new(rt);
    harness.select(chosen);
    run_cases(&mut harness, tables);
    harness.result()
}

/// Runs all cases, and each again with little memory. For this it allocates all memory that the
/// process can have, and frees it at the end.
pub(crate) fn run_all_cases<N: NewTables>(rt: &HostRuntime, tables: &N) -> Result<(), NoMemory> {
    let mut harness = Harness::new(rt);
    run_low_memory(&mut harness, tables);
    harness.result()
}
