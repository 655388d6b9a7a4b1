//! All cases.

use crate::memory::migration::run_migrate_connection;
use crate::memory::opening::run_opening;
use crate::memory::tables::OverTables;
use crate::tables::NewTables;
use test_connections::{run_feed, run_first_path, run_read_order};
use test_support::oom::{
    Harness, InMemory, Stores, run_cards, run_commands, run_device, run_drive, run_mirror,
    run_texts,
};

/// Runs the selected cases over stores of the kind.
fn run_over_stores<K: Stores>(harness: &mut Harness, kind: &K) {
    run_commands(harness, kind);
    run_drive(harness, kind);
    run_mirror(harness, kind);
    run_feed(harness, kind);
}

/// Runs the selected cases, with new tables of the kind.
pub(crate) fn run_cases<N: NewTables>(harness: &mut Harness, tables: &N) {
    run_cards(harness);
    run_first_path(harness);
    run_texts(harness);
    run_read_order(harness);
    run_device(harness);
    run_over_stores(harness, &InMemory);
    run_over_stores(harness, &OverTables { tables });
    run_opening(harness, tables);
    run_migrate_connection(harness, tables);
}
