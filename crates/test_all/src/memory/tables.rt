//! Stores over tables of a kind.

use crate::tables::NewTables;
use base_types::NoMemory;
use book_store::SqlStore;
use std::alloc::Global;
use sync_core::Limits;
use test_support::oom::Stores;

/// Stores over tables of the kind.
#[derive(Drop)]
pub(crate) struct OverTables<'a, N> {
    pub(crate) tables: &'a N,
}

impl<N: NewTables> Stores for OverTables<'_, N> {
    type Store = SqlStore<N::Pages>;

    fn over(&self) -> &'static str {
        ", over tables"
    }

    fn new_store(&self, alloc: Global, limits: Limits) -> Result<SqlStore<N::Pages>, NoMemory> {
        self.tables.new_store(alloc, limits).or(Err(NoMemory))
    }
}
