//! New tables, of a kind.
//!
//! The type of a store over tables in memory is expensive in proofs. So all that works over such a
//! store is generic over the kind of its tables, and only this module and `main` name it.

use book_store::{OpenFault, SqlStore};
use sqlite::{Alter, Connection, MemStore};
use std::alloc::{AllocError, Global};
use sync_core::Limits;

/// A kind of new tables.
pub(crate) trait NewTables {
    /// What stores their pages.
    type Pages: Alter + Drop;

    /// A connection without tables.
    fn connect(&self, alloc: Global) -> Result<Connection<Self::Pages>, AllocError>;

    /// A new store with these limits, or why there is none.
    fn new_store(&self, alloc: Global, limits: Limits) -> Result<SqlStore<Self::Pages>, OpenFault>;
}

/// Tables in memory.
pub(crate) struct TablesInMemory;

impl NewTables for TablesInMemory {
    type Pages = MemStore;

    fn connect(&self, alloc: Global) -> Result<Connection<MemStore>, AllocError> {
        Connection::open_in_memory(alloc)
    }

    fn new_store(&self, alloc: Global, limits: Limits) -> Result<SqlStore<MemStore>, OpenFault> {
        SqlStore::open_in_memory(alloc, limits)
    }
}
