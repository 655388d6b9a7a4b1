//! Files that hold stores of books, as a restore uses them. Its steps are written over any store:
//! so the proof of each needs none of the clauses of the store over files.

use book_store::{FileBooks, SqlStore};
use cli_orders::Stop;
use sqlite::Files;
use sqlite_std_file::{FileFrom, Unknown};
use std::rt::HostRuntime;
use store_schema::OpenFault;
use sync_core::Limits;

/// A file and its log that nobody else can open.
pub(crate) type HeldFiles = Files<FileFrom<Unknown>>;

/// Files that hold stores `S` of books.
pub(crate) trait StoreFiles<S> {
    /// Opens the store in the file, within the standard limits.
    fn open_store(&self, rt: &HostRuntime, file: &str) -> Result<S, OpenFault>;

    /// Copies the store in the file into a new file, which needs no log, and returns its number of
    /// books.
    fn copy_store(&self, rt: &HostRuntime, file: &str, target: &str) -> Result<u64, OpenFault>;

    /// Closes the store, whose file then needs no log.
    fn close_store(&self, store: S) -> Result<HeldFiles, Stop>;
}

/// Files with the stores that the program keeps.
pub(crate) struct BookFiles;

impl StoreFiles<FileBooks> for BookFiles {
    fn open_store(&self, rt: &HostRuntime, file: &str) -> Result<FileBooks, OpenFault> {
        SqlStore::open(rt, file, Limits::standard())
    }

    fn copy_store(&self, rt: &HostRuntime, file: &str, target: &str) -> Result<u64, OpenFault> {
        SqlStore::copy_file(rt, file, target)
    }

    fn close_store(&self, store: FileBooks) -> Result<HeldFiles, Stop> {
        Ok(store.close()?)
    }
}
