//! Creates and opens stores in files.
ghost use Rattle.book_store.specs.FileRefusals.{
  ForgetsNoFault,
  IsCreationFaultAfter,
  IsCreationFaultOfLeftover,
  IsCreationRefusalAfter,
  IsOpenFaultAfter,
  IsOpenRefusalAfter,
  IsUnlessNoDatabase,
};
ghost use Rattle.named_files.specs.FileCalls.{unless_left};
ghost use Rattle.named_files.specs.FileOpenings.{IsRefusalOf};
ghost use Rattle.store_check.specs.OpenResults.{max_limits};
ghost use Rattle.store_rows.specs.SoundTables.{HoldsWellFormed};
ghost use Rattle.store_lookups.specs.StoredBooks.{IsOpenOnHonestDisk, stored_books};
ghost use Rattle.store_schema.specs.OpenFaults.{IsCreationFault, open_fault_of_error};
ghost use Rattle.sqlite.specs.Files.{IsCleanLeft, file_state};
ghost use Rattle.std.specs.FinMap as finite;
ghost use Rattle.std.specs.Prelude.{◌≡◌, IfErr, IfOk};

use crate::schema_creation::is_schema_empty;
use crate::sql_store::SqlStore;
use book_model::Limits;
use named_files::SystemFiles;
use sqlite::{Error, ErrorCode, FileStore, Leftover};
use sqlite_std_file::{FileFrom, Start, Unknown};
use std::alloc::Global;
use store_schema::{FileRefusal, OpenFault, fault_of_leftover, load_schema, open_fault_of};

/// A store of books in a file, with a log beside it that has the file's name and `-wal`. `S`
/// represents the octets that the two held when they were opened; no code can read it.
pub type FileBooksFrom<S> = SqlStore<FileStore<FileFrom<S>>>;

/// A store of books in a file, as programs use it.
pub type FileBooks = FileBooksFrom<Unknown>;

/// Returns why no store is created in files over which no connection opens, since they hold no
/// database: `NotEmpty` if they hold tables, otherwise `NotOurs`. `left` is what is left of them: a
/// store in it is rolled back and read. It may instead return `Memory` when out of memory, or
/// `Store` on another error of the database.
fn creation_fault<S: Start>(alloc: Global, left: &mut Leftover<FileFrom<S>>) -> OpenFault
    ensures kind { IsCreationFault result }
    ensures fault { IsCreationFaultOfLeftover left.old left.new result }
{
    match left {
        Leftover::Files(_) | Leftover::Unopened(_) => OpenFault::NotOurs,
        Leftover::Store(store) => match load_schema(alloc, store) {
            Ok(schema) => if is_schema_empty(&schema) {
                OpenFault::NotOurs
            } else {
                OpenFault::NotEmpty
            },
            Err(fault) => fault,
        },
    }
}

/// Returns why no store is created in files over which opening a connection failed with the error.
/// `left` is what is left of them.
fn creation_fault_after<S: Start>(
    alloc: Global,
    error: Error,
    left: &mut Leftover<FileFrom<S>>,
) -> OpenFault
    ensures kind { IsCreationFault result }
    ensures fault { IsCreationFaultAfter error left.old left.new result }
{
    match error {
        Error::SqliteFailure(ErrorCode::NotADatabase) => creation_fault(alloc, left),
        error => open_fault_of(error),
    }
}

/// Returns why no store is opened in files over which opening a connection failed with the error.
/// Nothing is done to what is left of them, unless they hold no database.
fn open_fault_after<S: Start>(
    alloc: Global,
    error: Error,
    left: &mut Leftover<FileFrom<S>>,
) -> OpenFault
    ensures right { IsOpenFaultAfter error left.old left.new result }
    ensures clean { IsCleanLeft left.new → IsCleanLeft left.old }
    ensures other { IsUnlessNoDatabase error
        ((result ≡ open_fault_of_error error) × (left.new ≡ left.old)) }
{
    match error {
        Error::SqliteFailure(ErrorCode::NotADatabase) => fault_of_leftover(alloc, left),
        error => open_fault_of(error),
    }
}

/// Returns why no store is created in files if opening a connection failed with the error, and what
/// is left of the files.
pub(crate) fn creation_refusal<S: Start>(
    alloc: Global,
    error: Error,
    left: Option<Leftover<FileFrom<S>>>,
) -> FileRefusal<S>
    ensures kind { IsCreationFault result.0 }
    ensures refused { IsCreationRefusalAfter error left result.0 result.1 }
    ensures files { IsRefusalOf (unless_left error left) result }
{
    match left {
        Some(left) => {
            let mut left = left;
            let fault = creation_fault_after(alloc, error, &mut left);
            (fault, Some(left))
        }
        None => (open_fault_of(error), None),
    }
}

/// Returns why no store is opened in files if opening a connection failed with the error, and what
/// is left of the files.
pub(crate) fn open_refusal<S: Start>(
    alloc: Global,
    error: Error,
    left: Option<Leftover<FileFrom<S>>>,
) -> FileRefusal<S>
    ensures right { IsOpenRefusalAfter error left result.0 result.1 }
    ensures clean { ForgetsNoFault left result.1 }
    ensures files { IsRefusalOf (unless_left error left) result }
    ensures other { IsUnlessNoDatabase error
        ((result.0 ≡ open_fault_of_error error) × (result.1 ≡ left)) }
{
    match left {
        Some(left) => {
            let mut left = left;
            let fault = open_fault_after(alloc, error, &mut left);
            (fault, Some(left))
        }
        None => (open_fault_of(error), None),
    }
}

impl SqlStore<FileStore<FileFrom<Unknown>>> {
    /// `create_in` over the files of the system, for a program that proves nothing about what the
    /// file held before.
    pub fn create(rt: &HostRuntime, path: &str, limits: Limits) -> Result<FileBooks, OpenFault>
        ensures books { IfOk result (λ store. IsOpenOnHonestDisk (file_state store.conn)
            → stored_books (file_state store.conn) ≡ finite.empty) }
        ensures limits { IfOk result (λ store. store.limits ≡ limits) }
        ensures fault { IfErr result IsCreationFault }
    {
        let mut files = SystemFiles::new(rt);
        match SqlStore::create_in(&mut files, rt.alloc(), path, limits, Unknown) {
            Ok(store) => Ok(store),
            Err((fault, _left)) => Err(fault),
        }
    }

    /// `open_filled` over the files of the system, for a program that proves nothing about the
    /// contents of the file. The clauses here state nothing about a file that wasn't empty.
    pub fn open(rt: &HostRuntime, path: &str, limits: Limits) -> Result<FileBooks, OpenFault>
        ensures well_formed { IfOk result (λ store. IsOpenOnHonestDisk (file_state store.conn)
            → HoldsWellFormed max_limits (file_state store.conn).now) }
        ensures limits { IfOk result (λ store. store.limits ≡ limits) }
    {
        let mut files = SystemFiles::new(rt);
        match SqlStore::open_filled(&mut files, rt.alloc(), path, limits, Unknown) {
            Ok(store) => Ok(store),
            Err((fault, _left)) => Err(fault),
        }
    }
}

/// `open` within the standard limits, for callers that need none of its contract.
pub(crate) fn open_standard(rt: &HostRuntime, path: &str) -> Result<FileBooks, OpenFault> {
    SqlStore::open(rt, path, Limits::standard())
}
