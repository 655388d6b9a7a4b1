//! The file that a restore replaces.

use crate::file_care::{log_of, remove_if_vacant};
use crate::keeping::look_at;
use crate::store_files::{HeldFiles, StoreFiles};
use cli_orders::Stop;
use sqlite_std_file::{OpenError, Unknown};
use std::rt::HostRuntime;
use store_schema::OpenFault;
use sync_core::{BookLine, BookStore};

/// What is at the name of the file that is replaced. Nobody else can open it meanwhile.
#[derive(Drop)]
pub(crate) enum Old<S> {
    /// A file without octets, and whether it was made to be held.
    Vacant(HeldFiles, bool),
    /// No store that this program can read.
    Unread(HeldFiles),
    /// A store, and its books.
    Read(S, Vec<BookLine>),
}

/// Holds the file and its log, which are made if they are missing. Stops if they can't be held, as
/// while a server has them open.
fn hold(rt: &HostRuntime, file: &str) -> Result<HeldFiles, Stop> {
    match sqlite_std_file::open(rt, file, Unknown) {
        Ok(files) => Ok(files),
        Err(OpenError::OutOfMemory) => Err(Stop::Open(OpenFault::Memory)),
        Err(_) => Err(Stop::Open(OpenFault::Store)),
    }
}

/// Holds a file that couldn't be opened as a store, if it is none that this program can read: also
/// if its log can't be read.
fn hold_unread<S>(rt: &HostRuntime, file: &str, fault: OpenFault) -> Result<Old<S>, Stop> {
    match fault {
        OpenFault::NotEmpty | OpenFault::Memory => Err(Stop::Open(fault)),
        OpenFault::NotOurs
        | OpenFault::OtherSchema { .. }
        | OpenFault::Damaged
        | OpenFault::Store => Ok(Old::Unread(hold(rt, file)?)),
    }
}

/// The books of the store.
pub(crate) fn list_books<S: BookStore>(store: &mut S) -> Result<Vec<BookLine>, Stop> {
    Ok(store.books()?)
}

/// The store that is to be replaced, with its books.
fn read_books<S: BookStore + Drop>(store: S) -> Result<Old<S>, Stop> {
    let mut store = store;
    let books = list_books(&mut store)?;
    Ok(Old::Read(store, books))
}

/// Opens the file that is to be replaced.
fn read_old<S: BookStore + Drop, F: StoreFiles<S>>(
    rt: &HostRuntime,
    stores: &F,
    file: &str,
) -> Result<Old<S>, Stop> {
    match stores.open_store(rt, file) {
        Ok(store) => read_books(store),
        Err(fault) => hold_unread(rt, file, fault),
    }
}

/// Looks at what is to be replaced, and holds it.
pub(crate) fn look_at_old<S: BookStore + Drop, F: StoreFiles<S>>(
    rt: &HostRuntime,
    stores: &F,
    file: &str,
) -> Result<Old<S>, Stop> {
    match look_at(rt, file)? {
        Some((true, 0)) => Ok(Old::Vacant(hold(rt, file)?, false)),
        Some(_) => read_old(rt, stores, file),
        None => Ok(Old::Vacant(hold(rt, file)?, true)),
    }
}

/// The old file's books, if they are known.
pub(crate) fn books_of<S>(old: &Old<S>) -> &[BookLine] {
    match old {
        Old::Read(_, books) => books.as_slice(),
        _ => &[],
    }
}

/// Whether the old file was made to be held.
pub(crate) fn is_made<S>(old: &Old<S>) -> bool {
    match old {
        Old::Vacant(_, is_made) => *is_made,
        Old::Unread(_) | Old::Read(_, _) => false,
    }
}

/// Removes the files that were made to be held, if nothing was put in their place.
pub(crate) fn forget_vacant<S>(rt: &HostRuntime, file: &str, old: &Old<S>) {
    if is_made(old) {
        let _removed = remove_if_vacant(rt, file);
        if let Ok(log) = log_of(rt.alloc(), file) {
            let _removed_log = remove_if_vacant(rt, log.as_str());
        }
    }
}
