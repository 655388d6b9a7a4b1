//! The new file of a restore: a copy of the copy, with the books that the old file has as well.

use crate::file_care::{remove_log, remove_with_log};
use crate::keeping::add_copy;
use crate::lost_numbers::pairs_past;
use crate::old_file::list_books;
use crate::store_files::StoreFiles;
use base_types::{Items, Text};
use book_resync::AdminStore;
use cli_orders::Stop;
use std::alloc::Global;
use std::rt::HostRuntime;
use sync_core::{BookLine, BookStore, Denied, Refusal};

/// What became of the books: the names of those that were made again, and the number of all.
pub(crate) type Renewed = (Items<Text>, u64);

/// Creates the book if the store hasn't got it, and adds its name then.
fn make_if_missing<S: BookStore>(
    alloc: Global,
    store: &mut S,
    name: &str,
    made: &mut Vec<Text>,
) -> Result<(), Stop> {
    match store.create_book(name) {
        Ok(_id) => add_copy(alloc, name, made),
        Err(Denied::Refused(Refusal::BookExists)) => Ok(()),
        Err(denied) => Err(Stop::from(denied)),
    }
}

/// Creates the book with this id if the store hasn't got it, and adds its name then.
fn make_with_id<S: BookStore>(
    alloc: Global,
    store: &mut S,
    books: &[BookLine],
    id: u64,
    made: &mut Vec<Text>,
) -> Result<(), Stop> {
    for book in books {
        if book.id == id {
            make_if_missing(alloc, store, book.name.as_str(), made)?;
        }
    }
    Ok(())
}

/// Creates each of these books that the store hasn't, the oldest first, so that it gets its id
/// again. Adds their names.
fn make_all<S: BookStore>(
    alloc: Global,
    store: &mut S,
    books: &[BookLine],
    made: &mut Vec<Text>,
) -> Result<(), Stop> {
    for id in 1..=books.len() as u64 {
        make_with_id(alloc, store, books, id, made)?;
    }
    Ok(())
}

/// Creates each of these books that the store hasn't, the oldest first, and returns their names.
fn make_missing<S: BookStore>(
    alloc: Global,
    store: &mut S,
    books: &[BookLine],
) -> Result<Items<Text>, Stop> {
    let mut made = Vec::new(alloc);
    make_all(alloc, store, books, &mut made)?;
    Ok(Items::from_vec(made))
}

/// So many pairs that each book's numbers pass those of the old file's, so also those that an
/// earlier restore or resync took.
fn enough_pairs<S: BookStore>(store: &mut S, old: &[BookLine], pairs: u64) -> Result<u64, Stop> {
    let books = list_books(store)?;
    Ok(pairs_past(old, books.as_slice(), pairs))
}

/// Makes every device start again.
fn resync_past<S: AdminStore>(store: &mut S, old: &[BookLine], pairs: u64) -> Result<u64, Stop> {
    let past = enough_pairs(store, old, pairs)?;
    let count = store.resync_books(past)?;
    Ok(count)
}

/// Creates the missing books, and makes every device start again.
fn renew_books<S: AdminStore>(
    alloc: Global,
    store: &mut S,
    old: &[BookLine],
    pairs: u64,
) -> Result<Renewed, Stop> {
    let made = make_missing(alloc, store, old)?;
    let count = resync_past(store, old, pairs)?;
    Ok((made, count))
}

/// Renews the books of the store, and returns it.
fn renew_all<S: AdminStore + Drop>(
    alloc: Global,
    store: S,
    old: &[BookLine],
    pairs: u64,
) -> Result<(S, Renewed), Stop> {
    let mut store = store;
    let renewed = renew_books(alloc, &mut store, old, pairs)?;
    Ok((store, renewed))
}

/// Closes the store, and removes its log, which the file then doesn't need.
fn close_alone<S, F: StoreFiles<S>>(
    rt: &HostRuntime,
    stores: &F,
    store: S,
    file: &str,
) -> Result<(), Stop> {
    let _files = stores.close_store(store)?;
    remove_log(rt, file)
}

/// Renews the books of the store in the new file, and folds the log into the file.
fn renew_store<S: AdminStore + Drop, F: StoreFiles<S>>(
    rt: &HostRuntime,
    stores: &F,
    store: S,
    fresh: &str,
    old: &[BookLine],
    pairs: u64,
) -> Result<Renewed, Stop> {
    let (store, renewed) = renew_all(rt.alloc(), store, old, pairs)?;
    close_alone(rt, stores, store, fresh)?;
    Ok(renewed)
}

/// Renews the books of the new file.
fn renew<S: AdminStore + Drop, F: StoreFiles<S>>(
    rt: &HostRuntime,
    stores: &F,
    fresh: &str,
    old: &[BookLine],
    pairs: u64,
) -> Result<Renewed, Stop> {
    let store = stores.open_store(rt, fresh)?;
    renew_store(rt, stores, store, fresh, old, pairs)
}

/// Makes the new file of the copy. After an error there is none.
pub(crate) fn make_new<S: AdminStore + Drop, F: StoreFiles<S>>(
    rt: &HostRuntime,
    stores: &F,
    backup: &str,
    fresh: &str,
    old: &[BookLine],
    pairs: u64,
) -> Result<Renewed, Stop> {
    // What a restore left that was stopped.
    remove_with_log(rt, fresh)?;
    let _books = stores.copy_store(rt, backup, fresh)?;
    match renew(rt, stores, fresh, old, pairs) {
        Ok(renewed) => Ok(renewed),
        Err(stop) => {
            let _removed = remove_with_log(rt, fresh);
            Err(stop)
        }
    }
}
