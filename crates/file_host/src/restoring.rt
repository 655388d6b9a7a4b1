//! Puts a copy back in place of a file. A program that is stopped on the way leaves the file as it
//! was, or the new one. In place of a file that can't be read it may leave one that is refused as
//! no store; what was there is kept then.

use crate::file_care::{
    are_same_file, on_device, real_name, remove_log, remove_with_log, sync_folder_of, take_access,
};
use crate::keeping::keep_old;
use crate::new_file::{Renewed, make_new};
use crate::old_file::{Old, books_of, forget_vacant, is_made, look_at_old};
use crate::store_files::StoreFiles;
use base_types::{Items, NoMemory, Text};
use book_resync::AdminStore;
use cli_orders::{Restored, Stop};
use std::io::Write;
use std::rt::HostRuntime;
use std::{fs, io};

/// Puts the new file in place of the old one, whose log is gone.
fn put(rt: &HostRuntime, fresh: &str, file: &str) -> Result<(), Stop> {
    on_device(fs::rename(rt, fresh, file))?;
    sync_folder_of(rt, file);
    Ok(())
}

/// Keeps the old file without its log, and puts the new one in its place.
fn replace_alone(rt: &HostRuntime, fresh: &str, file: &str) -> Result<Items<Text>, Stop> {
    remove_log(rt, file)?;
    let kept = keep_old(rt, file)?;
    put(rt, fresh, file)?;
    Ok(kept)
}

/// Replaces a store that was read. Its log was folded into it, so either file is whole without one.
fn replace_read<S, F: StoreFiles<S>>(
    rt: &HostRuntime,
    stores: &F,
    store: S,
    fresh: &str,
    file: &str,
) -> Result<Items<Text>, Stop> {
    // Held until the new file is in its place, so that no server opens the old one.
    let _files = stores.close_store(store)?;
    replace_alone(rt, fresh, file)
}

/// Removes the old file's log, and puts the new file in its place.
fn put_without_log(rt: &HostRuntime, fresh: &str, file: &str) -> Result<(), Stop> {
    remove_log(rt, file)?;
    put(rt, fresh, file)
}

/// Writes over the first octets of the file, so that it is no store without its log either.
fn spoil(rt: &HostRuntime, file: &str) -> io::Result<()> {
    let mut opened = fs::File::options().write(true).open(rt, file)?;
    opened.write_all(b"A restore was stopped here.\n")?;
    opened.sync_all()
}

/// Replaces a file that can't be read. Without its log it could be read as an older state, so it is
/// spoiled before that goes.
fn replace_unread(rt: &HostRuntime, fresh: &str, file: &str) -> Result<Items<Text>, Stop> {
    let kept = keep_old(rt, file)?;
    on_device(spoil(rt, file))?;
    put_without_log(rt, fresh, file)?;
    Ok(kept)
}

/// Replaces a file without octets. A log without its file is kept as well.
fn replace_vacant(rt: &HostRuntime, fresh: &str, file: &str) -> Result<Items<Text>, Stop> {
    let kept = keep_old(rt, file)?;
    put_without_log(rt, fresh, file)?;
    Ok(kept)
}

/// Puts the new file in place of the old one, and returns the names under which that is kept.
fn put_in_place<S: Drop, F: StoreFiles<S>>(
    rt: &HostRuntime,
    stores: &F,
    old: Old<S>,
    fresh: &str,
    file: &str,
) -> Result<Items<Text>, Stop> {
    match old {
        Old::Vacant(_held, _) => replace_vacant(rt, fresh, file),
        Old::Unread(_held) => replace_unread(rt, fresh, file),
        Old::Read(store, _books) => replace_read(rt, stores, store, fresh, file),
    }
}

/// Gives the new file the access of the old one, unless that was made to be held. After an error
/// there is no new file.
fn make_alike<S>(rt: &HostRuntime, fresh: &str, file: &str, old: &Old<S>) -> Result<(), Stop> {
    if is_made(old) || take_access(rt, file, fresh).is_ok() {
        return Ok(());
    }
    let _removed = remove_with_log(rt, fresh);
    Err(Stop::Device)
}

/// Makes the new file and gives it the access of the old one, or of the copy if there is none.
fn make_like_old<S: AdminStore + Drop, F: StoreFiles<S>>(
    rt: &HostRuntime,
    stores: &F,
    backup: &str,
    fresh: &str,
    file: &str,
    old: &Old<S>,
    pairs: u64,
) -> Result<Renewed, Stop> {
    let renewed = make_new(rt, stores, backup, fresh, books_of(old), pairs)?;
    make_alike(rt, fresh, file, old)?;
    Ok(renewed)
}

/// The name of the new file until it is in its place. The copy may have the first one, from a
/// restore that was stopped.
fn fresh_name(rt: &HostRuntime, backup: &str, file: &str) -> Result<String, NoMemory> {
    let first = format!(in rt.alloc(); "{file}.restoring")?;
    if are_same_file(rt, first.as_str(), backup) {
        return Ok(format!(in rt.alloc(); "{file}.restoring-2")?);
    }
    Ok(first)
}

/// Makes the new file as `make_like_old` does. After an error it removes what was made to be held.
fn make_or_forget<S: AdminStore + Drop, F: StoreFiles<S>>(
    rt: &HostRuntime,
    stores: &F,
    backup: &str,
    fresh: &str,
    file: &str,
    old: &Old<S>,
    pairs: u64,
) -> Result<Renewed, Stop> {
    match make_like_old(rt, stores, backup, fresh, file, old, pairs) {
        Ok(renewed) => Ok(renewed),
        Err(stop) => {
            forget_vacant(rt, file, old);
            Err(stop)
        }
    }
}

/// Puts the new file in place of the old one. After an error there is no new file.
fn put_or_remove<S: Drop, F: StoreFiles<S>>(
    rt: &HostRuntime,
    stores: &F,
    old: Old<S>,
    fresh: &str,
    file: &str,
) -> Result<Items<Text>, Stop> {
    match put_in_place(rt, stores, old, fresh, file) {
        Ok(kept) => Ok(kept),
        Err(stop) => {
            let _removed = remove_with_log(rt, fresh);
            Err(stop)
        }
    }
}

/// Puts the new file with these books in place of the old one.
fn finish<S: Drop, F: StoreFiles<S>>(
    rt: &HostRuntime,
    stores: &F,
    old: Old<S>,
    renewed: Renewed,
    fresh: &str,
    file: &str,
) -> Result<Restored, Stop> {
    let is_read = !matches!(&old, Old::Unread(_));
    let kept = put_or_remove(rt, stores, old, fresh, file)?;
    let (made, books) = renewed;
    Ok(Restored {
        kept,
        is_read,
        made,
        books,
    })
}

/// Restores the file by a new one at the path `fresh`.
fn restore_by<S: AdminStore + Drop, F: StoreFiles<S>>(
    rt: &HostRuntime,
    stores: &F,
    backup: &str,
    fresh: &str,
    file: &str,
    pairs: u64,
) -> Result<Restored, Stop> {
    let old = look_at_old(rt, stores, file)?;
    let renewed = make_or_forget(rt, stores, backup, fresh, file, &old, pairs)?;
    finish(rt, stores, old, renewed, fresh, file)
}

/// Restores the file that has no link in its name.
fn restore_real<S: AdminStore + Drop, F: StoreFiles<S>>(
    rt: &HostRuntime,
    stores: &F,
    backup: &str,
    file: &str,
    pairs: u64,
) -> Result<Restored, Stop> {
    let fresh = fresh_name(rt, backup, file)?;
    restore_by(rt, stores, backup, fresh.as_str(), file, pairs)
}

/// Puts the copy in the file `backup` back in place of the file. The copy is tested first, and is
/// not changed. The old file and its log are kept under names that are returned. Books that the old
/// file has and the copy hasn't are made again, empty, in their order; so no later book gets their
/// ids, and with them their tokens. At last every device is made to start again, with this many
/// pairs of numbers, or more if the old file has higher ones. The new file has the mode of the old
/// one, and its owner where the system allows that.
///
/// Stops with `Open` if the copy can't be opened, or if the file can't be held now, as while a
/// server has it open; with a refusal if a book would pass a limit; and with `Device` if the system
/// refuses to copy, remove or rename a file. A stop leaves the file as it was, but for one that
/// can't be read: that may be spoiled, and is kept then.
pub(crate) fn restore_file<S: AdminStore + Drop, F: StoreFiles<S>>(
    rt: &HostRuntime,
    stores: &F,
    backup: &str,
    file: &str,
    pairs: u64,
) -> Result<Restored, Stop> {
    let real_backup = real_name(rt, backup)?;
    let real_file = real_name(rt, file)?;
    restore_real(rt, stores, real_backup.as_str(), real_file.as_str(), pairs)
}
