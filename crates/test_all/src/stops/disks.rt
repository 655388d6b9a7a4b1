//! Disks in memory, one of them with a fuse, and their state after a stop.
//!
//! Code that runs over them uses only the trait `FusedDisk`, and code over their tables only
//! `Alter`: a function that names a database over such disks takes 15 to 40 seconds to check, and
//! only one does, `over_disks`.

use named_files::{into_files, open_again};
use sqlite::{Alter, Connection, FileStore, Files, Options};
use sqlite_disk::{Crash, Disk, Fuse, Memory};
use std::alloc::Global;
use test_support::Supply;

/// One of the two files.
#[derive(Clone, Copy)]
pub(crate) enum Place {
    Database,
    Log,
}

impl Place {
    pub(crate) fn name(self) -> &'static str {
        match self {
            Place::Database => "database file",
            Place::Log => "log",
        }
    }
}

/// The number of calls that the disk of this file passes on. The other disk passes on all.
#[derive(Clone, Copy)]
pub(crate) struct FuseAt {
    pub(crate) place: Place,
    pub(crate) calls: u64,
}

impl FuseAt {
    fn calls_of(self, place: Place) -> u64 {
        if self.place == place {
            self.calls
        } else {
            u64::MAX
        }
    }
}

/// A fuse that doesn't burn.
pub(crate) const NO_FUSE: FuseAt = FuseAt {
    place: Place::Log,
    calls: u64::MAX,
};

/// The kind of crash: what a stop leaves of the written data.
#[derive(Clone, Copy)]
pub(crate) enum CrashKind {
    /// All that was written: a process died.
    Written,
    /// Only what was synced: a power failure.
    Synced,
}

impl CrashKind {
    pub(crate) fn name(self) -> &'static str {
        match self {
            CrashKind::Written => "as written",
            CrashKind::Synced => "as synced",
        }
    }
}

/// A disk that passes on a number of calls and fails at each later one. After a power failure it
/// has what was synced (`Crash`).
pub(crate) trait FusedDisk: Crash + Drop {
    /// An empty disk that passes on this number of calls.
    fn empty(alloc: Global, calls: u64) -> Self;

    /// A disk with the data of this one, all of it synced, that passes on this number of calls.
    fn copy_disk(&self, calls: u64, supply: &mut Supply) -> Self;

    /// Whether it has failed, or would fail at the next call.
    fn is_stopped(&mut self) -> bool;
}

/// A disk in memory with these octets, all of them synced.
fn filled_memory(octets: &[u8], supply: &mut Supply) -> Memory {
    let mut memory = Memory::new(supply.alloc);
    supply.note(memory.write_at(0, octets));
    supply.note(memory.sync());
    memory
}

impl FusedDisk for Fuse<Memory> {
    fn empty(alloc: Global, calls: u64) -> Fuse<Memory> {
        Fuse::new(Memory::new(alloc), calls)
    }

    fn copy_disk(&self, calls: u64, supply: &mut Supply) -> Fuse<Memory> {
        Fuse::new(filled_memory(self.inner().bytes(), supply), calls)
    }

    fn is_stopped(&mut self) -> bool {
        if !self.may_be_used() {
            return true;
        }
        self.len().is_err()
    }
}

/// Disks with the data of these, all of it synced, and with this fuse.
pub(crate) fn copy_disks<D: FusedDisk>(
    disks: &Files<D>,
    fuse: FuseAt,
    supply: &mut Supply,
) -> Files<D> {
    Files {
        log: disks.log.copy_disk(fuse.calls_of(Place::Log), supply),
        db: disks.db.copy_disk(fuse.calls_of(Place::Database), supply),
    }
}

/// Empty disks with this fuse.
pub(crate) fn empty_disks<D: FusedDisk>(alloc: Global, fuse: FuseAt) -> Files<D> {
    Files {
        log: D::empty(alloc, fuse.calls_of(Place::Log)),
        db: D::empty(alloc, fuse.calls_of(Place::Database)),
    }
}

/// Work over the tables of disks.
pub(crate) trait Work {
    /// Does the work. Returns the connection unless the work consumes it.
    fn over<S: Alter + Drop>(&mut self, tables: Connection<S>) -> Option<Connection<S>>;
}

/// A connection over the disks. An `Err` has the disks as the failed open left them.
fn open_disks<D: Disk + Drop>(
    alloc: Global,
    disks: Files<D>,
    seed: u64,
) -> Result<Connection<FileStore<D>>, Files<D>> {
    if !disks.may_be_used() {
        return Err(disks);
    }
    // Small, so that pages are read again and the log is copied often.
    let options = Options {
        cache_pages: 8,
        spill_pages: 4,
        checkpoint_frames: 12,
        seed,
    };
    match open_again(alloc, disks, options) {
        Ok(tables) => Ok(tables),
        Err((_, left)) => Err(left.into_files()),
    }
}

/// Opens the disks, does the work over their tables, and returns the disks without a further call
/// to them. If the open fails, the work isn't done, and the disks are as the open left them. There
/// are none if the work consumes the connection.
pub(crate) fn over_disks<D: FusedDisk, W: Work>(
    alloc: Global,
    disks: Files<D>,
    seed: u64,
    work: &mut W,
) -> Option<Files<D>> {
    match open_disks(alloc, disks, seed) {
        Ok(tables) => match work.over(tables) {
            Some(tables) => Some(into_files(tables)),
            None => None,
        },
        Err(disks) => Some(disks),
    }
}

/// Whether the fuse has burnt, or would burn at the next call.
pub(crate) fn is_burnt<D: FusedDisk>(disks: &mut Files<D>, place: Place) -> bool {
    match place {
        Place::Database => disks.db.is_stopped(),
        Place::Log => disks.log.is_stopped(),
    }
}
