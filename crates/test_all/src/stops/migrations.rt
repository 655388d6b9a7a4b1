//! Migrates tables of the first schema to the second over a disk that fails.

use crate::first_schema::{create_first_schema, migrate_tables, store_over};
use crate::stops::disks::{
    CrashKind, FuseAt, FusedDisk, NO_FUSE, Place, Work, copy_disks, empty_disks, is_burnt,
    over_disks,
};
use crate::stops::sweep::{CALLS_MAX, Sweep};
use book_store::OpenFault;
use named_files::crash_files;
use sqlite::{Alter, Connection, Files};
use std::alloc::Global;
use sync_core::Limits;
use test_support::crash_plans::books::query_books;
use test_support::crash_plans::commands::Kind;
use test_support::crash_plans::counts::StateLeft;
use test_support::crash_plans::mismatch::Mismatch;
use test_support::{Printout, Supply};

/// The number of the books of these tables.
const BOOKS: u64 = 2;

/// The seeds of the log's salts: each time that files are opened they get other salts.
const SEEDS: [u64; 3] = [17, 18, 19];

/// Work that creates tables of the first schema.
#[derive(Clone, Copy)]
struct CreateSchema {
    created: Result<(), Mismatch>,
}

impl Work for CreateSchema {
    fn over<S: Alter + Drop>(&mut self, tables: Connection<S>) -> Option<Connection<S>> {
        let mut tables = tables;
        self.created = match create_first_schema(&mut tables) {
            Ok(()) => Ok(()),
            Err(_) => Err(Mismatch("the first schema isn't created")),
        };
        Some(tables)
    }
}

/// Disks with tables of the first schema, all of it synced.
pub(crate) fn first_schema_disks<D: FusedDisk>(supply: &mut Supply) -> Result<Files<D>, Mismatch> {
    let alloc = supply.alloc;
    let mut creation = CreateSchema {
        created: Err(Mismatch("new files aren't opened")),
    };
    let disks = over_disks(alloc, empty_disks(alloc, NO_FUSE), SEEDS[0], &mut creation);
    match (creation.created, disks) {
        (Ok(()), Some(disks)) => Ok(disks),
        (Ok(()), None) => Err(Mismatch("new disks are gone")),
        (Err(mismatch), _) => Err(mismatch),
    }
}

/// Work that reads the books of tables, after a migration if they are of the first schema. It
/// consumes the tables.
#[derive(Drop)]
struct Reading {
    books: Printout,
    /// `Before` for tables of the first schema, and `After` for those of the second.
    left: Result<StateLeft, Mismatch>,
}

/// Migrates the tables, unless they are of the second schema already.
fn migrate_once<S: Alter>(
    alloc: Global,
    tables: &mut Connection<S>,
) -> Result<StateLeft, Mismatch> {
    match migrate_tables(alloc, tables) {
        Ok(BOOKS) => Ok(StateLeft::Before),
        Err(OpenFault::OtherSchema { has: 2 }) => Ok(StateLeft::After),
        _ => Err(Mismatch("the tables are of neither schema")),
    }
}

/// The books of tables of the second schema.
fn books_over<S: Alter + Drop>(alloc: Global, tables: Connection<S>) -> Result<Printout, Mismatch> {
    match store_over(alloc, tables, Limits::standard()) {
        Ok(store) => {
            let mut store = store;
            Ok(query_books(alloc, &mut store))
        }
        Err(_) => Err(Mismatch("the tables aren't adopted")),
    }
}

impl Work for Reading {
    fn over<S: Alter + Drop>(&mut self, tables: Connection<S>) -> Option<Connection<S>> {
        let mut tables = tables;
        self.left = migrate_once(self.books.alloc(), &mut tables);
        if self.left.is_ok() {
            match books_over(self.books.alloc(), tables) {
                Ok(books) => self.books = books,
                Err(mismatch) => self.left = Err(mismatch),
            }
        }
        None
    }
}

/// Reads the books of the disks' tables.
fn read<D: FusedDisk>(disks: Files<D>, seed: u64, supply: &mut Supply) -> Reading {
    let alloc = supply.alloc;
    let mut reading = Reading {
        books: Printout::new(alloc),
        left: Err(Mismatch("the files aren't opened")),
    };
    drop(over_disks(alloc, disks, seed, &mut reading));
    supply.note(reading.books.result());
    reading
}

/// The books of the tables if nothing stops the migration.
pub(crate) fn migrated_books<D: FusedDisk>(
    first: &Files<D>,
    supply: &mut Supply,
) -> Result<Printout, Mismatch> {
    let copy = copy_disks(first, NO_FUSE, supply);
    let reading = read(copy, SEEDS[1], supply);
    match reading.left {
        Ok(StateLeft::Before) => Ok(reading.books),
        Ok(StateLeft::After) => Err(Mismatch("the tables aren't migrated")),
        Err(mismatch) => Err(mismatch),
    }
}

/// Checks the disks. The books must be the expected ones.
fn check_migrated<D: FusedDisk>(
    disks: Files<D>,
    expected_books: &[u8],
    supply: &mut Supply,
) -> Result<StateLeft, Mismatch> {
    let reading = read(disks, SEEDS[2], supply);
    if reading.left.is_ok() && reading.books.as_slice() != expected_books {
        Err(Mismatch("other books"))
    } else {
        reading.left
    }
}

/// Work that migrates tables.
#[derive(Clone, Copy)]
struct Migrate {
    alloc: Global,
    /// The operation that a stop interrupts.
    kind: Kind,
}

impl Work for Migrate {
    fn over<S: Alter + Drop>(&mut self, tables: Connection<S>) -> Option<Connection<S>> {
        let mut tables = tables;
        self.kind = match migrate_tables(self.alloc, &mut tables) {
            Ok(_) => Kind::End,
            Err(_) => Kind::Migrate,
        };
        Some(tables)
    }
}

/// Checks the disks after one kind of crash.
fn check_way<D: FusedDisk>(
    disks: Files<D>,
    expected_books: &[u8],
    calls: u64,
    way: CrashKind,
    sweep: &mut Sweep,
) {
    let found = check_migrated(disks, expected_books, &mut sweep.findings.supply);
    sweep.count_state(calls, way, found);
}

/// Checks the disks after both kinds of crash.
fn check_both<D: FusedDisk>(disks: Files<D>, expected_books: &[u8], calls: u64, sweep: &mut Sweep) {
    let written = copy_disks(&disks, NO_FUSE, &mut sweep.findings.supply);
    check_way(written, expected_books, calls, CrashKind::Written, sweep);
    let synced = crash_files(disks);
    check_way(synced, expected_books, calls, CrashKind::Synced, sweep);
}

/// Checks the disks after the migration; `kind` is the operation that a stop interrupts. Returns
/// whether it was stopped.
fn check_stop<D: FusedDisk>(
    kind: Kind,
    disks: Files<D>,
    expected_books: &[u8],
    fuse: FuseAt,
    sweep: &mut Sweep,
) -> bool {
    let mut disks = disks;
    let is_burnt = is_burnt(&mut disks, fuse.place);
    if is_burnt {
        sweep.stops.add(kind);
        check_both(disks, expected_books, fuse.calls, sweep);
    } else if !matches!(kind, Kind::End) {
        sweep.add_finding(fuse.calls, "a fault without a stop");
    }
    is_burnt
}

/// Migrates a copy of the disks with this fuse, and checks the disks. Returns whether it was
/// stopped.
fn stop_at<D: FusedDisk>(
    first: &Files<D>,
    expected_books: &[u8],
    fuse: FuseAt,
    sweep: &mut Sweep,
) -> bool {
    let alloc = sweep.findings.alloc();
    let mut migration = Migrate {
        alloc,
        kind: Kind::CreateSchema,
    };
    let copy = copy_disks(first, fuse, &mut sweep.findings.supply);
    match over_disks(alloc, copy, SEEDS[1], &mut migration) {
        Some(disks) => check_stop(migration.kind, disks, expected_books, fuse, sweep),
        None => sweep.add_no_disks(fuse.calls),
    }
}

/// Stops the migration at each call of the file's disk in turn, until it isn't stopped any more.
pub(crate) fn sweep_migration<D: FusedDisk>(
    first: &Files<D>,
    expected_books: &[u8],
    place: Place,
    sweep: &mut Sweep,
) {
    for calls in 0..CALLS_MAX {
        if !stop_at(first, expected_books, FuseAt { place, calls }, sweep) {
            return;
        }
    }
    sweep.add_finding(CALLS_MAX, "no end");
}
