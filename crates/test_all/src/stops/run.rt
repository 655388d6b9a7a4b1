//! Performs the list over disks, one of which fails.

use crate::stops::disks::{FuseAt, FusedDisk, Work, empty_disks, over_disks};
use book_service::Reply;
use book_store::{OpenFault, SqlStore};
use sqlite::{Alter, Connection, Error, Files};
use std::alloc::Global;
use store_tables::creation::create_tables;
use sync_core::{BookStore, Fault, Limits};
use test_support::Supply;
use test_support::crash_plans::expected_run::{ExpectedRun, Step};
use test_support::crash_plans::followers::Followers;
use test_support::scripts::reply_to;

/// The seed of the log's salts: files that are opened again get other salts.
const FIRST_SEED: u64 = 7;

/// How a run ended.
#[derive(Clone, Copy)]
pub(crate) enum Ending {
    /// The files weren't opened, or the schema wasn't created.
    CreateSchema,
    /// The command at this index got a fault of the store.
    Command(usize),
    /// A device that asked for a page after the command at this index got a fault of the store.
    Page(usize),
    /// The list was performed.
    End,
}

/// A new store over the connection, or why there is none. A connection in a transaction is refused;
/// here none is in one.
pub(crate) fn new_store<S: Alter + Drop>(
    alloc: Global,
    tables: Connection<S>,
    limits: Limits,
) -> Result<SqlStore<S>, OpenFault> {
    if !tables.is_autocommit() {
        return Err(OpenFault::NotOurs);
    }
    SqlStore::adopt_new(alloc, tables, limits)
}

/// Creates the tables as a new store does.
fn create_schema<S: Alter>(tables: &mut Connection<S>) -> Result<(), Error> {
    if !tables.is_autocommit() {
        return Ok(());
    }
    let mut tx = tables.transaction();
    create_tables(&mut tx)?;
    tx.commit()
}

/// Work that only creates the tables.
#[derive(Clone, Copy)]
struct CreateSchema;

impl Work for CreateSchema {
    fn over<S: Alter + Drop>(&mut self, tables: Connection<S>) -> Option<Connection<S>> {
        let mut tables = tables;
        let _stopped = create_schema(&mut tables);
        Some(tables)
    }
}

/// The comparison of a reply.
#[derive(Clone, Copy)]
struct Answer {
    /// Whether it is a fault of the store.
    is_fault: bool,
    /// Whether it is the expected reply.
    is_right: bool,
}

/// Performs the command.
fn answer_to<B: BookStore>(expected_run: &ExpectedRun, store: &mut B, step: &Step) -> Answer {
    let reply = reply_to(expected_run.alloc, store, &step.command);
    let answer = Answer {
        is_fault: matches!(&reply, Reply::Fault(Fault::Store)),
        is_right: reply == step.reply,
    };
    drop(reply);
    answer
}

/// Performs the list after its first `done` commands. Returns the number of unexpected replies.
pub(crate) fn run_rest<B: BookStore>(
    expected_run: &ExpectedRun,
    store: &mut B,
    done: usize,
) -> u64 {
    let mut unexpected = 0u64;
    for step in expected_run.steps.as_slice().iter().skip(done) {
        if !answer_to(expected_run, store, step).is_right {
            unexpected = unexpected.saturating_add(1);
        }
    }
    unexpected
}

/// The list over a new store.
#[derive(Drop)]
pub(crate) struct Run<'a> {
    pub(crate) expected_run: &'a ExpectedRun,
    /// How it ended.
    pub(crate) ending: Ending,
    pub(crate) followers: Followers,
    /// The number of unexpected replies.
    pub(crate) unexpected: u64,
    /// The memory of the devices.
    pub(crate) supply: Supply,
}

impl Run<'_> {
    /// A run that hasn't begun.
    pub(crate) fn new(expected_run: &ExpectedRun) -> Run<'_> {
        let mut supply = Supply::new(expected_run.alloc);
        Run {
            expected_run,
            ending: Ending::CreateSchema,
            followers: Followers::new(&mut supply),
            unexpected: 0,
            supply,
        }
    }

    /// Performs the command, and counts an unexpected reply. Returns whether the store returned a
    /// fault.
    fn has_fault<B: BookStore>(&mut self, store: &mut B, step: &Step) -> bool {
        let answer = answer_to(self.expected_run, store, step);
        if !answer.is_fault && !answer.is_right {
            self.unexpected = self.unexpected.saturating_add(1);
        }
        answer.is_fault
    }

    /// Performs the list, and makes the devices ask for a page after each command, until the store
    /// returns a fault.
    fn perform_list<B: BookStore>(&mut self, store: &mut B) -> Ending {
        let expected_run = self.expected_run;
        for (place, step) in expected_run.steps.as_slice().iter().enumerate() {
            if self.has_fault(store, step) {
                return Ending::Command(place);
            }
            if self.followers.ask(store, &mut self.supply) {
                return Ending::Page(place);
            }
        }
        Ending::End
    }

    /// Performs the list over the store, and returns its connection.
    fn over_store<S: Alter + Drop>(&mut self, store: SqlStore<S>) -> Connection<S> {
        let mut store = store;
        self.ending = self.perform_list(&mut store);
        store.into_connection()
    }
}

/// Creates a store, and performs the list over it. If it isn't created, the connection is consumed.
impl Work for Run<'_> {
    fn over<S: Alter + Drop>(&mut self, tables: Connection<S>) -> Option<Connection<S>> {
        match new_store(self.expected_run.alloc, tables, self.expected_run.limits) {
            Ok(store) => Some(self.over_store(store)),
            Err(OpenFault::Store) => None,
            Err(_) => {
                self.unexpected = 1;
                None
            }
        }
    }
}

/// Runs the list over empty disks with this fuse, and returns the disks. If the new store isn't
/// created, its connection is dropped with the disks: then the tables are created once more, by the
/// same statements.
pub(crate) fn run_list<D: FusedDisk>(run: &mut Run<'_>, fuse: FuseAt) -> Option<Files<D>> {
    let alloc = run.expected_run.alloc;
    match over_disks(alloc, empty_disks(alloc, fuse), FIRST_SEED, run) {
        Some(disks) => Some(disks),
        None => over_disks(
            alloc,
            empty_disks(alloc, fuse),
            FIRST_SEED,
            &mut CreateSchema,
        ),
    }
}
