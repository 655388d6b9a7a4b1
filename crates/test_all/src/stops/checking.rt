//! Checks the state after a stop.

use crate::first_schema::store_over;
use crate::stops::disks::{FusedDisk, Work, over_disks};
use crate::stops::run::{Ending, new_store, run_rest};
use book_store::{OpenFault, SqlStore};
use sqlite::{Alter, Connection, Files};
use sync_core::BookStore;
use test_support::Supply;
use test_support::crash_plans::books::query_books;
use test_support::crash_plans::counts::StateLeft;
use test_support::crash_plans::expected_run::ExpectedRun;
use test_support::crash_plans::followers::Followers;
use test_support::crash_plans::mismatch::Mismatch;

/// The seed of the log's salts.
const NEXT_SEED: u64 = 8;

/// A run that was stopped, with its devices at that time.
#[derive(Clone, Copy)]
pub(crate) struct Stop<'a> {
    pub(crate) expected_run: &'a ExpectedRun,
    pub(crate) ending: Ending,
    pub(crate) followers: &'a Followers,
}

/// The number of commands that are done if the stopped call had no effect, and if it had its whole
/// effect.
fn done_at(expected_run: &ExpectedRun, ending: Ending) -> (usize, usize) {
    match ending {
        Ending::CreateSchema => (0, 0),
        Ending::Command(place) => (place, place.saturating_add(1)),
        Ending::Page(place) => (place.saturating_add(1), place.saturating_add(1)),
        Ending::End => (expected_run.steps.len(), expected_run.steps.len()),
    }
}

/// Whether there are no tables.
fn is_bare<S: Alter>(tables: &Connection<S>) -> bool {
    tables.schema().tables.is_empty()
}

/// `Before` if the schema wasn't created, which is possible only if its creation was stopped; else
/// `After`.
fn schema_left<S: Alter>(stop: Stop<'_>, tables: &Connection<S>) -> StateLeft {
    if matches!(stop.ending, Ending::CreateSchema) && is_bare(tables) {
        StateLeft::Before
    } else {
        StateLeft::After
    }
}

/// The store over the tables, or a new one if there are none.
fn store_left<S: Alter + Drop>(
    expected_run: &ExpectedRun,
    created: StateLeft,
    tables: Connection<S>,
) -> Result<SqlStore<S>, OpenFault> {
    match created {
        StateLeft::Before => new_store(expected_run.alloc, tables, expected_run.limits),
        StateLeft::After => store_over(expected_run.alloc, tables, expected_run.limits),
    }
}

/// Which of the two possible states the books have, and the number of commands that are done then.
fn books_left<B: BookStore>(
    stop: Stop<'_>,
    store: &mut B,
    supply: &mut Supply,
) -> Result<(StateLeft, usize), Mismatch> {
    let books = query_books(supply.alloc, store);
    supply.note(books.result());
    let (before, after) = done_at(stop.expected_run, stop.ending);
    if books.as_slice() == stop.expected_run.books_after(before) {
        Ok((StateLeft::Before, before))
    } else if books.as_slice() == stop.expected_run.books_after(after) {
        Ok((StateLeft::After, after))
    } else {
        Err(Mismatch("other books than before or after"))
    }
}

/// Performs the rest of the list. Its replies and the books at its end must be the expected ones.
fn finish<B: BookStore>(
    expected_run: &ExpectedRun,
    store: &mut B,
    done: usize,
    supply: &mut Supply,
) -> Result<(), Mismatch> {
    if run_rest(expected_run, store, done) > 0 {
        return Err(Mismatch("another reply after the stop"));
    }
    let books = query_books(supply.alloc, store);
    supply.note(books.result());
    if books.as_slice() == expected_run.books_after(expected_run.steps.len()) {
        Ok(())
    } else {
        Err(Mismatch("other books at the end"))
    }
}

/// Checks the state that the stopped call left in the store. The devices continue, and so does the
/// list. Counts tokens that are refused as too old.
fn check_store<B: BookStore>(
    stop: Stop<'_>,
    store: &mut B,
    anew: &mut u64,
    supply: &mut Supply,
) -> Result<StateLeft, Mismatch> {
    let (left, done) = books_left(stop, store, supply)?;
    stop.followers.catch_up_over(store, anew, supply)?;
    finish(stop.expected_run, store, done, supply)?;
    Ok(left)
}

/// The check of the tables that a stop left. It consumes them.
#[derive(Drop)]
struct Check<'a> {
    stop: Stop<'a>,
    found: Result<StateLeft, Mismatch>,
    anew: u64,
    supply: Supply,
}

impl Check<'_> {
    /// Checks the state that the stopped call left in the store over the tables.
    fn check_opened<S: Alter + Drop>(&mut self, created: StateLeft, store: SqlStore<S>) {
        let mut store = store;
        let found = check_store(self.stop, &mut store, &mut self.anew, &mut self.supply);
        self.found = match (self.stop.ending, found) {
            (Ending::CreateSchema, Ok(_)) => Ok(created),
            _ => found,
        };
    }
}

impl Work for Check<'_> {
    fn over<S: Alter + Drop>(&mut self, tables: Connection<S>) -> Option<Connection<S>> {
        let created = schema_left(self.stop, &tables);
        match store_left(self.stop.expected_run, created, tables) {
            Ok(store) => self.check_opened(created, store),
            Err(_) => {
                self.found = Err(Mismatch(match created {
                    StateLeft::Before => "the tables can't be created",
                    StateLeft::After => "the tables aren't adopted",
                }));
            }
        }
        None
    }
}

/// Opens the disks that a run left. Returns the state that the stopped call left, and the number of
/// tokens that are refused as too old.
pub(crate) fn check_left<D: FusedDisk>(
    stop: Stop<'_>,
    disks: Files<D>,
    supply: &mut Supply,
) -> (Result<StateLeft, Mismatch>, u64) {
    let alloc = supply.alloc;
    let mut check = Check {
        stop,
        found: Err(Mismatch("the files aren't opened")),
        anew: 0,
        supply: Supply::new(alloc),
    };
    drop(over_disks(alloc, disks, NEXT_SEED, &mut check));
    supply.note(check.supply.result());
    (check.found, check.anew)
}
