//! Runs all sweeps, and reports them.

use crate::stops::disks::{FusedDisk, Place};
use crate::stops::migrations::{first_schema_disks, migrated_books, sweep_migration};
use crate::stops::sweep::{Sweep, sweep_list};
use sqlite::Files;
use sqlite_disk::{Fuse, Memory};
use std::alloc::Global;
use sync_core::Limits;
use test_support::Printout;
use test_support::crash_plans::expected_run::ExpectedRun;
use test_support::crash_plans::mismatch::Mismatch;

const PLACES: [Place; 2] = [Place::Database, Place::Log];

/// The number of tombstones that a book keeps, in the first run and in the second.
const KEEPS: [u64; 2] = [10_000, 1];

/// The output, and the number of stops.
#[derive(Drop)]
struct Report {
    output: Printout,
    stops: u64,
}

impl Report {
    /// Prints the lines of a sweep over the file, and counts its stops.
    fn print_sweep(&mut self, place: Place, sweep: &Sweep) {
        self.stops = self.stops.saturating_add(sweep.stops.sum());
        sweep.print(place, &mut self.output);
    }

    /// Prints the title of the list, and the books at its end.
    fn print_list(&mut self, expected_run: &ExpectedRun, keep: u64, name: &str) {
        let count = expected_run.steps.len();
        self.output.add_all(&["==== ", name]);
        self.output.add_labelled(", keep ", keep);
        self.output.add_count(": ", count);
        self.output
            .add_labelled(" commands, ", expected_run.refusals());
        self.output.add(" refused; the books then\n");
        self.output.add_octets(expected_run.books_after(count));
    }
}

/// Sweeps the list over each of the two files.
fn sweep_files<D: FusedDisk>(report: &mut Report, expected_run: &ExpectedRun) {
    for place in PLACES {
        let mut sweep = Sweep::new(report.output.alloc());
        sweep_list::<D>(expected_run, place, &mut sweep);
        report.print_sweep(place, &sweep);
    }
}

/// Sweeps the list, over books that keep this number of tombstones.
fn sweep_with_keep<D: FusedDisk>(report: &mut Report, keep: u64, name: &str, list: &str) {
    if let Some(limits) = Limits::standard().with_keep(keep) {
        let expected_run = ExpectedRun::of_list(limits, list, &mut report.output.supply);
        report.print_list(&expected_run, keep, name);
        sweep_files::<D>(report, &expected_run);
    }
}

/// Sweeps each list of the text, where each is below a line with its name, for each keep.
fn sweep_lists<D: FusedDisk>(report: &mut Report, lists: &str) {
    for part in lists.split("==== ") {
        if let Some((name, list)) = part.split_once('\n') {
            for keep in KEEPS {
                sweep_with_keep::<D>(report, keep, name, list);
            }
        }
    }
}

/// Sweeps the migration of the tables on the disks, over each of the two files.
fn report_migration<D: FusedDisk>(report: &mut Report, first: &Files<D>) -> Result<(), Mismatch> {
    let books = migrated_books(first, &mut report.output.supply)?;
    report
        .output
        .add("==== tables of the first schema, and the books then\n");
    report.output.add_printout(&books);
    for place in PLACES {
        let mut sweep = Sweep::new(report.output.alloc());
        sweep_migration(first, books.as_slice(), place, &mut sweep);
        report.print_sweep(place, &sweep);
    }
    Ok(())
}

/// Creates tables of the first schema, and sweeps their migration.
fn sweep_first_schema<D: FusedDisk>(report: &mut Report) -> Result<(), Mismatch> {
    let first = first_schema_disks::<D>(&mut report.output.supply)?;
    report_migration(report, &first)
}

/// All sweeps: those of the lists, and those of the migration.
fn run_all<D: FusedDisk>(report: &mut Report, lists: &str) {
    sweep_lists::<D>(report, lists);
    if let Err(Mismatch(what)) = sweep_first_schema::<D>(report) {
        report.output.add_all(&["** ", what, "\n"]);
    }
    report.output.add_labelled("==== ", report.stops);
    report.output.add(" stops in all\n");
}

/// Runs all sweeps, and returns their output.
pub(crate) fn run_sweeps(alloc: Global, lists: &str) -> Printout {
    let mut report = Report {
        output: Printout::new(alloc),
        stops: 0,
    };
    run_all::<Fuse<Memory>>(&mut report, lists);
    report.output
}
