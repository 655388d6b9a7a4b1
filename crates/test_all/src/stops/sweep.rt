//! Stops the list at each call of one file's disk.

use crate::stops::checking::{Stop, check_left};
use crate::stops::disks::{CrashKind, FuseAt, FusedDisk, NO_FUSE, Place, copy_disks, is_burnt};
use crate::stops::run::{Ending, Run, run_list};
use named_files::crash_files;
use sqlite::Files;
use std::alloc::Global;
use test_support::Printout;
use test_support::crash_plans::commands::Kind;
use test_support::crash_plans::counts::{NO_STATES, NO_STOPS, StateCounts, StateLeft, StopCounts};
use test_support::crash_plans::expected_run::ExpectedRun;
use test_support::crash_plans::mismatch::Mismatch;

/// A sweep ends after this number of calls, which none should reach.
pub(crate) const CALLS_MAX: u64 = 100_000;

/// The counts of a sweep, and the lines of its findings, whose memory is that of the whole sweep.
#[derive(Drop)]
pub(crate) struct Sweep {
    pub(crate) stops: StopCounts,
    written: StateCounts,
    synced: StateCounts,
    pub(crate) findings: Printout,
}

impl Sweep {
    pub(crate) fn new(alloc: Global) -> Sweep {
        Sweep {
            stops: NO_STOPS,
            written: NO_STATES,
            synced: NO_STATES,
            findings: Printout::new(alloc),
        }
    }

    /// Adds a finding.
    pub(crate) fn add_finding(&mut self, calls: u64, what: &str) {
        self.findings.add_labelled("** after ", calls);
        self.findings.add_all(&[" calls: ", what, "\n"]);
    }

    /// Adds the finding that the disks weren't returned. Returns `false`, which ends the sweep.
    pub(crate) fn add_no_disks(&mut self, calls: u64) -> bool {
        self.add_finding(calls, "the disks are gone");
        false
    }

    /// Counts the stop of the run, or adds a finding if there was none. Adds a finding for
    /// unexpected replies before it too. Returns whether the run was stopped.
    fn count_stop(&mut self, run: &Run<'_>, calls: u64, is_burnt: bool) -> bool {
        self.findings.supply.note(run.supply.result());
        if run.unexpected > 0 {
            self.add_finding(calls, "another reply before the stop");
        }
        if is_burnt {
            self.stops.add(kind_of_ending(run.expected_run, run.ending));
            return true;
        }
        if matches!(run.ending, Ending::End) {
            return false;
        }
        self.add_finding(calls, "a fault without a stop");
        true
    }

    /// Counts tokens that were refused as too old.
    fn add_anew(&mut self, way: CrashKind, anew: u64) {
        match way {
            CrashKind::Written => self.written.add_anew(anew),
            CrashKind::Synced => self.synced.add_anew(anew),
        }
    }

    /// Counts the state after a crash, or adds a finding.
    pub(crate) fn count_state(
        &mut self,
        calls: u64,
        way: CrashKind,
        found: Result<StateLeft, Mismatch>,
    ) {
        match way {
            CrashKind::Written => self.written.add(found.ok()),
            CrashKind::Synced => self.synced.add(found.ok()),
        }
        if let Err(Mismatch(what)) = found {
            self.findings.add_labelled("** after ", calls);
            self.findings.add(" calls: ");
            self.findings.add(way.name());
            self.findings.add_all(&[": ", what, "\n"]);
        }
    }

    /// Prints the counts of the file's stops and the findings, one a line.
    pub(crate) fn print(&self, place: Place, out: &mut Printout) {
        out.add("-- the ");
        out.add(place.name());
        out.add_labelled(" fails: ", self.stops.sum());
        out.add(" stops\n");
        self.stops.print(out);
        self.written.print(CrashKind::Written.name(), out);
        self.synced.print(CrashKind::Synced.name(), out);
        out.add_printout(&self.findings);
    }
}

/// The operation that the stop interrupted.
fn kind_of_ending(expected_run: &ExpectedRun, ending: Ending) -> Kind {
    match ending {
        Ending::CreateSchema => Kind::CreateSchema,
        Ending::Command(place) => expected_run.kind_at(place),
        Ending::Page(_) => Kind::Page,
        Ending::End => Kind::End,
    }
}

/// Checks the disks after one kind of crash.
fn check_way<D: FusedDisk>(
    stop: Stop<'_>,
    disks: Files<D>,
    way: CrashKind,
    calls: u64,
    sweep: &mut Sweep,
) {
    let (found, anew) = check_left(stop, disks, &mut sweep.findings.supply);
    sweep.add_anew(way, anew);
    sweep.count_state(calls, way, found);
}

/// Checks the disks of a stopped run after both kinds of crash.
fn check_both<D: FusedDisk>(stop: Stop<'_>, disks: Files<D>, calls: u64, sweep: &mut Sweep) {
    let written = copy_disks(&disks, NO_FUSE, &mut sweep.findings.supply);
    check_way(stop, written, CrashKind::Written, calls, sweep);
    check_way(stop, crash_files(disks), CrashKind::Synced, calls, sweep);
}

/// Checks the disks of the run. Returns whether it was stopped.
fn check_run<D: FusedDisk>(
    run: &Run<'_>,
    disks: Files<D>,
    fuse: FuseAt,
    sweep: &mut Sweep,
) -> bool {
    let mut disks = disks;
    let is_burnt = is_burnt(&mut disks, fuse.place);
    let is_stopped = sweep.count_stop(run, fuse.calls, is_burnt);
    if is_burnt {
        let stop = Stop {
            expected_run: run.expected_run,
            ending: run.ending,
            followers: &run.followers,
        };
        check_both(stop, disks, fuse.calls, sweep);
    }
    is_stopped
}

/// Performs a new run with this fuse, and checks the disks. Returns whether it was stopped.
fn stop_at<D: FusedDisk>(expected_run: &ExpectedRun, fuse: FuseAt, sweep: &mut Sweep) -> bool {
    let mut run = Run::new(expected_run);
    match run_list::<D>(&mut run, fuse) {
        Some(disks) => check_run(&run, disks, fuse, sweep),
        None => sweep.add_no_disks(fuse.calls),
    }
}

/// Stops the list at each call of the file's disk in turn, until it isn't stopped any more.
pub(crate) fn sweep_list<D: FusedDisk>(
    expected_run: &ExpectedRun,
    place: Place,
    sweep: &mut Sweep,
) {
    for calls in 0..CALLS_MAX {
        if !stop_at::<D>(expected_run, FuseAt { place, calls }, sweep) {
            return;
        }
    }
    sweep.add_finding(CALLS_MAX, "no end");
}
