//! Runs each case with little memory: with none, then with more and more until it has enough.

use crate::memory::cases::run_cases;
use crate::tables::NewTables;
use test_support::oom::{Harness, Outcome};

/// The least amount of memory, in octets. It is doubled until the call has enough.
const FIRST: usize = 64;

const DOUBLINGS: u32 = 18;

/// An amount that is enough is divided into this number of parts: the call gets none of them, then
/// one, then two, and so on.
const PARTS: usize = 16;

/// The outcome of the selected case with this number of octets.
fn outcome_with<N: NewTables>(harness: &mut Harness, tables: &N, octets: usize) -> Outcome {
    harness.limit_memory(octets);
    run_cases(harness, tables);
    harness.outcome()
}

/// The number of octets that is enough for the selected case. Combines the outcomes with fewer and
/// with these into `all`.
fn enough_for<N: NewTables>(harness: &mut Harness, tables: &N, all: &mut Outcome) -> usize {
    let mut enough = 0;
    for doublings in 0..DOUBLINGS {
        enough = FIRST << doublings;
        let outcome = outcome_with(harness, tables, enough);
        *all = all.and(outcome);
        if outcome == Outcome::Same {
            break;
        }
    }
    enough
}

/// The combined outcome of the case with little memory: first with as much as is enough, then with
/// none of the parts of that, with one, and so on.
fn outcome_of<N: NewTables>(harness: &mut Harness, tables: &N, name: &str) -> Outcome {
    let mut all = Outcome::Same;
    harness.select(name);
    let enough = enough_for(harness, tables, &mut all);
    for part in 0..PARTS {
        let octets = (enough / PARTS).saturating_mul(part);
        all = all.and(outcome_with(harness, tables, octets));
    }
    all
}

/// Runs all cases, with all memory and then with little, and prints the outcomes.
pub(crate) fn run_low_memory<N: NewTables>(harness: &mut Harness, tables: &N) {
    harness.select("all");
    run_cases(harness, tables);
    let names = harness.take_case_names();
    for name in names.as_slice() {
        let outcome = outcome_of(harness, tables, name.as_str());
        harness.write(name.as_str());
        harness.write(", with little memory: ");
        harness.write(outcome.line());
    }
}
