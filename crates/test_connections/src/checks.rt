//! Checks that print a line only if they fail.

use test_support::Printout;

/// Prints what was checked, unless it holds.
pub(crate) fn check(holds: bool, what: &str, out: &mut Printout) {
    if !holds {
        out.add_all(&["** ", what, "\n"]);
    }
}
