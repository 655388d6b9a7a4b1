//! Runs the list: a line has a label and statements, separated by a tab.
use crate::damage::calls::CALLS;
use crate::damage::damage::Damage;
use crate::damage::fixture::Form;
use crate::damage::tables::{Task, run_task};
use crate::tables::NewTables;
use std::alloc::Global;
use test_support::Printout;

/// Makes each call over tables of its own, and prints the results.
fn run_calls<N: NewTables>(tables: &N, damage: Damage<'_>, out: &mut Printout) {
    for (name, call) in CALLS {
        out.add_all(&["\n  ", name, ": "]);
        run_task(tables, Task::Call(damage, call), out);
    }
}

/// Runs the line. Its damage is applied to the rows that the script inserts.
fn run_line<N: NewTables>(tables: &N, script: &str, line: &str, out: &mut Printout) {
    let (label, statements) = line.split_once('\t').unwrap_or((line, "no statements"));
    out.add_all(&[label, ":"]);
    run_calls(tables, Damage { script, statements }, out);
    out.add("\n");
}

/// The rows of the store that is damaged, and then the results of each line.
pub(crate) fn run_lines<N: NewTables>(alloc: Global, tables: &N, list: &str) -> Printout {
    let mut out = Printout::new(alloc);
    run_task(tables, Task::Print(Form::Rows), &mut out);
    let mut script = Printout::new(alloc);
    run_task(tables, Task::Print(Form::Script), &mut script);
    out.supply.note(script.result());
    for line in list.lines() {
        run_line(tables, script.as_str(), line, &mut out);
    }
    out
}
