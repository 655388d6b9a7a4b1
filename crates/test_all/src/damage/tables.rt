//! Runs tasks over new stores.
use crate::damage::calls::{Call, run_call};
use crate::damage::damage::Damage;
use crate::damage::fixture::{Form, limits, print_fixture};
use crate::tables::NewTables;
use book_store::SqlStore;
use sqlite::Alter;
use sync_core::Limits;
use test_support::Printout;

/// A task over a new store.
#[derive(Clone, Copy)]
pub(crate) enum Task<'a> {
    /// Create the books, and print the rows in the form.
    Print(Form),
    /// Make the call over the damaged tables.
    Call(Damage<'a>, Call),
}

/// Runs the task over the new store.
fn run_task_over<S: Alter + Drop>(store: SqlStore<S>, task: Task<'_>, out: &mut Printout) {
    match task {
        Task::Print(form) => print_fixture(store, form, out),
        Task::Call(damage, call) => {
            let mut conn = store.into_connection();
            run_call(&mut conn, damage, call, out);
        }
    }
}

/// Runs the task over a new store with these limits.
fn run_task_with<N: NewTables>(tables: &N, limits: Limits, task: Task<'_>, out: &mut Printout) {
    match tables.new_store(out.alloc(), limits) {
        Ok(store) => run_task_over(store, task, out),
        Err(_) => out.supply.ran_out = true,
    }
}

/// Runs the task over a new store.
pub(crate) fn run_task<N: NewTables>(tables: &N, task: Task<'_>, out: &mut Printout) {
    match limits() {
        Some(limits) => run_task_with(tables, limits, task, out),
        None => out.supply.ran_out = true,
    }
}
