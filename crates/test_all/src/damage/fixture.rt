//! The store that is damaged.
use crate::damage::insert_script::print_script;
use crate::damage::rows::{TABLES, print_table_rows};
use book_store::SqlStore;
use sqlite::{Alter, Connection};
use sync_core::{BookStore, Limits};
use test_support::Printout;
use test_support::scripts::run_script;

/// Three books with six cards, one of which has a folded line, three tombstones and two imports.
const SETUP: &str = "create staff
create clients
create friends
card clients eve FN:Eve
card staff ann FN:Ann
card staff bob FN:Bob
card staff cy FN:Cy
card staff ann FN:Ann\\nNOTE:The quick brown fox jumps over the lazy dog\\\\, and the dog looks on \
    from where it lies\\\\, by the gate of the old yard.
remove staff bob
import staff k1 uid,fn,family,given,email,tel,org,note\\ndee,Dee,,,,,,\\ncy,Cy Lee,,,,,,\\n
move staff cy clients
card clients fay FN:Fay
remove clients eve
forget clients 4
card clients gus FN:Gus
remove clients gus
import friends k2 uid,fn,family,given,email,tel,org,note\\nhal,Hal,,,,,,\\nida,Ida,,,,,,\\n";

/// Pages of 100 entries; 10 books; in a book 100 cards, 1,000,000 changes and 3 tombstones.
pub(crate) fn limits() -> Option<Limits> {
    Limits::new(100, 100, 1_000_000, 10)?.with_keep(3)
}

/// Whether no command was refused or failed.
fn are_all_performed(replies: &str) -> bool {
    for reply in replies.lines() {
        if reply.starts_with("refused") || reply.starts_with("fault") {
            return false;
        }
    }
    true
}

/// How the store that is damaged is printed.
#[derive(Clone, Copy)]
pub(crate) enum Form {
    /// Its rows, one a line.
    Rows,
    /// Statements that insert its rows.
    Script,
}

/// Creates the books of the store that is damaged.
fn create_books<B: BookStore>(store: &mut B, out: &mut Printout) {
    let mut replies = Printout::new(out.alloc());
    run_script(store, SETUP, &mut replies);
    out.supply.note(replies.result());
    if !are_all_performed(replies.as_str()) {
        out.add("** the books aren't created **");
    }
}

/// Prints the rows of the tables in the form.
fn print_tables<S: Alter>(conn: &mut Connection<S>, form: Form, out: &mut Printout) {
    match form {
        Form::Rows => print_table_rows(conn, &TABLES, out),
        Form::Script => print_script(conn, out),
    }
}

/// Creates the books over the new store, and prints its rows in the form.
pub(crate) fn print_fixture<S: Alter + Drop>(store: SqlStore<S>, form: Form, out: &mut Printout) {
    let mut store = store;
    create_books(&mut store, out);
    let mut conn = store.into_connection();
    print_tables(&mut conn, form, out);
}
