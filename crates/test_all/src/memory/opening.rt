//! Opens stores over the tables of a connection in memory. If a store isn't opened, the connection
//! is dropped, and with it its tables: then another connection is used to repeat the call.

use crate::first_schema::store_over;
use crate::memory::tables::OverTables;
use crate::tables::NewTables;
use book_service::Reply;
use book_store::{OpenFault, SqlStore};
use sqlite::{Alter, Connection};
use std::alloc::Global;
use test_support::Supply;
use test_support::oom::{Harness, filled_store, limits, query_books};

/// The books of an opened store, or why it wasn't opened.
pub(crate) type Books = Result<Vec<Reply>, OpenFault>;

/// The books of an opened store, or why it wasn't opened.
pub(crate) fn books_of_opened<S: Alter + Drop>(
    opened: Result<SqlStore<S>, OpenFault>,
    supply: &mut Supply,
) -> Books {
    match opened {
        Ok(store) => {
            let mut store = store;
            Ok(query_books(&mut store, supply))
        }
        Err(fault) => Err(fault),
    }
}

/// The connection of a filled store.
fn filled_tables<N: NewTables>(tables: &N, supply: &mut Supply) -> Option<Connection<N::Pages>> {
    match filled_store(&OverTables { tables }, supply) {
        Some(store) => Some(store.into_connection()),
        None => None,
    }
}

/// What is called in the window.
#[derive(Clone, Copy)]
enum Opening {
    OpenInMemory,
    Adopt,
}

/// Makes the call, over the filled tables if it needs them.
fn open<N: NewTables>(
    alloc: Global,
    tables: &N,
    filled: Option<Connection<N::Pages>>,
) -> Result<SqlStore<N::Pages>, OpenFault> {
    match filled {
        Some(filled) => store_over(alloc, filled, limits()),
        None => tables.new_store(alloc, limits()),
    }
}

/// The filled tables that the call needs.
fn filled_for<N: NewTables>(
    opening: Opening,
    tables: &N,
    supply: &mut Supply,
) -> Option<Connection<N::Pages>> {
    match opening {
        Opening::OpenInMemory => None,
        Opening::Adopt => filled_tables(tables, supply),
    }
}

/// Makes the call with all memory, and reads the books.
fn open_freely<N: NewTables>(opening: Opening, tables: &N, supply: &mut Supply) -> Books {
    let filled = filled_for(opening, tables, supply);
    books_of_opened(open(supply.alloc, tables, filled), supply)
}

/// Makes the call in a window, and reports the outcome.
fn run_case<N: NewTables>(harness: &mut Harness, tables: &N, name: &str, opening: Opening) {
    let expected = open_freely(opening, tables, &mut harness.supply);
    let filled = filled_for(opening, tables, &mut harness.supply);
    harness.open_window(name);
    let opened = open(harness.alloc(), tables, filled);
    harness.close_window();
    let answer = books_of_opened(opened, &mut harness.supply);
    let again = open_freely(opening, tables, &mut harness.supply);
    let ran_out = matches!(&answer, Err(OpenFault::Memory));
    harness.report_stateless(expected, ran_out, answer, again);
}

/// Runs the selected cases of opening.
pub(crate) fn run_opening<N: NewTables>(harness: &mut Harness, tables: &N) {
    if harness.is_selected("open_in_memory") {
        run_case(harness, tables, "open_in_memory", Opening::OpenInMemory);
    }
    if harness.is_selected("adopt") {
        run_case(harness, tables, "adopt", Opening::Adopt);
    }
}
