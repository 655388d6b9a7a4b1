//! Migrates tables of the first schema to the second.

use crate::first_schema::{create_first_schema, migrate_tables, store_over};
use crate::memory::opening::{Books, books_of_opened};
use crate::tables::NewTables;
use book_store::OpenFault;
use sqlite::{Alter, Connection, Error, params};
use test_support::Supply;
use test_support::oom::{Harness, limits};

/// Queries of the tables, each for one number.
const NUMBERS: [&str; 5] = [
    "SELECT val FROM meta WHERE name = 'schema'",
    "SELECT COUNT(*) FROM book",
    "SELECT SUM(changed) FROM member",
    "SELECT COUNT(*) FROM member WHERE card IS NULL",
    "SELECT SUM(number) FROM book",
];

/// The result of a migration: the number of books, or why the tables weren't migrated.
type Answer = Result<u64, OpenFault>;

/// The number that the query selects.
fn number_of<S: Alter>(tables: &mut Connection<S>, query: &str) -> Result<i64, Error> {
    tables.query_row(query, params![])?.get(0)
}

/// The numbers of the queries, and the number of tables.
fn numbers_of<S: Alter>(tables: &mut Connection<S>, supply: &mut Supply) -> Vec<i64> {
    let mut numbers = Vec::new(supply.alloc);
    for query in NUMBERS {
        if let Some(number) = supply.keep(number_of(tables, query)) {
            supply.note(numbers.push(number));
        }
    }
    let count = tables.schema().tables.len();
    supply.note(numbers.push(i64::try_from(count).unwrap_or(i64::MAX)));
    numbers
}

/// The books of the migrated tables.
fn migrated_books<S: Alter + Drop>(tables: Connection<S>, supply: &mut Supply) -> Books {
    books_of_opened(store_over(supply.alloc, tables, limits()), supply)
}

/// The result of the migration if nothing is refused.
#[derive(Drop)]
struct Expected {
    before: Vec<i64>,
    answer: Answer,
    after: Books,
}

/// The result of the migration of the tables.
fn expected_of<S: Alter + Drop>(tables: Connection<S>, supply: &mut Supply) -> Expected {
    let mut tables = tables;
    supply.note(create_first_schema(&mut tables));
    let before = numbers_of(&mut tables, supply);
    let answer = migrate_tables(supply.alloc, &mut tables);
    Expected {
        before,
        answer,
        after: migrated_books(tables, supply),
    }
}

/// Reports the outcome of the migration. `left` are the numbers of the tables after it, which are
/// migrated again if memory ran out.
fn report_migration<S: Alter + Drop>(
    harness: &mut Harness,
    expected: &Expected,
    tables: Connection<S>,
    answer: Answer,
    left: &Vec<i64>,
) {
    let mut tables = tables;
    let mut answer = answer;
    let ran_out = matches!(&answer, Err(OpenFault::Memory));
    if ran_out {
        answer = migrate_tables(harness.alloc(), &mut tables);
    }
    let books = migrated_books(tables, &mut harness.supply);
    let same = books == expected.after && answer == expected.answer;
    if ran_out {
        harness.report_no_memory(left.as_slice() == expected.before.as_slice(), same, left);
    } else {
        harness.report_answer(same, &answer);
    }
}

/// Migrates the tables in a window.
fn run_migration<S: Alter + Drop>(
    harness: &mut Harness,
    expected: &Expected,
    tables: Connection<S>,
) {
    let mut tables = tables;
    harness.supply.note(create_first_schema(&mut tables));
    harness.open_window("migrate_connection");
    let answer = migrate_tables(harness.alloc(), &mut tables);
    harness.close_window();
    let left = numbers_of(&mut tables, &mut harness.supply);
    report_migration(harness, expected, tables, answer, &left);
}

/// Migrates the second of the two databases in a window, and the first without one.
fn run_over<S: Alter + Drop>(harness: &mut Harness, first: Connection<S>, second: Connection<S>) {
    let expected = expected_of(first, &mut harness.supply);
    run_migration(harness, &expected, second);
}

/// Runs the case of `migrate_connection`, if it is selected.
pub(crate) fn run_migrate_connection<N: NewTables>(harness: &mut Harness, tables: &N) {
    if harness.is_selected("migrate_connection") {
        let first = tables.connect(harness.alloc());
        let second = tables.connect(harness.alloc());
        match (first, second) {
            (Ok(first), Ok(second)) => run_over(harness, first, second),
            _ => harness.supply.ran_out = true,
        }
    }
}
