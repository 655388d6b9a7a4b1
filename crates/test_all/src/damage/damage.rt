//! Inserts rows into tables, and damages them by SQL statements.
use sqlite::{Alter, Connection, Error, ErrorCode};
use test_support::Printout;

/// Statements that insert the rows of a store, and statements that damage them.
#[derive(Clone, Copy)]
pub(crate) struct Damage<'a> {
    pub(crate) script: &'a str,
    pub(crate) statements: &'a str,
}

/// The text for statements that failed: a constraint of a table doesn't allow them, or the database
/// returned another error.
fn error_text(error: Error) -> &'static str {
    match error {
        Error::SqliteFailure(ErrorCode::ConstraintViolation(_)) => "not done",
        Error::SqliteFailure(ErrorCode::TypeMismatch) => "not done",
        _ => "** failed **",
    }
}

/// Runs the statements up to the first one that fails, and prints a text for it. Returns whether
/// all were run.
fn run_statements<S: Alter>(
    conn: &mut Connection<S>,
    statements: &str,
    out: &mut Printout,
) -> bool {
    match conn.execute_batch(statements) {
        Ok(()) => true,
        Err(error) => {
            out.add(error_text(error));
            false
        }
    }
}

/// Inserts the rows into the tables of a new store, and damages them. Returns whether that
/// succeeded.
pub(crate) fn apply_damage<S: Alter>(
    conn: &mut Connection<S>,
    damage: Damage<'_>,
    out: &mut Printout,
) -> bool {
    run_statements(conn, damage.script, out) && run_statements(conn, damage.statements, out)
}
