//! Prints the rows of a store as SQL statements that insert them.
//!
//! With them the commands that create the store are performed only once, and not for each line.
use crate::damage::rows::{BOOK, IMPORT, KEEPING, MEMBER, print_number, print_octets};
use sqlite::types::ValueRef;
use sqlite::{Alter, Connection, Row, params};
use test_support::Printout;

/// Prints a value as an SQL literal. A store has no value of any other type.
fn print_literal(value: ValueRef<'_>, script: &mut Printout) {
    match value {
        ValueRef::Null => script.add("NULL"),
        ValueRef::Int(number) => print_number(number, script),
        ValueRef::Text(octets) => {
            script.add("CAST(");
            print_octets(octets, script);
            script.add(" AS TEXT)");
        }
        ValueRef::Real(_) => script.supply.ran_out = true,
        ValueRef::Blob(_) => script.supply.ran_out = true,
    }
}

/// Prints a statement that inserts the row.
fn print_insert(table: &str, row: &Row, script: &mut Printout) {
    script.add_all(&["INSERT INTO ", table, " VALUES ("]);
    for at in 0..row.column_count() {
        if at > 0 {
            script.add(", ");
        }
        if let Some(value) = script.supply.keep(row.get_ref(at)) {
            print_literal(value, script);
        }
    }
    script.add(");");
}

/// Prints statements that insert the rows of the query.
fn print_inserts<S: Alter>(
    conn: &mut Connection<S>,
    table: &str,
    query: &str,
    script: &mut Printout,
) {
    let rows = conn.query_all(query, params![]);
    if let Some(rows) = script.supply.keep(rows) {
        for row in rows.as_slice() {
            print_insert(table, row, script);
        }
    }
}

/// Prints statements that insert the rows of all books.
pub(crate) fn print_script<S: Alter>(conn: &mut Connection<S>, script: &mut Printout) {
    let tables = [
        ("book", BOOK),
        ("member", MEMBER),
        ("import_key", IMPORT),
        ("keeping", KEEPING),
    ];
    for (table, query) in tables {
        print_inserts(conn, table, query, script);
    }
}
