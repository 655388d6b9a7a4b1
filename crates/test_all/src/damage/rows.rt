//! Prints the rows of tables as they are stored.
use sqlite::types::ValueRef;
use sqlite::{Alter, Connection, Row, params};
use test_support::{Printout, Supply};

/// All rows of each table, in the order of their keys.
const META: &str = "SELECT name, val FROM meta ORDER BY name";

pub(crate) const BOOK: &str =
    "SELECT id, name, number, horizon, created, edited, imported, import_edited, \
                    moved_in, deleted, moved_out FROM book ORDER BY id";

pub(crate) const MEMBER: &str = "SELECT book, uid, changed, card FROM member ORDER BY book, uid";

pub(crate) const IMPORT: &str =
    "SELECT book, ikey, added, edited, same, number FROM import_key ORDER BY book, ikey";

pub(crate) const KEEPING: &str = "SELECT book, keep FROM keeping ORDER BY book";

/// The tables of a store.
pub(crate) const TABLES: [&str; 5] = [META, BOOK, MEMBER, IMPORT, KEEPING];

/// Prints the number.
pub(crate) fn print_number(number: i64, out: &mut Printout) {
    let digits = format!(in out.alloc(); "{number}");
    if let Some(digits) = out.supply.keep(digits) {
        out.add(digits.as_str());
    }
}

/// Prints the octet in hexadecimal.
fn print_octet(octet: u8, out: &mut Printout) {
    let digits = format!(in out.alloc(); "{octet:02x}");
    if let Some(digits) = out.supply.keep(digits) {
        out.add(digits.as_str());
    }
}

/// Prints the octets in hexadecimal.
pub(crate) fn print_octets(octets: &[u8], out: &mut Printout) {
    out.add("x'");
    for octet in octets {
        print_octet(*octet, out);
    }
    out.add("'");
}

/// Prints a number, a text in one line, octets that aren't UTF-8 in hexadecimal, or a hyphen for a
/// null.
fn print_value(value: ValueRef<'_>, out: &mut Printout) {
    match value {
        ValueRef::Null => out.add("-"),
        ValueRef::Int(number) => print_number(number, out),
        ValueRef::Text(octets) => match str::from_utf8(octets) {
            Ok(text) => out.add_escaped(text),
            Err(_) => print_octets(octets, out),
        },
        ValueRef::Real(_) => out.add("** real **"),
        ValueRef::Blob(_) => out.add("** blob **"),
    }
}

/// Prints the row's values as a line, separated by bars.
fn print_row(row: &Row, out: &mut Printout) {
    for at in 0..row.column_count() {
        if at > 0 {
            out.add("|");
        }
        if let Some(value) = out.supply.keep(row.get_ref(at)) {
            print_value(value, out);
        }
    }
    out.add("\n");
}

/// Prints the rows of the query, one a line.
fn print_rows<S: Alter>(conn: &mut Connection<S>, query: &str, out: &mut Printout) {
    let rows = conn.query_all(query, params![]);
    if let Some(rows) = out.supply.keep(rows) {
        for row in rows.as_slice() {
            print_row(row, out);
        }
    }
}

/// Prints the rows of the queries, one a line.
pub(crate) fn print_table_rows<S: Alter>(
    conn: &mut Connection<S>,
    queries: &[&str],
    out: &mut Printout,
) {
    for query in queries {
        print_rows(conn, query, out);
    }
}

/// The rows of the queries, one a line.
pub(crate) fn table_rows<S: Alter>(
    conn: &mut Connection<S>,
    queries: &[&str],
    supply: &mut Supply,
) -> Printout {
    let mut rows = Printout::new(supply.alloc);
    print_table_rows(conn, queries, &mut rows);
    supply.note(rows.result());
    rows
}

/// Prints the words if the queries select other rows than these.
pub(crate) fn print_if_changed<S: Alter>(
    conn: &mut Connection<S>,
    queries: &[&str],
    rows: &Printout,
    words: &str,
    out: &mut Printout,
) {
    let now = table_rows(conn, queries, &mut out.supply);
    if now.as_slice() != rows.as_slice() {
        out.add(words);
    }
}
