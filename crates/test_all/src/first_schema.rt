//! Tables of the first schema, their migration to the second, and stores over migrated tables.

use book_store::{OpenFault, SqlStore};
use sqlite::{Alter, Connection, Error, params};
use std::alloc::Global;
use store_migration::migrate_connection;
use sync_core::Limits;

/// The tables of the first schema, with two books.
const TABLES: &str =
    "CREATE TABLE meta (name TEXT NOT NULL PRIMARY KEY, val INTEGER NOT NULL) STRICT; \
CREATE TABLE book (id INTEGER PRIMARY KEY, name TEXT NOT NULL UNIQUE, number INTEGER NOT NULL, \
horizon INTEGER NOT NULL, created INTEGER NOT NULL, edited INTEGER NOT NULL, \
imported INTEGER NOT NULL, import_edited INTEGER NOT NULL, moved_in INTEGER NOT NULL, \
deleted INTEGER NOT NULL, moved_out INTEGER NOT NULL) STRICT; \
CREATE TABLE member (book INTEGER NOT NULL REFERENCES book(id), uid TEXT NOT NULL, \
changed INTEGER NOT NULL, card TEXT, PRIMARY KEY (book, uid), UNIQUE (book, changed)) STRICT; \
CREATE TABLE import_key (book INTEGER NOT NULL REFERENCES book(id), ikey TEXT NOT NULL, \
added INTEGER NOT NULL, edited INTEGER NOT NULL, same INTEGER NOT NULL, \
number INTEGER NOT NULL, PRIMARY KEY (book, ikey)) STRICT; \
INSERT INTO meta VALUES ('schema', 1); \
INSERT INTO book VALUES (1, 'staff', 9, 0, 5, 1, 0, 0, 0, 3, 0); \
INSERT INTO book VALUES (2, 'clients', 0, 0, 0, 0, 0, 0, 0, 0, 0); \
INSERT INTO member VALUES (1, 'c', 6, NULL); \
INSERT INTO member VALUES (1, 'd', 9, NULL)";

const ANNA: &str = "BEGIN:VCARD\r\nVERSION:4.0\r\nUID:a\r\nFN:Anna\r\nEND:VCARD\r\n";

const BOB: &str = "BEGIN:VCARD\r\nVERSION:4.0\r\nUID:b\r\nFN:Bob\r\nEND:VCARD\r\n";

fn put<S: Alter>(
    conn: &mut Connection<S>,
    uid: &str,
    changed: i64,
    card: &str,
) -> Result<(), Error> {
    conn.execute(
        "INSERT INTO member (book, uid, changed, card) VALUES (1, ?1, ?2, ?3)",
        params![uid, changed, card],
    )?;
    Ok(())
}

/// Creates the tables of the first schema, with their books.
pub(crate) fn create_first_schema<S: Alter>(conn: &mut Connection<S>) -> Result<(), Error> {
    conn.execute_batch(TABLES)?;
    put(conn, "a", 4, ANNA)?;
    put(conn, "b", 7, BOB)
}

/// Migrates the tables. A connection in a transaction is refused; here none is in one.
pub(crate) fn migrate_tables<S: Alter>(
    alloc: Global,
    tables: &mut Connection<S>,
) -> Result<u64, OpenFault> {
    if !tables.is_autocommit() {
        return Err(OpenFault::NotOurs);
    }
    migrate_connection(alloc, tables)
}

/// The store over the tables of the connection, or why there is none.
pub(crate) fn store_over<S: Alter + Drop>(
    alloc: Global,
    tables: Connection<S>,
    limits: Limits,
) -> Result<SqlStore<S>, OpenFault> {
    if !tables.is_autocommit() {
        return Err(OpenFault::NotOurs);
    }
    SqlStore::adopt(alloc, tables, limits)
}
