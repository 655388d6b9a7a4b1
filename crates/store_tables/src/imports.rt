//! Statements over the table `import_key`.
//!
//! An import is accepted, in the sense of `WritesRow`, if the engine has an id for a new row, a book
//! has the id but no import with the key, and the key has at most 2^20 octets.
ghost use Rattle.store_tables.specs.Tables.{import_tree};
ghost use Rattle.store_tables.specs.QueryResults.{FindsRow};
ghost use Rattle.store_tables.specs.Imports.{import_cells, import_shown, has_key, import_table};
ghost use Rattle.store_tables.specs.OnConnections.{
  AddsImport,
  GivenTables,
  ListsTable,
  LooksUp,
  ReadsTables,
};
ghost use Rattle.store_tables.specs.Writes.{GivenAcceptedImport, InsertsRow};

use sqlite::{Alter, Connection, Error, Row, Transaction, params};

/// Returns the stored result of the import with this key in the book with this id: the cards added,
/// edited and unchanged, and the number of the last change.
///
/// Fails with `QueryReturnedNoRows` if the book has no import with the key.
pub fn find_import<S: Alter>(conn: &mut Connection<S>, book: i64, key: &str) -> Result<Row, Error>
    // The row is that of an import of the book with the key. `QueryReturnedNoRows` is returned only
    // if there is none.
    ensures { LooksUp S.Store conn.old conn.new import_table result
        (λ imports. FindsRow (has_key book key.now) import_shown imports result) }
{
    conn.query_row(
        "SELECT added, edited, same, number FROM import_key WHERE book = ?1 AND ikey = ?2",
        params![book, key],
    )
}

/// Stores the result of the import with this key, and the number of its last change, for the book
/// with this id.
///
/// Fails with a constraint error if the book already has an import with the key, or if no book has
/// the id.
pub fn insert_import<S: Alter>(
    tx: &mut Transaction<'_, S>,
    book: i64,
    key: &str,
    added: i64,
    edited: i64,
    same: i64,
    number: i64,
) -> Result<usize, Error>
    // The table holds the imports and the new one, under an id that none of them had.
    ensures { InsertsRow S.Store tx.old tx.new import_table result
        (AddsImport S.Store tx.new.conn.now book key.now added edited same number)
        (GivenAcceptedImport S.Store tx.old tx.new book key.now) }
{
    tx.execute(
        "INSERT INTO import_key (book, ikey, added, edited, same, number) \
         VALUES (?1, ?2, ?3, ?4, ?5, ?6)",
        params![book, key, added, edited, same, number],
    )
}

/// Returns every row of the table, whatever its columns hold: the row id, the book, the key, the
/// cards added, edited and unchanged, and the number of the last change.
pub fn all_imports<S: Alter>(conn: &mut Connection<S>) -> Result<Vec<Row>, Error>
    ensures { ReadsTables S.Store conn.old conn.new result
        (GivenTables S.Store conn.old conn.new
        (ListsTable S.Store conn.old import_tree import_cells result)) }
{
    conn.query_all(
        "SELECT rowid, book, ikey, added, edited, same, number FROM import_key",
        params![],
    )
}
