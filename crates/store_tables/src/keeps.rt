//! Statements over the table `keeping`, which holds the keep of each book: how many removed members
//! it remembers at most.
//!
//! A keep is accepted, in the sense of `WritesRow`, if a book has the id, but no keep.
ghost use Rattle.store_tables.specs.Tables.{keep_tree};
ghost use Rattle.store_tables.specs.QueryResults.{FindsRow};
ghost use Rattle.store_tables.specs.Keeps.{is_keep_of, keep_listed, keep_shown, keep_table};
ghost use Rattle.store_tables.specs.OnConnections.{
  AddsKeep,
  GivenTables,
  ListsTable,
  LooksUp,
  ReadsTables,
};
ghost use Rattle.store_tables.specs.Writes.{GivenAcceptedKeep, InsertsRow};

use sqlite::{Alter, Connection, Error, Row, Transaction, params};

/// Returns the keep of the book with this id.
///
/// Fails with `QueryReturnedNoRows` if the book has no keep.
pub fn find_keep<S: Alter>(conn: &mut Connection<S>, book: i64) -> Result<Row, Error>
    // The row is that of a keep of the book. `QueryReturnedNoRows` is returned only if it has none.
    ensures { LooksUp S.Store conn.old conn.new keep_table result
        (λ keeps. FindsRow (is_keep_of book) keep_shown keeps result) }
{
    conn.query_row("SELECT keep FROM keeping WHERE book = ?1", params![book])
}

/// Sets the keep of the book with this id.
///
/// Fails with a constraint error if the book already has a keep, or if no book has the id.
pub fn insert_keep<S: Alter>(
    tx: &mut Transaction<'_, S>,
    book: i64,
    keep: i64,
) -> Result<usize, Error>
    // The table holds the keeps and the new one, and none of them was of the book.
    ensures { InsertsRow S.Store tx.old tx.new keep_table result
        (AddsKeep S.Store tx.new.conn.now book keep)
        (GivenAcceptedKeep S.Store tx.old tx.new book) }
{
    tx.execute(
        "INSERT INTO keeping (book, keep) VALUES (?1, ?2)",
        params![book, keep],
    )
}

/// Returns every row of the table, whatever its columns hold: the book and its keep.
pub fn all_keeps<S: Alter>(conn: &mut Connection<S>) -> Result<Vec<Row>, Error>
    ensures { ReadsTables S.Store conn.old conn.new result
        (GivenTables S.Store conn.old conn.new
        (ListsTable S.Store conn.old keep_tree keep_listed result)) }
{
    conn.query_all("SELECT book, keep FROM keeping", params![])
}
