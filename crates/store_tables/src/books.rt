//! Statements over the table `book`.
//!
//! A new book is accepted, in the sense of `WritesRow`, if no book has the id or the name, and the
//! name has at most 2^20 octets; new numbers are if a book has the id, and its name has at most
//! 2^20 octets.
ghost use Rattle.store_tables.specs.Tables.{book_tree};
ghost use Rattle.store_tables.specs.QueryResults.{AreRowsInOrder, FindsRow, counted};
ghost use Rattle.store_tables.specs.Books.{
  book_listed,
  book_shown,
  book_table,
  by_name,
  has_name,
  numbers,
  numbers_of,
  numbers_shown,
};
ghost use Rattle.store_tables.specs.OnConnections.{
  AddsBook,
  GivenTables,
  ListsTable,
  LooksUp,
  Reads,
};
ghost use Rattle.store_tables.specs.Writes.{GivenAcceptedBook, InsertsRow, RenumbersBook};
ghost use Rattle.std.specs.Prelude.{◌≡◌, IfOk, length};

use crate::counts::count_in;
use sqlite::{Alter, Connection, Error, Row, Transaction, params};

/// The nine number columns of a book: its last change, its horizon and its counts.
#[derive(Clone, Copy, Debug, PartialEq, Eq)]
pub struct BookNumbers {
    /// The number of the last change; 0 before the first change.
    pub number: i64,
    /// Removals up to this number are forgotten; 0 at first.
    pub horizon: i64,
    /// Puts of a card whose UID was not live.
    pub created: i64,
    /// Puts that replaced a live card of the same UID.
    pub edited: i64,
    /// Imported cards whose UID was not live.
    pub imported: i64,
    /// Imported cards that replaced a live card of the same UID.
    pub import_edited: i64,
    /// Cards moved in from another book.
    pub moved_in: i64,
    /// Cards removed.
    pub deleted: i64,
    /// Cards moved out to another book.
    pub moved_out: i64,
}

/// Returns the id and the nine numbers of the book with this name, in the order of [`BookNumbers`].
///
/// Fails with `QueryReturnedNoRows` if no book has the name.
pub fn find_book<S: Alter>(conn: &mut Connection<S>, name: &str) -> Result<Row, Error>
    // The row is that of a book with the name. `QueryReturnedNoRows` is returned only if no book
    // has it.
    ensures { LooksUp S.Store conn.old conn.new book_table result
        (λ bs. FindsRow (has_name name.now) numbers_shown bs result) }
{
    conn.query_row(
        "SELECT id, number, horizon, created, edited, imported, import_edited, moved_in, deleted, \
         moved_out FROM book WHERE name = ?1",
        params![name],
    )
}

/// Returns the number of books. The error is that of the database.
pub fn count_books<S: Alter>(conn: &mut Connection<S>) -> Result<u64, Error>
    // It is their number, or 2^63 - 1 if there are more.
    ensures { Reads S.Store conn.old conn.new book_table result
        (λ bs. IfOk result (λ count. count ≡ counted (length bs))) }
{
    let row = conn.query_row("SELECT COUNT(*) FROM book", params![])?;
    count_in(&row)
}

/// Inserts an empty book with this id and name; its nine numbers are 0.
///
/// Fails with a constraint error if a book has the id or the name.
pub fn insert_book<S: Alter>(
    tx: &mut Transaction<'_, S>,
    id: i64,
    name: &str,
) -> Result<usize, Error>
    // The table holds the books and the empty one, and none of them had its id.
    ensures { InsertsRow S.Store tx.old tx.new book_table result
        (AddsBook S.Store tx.new.conn.now id name.now)
        (GivenAcceptedBook S.Store tx.old tx.new id name.now) }
{
    tx.execute(
        "INSERT INTO book (id, name, number, horizon, created, edited, imported, import_edited, \
         moved_in, deleted, moved_out) VALUES (?1, ?2, 0, 0, 0, 0, 0, 0, 0, 0, 0)",
        params![id, name],
    )
}

fn renumber<S: Alter>(
    tx: &mut Transaction<'_, S>,
    id: i64,
    number: i64,
    horizon: i64,
    created: i64,
    edited: i64,
    imported: i64,
    import_edited: i64,
    moved_in: i64,
    deleted: i64,
    moved_out: i64,
) -> Result<usize, Error>
    ensures { RenumbersBook S.Store tx.old tx.new id
        (numbers number horizon created edited imported import_edited moved_in deleted moved_out)
        result }
{
    tx.execute(
        "UPDATE book SET number = ?2, horizon = ?3, created = ?4, edited = ?5, imported = ?6, \
         import_edited = ?7, moved_in = ?8, deleted = ?9, moved_out = ?10 WHERE id = ?1",
        params![
            id,
            number,
            horizon,
            created,
            edited,
            imported,
            import_edited,
            moved_in,
            deleted,
            moved_out
        ],
    )
}

/// Sets the nine numbers of the book with this id; its name stays. The clauses on success assume
/// that a book has the id.
pub fn renumber_book<S: Alter>(
    tx: &mut Transaction<'_, S>,
    id: i64,
    numbers: BookNumbers,
) -> Result<usize, Error>
    ensures { RenumbersBook S.Store tx.old tx.new id (numbers_of numbers) result }
{
    renumber(
        tx,
        id,
        numbers.number,
        numbers.horizon,
        numbers.created,
        numbers.edited,
        numbers.imported,
        numbers.import_edited,
        numbers.moved_in,
        numbers.deleted,
        numbers.moved_out,
    )
}

/// Returns the id, the name and the nine numbers of every book, in the order of the octets of the
/// names. No row is left out, whatever its columns hold.
pub fn all_books<S: Alter>(conn: &mut Connection<S>) -> Result<Vec<Row>, Error>
    ensures reads { Reads S.Store conn.old conn.new book_table result
        (λ bs. IfOk result (λ rows. AreRowsInOrder by_name book_shown bs rows.items)) }
    ensures lists { GivenTables S.Store conn.old conn.new
        (ListsTable S.Store conn.old book_tree book_listed result) }
{
    conn.query_all(
        "SELECT id, name, number, horizon, created, edited, imported, import_edited, moved_in, \
         deleted, moved_out FROM book ORDER BY name",
        params![],
    )
}
