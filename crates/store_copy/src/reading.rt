//! Reads all rows of the tables of a store.
ghost use Rattle.store_tables.specs.Tables.{member_tree};
ghost use Rattle.store_check.specs.OnConnections.{AreBookRows};
ghost use Rattle.store_copy.specs.OnConnections.{HasRows};
ghost use Rattle.store_tables.specs.Members.{member_cells};
ghost use Rattle.store_tables.specs.OnConnections.{
  GivenTables,
  ListsTable,
  OnlyReads,
  UnchangedOnOk,
};
ghost use Rattle.std.specs.Prelude.{IfOk};

use sqlite::{Alter, Connection, Error, Row, params};
use store_tables::books::all_books;
use store_tables::imports::all_imports;
use store_tables::keeps::all_keeps;

/// All rows of the tables but that of the members, each table's in the order in which SQLite gives
/// them.
#[derive(Drop)]
pub(crate) struct BookRows {
    pub(crate) books: Vec<Row>,
    pub(crate) imports: Vec<Row>,
    pub(crate) keeps: Vec<Row>,
}

/// All rows of the tables of a store.
#[derive(Drop)]
pub struct StoredRows {
    pub(crate) others: BookRows,
    pub(crate) members: Vec<Row>,
}

/// Reads every row of books, imports and keeps, whatever their columns hold.
pub(crate) fn list_others<S: Alter>(conn: &mut Connection<S>) -> Result<BookRows, Error>
    ensures lists { GivenTables S.Store conn.old conn.new (IfOk result
        (λ listed. AreBookRows S.Store conn.old listed.books.items listed.imports.items
        listed.keeps.items)) }
    ensures unchanged { UnchangedOnOk S.Store conn.old conn.new result }
    ensures reads_only { OnlyReads S.Store conn.old conn.new }
{
    let books = all_books(conn)?;
    let imports = all_imports(conn)?;
    let keeps = all_keeps(conn)?;
    Ok(BookRows {
        books,
        imports,
        keeps,
    })
}

/// Reads every row of the table `member`, whatever its columns hold: the row id, the book, the UID,
/// the number and the card.
fn list_members<S: Alter>(conn: &mut Connection<S>) -> Result<Vec<Row>, Error>
    ensures lists { GivenTables S.Store conn.old conn.new
        (ListsTable S.Store conn.old member_tree member_cells result) }
    ensures reads_only { OnlyReads S.Store conn.old conn.new }
{
    conn.query_all(
        "SELECT rowid, book, uid, changed, card FROM member",
        params![],
    )
}

/// Reads every row of the tables of a store, whatever their columns hold, and keeps them in memory.
/// The error is that of the database, which may be lack of memory.
pub fn list_tables<S: Alter>(conn: &mut Connection<S>) -> Result<StoredRows, Error>
    ensures lists { GivenTables S.Store conn.old conn.new
        (IfOk result (HasRows S.Store conn.old)) }
    ensures reads_only { OnlyReads S.Store conn.old conn.new }
{
    let others = list_others(conn)?;
    let members = list_members(conn)?;
    Ok(StoredRows { others, members })
}
