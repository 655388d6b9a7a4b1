//! The statements that read tables of the first schema. The contracts of `store_tables` cover only
//! the second.
ghost use Rattle.store_migration.specs.internal.FirstRows.{id_cell};
ghost use Rattle.store_tables.specs.Books.{book_listed};
ghost use Rattle.store_tables.specs.Imports.{import_cells};
ghost use Rattle.store_tables.specs.Members.{member_cells};
ghost use Rattle.store_migration.specs.internal.OnConnections.{
  FailsFromOutsideFirstSchema,
  GivenFirstSchema,
  OnlyReadsFirstSchema,
  UnchangedOnOkFirstSchema,
};
ghost use Rattle.store_tables.specs.OnConnections.{ListsTable};

use sqlite::{Alter, Connection, Error, Row, params};

/// The id of each row of the table `meta`.
pub(crate) fn list_meta_ids<S: Alter>(conn: &mut Connection<S>) -> Result<Vec<Row>, Error>
    ensures lists { GivenFirstSchema S.Store conn.old conn.new
        (ListsTable S.Store conn.old 0 id_cell result) }
    ensures unchanged { UnchangedOnOkFirstSchema S.Store conn.old conn.new result }
    ensures reads_only { OnlyReadsFirstSchema S.Store conn.old conn.new }
    ensures fails_from_outside { FailsFromOutsideFirstSchema S.Store conn.old conn.new result }
{
    conn.query_all("SELECT rowid FROM meta", params![])
}

/// All rows of the table `book`, whatever their contents: the id, the name and the nine numbers.
pub(crate) fn list_books<S: Alter>(conn: &mut Connection<S>) -> Result<Vec<Row>, Error>
    ensures lists { GivenFirstSchema S.Store conn.old conn.new
        (ListsTable S.Store conn.old 2 book_listed result) }
    ensures unchanged { UnchangedOnOkFirstSchema S.Store conn.old conn.new result }
    ensures reads_only { OnlyReadsFirstSchema S.Store conn.old conn.new }
    ensures fails_from_outside { FailsFromOutsideFirstSchema S.Store conn.old conn.new result }
{
    conn.query_all(
        "SELECT id, name, number, horizon, created, edited, imported, import_edited, moved_in, \
         deleted, moved_out FROM book",
        params![],
    )
}

/// All rows of the table `member`, whatever their contents: the row's id, the book, the UID, the
/// number and the card.
pub(crate) fn list_members<S: Alter>(conn: &mut Connection<S>) -> Result<Vec<Row>, Error>
    ensures lists { GivenFirstSchema S.Store conn.old conn.new
        (ListsTable S.Store conn.old 4 member_cells result) }
    ensures unchanged { UnchangedOnOkFirstSchema S.Store conn.old conn.new result }
    ensures reads_only { OnlyReadsFirstSchema S.Store conn.old conn.new }
    ensures fails_from_outside { FailsFromOutsideFirstSchema S.Store conn.old conn.new result }
{
    conn.query_all(
        "SELECT rowid, book, uid, changed, card FROM member",
        params![],
    )
}

/// All rows of the table `import_key`, whatever their contents: the row's id, the book, the key,
/// the numbers of added, edited and unchanged cards, and the number of the last change.
pub(crate) fn list_imports<S: Alter>(conn: &mut Connection<S>) -> Result<Vec<Row>, Error>
    ensures lists { GivenFirstSchema S.Store conn.old conn.new
        (ListsTable S.Store conn.old 7 import_cells result) }
    ensures unchanged { UnchangedOnOkFirstSchema S.Store conn.old conn.new result }
    ensures reads_only { OnlyReadsFirstSchema S.Store conn.old conn.new }
    ensures fails_from_outside { FailsFromOutsideFirstSchema S.Store conn.old conn.new result }
{
    conn.query_all(
        "SELECT rowid, book, ikey, added, edited, same, number FROM import_key",
        params![],
    )
}
