//! Laws of tables and their books. Each law is stated in `specs/TableLaws.antt` or
//! `specs/TablesOfBooks.antt`.
ghost use Rattle.store_rows.specs.TableLaws.{BooksAreHeld, OrderIsIrrelevant};
ghost use Rattle.store_rows.specs.TableLaws.{EmptyTablesHoldNoBooks};
ghost use Rattle.store_rows.specs.TablesOfBooks.{TablesAreOfBooks};

/// The books of tables that hold sound rows.
/// - `books`: they are the books of the rows.
/// - `order`: they are the same in two databases that hold the same rows.
pub fn books_ignore_row_order()
    ensures books { BooksAreHeld }
    ensures order { OrderIsIrrelevant }
{}

/// Tables that hold no rows have no books, and an empty list of rows is sound.
pub fn empty_tables_hold_no_books()
    ensures { EmptyTablesHoldNoBooks }
{}

/// Tables that hold well-formed books are computed from the books, but for the order of the rows
/// and the ids of members and imports.
pub fn tables_are_of_their_books()
    ensures { TablesAreOfBooks }
{}
