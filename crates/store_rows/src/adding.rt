//! Laws of inserted rows: a new book with its keep, and the result of an import. Each law is stated
//! in `specs/AddLaws.antt`.
ghost use Rattle.store_rows.specs.AddLaws.{BooksAreAdded, KeepsAreAdded, NewBooksAreEmpty};
ghost use Rattle.store_rows.specs.AddLaws.{ImportsAreAdded, ImportsAreKept};

/// A new book over sound rows.
/// - `book_row`: after a row with an unused name and id is inserted into `book` alone, the tables
///   hold the rows and the new book, and they are sound.
/// - `keep_row`: after a keep of a listed book, with no keep so far, is inserted into its table
///   alone, the tables hold the rows and the keep, and they are sound.
/// - `books`: both rows together insert a fresh book with this id and keep under the name, if the
///   rows with the book are sound. The other books are unchanged.
pub fn insert_book_is_creation()
    ensures book_row { BooksAreAdded }
    ensures keep_row { KeepsAreAdded }
    ensures books { NewBooksAreEmpty }
{}

/// The result of an import into a listed book.
/// - `tables`: over sound rows, after a row with an unused id and a key unused in the book is
///   inserted into its table alone, the tables hold the rows and the import. This is a write within
///   the book.
/// - `stored_import`: with the row the book has the result under the key.
pub fn insert_import_is_kept()
    ensures tables { ImportsAreAdded }
    ensures stored_import { ImportsAreKept }
{}
