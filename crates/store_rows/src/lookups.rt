//! Laws of look-ups: a look-up by key in a table is a look-up in the books. Each law is stated in
//! `specs/LookupLaws.antt`.
ghost use Rattle.store_rows.specs.LookupLaws.{BooksAreFound, BooksAreMissing, MembersAreFound};
ghost use Rattle.store_rows.specs.LookupLaws.{MembersAreMissing, ImportsAreFound};
ghost use Rattle.store_rows.specs.LookupLaws.{ImportsAreMissing, KeepsAreFound};

/// The look-up of a name in `book`.
/// - `found`: in sound rows, if it returns a row with a header, the table has the row of this name
///   and header, and its book is the book of the name.
/// - `missing`: if it returns no row, no row and no book has the name.
pub fn find_book_is_get()
    ensures found { BooksAreFound }
    ensures missing { BooksAreMissing }
{}

/// The look-up of a UID in a book.
/// - `found`: in sound rows, if it returns a row, the row gives the live card of the UID, or none.
/// - `missing`: if it returns no row, no card of the UID is live.
pub fn find_member_is_get()
    ensures found { MembersAreFound }
    ensures missing { MembersAreMissing }
{}

/// The look-up of an import key in a book.
/// - `found`: in sound rows, if it returns a row, the row gives the result that the book keeps
///   under the key.
/// - `missing`: if it returns no row, no row of the book has the key, and the book keeps no result
///   under it.
pub fn find_import_is_get()
    ensures found { ImportsAreFound }
    ensures missing { ImportsAreMissing }
{}

/// In sound rows, if the look-up of a book's keep returns a row, its number is the book's keep.
pub fn find_keep_is_the_keep()
    ensures { KeepsAreFound }
{}
