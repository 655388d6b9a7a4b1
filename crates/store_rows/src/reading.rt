//! Laws of sorted queries: the due members of a report, the cards of a book, and all books. Each
//! law is stated in `specs/ReadLaws.antt`.
ghost use Rattle.store_rows.specs.ReadLaws.{MoreAreFirst, NoMoreAreAll, MembersAreCards};
ghost use Rattle.store_rows.specs.ReadLaws.{AllBooksAreListed, AllBooksAreCounted};

/// The query for the first due members of a book, in sound rows, at most one more than the page
/// size.
/// - `more`: if it returns one row more than the page size, which is at least 1, the others are the
///   first due members, and more are due.
/// - `all`: otherwise the rows are all due members.
pub fn first_due_is_report()
    ensures more { MoreAreFirst }
    ensures all { NoMoreAreAll }
{}

/// In sound rows, the members of a book that the query returns, added to a map one after another
/// where they are live, are the live cards of the book.
pub fn members_of_is_cards()
    ensures { MembersAreCards }
{}

/// The queries for all books, in sound rows.
/// - `lines`: the rows, in the order of names, give the lines of the books.
/// - `count`: the count of the rows, if it is below 2^63 - 1, is the number of books.
pub fn all_books_are_lines()
    ensures lines { AllBooksAreListed }
    ensures count { AllBooksAreCounted }
{}
