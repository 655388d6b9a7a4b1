//! The rows of every store are well formed. Each law is stated in `specs/WellFormedLaws.antt`.
ghost use Rattle.book_laws.specs.WellFormedLaws.{EmptyStoresAreWellFormed, CreateKeepsWellFormed};
ghost use Rattle.book_laws.specs.WellFormedLaws.{PutKeepsWellFormed, RemoveKeepsWellFormed};
ghost use Rattle.book_laws.specs.WellFormedLaws.{MoveKeepsWellFormed, ImportKeepsWellFormed};
ghost use Rattle.book_laws.specs.WellFormedLaws.{ForgetKeepsWellFormed, CallsKeepWellFormed};
ghost use Rattle.book_laws.specs.WellFormedLaws.{PagesFitBooks, PagesHaveShortNumbers};
ghost use Rattle.book_laws.specs.WellFormedLaws.{OtherBooksTokensAreRefused};

/// A store without books is well formed, under any limits.
pub fn new_stores_are_well_formed()
    ensures { EmptyStoresAreWellFormed }
{}

/// From well-formed books, each step that isn't refused leaves well-formed books, also by greater
/// limits than those of the step.
/// - `create`: a new book, where the limits are in range.
/// - `put`: a put of a card.
/// - `remove`: a removal of a card.
/// - `move_card`: a move of a card.
/// - `import`: an import.
/// - `forget`: a forget.
pub fn steps_keep_books_well_formed()
    ensures create { CreateKeepsWellFormed }
    ensures put { PutKeepsWellFormed }
    ensures remove { RemoveKeepsWellFormed }
    ensures move_card { MoveKeepsWellFormed }
    ensures import { ImportKeepsWellFormed }
    ensures forget { ForgetKeepsWellFormed }
{}

/// Well-formed books stay well formed after every list of calls, accepted or refused, where the
/// limits are in range.
pub fn calls_keep_books_well_formed()
    ensures { CallsKeepWellFormed }
{}

/// Pages of reports of well-formed books.
/// - `fit`: a page has the id of its book, `at` <= `base` <= the book's number in its mark, and
///   each changed entry has a version from 1 to this number and a card with its own UID.
/// - `short_numbers`: where the limits are in range, the three numbers of a page's token have at
///   most 13 digits.
/// - `other_books`: a book refuses a token with the id of another book of the store as `OtherBook`.
pub fn pages_fit_well_formed_books()
    ensures fit { PagesFitBooks }
    ensures short_numbers { PagesHaveShortNumbers }
    ensures other_books { OtherBooksTokensAreRefused }
{}
