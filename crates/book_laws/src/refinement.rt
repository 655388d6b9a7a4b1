//! The rows of a store refine histories: each call returns the same from the rows as from the
//! histories, and the rows afterwards are those of the histories afterwards.
ghost use Rattle.book_laws.specs.ChangeRefinement.{RemoveRefines, MoveRefines, ImportRefines};
ghost use Rattle.book_laws.specs.ChangeRefinement.{ForgetRefines, EmptyStoresHaveNoHistories};
ghost use Rattle.book_laws.specs.ChangeRefinement.{CreateRefines, PutRefines};
ghost use Rattle.book_laws.specs.RowLaws.{RowsArePerBook};
ghost use Rattle.book_laws.specs.QueryRefinement.{BooksRefine, BookLinesRefine, GetRefines};
ghost use Rattle.book_laws.specs.QueryRefinement.{CardsRefine, KeptImportsRefine, TalliesRefine};
ghost use Rattle.book_laws.specs.QueryRefinement.{ReportsRefine};

/// The rows under a name are those of the history under that name, and there are none where it has
/// no history (`specs/RowLaws.antt`).
pub fn rows_are_per_book()
    ensures { RowsArePerBook }
{}

/// A store without histories is sound, and its rows are those of a store without books
/// (`specs/ChangeRefinement.antt`).
pub fn empty_stores_have_no_histories()
    ensures { EmptyStoresHaveNoHistories }
{}

/// From sound histories and limits in range, creating a book returns on their rows what it returns
/// on the histories, or the same refusal. The rows afterwards are those of the histories
/// afterwards, which are sound (`specs/ChangeRefinement.antt`).
pub fn create_refines_histories()
    ensures { CreateRefines }
{}

/// From sound histories, a put of a card returns on their rows what it returns on the histories, or
/// the same refusal. The rows afterwards are those of the histories afterwards, which are sound
/// (`specs/ChangeRefinement.antt`).
pub fn put_refines_histories()
    ensures { PutRefines }
{}

/// From sound histories, a removal of a card returns on their rows what it returns on the
/// histories, or the same refusal. The rows afterwards are those of the histories afterwards, which
/// are sound (`specs/ChangeRefinement.antt`).
pub fn remove_refines_histories()
    ensures { RemoveRefines }
{}

/// From sound histories, a move of a card returns on their rows what it returns on the histories,
/// or the same refusal. The rows afterwards are those of the histories afterwards, which are sound
/// (`specs/ChangeRefinement.antt`).
pub fn move_refines_histories()
    ensures { MoveRefines }
{}

/// From sound histories, an import returns on their rows what it returns on the histories, or the
/// same refusal. The rows afterwards are those of the histories afterwards, which are sound
/// (`specs/ChangeRefinement.antt`).
pub fn import_refines_histories()
    ensures { ImportRefines }
{}

/// From sound histories, a forget returns on their rows what it returns on the histories, or the
/// same refusal. The rows afterwards are those of the histories afterwards, which are sound
/// (`specs/ChangeRefinement.antt`).
pub fn forget_refines_histories()
    ensures { ForgetRefines }
{}

/// From sound histories, every page that their rows allow is the page of the history, or both are
/// refused alike (`specs/QueryRefinement.antt`).
pub fn reports_refine_histories()
    ensures { ReportsRefine }
{}

/// The rows of histories return the same as the histories (`specs/QueryRefinement.antt`).
/// - `all`: for the lines of all books.
/// - `one`: for the line of one book, or the same refusal.
pub fn book_lines_refine_histories()
    ensures all { BooksRefine }
    ensures one { BookLinesRefine }
{}

/// The rows of histories return the same as the histories, or the same refusal
/// (`specs/QueryRefinement.antt`).
/// - `one`: for the card under a UID.
/// - `all`: for all cards of a book.
pub fn cards_refine_histories()
    ensures one { GetRefines }
    ensures all { CardsRefine }
{}

/// The rows of histories return the same kept import under a key as the histories, or the same
/// refusal (`specs/QueryRefinement.antt`).
pub fn kept_imports_refine_histories()
    ensures { KeptImportsRefine }
{}

/// The rows of sound histories return the same tally of a book as the histories, or the same
/// refusal (`specs/QueryRefinement.antt`).
pub fn tallies_refine_histories()
    ensures { TalliesRefine }
{}
