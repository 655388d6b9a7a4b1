//! The laws of copies.
ghost use Rattle.store_copy.specs.BooksWithout.{NothingIsLeftOut};
ghost use Rattle.store_copy.specs.RowsWithout.{CopiesHoldTheRest, ListedNamesAreBooks};
ghost use Rattle.store_copy.specs.RowsWithout.{ListedNumbersAreBelow};

/// A copy that leaves out the books with some names holds exactly the other books of the store.
/// Their ids alone are new: they close up, in their order. The law assumes that the copy has
/// exactly the rows of these books, with their new ids, and that the rows of both are sound
/// (`specs/RowsWithout.antt`).
pub fn copies_hold_the_rest()
    ensures { CopiesHoldTheRest }
{}

/// If the number of each listed row of a book is below a bound, so is that of each book. The law
/// assumes that the rows are all those of the store, and that they are sound
/// (`specs/RowsWithout.antt`).
pub fn listed_numbers_are_below()
    ensures { ListedNumbersAreBelow }
{}

/// If each of some names is that of a listed row of a book, each is that of a book. The law assumes
/// that the rows are all those of the store, and that they are sound (`specs/RowsWithout.antt`).
pub fn listed_names_are_books()
    ensures { ListedNamesAreBooks }
{}

/// A copy that leaves out no book has exactly the books of the store (`specs/BooksWithout.antt`).
pub fn nothing_is_left_out()
    ensures { NothingIsLeftOut }
{}
