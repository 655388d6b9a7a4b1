//! Laws of the steps on rows, and of the numbers of tombstones as books change. Each is a function
//! with an empty body, whose clauses hold of all books.
ghost use Rattle.book_model.specs.ImportLaws.{ImportsCountCards, ImportsTakeNumbers};
ghost use Rattle.book_model.specs.CountLaws.{ClearedCountsAreRight, CountedBooksAreRight};
ghost use Rattle.book_model.specs.CountLaws.{CountsOfOthersAreRight, FewerCountsAreRight};
ghost use Rattle.book_model.specs.CountLaws.{SameCountsAreRight, SetCountsAreRight};
ghost use Rattle.book_model.specs.CountLaws.{StoredCardsReplaceTombstones};

/// An import into the rows of a book (`specs/ImportLaws.antt`).
/// - `counts`: cards with distinct UIDs count as added, edited or the same by what was live under
///   their UIDs before the import.
/// - `numbers`: each added or edited card takes one number, each added card is one more arrival,
///   and the departures are unchanged.
pub fn imports_count_cards()
    ensures counts { ImportsCountCards }
    ensures numbers { ImportsTakeNumbers }
{}

/// A card that is stored under the UID of a tombstone takes its place: the book has one tombstone
/// less. Any other stored card leaves their number.
pub fn stored_cards_replace_tombstones()
    ensures { StoredCardsReplaceTombstones }
{}

/// Where one book is changed, the numbers are right afterwards if that of the book is set to its
/// new one or forgotten; and also if they are left alone and the book has as many tombstones as
/// before, or is new.
pub fn counts_follow_changes()
    ensures set { SetCountsAreRight }
    ensures cleared { ClearedCountsAreRight }
    ensures same { SameCountsAreRight }
    ensures created { CountsOfOthersAreRight }
{}

/// Where no book is changed, the numbers stay right if a book is counted, or a number forgotten.
pub fn counts_stay_right()
    ensures counted { CountedBooksAreRight }
    ensures forgotten { FewerCountsAreRight }
{}
