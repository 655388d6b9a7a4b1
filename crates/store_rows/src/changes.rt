//! Laws of the writes within one book: first the rows of its members, then its own row. Each law is
//! stated in `specs/ChangeLaws.antt`.
ghost use Rattle.store_rows.specs.ChangeLaws.{WritesCompose, NoWriteIsWithin, PutsAreHeld};
ghost use Rattle.store_rows.specs.ChangeLaws.{PutsAreRows, CanonicalTextsAreCards};
ghost use Rattle.store_rows.specs.ChangeLaws.{CanonicalTextsAreCanonical, RenumberingIsHeld};
ghost use Rattle.store_rows.specs.ChangeLaws.{WritesChangeOneBook};

use vcard_text::laws::{canonical_text_spells, card_is_computed};

/// After a write within a book the rows are sound, and the rows of `book` and all other books are
/// unchanged.
/// - `composes`: two writes within one book, one after the other, are a write within it.
/// - `none`: no write at all, over sound rows, is a write within any book.
pub fn writes_within_compose()
    ensures composes { WritesCompose }
    ensures none { NoWriteIsWithin }
{}

/// Upserting a member of a listed book, over sound rows.
/// - `tables`: after an upsert that writes `member` alone, the tables hold the rows with the member
///   upserted. This is a write within the book.
/// - `row`: under the book's next number, with the text of the change's card or none, the book with
///   the header after the change is the book with the row of the change.
pub fn put_member_is_with_row()
    ensures tables { PutsAreHeld }
    ensures row { PutsAreRows }
{}

/// The canonical text of a card.
/// - `card`: it reads back as the card.
/// - `canonical`: it is a canonical text.
pub fn canonical_texts_are_cards()
    ensures card { CanonicalTextsAreCards }
    ensures canonical { CanonicalTextsAreCanonical }
{
    canonical_text_spells();
    card_is_computed();
}

/// New numbers of a book, over sound rows.
/// - `tables`: after the numbers of a book are updated, in `book` alone, the tables hold the rows
///   with the new numbers, and they are sound.
/// - `books`: writes within a listed book and then its new numbers replace the book under its name.
///   The other books are unchanged.
pub fn renumber_book_is_insert()
    ensures tables { RenumberingIsHeld }
    ensures books { WritesChangeOneBook }
{}
