//! The law that the tokens of pages survive a round trip through text.
ghost use Rattle.book_service.specs.PageTokenLaws.{PageTokensHaveTexts};

use book_laws::well_formed::pages_fit_well_formed_books;

/// Where the limits are in range, the text written for the token of a page of well-formed books is
/// a valid text of this token (`specs/PageTokenLaws.antt`).
pub fn page_tokens_have_texts()
    ensures { PageTokensHaveTexts }
{
    pages_fit_well_formed_books();
}
