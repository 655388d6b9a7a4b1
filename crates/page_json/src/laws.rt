//! Laws of pages and their JSON. Each is a function without effect at run time, whose clause holds
//! of all pages, values and texts. Each law is stated in `specs/ReportLaws.antt`.
ghost use Rattle.page_json.specs.ReportLaws.{FirstFaultsAreUnique, PagesHaveNoFault};
ghost use Rattle.page_json.specs.ReportLaws.{ReportPagesAreWellFormed, TextsDeterminePages};
ghost use Rattle.page_json.specs.ReportLaws.{ValuesDeterminePages};

use book_laws::well_formed::pages_fit_well_formed_books;
use sync_core::token_laws::token_texts_are_unique;
use vcard_text::laws::card_is_unique;

/// A JSON value encodes at most one page.
pub fn values_determine_pages()
    ensures { ValuesDeterminePages }
{
    // Laws without effect: a text is that of at most one card, and of at most one token.
    card_is_unique();
    token_texts_are_unique();
}

/// A text is that of at most one page.
pub fn texts_determine_pages()
    ensures { TextsDeterminePages }
{
    values_determine_pages();
}

/// The text of a page has no first fault.
pub fn pages_have_no_first_fault()
    ensures { PagesHaveNoFault }
{
    // A law without effect: a text is that of at most one card.
    card_is_unique();
}

/// A text has at most one first fault.
pub fn first_faults_are_unique()
    ensures { FirstFaultsAreUnique }
{
    // A law without effect: a text is that of at most one card.
    card_is_unique();
}

/// Where the limits are in range, every page of a report of well-formed books is well formed: each
/// entry is, and the text written for its token is a valid text of this token.
pub fn report_pages_are_well_formed()
    ensures { ReportPagesAreWellFormed }
{
    // A law without effect: a page fits its book.
    pages_fit_well_formed_books();
}
