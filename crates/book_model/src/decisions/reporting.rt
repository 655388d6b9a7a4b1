//! The mark and the size of a report, and its pages (RFC 6578, sections 3.2 to 3.7).
ghost use Rattle.std.specs.Prelude.{◌≡◌, ◌≤◌, IfOk, map, List};
ghost use Rattle.book_model.specs.Pages.{ReportRequest, MemberWithRow, entry_of_row, is_due_row};
ghost use Rattle.book_model.specs.Pages.{requested_mark, page_size, IsReport, AreFirstDueRows};
ghost use Rattle.book_model.specs.Pages.{AreAllDueRows, last_row_number};

use crate::limits::Limits;
use crate::page::{Entry, Page};
use crate::refusal::{Refusal, TokenCause};
use crate::row::Row;
use crate::token::{Mark, Token};
use vcard_text::Items;

/// The mark of the token in the book with this id, number and horizon; without a token, the mark of
/// an initial report.
///
/// Refused with `BadToken`, by the first cause that applies: `OtherBook`, `TooNew`, `TooOld`.
pub fn mark_of(id: u64, number: u64, horizon: u64, token: Option<Token>) -> Result<Mark, Refusal>
    ensures mark { result ≡ requested_mark id number horizon token }
    ensures at_within { IfOk result (λ mark. mark.at ≤ number) }
    ensures base_within { IfOk result (λ mark. mark.base ≤ number) }
{
    let Some(Token { book, mark }) = token else {
        return Ok(Mark {
            at: 0,
            base: number,
        });
    };
    if book != id {
        return Err(Refusal::BadToken(TokenCause::OtherBook));
    }
    if mark.at > number || mark.base > number {
        return Err(Refusal::BadToken(TokenCause::TooNew));
    }
    if mark.base < horizon {
        return Err(Refusal::BadToken(TokenCause::TooOld));
    }
    Ok(mark)
}

/// The most entries of the page: the smaller of the limit and `page_max`. Refused with `BadLimit`
/// where the limit is 0.
pub fn size_of_page(limits: Limits, limit: Option<u64>) -> Result<u64, Refusal>
    ensures size { result ≡ page_size limits.page_max limit }
    ensures least { IfOk result (λ size. 1 ≤ size) }
    ensures within { IfOk result (λ size. size ≤ limits.page_max) }
{
    match limit {
        None => Ok(limits.page_max()),
        Some(0) => Err(Refusal::BadLimit),
        Some(limit) => Ok(limit.min(limits.page_max())),
    }
}

/// Whether the row is due at the mark: it changed after `at`, and its member is live or was removed
/// after `base`.
pub fn is_due(row: &Row, mark: Mark) -> bool
    ensures { result ≡ is_due_row mark row.now }
{
    row.changed > mark.at && (row.card.is_some() || row.changed > mark.base)
}

/// The page of the first due rows at the mark, where there are more. `last` is the number of the
/// last of them.
pub fn truncated_page(id: u64, mark: Mark, entries: Items<Entry>, last: u64) -> Page
    ensures report { (asked : ReportRequest) (rows : List MemberWithRow)
        → AreFirstDueRows asked rows
        → asked.book.id ≡ id → asked.mark ≡ mark → entries ≡ map entry_of_row rows
        → last ≡ last_row_number rows → IsReport asked result }
{
    Page {
        book: id,
        entries,
        mark: Mark {
            at: last,
            base: last.max(mark.base),
        },
        truncated: true,
    }
}

/// The page of all due rows of a book with this number. It isn't truncated, and both numbers of its
/// token are the book's.
pub fn whole_page(id: u64, number: u64, entries: Items<Entry>) -> Page
    ensures report { (asked : ReportRequest) (rows : List MemberWithRow) → AreAllDueRows asked rows
        → asked.book.id ≡ id → asked.book.number ≡ number → entries ≡ map entry_of_row rows
        → IsReport asked result }
{
    Page {
        book: id,
        entries,
        mark: Mark {
            at: number,
            base: number,
        },
        truncated: false,
    }
}
