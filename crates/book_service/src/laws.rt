//! The laws that hold over every run. Each law is a function without run-time effect. Each law is
//! stated in `specs/Promise.antt`; `DevicesStartConsistent` is in
//! `book_laws/specs/DeviceLaws.antt`.
ghost use Rattle.book_laws.specs.DeviceLaws.{DevicesStartConsistent};
ghost use Rattle.book_service.specs.Promise.{Always, NextStateIsSound, InEachBook};
ghost use Rattle.book_service.specs.Promise.{LiveCardsAreLastStored, CountsBalance};
ghost use Rattle.book_service.specs.Promise.{CountsMatchChanges, HistoriesExtend};
ghost use Rattle.book_service.specs.Promise.{MovesTransferOneCard, DevicesStayConsistent};
ghost use Rattle.book_service.specs.Promise.{LastPagesComplete, TokensExpire, ImportsAreIdempotent};
ghost use Rattle.book_service.specs.Promise.{RowsStayWellFormed, RunsAppend, NewStoresStart};
ghost use Rattle.book_service.specs.Promise.{TruncatedPagesAreBounded};

use book_laws::devices::{
    devices_start_consistent, devices_stay_consistent_among_books,
    devices_stay_consistent_over_calls, due_members_are_counted, last_pages_complete_copies,
};
use book_laws::logs::{changes_are_counted, live_cards_are_stored_last};
use book_laws::refinement::{empty_stores_have_no_histories, rows_are_per_book};
use book_laws::runs::{
    calls_extend_histories, histories_stay_sound, imports_are_idempotent, moves_transfer_one_card,
    rows_match_histories_after_calls, tokens_stay_valid,
};
use book_laws::well_formed::calls_keep_books_well_formed;
use sync_core::token_laws::token_texts_are_unique;

/// The promise of the server, over every run of commands and device requests from every sound
/// state. (`starts` and `imports` need no sound state.)
/// - `sound`: every next state is sound: its limits are in range, and each history is sound.
/// - `live`: in a sound state a card is live with a version exactly if its UID's last change stored
///   it and has this number.
/// - `sums`: in a sound state each log is valid, its counts add up to its number of changes, and
///   live cards plus departures are the arrivals.
/// - `counts`: in a sound state each count is the number of changes with its reason.
/// - `books`: each step keeps every book, with its id, events, keep and kept imports, and a horizon
///   that is no lower.
/// - `moves`: a successful move transfers one card between two books, with the returned numbers.
///   All other books and the number of live cards of all books are unchanged.
/// - `starts`: a device without a token is consistent.
/// - `devices`: a device that is consistent before a step is consistent after it.
/// - `last_pages`: after a page that isn't truncated, a consistent device's copy is exactly its
///   book's live cards in the next state, with their versions.
/// - `tokens`: if a book returned a page and later refuses the page's token, the cause is `TooOld`;
///   and a successful `Forget` between was above the token's base, or the book had more removals
///   after that base than its keep.
/// - `imports`: after a successful import, every later successful import into the book with the
///   same key gets the same reply, whatever its body, and changes no book.
pub fn runs_keep_the_promise()
    ensures sound { Always NextStateIsSound }
    ensures live { InEachBook LiveCardsAreLastStored }
    ensures sums { InEachBook CountsBalance }
    ensures counts { InEachBook CountsMatchChanges }
    ensures books { Always HistoriesExtend }
    ensures moves { Always MovesTransferOneCard }
    ensures starts { DevicesStartConsistent }
    ensures devices { Always DevicesStayConsistent }
    ensures last_pages { Always LastPagesComplete }
    ensures tokens { TokensExpire }
    ensures imports { ImportsAreIdempotent }
{
    histories_stay_sound();
    changes_are_counted();
    live_cards_are_stored_last();
    calls_extend_histories();
    moves_transfer_one_card();
    devices_start_consistent();
    devices_stay_consistent_over_calls();
    devices_stay_consistent_among_books();
    last_pages_complete_copies();
    tokens_stay_valid();
    imports_are_idempotent();
    token_texts_are_unique();
}

/// If the rows of a sound state are well formed, so are those of every later state of a run.
pub fn runs_stay_well_formed()
    ensures { RowsStayWellFormed }
{
    histories_stay_sound();
    rows_match_histories_after_calls();
    calls_keep_books_well_formed();
}

/// Two runs form one run exactly if the second starts at the final state of the first.
pub fn runs_append()
    ensures { RunsAppend }
{}

/// Where every request of a device in a run got a page of at most k entries, with k above 0, and at
/// least one of the pages is truncated: the number of truncated pages, times k, is less than the
/// members due at first plus the changes of the book in the run.
pub fn truncated_pages_are_bounded()
    ensures { TruncatedPagesAreBounded }
{
    calls_extend_histories();
    due_members_are_counted();
    rows_are_per_book();
}

/// A store without books matches every state without books, with the limits of that state.
pub fn new_stores_start()
    ensures { NewStoresStart }
{
    empty_stores_have_no_histories();
}
