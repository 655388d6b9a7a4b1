//! The laws that hold after a store was put back from a copy and resynced. Each law is a function
//! without run-time effect. Each law is stated in `specs/Restores.antt`.
ghost use Rattle.book_service.specs.Restores.{LostTokensAreRefused, LostVersionsNameOneCard};

use book_laws::logs::{live_cards_are_stored_last, versions_are_last};
use book_laws::refinement::{reports_refine_histories, rows_are_per_book};
use book_laws::runs::{
    calls_extend_histories, histories_stay_sound, rows_match_histories_after_calls,
};
use book_resync::laws::lost_times_never_return;
use sync_core::token_laws::token_texts_are_unique;

/// A device notices that the store was put back, and no version of the lost time names another
/// card. Both hold of a book that was in the copy, if the resync takes more numbers of it than were
/// taken in the lost time.
/// - `tokens`: a request with the token of a page of the lost time is refused as too old. So its
///   device starts again; `starts` and `last_pages` of `runs_keep_the_promise` say what follows.
/// - `versions`: if a later card of the same UID has the version of a card of the lost time, it is
///   the same card.
pub fn restores_are_noticed()
    ensures tokens { LostTokensAreRefused }
    ensures versions { LostVersionsNameOneCard }
{
    histories_stay_sound();
    calls_extend_histories();
    rows_match_histories_after_calls();
    rows_are_per_book();
    reports_refine_histories();
    live_cards_are_stored_last();
    versions_are_last();
    lost_times_never_return();
    token_texts_are_unique();
}
