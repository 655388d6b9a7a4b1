//! The laws by which a resync is a run, and so a part of the life of a store. Each law is a
//! function without run-time effect, and is stated in `specs/Resyncs.antt`.
ghost use Rattle.book_service.specs.Resyncs.{CardsStayLegal, NewStoresHaveLegalCards};
ghost use Rattle.book_service.specs.Resyncs.{ResyncsAreRuns, ResyncsContinueLives};

use crate::lives::{lives_keep_the_promise, lives_stay_well_formed};
use book_laws::refinement::{
    forget_refines_histories, put_refines_histories, remove_refines_histories, rows_are_per_book,
};
use book_resync::laws::resync_is_commands;
use vcard_text::laws::{canonical_text_spells, spelled_is_card};

/// A text can spell each live card of a store whose cards came from commands.
/// - `starts`: a store without books has no live card that a text can't spell.
/// - `stay`: if a state has none, no later state of a run has one.
pub fn cards_stay_legal()
    ensures starts { NewStoresHaveLegalCards }
    ensures stay { CardsStayLegal }
{
    spelled_is_card();
    rows_are_per_book();
}

/// What a resync does between two runs of the server is a part of the life of the store. The life
/// begins in a sound state, with well-formed rows and with live cards that a text can spell.
/// - `runs`: from such a state a resync is a run. Each of its steps is a put, a removal or a forget
///   that was done, no device changes, and the run leads to the rows of the resync.
/// - `lives`: after each life from such a state, a resync is one more run of the life.
pub fn resyncs_continue_lives()
    ensures runs { ResyncsAreRuns }
    ensures lives { ResyncsContinueLives }
{
    canonical_text_spells();
    put_refines_histories();
    remove_refines_histories();
    forget_refines_histories();
    resync_is_commands();
    lives_keep_the_promise();
    lives_stay_well_formed();
    cards_stay_legal();
}
