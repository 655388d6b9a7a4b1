//! The law that the life of a store goes on over its calls. It is a function without run-time
//! effect, and stated in `specs/StoreLives.antt`.
ghost use Rattle.book_service.specs.StoreLives.{CreationsBeginLives, OpeningsLeadOn};
ghost use Rattle.book_service.specs.StoreLives.{ResyncsLeadOn, RestartsLeadOn, RunsLeadOn};
ghost use Rattle.book_service.specs.StoreLives.{StoresBeginLives};

use crate::laws::new_stores_start;
use crate::resyncs::resyncs_continue_lives;
use sync_core::BookStore;

/// The life of a store goes on over runs, restarts and resyncs, in any order: some life led to the
/// rows of the store, and to all rows that a crash of it may leave (`HasLivedTo`).
/// - `starts`: it begins in each state that matches the rows of a store.
/// - `creations`: it begins in each state without books, once a creation has answered.
/// - `openings`: an opening of files with rows that a life led to leads on. So does a migration
///   that left such files.
/// - `runs`: the runs of `live` lead on.
/// - `restarts`: so does an opening after a crash.
/// - `resyncs`: so does a resync of a store, whether it was made, refused or failed, if the life
///   began in a sound state with well-formed rows and with live cards that a text can spell.
pub fn stores_live_on<S: BookStore>()
    ensures starts { StoresBeginLives S.model }
    ensures creations { CreationsBeginLives S.model }
    ensures openings { OpeningsLeadOn S.model }
    ensures runs { RunsLeadOn S.model }
    ensures restarts { RestartsLeadOn S.model }
    ensures resyncs { ResyncsLeadOn S.model }
{
    new_stores_start();
    resyncs_continue_lives();
}
