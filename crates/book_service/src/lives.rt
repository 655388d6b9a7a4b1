//! The laws that hold over the life of a store: over all runs of its server, with crashes and
//! restarts between them. Each law is a function without run-time effect. Each law is stated in
//! `specs/Lives.antt` or in `specs/Promise.antt`; `DevicesStartConsistent` is in
//! `book_laws/specs/DeviceLaws.antt`.
ghost use Rattle.book_laws.specs.DeviceLaws.{DevicesStartConsistent};
ghost use Rattle.book_service.specs.Lives.{AlwaysInLives, LivesAreRuns, LivesStayWellFormed};
ghost use Rattle.book_service.specs.Lives.{PartsOfLivesAreRuns};
ghost use Rattle.book_service.specs.Promise.{NextStateIsSound, InEachBook};
ghost use Rattle.book_service.specs.Promise.{LiveCardsAreLastStored, CountsBalance};
ghost use Rattle.book_service.specs.Promise.{CountsMatchChanges, HistoriesExtend};
ghost use Rattle.book_service.specs.Promise.{MovesTransferOneCard, DevicesStayConsistent};
ghost use Rattle.book_service.specs.Promise.{LastPagesComplete, TokensExpire, ImportsAreIdempotent};

use crate::laws::{runs_keep_the_promise, runs_stay_well_formed};

/// The promise of the server over the whole life of a store: over all runs of the server, each of
/// which ended between two calls or in one that it interrupted.
/// - `one_run`: the steps of all runs are one run, with each interrupted command made once or not
///   at all.
/// - `sound`, `live`, `sums`, `counts`, `books`, `moves`, `starts`, `devices`, `last_pages`: as in
///   `runs_keep_the_promise`. A device is as it was before a restart.
/// - `parts`: each part of a life is a run from a sound state. So `tokens` and `imports` hold of
///   two requests also if restarts lie between them.
pub fn lives_keep_the_promise()
    ensures one_run { LivesAreRuns }
    ensures sound { AlwaysInLives NextStateIsSound }
    ensures live { InEachBook LiveCardsAreLastStored }
    ensures sums { InEachBook CountsBalance }
    ensures counts { InEachBook CountsMatchChanges }
    ensures books { AlwaysInLives HistoriesExtend }
    ensures moves { AlwaysInLives MovesTransferOneCard }
    ensures starts { DevicesStartConsistent }
    ensures devices { AlwaysInLives DevicesStayConsistent }
    ensures last_pages { AlwaysInLives LastPagesComplete }
    ensures parts { PartsOfLivesAreRuns }
    ensures tokens { TokensExpire }
    ensures imports { ImportsAreIdempotent }
{
    runs_keep_the_promise();
}

/// If the rows of a sound state are well formed, so are those that any life from it leaves: what an
/// opening tests.
pub fn lives_stay_well_formed()
    ensures { LivesStayWellFormed }
{
    runs_stay_well_formed();
}
