//! The two stages of a resync's transaction, and what each writes into a book's row.
ghost use Rattle.store_resync.specs.internal.Stages.{horizon_after};
ghost use Rattle.std.specs.Prelude.{◌≡◌};

/// What a transaction does to all books before it goes on. The renewed cards are written before any
/// tombstone is deleted, because a deletion leaves it open which ids SQLite has for new rows.
#[derive(Clone, Copy, Debug, PartialEq, Eq)]
pub(crate) enum Stage {
    /// Each book takes its pairs: a full one renews its card, and all get their last numbers.
    Pairs,
    /// Each book forgets every removal.
    Forgetting,
}

/// The horizon of a book after the stage, from its horizon before and its last number.
pub(crate) fn horizon_after(stage: Stage, horizon: u64, last: u64) -> u64
    ensures { result ≡ horizon_after stage horizon last }
{
    match stage {
        Stage::Pairs => horizon,
        Stage::Forgetting => last,
    }
}
