//! Reads the result row of a query that counts rows.
ghost use Rattle.store_tables.specs.QueryResults.{count_value, counted};
ghost use Rattle.sqlite.specs.declared.error.Error.TheVariants.{SqliteFailure};
ghost use Rattle.sqlite.specs.declared.error.ErrorCode.TheVariants.{OutOfMemory};
ghost use Rattle.std.specs.Prelude.{[], ◌∷◌, ◌≡◌, ◌≢◌, IfErr, IfOk, ℕ};

use sqlite::{Error, Row};

/// Reads the count in the row. It can fail only for lack of memory.
pub(crate) fn count_in(row: &Row) -> Result<u64, Error>
    ensures count { (n : ℕ) → row.now ≡ count_value n ∷ []
        → IfOk result (λ count. count ≡ counted n) }
    ensures memory { (n : ℕ) → row.now ≡ count_value n ∷ []
        → IfErr result (λ e. e ≢ SqliteFailure OutOfMemory → ⊥) }
{
    row.get(0)
}
