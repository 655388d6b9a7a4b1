//! Facts about tables that no statement is needed for, for the proofs of their users.
ghost use Rattle.store_tables.specs.Acceptance.{HasFreeIds};
ghost use Rattle.std.specs.Prelude.{[], ◌<◌, ◌^◌, ℕ};

/// An empty table has ids for any number of new rows below 2^63. So the tables that
/// [`crate::creation::create_tables`] creates have them.
pub fn empty_tables_have_free_ids()
    ensures { (count : ℕ) → count < 2 ^ 63 → HasFreeIds count [] }
{}
