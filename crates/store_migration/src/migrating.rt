//! Migrates the tables of a connection from the first schema to the second.
ghost use Rattle.store_check.specs.OpenResults.{max_limits};
ghost use Rattle.store_rows.specs.SoundTables.{HoldsWellFormed};
ghost use Rattle.store_migration.specs.OnConnections.{
  CommitsMigration,
  IsMigrated,
  IsMigrationRefusal,
  MigrationFailsFromOutside,
};
ghost use Rattle.store_schema.specs.OnConnections.{IsFirstSchema};
ghost use Rattle.store_tables.specs.OnConnections.{
  HasCleanDisk,
  HoldsNow,
  IsCommitted,
  IsConnectionOpen,
  ShowsTheSame,
  Survives,
  table_rows,
};
ghost use Rattle.std.specs.Prelude.{◌≡◌, IfErr, IfOk, OnErr, OnOk, false, length};

use crate::planning::plan_migration;
use crate::writing::commit_keeps;
use book_model::Limits;
use sqlite::{Alter, Connection};
use std::alloc::Global;
use store_schema::{OpenFault, open_fault_of};
use store_tables::settled::assert_no_pending_writes;

/// Migrates the tables of the connection from the first schema to the second in one transaction,
/// and returns the number of books. The connection must be outside a transaction. Books, members
/// and imports are unchanged; each book gets a keep of 10,000, or of the number of its tombstones
/// if that is greater.
///
/// All rows are read and tested before anything is written. Fails with `NotOurs` if other tables
/// than a store's are declared, if the table `meta` holds anything but one schema number, or if
/// that is 1 and the table of keeps exists; with `OtherSchema` if the number is not 1; and with
/// `Damaged` if the rows do not represent well-formed books, tested against the greatest limits on
/// books and changes that a store may have. Fails with `Memory` if memory runs out, and with
/// `Store` for any other error of the database. An error leaves everything unchanged, unless the
/// disk failed and closed the connection.
pub fn migrate_connection<S: Alter>(
    alloc: Global,
    conn: &mut Connection<S>,
) -> Result<u64, OpenFault>
    requires { conn.old.in_transaction ≡ false }
    ensures first { HasCleanDisk S.Store conn.new → OnOk result (IsFirstSchema S.Store conn.old) }
    ensures migrated { HasCleanDisk S.Store conn.new
        → OnOk result (IsMigrated S.Store conn.old conn.new) }
    ensures well_formed { HasCleanDisk S.Store conn.new
        → OnOk result (HoldsNow S.Store conn.new (HoldsWellFormed max_limits)) }
    ensures committed { HasCleanDisk S.Store conn.new → OnOk result (IsCommitted S.Store conn.new) }
    ensures books { HasCleanDisk S.Store conn.new
        → IfOk result (λ count. count ≡ length (table_rows S.Store conn.old 2)) }
    ensures refusal { HasCleanDisk S.Store conn.new
        → IfErr result (IsMigrationRefusal S.Store conn.old max_limits) }

    // Tables that can be migrated are refused only for lack of memory or for an outside cause.
    ensures from_outside { MigrationFailsFromOutside S.Store conn.old conn.new max_limits result }
    ensures unchanged_on_error { HasCleanDisk S.Store conn.new → IsConnectionOpen S.Store conn.new
        → OnErr result (ShowsTheSame S.Store conn.old conn.new) }
    ensures settled { conn.new.in_transaction ≡ false }

    // A crash leaves what it could leave before the call, or the one commit.
    ensures crash { Survives S.Store conn.old conn.new
        (CommitsMigration S.Store conn.old max_limits) }
{
    assert_no_pending_writes(conn);
    let keeps = plan_migration(alloc, conn, Limits::standard())?;
    match commit_keeps(conn, keeps.as_slice()) {
        Ok(()) => Ok(keeps.len() as u64),
        Err(error) => Err(open_fault_of(error)),
    }
}
