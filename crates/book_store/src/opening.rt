//! Opens a store over existing tables.
ghost use Rattle.book_model.specs.Counts.{AreCountsOf};
ghost use Rattle.book_model.specs.Books.{Books};
ghost use Rattle.store_rows.specs.SoundTables.{HoldsWellFormed};
ghost use Rattle.store_check.specs.TombstoneCounts.{IsCountOf};
ghost use Rattle.store_check.specs.OpenResults.{max_limits};
ghost use Rattle.book_store.specs.OpenOutcomes.{DropsRefused, IsOpenRefusal};
ghost use Rattle.store_schema.specs.OnConnections.{ChangesNothing};
ghost use Rattle.store_schema.specs.OnConnections.{ComesFromOutside};
ghost use Rattle.store_schema.specs.OpenFaults.{IsErrorFault};
ghost use Rattle.store_tables.specs.OnConnections.{GivenTables, HasCleanDisk, HoldsNow};
ghost use Rattle.store_tables.specs.OnConnections.{IsConnectionOpen, OnlyReads};
ghost use Rattle.store_lookups.specs.OnConnections.{IsOpenOnHonestDisk, stored_books};
ghost use Rattle.std.specs.List.{AllByRecursion};
ghost use Rattle.std.specs.Prelude.{◌≡◌, IfErr, IfOk, OnOk, false};

use crate::sql_store::SqlStore;
use book_model::{Limits, TombstoneCounts};
use sqlite::{Alter, Connection};
use std::alloc::Global;
use store_check::counts::TombstoneCount;
use store_check::opening::count_tombstones;
use store_schema::{OpenFault, open_fault_of};
use store_tables::settled::assert_no_pending_writes;

/// The counts that the opening found. Where memory runs out, entries are missing.
fn counts_of(alloc: Global, found: &[TombstoneCount]) -> TombstoneCounts
    ensures { (books : Books) → AllByRecursion (IsCountOf books) found.now
        → AreCountsOf result books }
{
    let mut counts = TombstoneCounts::new(alloc);
    for count in found {
        counts.set(count.book.as_str(), count.tombstones);
    }
    counts
}

/// Checks that the connection is still open, since only an open one prepares a statement. Fails
/// with `Memory` if memory runs out, and with `Store` if the connection is closed.
fn check_still_open<S: Alter>(conn: &mut Connection<S>) -> Result<(), OpenFault>
    ensures opened { HasCleanDisk S.Store conn.new
        → OnOk result (IsConnectionOpen S.Store conn.new) }
    ensures kind { IfErr result IsErrorFault }
    ensures from_outside { GivenTables S.Store conn.old conn.new
        (IfErr result (ComesFromOutside S.Store conn.old conn.new)) }
    ensures reads_only { OnlyReads S.Store conn.old conn.new }
{
    match conn.prepare("COMMIT") {
        Ok(_) => {}
        Err(error) => return Err(open_fault_of(error)),
    }
    Ok(())
}

impl<S: Alter> SqlStore<S> {
    /// Opens the store whose books the connection's tables hold. The connection must be outside a
    /// transaction; an error returns it. All rows are read and tested, and nothing is written.
    ///
    /// Fails with `NotOurs` if other tables are declared than a store's, of this schema or of the
    /// first, if the table `meta` holds anything but one schema number, or if that is 2 and the
    /// table of keeps is missing; with `OtherSchema` if the number is not 2; and with `Damaged` if
    /// the rows do not represent well-formed books. They are tested against the greatest limits on
    /// books and changes that a store may have, not against `limits`. Fails with `Memory` if memory
    /// runs out, and with `Store` for any other error of the database.
    pub fn try_adopt(
        alloc: Global,
        connection: Connection<S>,
        limits: Limits,
    ) -> Result<SqlStore<S>, (OpenFault, Connection<S>)>
        requires { connection.in_transaction ≡ false }
        ensures well_formed { IfOk result (λ store. IsOpenOnHonestDisk S.Store store.conn
            → HoldsNow S.Store connection (HoldsWellFormed max_limits)) }
        ensures books { IfOk result (λ store. IsOpenOnHonestDisk S.Store store.conn
            → stored_books S.Store store.conn ≡ stored_books S.Store connection) }
        ensures limits { IfOk result (λ store. store.limits ≡ limits) }
        ensures premise { IfOk result (λ store. IsOpenOnHonestDisk S.Store store.conn
            → IsOpenOnHonestDisk S.Store connection) }
        ensures opened { IfOk result (λ store. HasCleanDisk S.Store store.conn
            → IsConnectionOpen S.Store store.conn) }
        ensures changes_nothing { IfOk result
            (λ store. ChangesNothing S.Store connection store.conn) }
        ensures refused { IfErr result (λ refused.
            IsOpenRefusal S.Store connection refused.1 refused.0) }
    {
        let mut conn = connection;
        assert_no_pending_writes(&conn);
        let found = match count_tombstones(alloc, &mut conn, Limits::standard()) {
            Ok(found) => found,
            Err(fault) => return Err((fault, conn)),
        };
        match check_still_open(&mut conn) {
            Ok(()) => {}
            Err(fault) => return Err((fault, conn)),
        }
        Ok(SqlStore {
            conn,
            limits,
            counts: counts_of(alloc, found.as_slice()),
            alloc,
        })
    }
}

impl<S: Alter + Drop> SqlStore<S> {
    /// Opens the store whose books the connection's tables hold. The connection must be outside a
    /// transaction; an error drops it. All rows are read and tested, and nothing is written. It
    /// fails with the faults of `try_adopt`.
    pub fn adopt(
        alloc: Global,
        connection: Connection<S>,
        limits: Limits,
    ) -> Result<SqlStore<S>, OpenFault>
        requires { connection.in_transaction ≡ false }
        ensures well_formed { IfOk result (λ store. IsOpenOnHonestDisk S.Store store.conn
            → HoldsNow S.Store connection (HoldsWellFormed max_limits)) }
        ensures books { IfOk result (λ store. IsOpenOnHonestDisk S.Store store.conn
            → stored_books S.Store store.conn ≡ stored_books S.Store connection) }
        ensures limits { IfOk result (λ store. store.limits ≡ limits) }
        ensures premise { IfOk result (λ store. IsOpenOnHonestDisk S.Store store.conn
            → IsOpenOnHonestDisk S.Store connection) }
        ensures opened { IfOk result (λ store. HasCleanDisk S.Store store.conn
            → IsConnectionOpen S.Store store.conn) }
        ensures changes_nothing { IfOk result
            (λ store. ChangesNothing S.Store connection store.conn) }
        ensures refused { IfErr result (DropsRefused S.Store connection) }
    {
        match SqlStore::try_adopt(alloc, connection, limits) {
            Ok(store) => Ok(store),
            Err((fault, _)) => Err(fault),
        }
    }
}
