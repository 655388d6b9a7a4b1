//! Calls of a store over any tables, made for the store over files. The proof of such a call spells
//! out all calls of the store over files, which takes 20 seconds. So each is made here once, and
//! callers use these functions: the proof of a call of one takes a second or two.
ghost use Rattle.book_store.specs.Crashes.{StoresSurviveCrashes};
ghost use Rattle.book_store.specs.OnConnections.{IsMadeWithout, IsStore};
ghost use Rattle.book_store.specs.OpenOutcomes.{IsOpenRefusal};
ghost use Rattle.book_store.specs.StoreResyncs.{ResyncsStore};
ghost use Rattle.book_store.specs.StoreViews.{table_model};
ghost use Rattle.sqlite.specs.Files.{over_files};
ghost use Rattle.store_check.specs.OpenResults.{max_limits};
ghost use Rattle.store_lookups.specs.OnConnections.{IsOpenOnHonestDisk, stored_books};
ghost use Rattle.store_rows.specs.SoundTables.{HoldsWellFormed};
ghost use Rattle.store_schema.specs.OnConnections.{ChangesNothing};
ghost use Rattle.store_tables.specs.OnConnections.{HasCleanDisk, HoldsNow, IsConnectionOpen};
ghost use Rattle.store_tables.specs.SchemaCreation.{empty_schema};
ghost use Rattle.sync_core.specs.StoreCrashes.{IsSettled};
ghost use Rattle.std.specs.Prelude.{◌≡◌, ◌≤◌, IfErr, IfOk, OnOk, false};

use crate::laws::stores_survive_crashes;
use crate::sql_store::SqlStore;
use base_types::Text;
use book_model::{Denied, Limits};
use sqlite::{Alter, Connection, FileStore};
use sqlite_disk::Disk;
use std::alloc::Global;
use store_copy::StoredRows;
use store_schema::OpenFault;

/// `SqlStore::into_connection`, with the law of stores that survive crashes.
fn into_settled<S: Alter>(store: SqlStore<S>) -> Connection<S>
    ensures same_connection { result ≡ store.conn }
    ensures is_store { IsStore S.Store result store.limits }
    ensures survives { StoresSurviveCrashes S.Store }
{
    stores_survive_crashes::<S>();
    store.into_connection()
}

/// `SqlStore::into_connection`. Whatever a crash leaves of it is a store's.
pub(crate) fn into_connection<D: Disk>(store: SqlStore<FileStore<D>>) -> Connection<FileStore<D>>
    ensures same_connection { result ≡ store.conn }
    ensures is_store { IsStore over_files result store.limits }
    ensures survives { StoresSurviveCrashes (over_files {g = D.Disk}) }
{
    into_settled(store)
}

/// `SqlStore::try_adopt`.
pub(crate) fn try_adopt<D: Disk>(
    alloc: Global,
    connection: Connection<FileStore<D>>,
    limits: Limits,
) -> Result<SqlStore<FileStore<D>>, (OpenFault, Connection<FileStore<D>>)>
    requires { connection.in_transaction ≡ false }
    ensures well_formed { IfOk result (λ store. IsOpenOnHonestDisk over_files store.conn
        → HoldsNow over_files connection (HoldsWellFormed max_limits)) }
    ensures books { IfOk result (λ store. IsOpenOnHonestDisk over_files store.conn
        → stored_books over_files store.conn ≡ stored_books over_files connection) }
    ensures limits { IfOk result (λ store. store.limits ≡ limits) }
    ensures premise { IfOk result (λ store. IsOpenOnHonestDisk over_files store.conn
        → IsOpenOnHonestDisk over_files connection) }
    ensures opened { IfOk result (λ store. HasCleanDisk over_files store.conn
        → IsConnectionOpen over_files store.conn) }
    ensures changes_nothing { IfOk result
        (λ store. ChangesNothing over_files connection store.conn) }
    ensures refused { IfErr result (λ refused.
        IsOpenRefusal over_files connection refused.1 refused.0) }
{
    SqlStore::try_adopt(alloc, connection, limits)
}

/// `SqlStore::assert_settled`.
pub(crate) fn assert_settled<D: Disk>(store: &SqlStore<FileStore<D>>)
    ensures { IsSettled (table_model over_files) store.now }
{
    store.assert_settled()
}

/// `SqlStore::resync`.
pub(crate) fn resync<D: Disk>(store: &mut SqlStore<FileStore<D>>, pairs: u64) -> Result<u64, Denied>
    requires some { 1 ≤ pairs }
    ensures changes { ResyncsStore over_files store.old store.new pairs result }
{
    store.resync(pairs)
}

impl<S: Alter> SqlStore<S> {
    /// `SqlStore::copy_rows` into files.
    pub(crate) fn copy_rows_to_files<D: Disk + Drop>(
        &self,
        rows: StoredRows,
        names: &[Text],
        target: Connection<FileStore<D>>,
    ) -> Result<SqlStore<FileStore<D>>, OpenFault>
        requires { target.in_transaction ≡ false }
        ensures rest { IfOk result (λ copy. IsOpenOnHonestDisk over_files copy.conn
            → IsMadeWithout over_files copy.conn names.now rows) }
        ensures limits { IfOk result (λ copy. copy.limits ≡ self.now.limits) }
        ensures was_empty { OnOk result (target.schema ≡ empty_schema) }
    {
        self.copy_rows(rows, names, target)
    }
}
