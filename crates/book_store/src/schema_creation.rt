//! Creates the tables of a new store.
ghost use Rattle.book_store.specs.OpenOutcomes.{AreNewStoreTrees};
ghost use Rattle.store_tables.specs.SchemaCreation.{empty_schema};
ghost use Rattle.book_store.specs.OnConnections.{IsNewStoreCommitted};
ghost use Rattle.store_tables.specs.OnConnections.{HasCleanDisk, IsConnectionOpen};
ghost use Rattle.store_tables.specs.OnConnections.{ShowsTheSame, Survives};
ghost use Rattle.std.specs.Prelude.{◌≡◌, ◌↔◌, IsTrue, OnErr, OnOk, false};

use sqlite::{Alter, Connection, Error};
use sqlite_schema::schema::Schema;
use store_tables::creation::create_tables;
use store_tables::settled::assert_no_pending_writes;

/// Whether the schema declares no table, no index and no view.
pub(crate) fn is_schema_empty(schema: &Schema) -> bool
    ensures { IsTrue result ↔ (schema.now ≡ empty_schema) }
{
    schema.tables.is_empty() && schema.indexes.is_empty() && schema.views.is_empty()
}

/// Creates the tables in one transaction, over a connection with an empty schema. An error leaves
/// the database unchanged.
pub(crate) fn commit_tables<S: Alter>(conn: &mut Connection<S>) -> Result<(), Error>
    requires { conn.old.in_transaction ≡ false }
    ensures creates_tables { HasCleanDisk S.Store conn.new → conn.old.schema ≡ empty_schema
        → OnOk result (IsNewStoreCommitted S.Store conn.new) }
    ensures unchanged_on_error { HasCleanDisk S.Store conn.new → IsConnectionOpen S.Store conn.new
        → conn.old.schema ≡ empty_schema → OnErr result (ShowsTheSame S.Store conn.old conn.new) }
    ensures was_open { HasCleanDisk S.Store conn.new → IsConnectionOpen S.Store conn.new
        → IsConnectionOpen S.Store conn.old }
    ensures settled { conn.new.in_transaction ≡ false }

    // A crash leaves what it could leave before the call, or the created tables.
    ensures crash { conn.old.schema ≡ empty_schema
        → Survives S.Store conn.old conn.new AreNewStoreTrees }
{
    assert_no_pending_writes(conn);
    let mut tx = conn.transaction();
    create_tables(&mut tx)?;
    tx.commit()
}
