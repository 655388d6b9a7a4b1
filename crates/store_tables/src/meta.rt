//! The statement that writes the table `meta`, which holds the schema number.
//!
//! The clauses of a write inside a transaction, over a disk that returned what was written:
//! - `same_reference`: the transaction still borrows the same connection.
//! - `writes`: after a success over the declared tables only this table was written, the rows obey
//!   the tables, and the transaction is open.
//! - `no_commit`: on success and on error a crash leaves what it could leave before, whatever
//!   tables are declared; over the declared ones nothing was committed. `keeps_commit` says the
//!   latter of any tables.
//! - `rolled_back`: an error changed nothing, or rolled the whole transaction back.
//! - `fails_from_outside`: an error but for lack of memory has an outside cause, if the rows obey the
//!   declared tables and the table has no row.
ghost use Rattle.store_tables.specs.Tables.{book_schema, meta_tree};
ghost use Rattle.store_tables.specs.OnConnections.{
  AddsSchema,
  InsideTx,
  KeepsCommitInTx,
  NoCommit,
  UndoneOnErr,
  WriteFailsFromOutside,
  WritesOnly,
  table_rows,
};
ghost use Rattle.std.specs.Prelude.{[], ◌≡◌, OnOk};

use sqlite::{Alter, Error, Transaction, params};

/// The number of the current schema.
pub const SCHEMA_NUMBER: i64 = 2;

/// Inserts the schema number under the name `schema`.
///
/// Fails with a constraint error if there is one already.
pub fn insert_schema<S: Alter>(tx: &mut Transaction<'_, S>, number: i64) -> Result<usize, Error>
    ensures same_reference { tx.new.conn.ghost_name ≡ tx.old.conn.ghost_name }

    // The table holds its rows and that of the number.
    ensures adds { InsideTx S.Store tx.old.conn.now tx.new.conn.now
        (tx.old.conn.now.schema ≡ book_schema
        → OnOk result (AddsSchema S.Store tx.old.conn.now tx.new.conn.now number)) }
    ensures writes { InsideTx S.Store tx.old.conn.now tx.new.conn.now
        (tx.old.conn.now.schema ≡ book_schema
        → OnOk result (WritesOnly S.Store tx.old.conn.now tx.new.conn.now meta_tree)) }
    ensures no_commit { NoCommit S.Store tx.old.conn.now tx.new.conn.now }
    ensures keeps_commit { KeepsCommitInTx S.Store tx.old.conn.now tx.new.conn.now }
    ensures rolled_back { UndoneOnErr S.Store tx.old.conn.now tx.new.conn.now result }
    ensures fails_from_outside { table_rows S.Store tx.old.conn.now meta_tree ≡ []
        → WriteFailsFromOutside S.Store tx.old.conn.now tx.new.conn.now result }
{
    tx.execute(
        "INSERT INTO meta (name, val) VALUES ('schema', ?1)",
        params![number],
    )
}
