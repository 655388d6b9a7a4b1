//! The store of books over the tables of a connection.
ghost use Rattle.book_store.specs.OpenOutcomes.{AreNewStoreTrees, IsCreationRefusal};
ghost use Rattle.store_tables.specs.SchemaCreation.{empty_schema};
ghost use Rattle.store_schema.specs.OpenFaults.{IsErrorFault, IsCreationFault};
ghost use Rattle.store_schema.specs.declared.open_fault.OpenFault.TheVariants.{NotEmpty};
ghost use Rattle.book_store.specs.OnConnections.{IsStore};
ghost use Rattle.store_tables.specs.OnConnections.{HasCleanDisk, IsConnectionOpen, Survives};
ghost use Rattle.store_lookups.specs.OnConnections.{IsOpenOnHonestDisk, stored_books};
ghost use Rattle.sqlite.specs.Steps.{over_memory};
ghost use Rattle.std.specs.FinMap as finite;
ghost use Rattle.std.specs.Prelude.{◌≡◌, Err, IfErr, IfOk, OnOk, false};

use crate::schema_creation::{commit_tables, is_schema_empty};
use book_model::{Limits, TombstoneCounts};
use sqlite::{Alter, Connection, MemStore};
use std::alloc::Global;
use std::marker::Model;
use store_schema::{OpenFault, open_fault_of};

/// A store of books in the tables of a connection.
///
/// The proofs assume that nobody else writes the file and that the disk returns what was written.
/// After a disk error the connection may be closed; then each later call fails with `Fault::Store`.
pub struct SqlStore<S: Alter> {
    pub(crate) conn: Connection<S>,
    pub(crate) limits: Limits,
    /// The tombstones of the books by name, so that tallies, removals and moves need not count.
    pub(crate) counts: TombstoneCounts,
    pub(crate) alloc: Global,
}

impl<S: Alter> Model for SqlStore<S> {
    ghost use Rattle.book_store.specs.OnConnections.{IsStore};
    ghost use Rattle.store_lookups.specs.OnConnections.{HoldCounts};
    ghost use Rattle.book_store.specs.StoreViews.{StoreView, store_code};

    ghost Value = { StoreView S };

    ghost coded = { store_code S.code };

    ghost view = { λ s. record { conn = s.conn; limits = s.limits } };

    ghost invariant = { λ s. IsStore S.Store s.conn s.limits
        × HoldCounts S.Store s.conn s.counts };
}

impl<S: Alter + Drop> Drop for SqlStore<S> {
    fn drop(self) {
        let SqlStore {
            conn: _,
            limits: _,
            counts: _,
            alloc: _,
        } = self;
    }
}

impl<S: Alter> SqlStore<S> {
    /// Returns the store's connection, which is outside a transaction.
    pub fn into_connection(self) -> Connection<S>
        ensures same_connection { result ≡ self.conn }
        ensures is_store { IsStore S.Store result self.limits }
    {
        let SqlStore {
            conn,
            limits: _,
            counts: _,
            alloc: _,
        } = self;
        conn
    }
}

impl<S: Alter> SqlStore<S> {
    /// Creates a store without books over the connection, whose schema must be empty: its tables
    /// are created in one transaction. The connection must be outside a transaction; an error
    /// returns it.
    ///
    /// Fails with `NotEmpty` if there is a table, an index or a view, and then nothing is written;
    /// with `Memory` if memory runs out; and with `Store` for any other error of the database.
    /// After either of these two the transaction is rolled back.
    pub fn try_adopt_new(
        alloc: Global,
        connection: Connection<S>,
        limits: Limits,
    ) -> Result<SqlStore<S>, (OpenFault, Connection<S>)>
        requires { connection.in_transaction ≡ false }
        ensures books { IfOk result (λ store. IsOpenOnHonestDisk S.Store store.conn
            → stored_books S.Store store.conn ≡ finite.empty) }
        ensures limits { IfOk result (λ store. store.limits ≡ limits) }
        ensures premise { IfOk result (λ store. IsOpenOnHonestDisk S.Store store.conn
            → IsOpenOnHonestDisk S.Store connection) }
        ensures opened { IfOk result (λ store. HasCleanDisk S.Store store.conn
            → IsConnectionOpen S.Store store.conn) }
        ensures was_empty { OnOk result (connection.schema ≡ empty_schema) }
        ensures not_empty { ¬ (connection.schema ≡ empty_schema)
            → IfErr result (λ refused. refused.0 ≡ NotEmpty) }

        // A crash leaves what it could leave before the call, or the created tables.
        ensures crash { IfOk result
            (λ store. Survives S.Store connection store.conn AreNewStoreTrees) }

        // The connection comes back as it was, or with its transaction rolled back.
        ensures refused { IfErr result (λ refused.
            IsCreationRefusal S.Store connection refused.1 refused.0) }
    {
        let mut conn = connection;
        if !is_schema_empty(conn.schema()) {
            return Err((OpenFault::NotEmpty, conn));
        }
        match commit_tables(&mut conn) {
            Ok(()) => Ok(SqlStore {
                conn,
                limits,
                counts: TombstoneCounts::new(alloc),
                alloc,
            }),
            Err(error) => Err((open_fault_of(error), conn)),
        }
    }
}

impl<S: Alter + Drop> SqlStore<S> {
    /// Creates a store without books over the connection, whose schema must be empty: its tables
    /// are created in one transaction. The connection must be outside a transaction; an error drops
    /// it.
    ///
    /// Fails with `NotEmpty` if there is a table, an index or a view; otherwise with `Memory` if
    /// memory runs out, and with `Store` for any other error of the database.
    pub fn adopt_new(
        alloc: Global,
        connection: Connection<S>,
        limits: Limits,
    ) -> Result<SqlStore<S>, OpenFault>
        requires { connection.in_transaction ≡ false }
        ensures books { IfOk result (λ store. IsOpenOnHonestDisk S.Store store.conn
            → stored_books S.Store store.conn ≡ finite.empty) }
        ensures limits { IfOk result (λ store. store.limits ≡ limits) }
        ensures premise { IfOk result (λ store. IsOpenOnHonestDisk S.Store store.conn
            → IsOpenOnHonestDisk S.Store connection) }
        ensures was_empty { OnOk result (connection.schema ≡ empty_schema) }
        ensures not_empty { ¬ (connection.schema ≡ empty_schema) → result ≡ Err NotEmpty }
        ensures fault { connection.schema ≡ empty_schema → IfErr result IsErrorFault }
        ensures fault_kind { IfErr result IsCreationFault }

        // A crash leaves what it could leave before the call, or the created tables.
        ensures crash { IfOk result
            (λ store. Survives S.Store connection store.conn AreNewStoreTrees) }
    {
        match SqlStore::try_adopt_new(alloc, connection, limits) {
            Ok(store) => Ok(store),
            Err((fault, _)) => Err(fault),
        }
    }
}

impl SqlStore<MemStore> {
    /// Creates a store without books in memory; its books are lost when it is dropped. Fails with
    /// `Memory` if memory runs out, and with `Store` for any other error of the database.
    pub fn open_in_memory(alloc: Global, limits: Limits) -> Result<SqlStore<MemStore>, OpenFault>
        ensures books { IfOk result (λ store. IsOpenOnHonestDisk over_memory store.conn
            → stored_books over_memory store.conn ≡ finite.empty) }
        ensures limits { IfOk result (λ store. store.limits ≡ limits) }
        ensures fault { IfErr result IsErrorFault }
    {
        match Connection::open_in_memory(alloc) {
            Ok(connection) => SqlStore::adopt_new(alloc, connection, limits),
            Err(_) => Err(OpenFault::Memory),
        }
    }
}
