//! Tests whether a connection has the tables of schema 2, or of schema 1.
ghost use Rattle.store_schema.specs.OnConnections.{
  ChangesNothing,
  ClassifiesFirstSchema,
  ClassifiesSchema,
  ComesFromOutside,
  IsCurrentSchema,
  IsFirstSchema,
};
ghost use Rattle.store_tables.specs.OnConnections.{HasCleanDisk, IsUnchanged};
ghost use Rattle.std.specs.Prelude.{IfErr, OnOk};

use crate::meta::{list_meta, stated_schema, verify};
use crate::open_fault::{OpenFault, open_fault_of};
use crate::schema::{is_book_schema, is_first_schema};
use sqlite::{Alter, Connection};
use store_tables::meta::SCHEMA_NUMBER;

/// The number of the first schema, which has no table `keeping`.
pub(crate) const FIRST_SCHEMA_NUMBER: i64 = 1;

/// Tests whether the connection has the tables of schema 2, and the schema number 2.
///
/// Returns `NotOurs` if the tables are those of neither schema, if `meta` has anything but one
/// schema number, or if the number is 2 and `keeping` is missing. Returns `OtherSchema` if the
/// number is not 2. Any call may instead return `Memory` when out of memory, or `Store` on another
/// error of the database.
pub fn check_schema<S: Alter>(conn: &mut Connection<S>) -> Result<(), OpenFault>
    ensures answers { HasCleanDisk S.Store conn.new → ClassifiesSchema S.Store conn.old result }

    // Over the tables of a store it fails only for lack of memory, or with `Store` for an outside
    // cause.
    ensures opens { HasCleanDisk S.Store conn.new → IsCurrentSchema S.Store conn.old
        → IfErr result (ComesFromOutside S.Store conn.old conn.new) }
    ensures unchanged { HasCleanDisk S.Store conn.new
        → OnOk result (IsUnchanged S.Store conn.old conn.new) }

    // On success and on error nothing changes, and nothing is committed.
    ensures reads_only { ChangesNothing S.Store conn.old conn.new }
{
    let keeps = is_book_schema(conn.schema());
    if !keeps && !is_first_schema(conn.schema()) {
        return Err(OpenFault::NotOurs);
    }
    match list_meta(conn) {
        Ok(rows) => verify(SCHEMA_NUMBER, keeps, stated_schema(rows.as_slice())),
        Err(error) => Err(open_fault_of(error)),
    }
}

/// Tests whether the connection has the tables of schema 1, and the schema number 1.
///
/// Returns `NotOurs` if the tables are those of neither schema, if `meta` has anything but one
/// schema number, or if the number is 1 and `keeping` is declared. Returns `OtherSchema` if the
/// number is not 1. Any call may instead return `Memory` when out of memory, or `Store` on another
/// error of the database.
pub fn check_first_schema<S: Alter>(conn: &mut Connection<S>) -> Result<(), OpenFault>
    ensures answers { HasCleanDisk S.Store conn.new
        → ClassifiesFirstSchema S.Store conn.old result }

    // Over the tables of such a store it fails only for lack of memory, or with `Store` for an
    // outside cause.
    ensures opens { HasCleanDisk S.Store conn.new → IsFirstSchema S.Store conn.old
        → IfErr result (ComesFromOutside S.Store conn.old conn.new) }
    ensures unchanged { HasCleanDisk S.Store conn.new
        → OnOk result (IsUnchanged S.Store conn.old conn.new) }

    // On success and on error nothing changes, and nothing is committed.
    ensures reads_only { ChangesNothing S.Store conn.old conn.new }
{
    let is_first = is_first_schema(conn.schema());
    if !is_first && !is_book_schema(conn.schema()) {
        return Err(OpenFault::NotOurs);
    }
    match list_meta(conn) {
        Ok(rows) => verify(
            FIRST_SCHEMA_NUMBER,
            is_first,
            stated_schema(rows.as_slice()),
        ),
        Err(error) => Err(open_fault_of(error)),
    }
}
