//! Reads the schema number from the table `meta`, for tables of either schema.
ghost use Rattle.store_tables.specs.Tables.{meta_tree};
ghost use Rattle.store_tables.specs.Meta.{meta_listed};
ghost use Rattle.store_schema.specs.internal.StatedNumber.{IsVerified, IsSchemaRow, IsNumberStated};
ghost use Rattle.store_schema.specs.internal.StatedNumber.{RowStates};
ghost use Rattle.store_schema.specs.StoredSchema.{IsStoreSchema};
ghost use Rattle.store_schema.specs.OnConnections.{ChangesNothing, GivenStoreSchema};
ghost use Rattle.store_tables.specs.OnConnections.{HasOutsideCauseOfError, IsUnchanged, ListsTable};
ghost use Rattle.sqlite.specs.Order.{column};
ghost use Rattle.sqlite_value.specs.Value.{owned};
ghost use Rattle.std.specs.Prelude.{◌≡◌, ◌↔◌, ℤ, IsTrue, MatchOption, OnOk};

use crate::open_fault::OpenFault;
use sqlite::types::ValueRef;
use sqlite::{Alter, Connection, Error, Row, params};

/// Returns the name and the value of every row of the table, whatever its columns hold.
pub(crate) fn list_meta<S: Alter>(conn: &mut Connection<S>) -> Result<Vec<Row>, Error>
    ensures lists { GivenStoreSchema S.Store conn.old conn.new
        (ListsTable S.Store conn.old meta_tree meta_listed result) }
    ensures unchanged { GivenStoreSchema S.Store conn.old conn.new
        (OnOk result (IsUnchanged S.Store conn.old conn.new)) }
    ensures fails_from_outside { GivenStoreSchema S.Store conn.old conn.new
        (HasOutsideCauseOfError S.Store conn.old conn.new result) }
    ensures reads_only { IsStoreSchema conn.old.schema → ChangesNothing S.Store conn.old conn.new }
{
    conn.query_all("SELECT name, val FROM meta", params![])
}

/// Returns the value of the column; null if the row has no such column.
fn column_at(row: &Row, at: usize) -> ValueRef<'_>
    ensures { owned result ≡ column row.now at }
{
    match row.get_ref(at) {
        Ok(value) => value,
        Err(_) => ValueRef::Null,
    }
}

/// Whether the row has the name `schema`.
fn is_schema_row(row: &Row) -> bool
    ensures { IsTrue result ↔ IsSchemaRow row.now }
{
    match column_at(row, 0) {
        ValueRef::Text(name) => name == "schema".as_bytes(),
        _ => false,
    }
}

/// Returns the number of the row if its name is `schema`.
pub(crate) fn stated_number(row: &Row) -> Option<i64>
    ensures { MatchOption result ((number : ℤ) → ¬ RowStates row.now number) (RowStates row.now) }
{
    if !is_schema_row(row) {
        return None;
    }
    match column_at(row, 1) {
        ValueRef::Int(number) => Some(number),
        _ => None,
    }
}

/// Returns the schema number if it is the only row.
pub(crate) fn stated_schema(rows: &[Row]) -> Option<i64>
    ensures { IsNumberStated rows.now result }
{
    let Some((row, others)) = rows.split_first() else {
        return None;
    };
    if others.is_empty() {
        stated_number(row)
    } else {
        None
    }
}

/// Checks the schema number against the wanted one. `is_declared` is whether the tables of the
/// wanted schema are declared.
pub(crate) fn verify(wanted: i64, is_declared: bool, stated: Option<i64>) -> Result<(), OpenFault>
    ensures { IsVerified wanted is_declared stated result }
{
    let Some(number) = stated else {
        return Err(OpenFault::NotOurs);
    };
    if number != wanted {
        return Err(OpenFault::OtherSchema { has: number });
    }
    if is_declared {
        Ok(())
    } else {
        Err(OpenFault::NotOurs)
    }
}
