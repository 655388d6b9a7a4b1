//! Tests the tables before anything is written, and computes the keeps.
ghost use Rattle.store_check.specs.RowChecks.{HasNumber};
ghost use Rattle.store_migration.specs.internal.MigrationPlans.{IsKeepsCheckResult};
ghost use Rattle.store_schema.specs.OpenFaults.{IsErrorFault};
ghost use Rattle.store_migration.specs.Migration.{HaveRowIds};
ghost use Rattle.store_migration.specs.OnConnections.{
  IsMigrationRefusal,
  MigrationFailsFromOutside,
};
ghost use Rattle.store_migration.specs.internal.OnConnections.{
  AreListedFirstRows,
  FailsFromOutsideFirstSchema,
  GivenFirstSchema,
  HasMetaId,
  IsMigrationPlan,
  OnlyReadsFirstSchema,
  UnchangedOnOkFirstSchema,
};
ghost use Rattle.store_schema.specs.OnConnections.{
  ChangesNothing,
  ComesFromOutside,
  IsFirstSchema,
};
ghost use Rattle.store_tables.specs.OnConnections.{HasCleanDisk, IsUnchanged, table_rows};
ghost use Rattle.store_tables.specs.Tables.{meta_tree};
ghost use Rattle.sqlite.specs.Order.{Row as Values, column};
ghost use Rattle.sqlite.specs.declared.types.Value.TheVariants.{Int};
ghost use Rattle.std.specs.Int.{w64};
ghost use Rattle.std.specs.Prelude.{[], ◌∷◌, ◌≡◌, FitsSigned, IfErr, IfOk, IfSome, IsSome, OnOk};

use crate::first_rows::{list_books, list_imports, list_members, list_meta_ids};
use crate::keeps_of;
use book_model::Limits;
use sqlite::{Alter, Connection, Error, Row};
use std::alloc::Global;
use store_check::cells::{has_number, number_or_zero_at};
use store_check::tables::are_well_stored;
use store_schema::{OpenFault, check_first_schema, open_fault_of};
use vcard_text::NoMemory;

/// The rows of the three tables that hold books in the first schema.
#[derive(Drop)]
struct FirstRows {
    books: Vec<Row>,
    members: Vec<Row>,
    imports: Vec<Row>,
}

// ---- the keeps

/// Computes the keeps, and tests that the rows are well stored with them.
fn compute_keeps(alloc: Global, limits: Limits, rows: &FirstRows) -> Result<Vec<Row>, OpenFault>
    ensures { IsKeepsCheckResult limits rows.now.books.items rows.now.members.items
        rows.now.imports.items result }
{
    let Ok(keeps) = keeps_of(alloc, rows.books.as_slice(), rows.members.as_slice()) else {
        return Err(OpenFault::Memory);
    };
    let is_well_stored = are_well_stored(
        alloc,
        limits,
        rows.books.as_slice(),
        rows.members.as_slice(),
        rows.imports.as_slice(),
        keeps.as_slice(),
    );
    match is_well_stored {
        Ok(true) => Ok(keeps),
        Ok(false) => Err(OpenFault::Damaged),
        Err(NoMemory) => Err(OpenFault::Memory),
    }
}

// ---- the tables

/// The integer of the one row, if there is exactly one and it has an integer.
fn only_id(rows: &[Row]) -> Option<i64>
    ensures found { IfSome result (λ id. FitsSigned w64 id
        × (row : Values) × (rows.now ≡ row ∷ []) × (column row 0 ≡ Int id)) }
    ensures missed { (row : Values) → rows.now ≡ row ∷ [] → HasNumber 0 row → IsSome result }
{
    let [row] = rows else {
        return None;
    };
    if has_number(row, 0) {
        Some(number_or_zero_at(row, 0))
    } else {
        None
    }
}

/// Tests that the table `meta` has one row with an id, under which it can be updated.
fn check_meta_id<S: Alter>(conn: &mut Connection<S>) -> Result<(), OpenFault>
    ensures has_id { GivenFirstSchema S.Store conn.old conn.new (IsFirstSchema S.Store conn.old
        → OnOk result (HasMetaId S.Store conn.old)) }
    ensures fault { IfErr result IsErrorFault }
    ensures from_outside { GivenFirstSchema S.Store conn.old conn.new (IsFirstSchema S.Store conn.old
        → HaveRowIds (table_rows S.Store conn.old meta_tree)
        → IfErr result (ComesFromOutside S.Store conn.old conn.new)) }
    ensures unchanged { UnchangedOnOkFirstSchema S.Store conn.old conn.new result }
    ensures reads_only { OnlyReadsFirstSchema S.Store conn.old conn.new }
{
    match list_meta_ids(conn) {
        Ok(rows) => match only_id(rows.as_slice()) {
            Some(_id) => Ok(()),
            None => Err(OpenFault::Store),
        },
        Err(error) => Err(open_fault_of(error)),
    }
}

/// Reads all rows of the three tables, whatever their contents.
fn list_first_rows<S: Alter>(conn: &mut Connection<S>) -> Result<FirstRows, Error>
    ensures lists { GivenFirstSchema S.Store conn.old conn.new (IfOk result
        (λ rows. AreListedFirstRows S.Store conn.old rows.books.items rows.members.items
        rows.imports.items)) }
    ensures unchanged { UnchangedOnOkFirstSchema S.Store conn.old conn.new result }
    ensures reads_only { OnlyReadsFirstSchema S.Store conn.old conn.new }
    ensures fails_from_outside { FailsFromOutsideFirstSchema S.Store conn.old conn.new result }
{
    let books = list_books(conn)?;
    let members = list_members(conn)?;
    let imports = list_imports(conn)?;
    Ok(FirstRows {
        books,
        members,
        imports,
    })
}

/// Computes the keeps of tables of the first schema, and tests the rows with them.
fn plan_keeps<S: Alter>(
    alloc: Global,
    conn: &mut Connection<S>,
    limits: Limits,
) -> Result<Vec<Row>, OpenFault>
    ensures planned { HasCleanDisk S.Store conn.new → IsFirstSchema S.Store conn.old
        → IfOk result (λ keeps. IsMigrationPlan S.Store conn.old limits keeps.items) }
    ensures refusal { HasCleanDisk S.Store conn.new → IsFirstSchema S.Store conn.old
        → IfErr result (IsMigrationRefusal S.Store conn.old limits) }
    ensures from_outside { MigrationFailsFromOutside S.Store conn.old conn.new limits result }
    ensures unchanged { UnchangedOnOkFirstSchema S.Store conn.old conn.new result }
    ensures reads_only { OnlyReadsFirstSchema S.Store conn.old conn.new }
{
    check_meta_id(conn)?;
    match list_first_rows(conn) {
        Ok(rows) => compute_keeps(alloc, limits, &rows),
        Err(error) => Err(open_fault_of(error)),
    }
}

/// Tests the schema and the rows, and returns the keeps; or why the tables can't be migrated.
/// Changes nothing.
pub(crate) fn plan_migration<S: Alter>(
    alloc: Global,
    conn: &mut Connection<S>,
    limits: Limits,
) -> Result<Vec<Row>, OpenFault>
    ensures planned { HasCleanDisk S.Store conn.new
        → IfOk result (λ keeps. IsMigrationPlan S.Store conn.old limits keeps.items) }
    ensures refusal { HasCleanDisk S.Store conn.new
        → IfErr result (IsMigrationRefusal S.Store conn.old limits) }
    ensures from_outside { MigrationFailsFromOutside S.Store conn.old conn.new limits result }
    ensures unchanged { HasCleanDisk S.Store conn.new
        → OnOk result (IsUnchanged S.Store conn.old conn.new) }
    ensures changes_nothing { ChangesNothing S.Store conn.old conn.new }
{
    check_first_schema(conn)?;
    plan_keeps(alloc, conn, limits)
}
