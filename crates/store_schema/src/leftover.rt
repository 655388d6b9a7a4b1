//! Tests the tables in files over which no connection opens. None opens if rows break the
//! declarations of their tables: for example, if a row of a member names no book.
ghost use Rattle.store_schema.specs.FileFaults.{HasNoStore, IsFaultOfLeftover};
ghost use Rattle.store_schema.specs.FirstSchema.{ClassifiesFirstSchema};
ghost use Rattle.store_schema.specs.FoundTables.{ClassifiesFound, LoadsSchema, database_of};
ghost use Rattle.store_schema.specs.OpenFaults.{IsCreationFault, IsErrorFault};
ghost use Rattle.store_schema.specs.StoredSchema.{ClassifiesSchema};
ghost use Rattle.store_schema.specs.internal.MetaCursor.{IsNextMeta, IsOnlyNumber, meta_cursor};
ghost use Rattle.store_schema.specs.internal.StatedNumber.{IsNumberStated};
ghost use Rattle.store_tables.specs.Meta.{meta_listed};
ghost use Rattle.sqlite.specs.Files.{IsCleanLeft};
ghost use Rattle.sqlite_exec.specs.Calls.{OnlyReads};
ghost use Rattle.sqlite_trees.specs.View.{IsClean, IsQuiet};
ghost use Rattle.std.specs.Prelude.{◌≡◌, IfErr, IfOk, IsSome, OnOk, map};

use crate::check::FIRST_SCHEMA_NUMBER;
use crate::meta::{stated_number, verify};
use crate::open_fault::OpenFault;
use crate::schema::{is_book_schema, is_first_schema};
use sqlite::{Alter, FileFrom, Leftover, Row, Start};
use sqlite_catalog::load::load;
use sqlite_exec::work::FromRow;
use sqlite_schema::schema::Schema;
use sqlite_trees::error::StoreError;
use sqlite_trees::store::{Direction, Store};
use sqlite_value::row;
use std::alloc::{AllocError, Global};
use store_tables::meta::SCHEMA_NUMBER;

/// The number of the tree with the rows of the table `meta`.
const META_TREE: u32 = 0;

/// The number of the cursor over the table `meta`.
const META_CURSOR: u16 = 0;

// ---- the schema number

/// The name and the value in a stored row of the table `meta`, which begins with the row id.
fn meta_row(alloc: Global, entry: &row::Row) -> Result<Row, AllocError>
    ensures { IfOk result (λ row. row ≡ meta_listed entry.now) }
{
    let mut values = row::Row::new(alloc);
    values.push(entry.get(1))?;
    values.push(entry.get(2))?;
    Row::from_row(alloc, &values)
}

/// Returns the next row of the table `meta`, or `None` at its end.
fn next_meta<S: Alter>(alloc: Global, store: &mut S) -> Result<Option<Row>, StoreError>
    requires { IsSome ((S.Store.view store.old).cursors meta_cursor) }
    ensures next { IsClean (S.Store.view store.new)
        → IfOk result (IsNextMeta (S.Store.view store.old) (S.Store.view store.new)) }
    ensures reads_only { IsClean (S.Store.view store.new)
        → OnOk result (OnlyReads (S.Store.view store.old) (S.Store.view store.new)) }
    ensures live { OnOk result (IsSome ((S.Store.view store.new).cursors meta_cursor)) }
    ensures quiet { IsQuiet S.Store.view S.Store.faults S.Store.recovers S.Store.is_shielded
        store.old store.new }
{
    let mut entry = row::Row::new(alloc);
    if !store.next(META_CURSOR, &mut entry)? {
        return Ok(None);
    }
    Ok(Some(meta_row(alloc, &entry)?))
}

/// Returns the schema number in the first row if there is no second.
fn only_number(first: &Option<Row>, second: &Option<Row>) -> Option<i64>
    ensures { IsOnlyNumber first.now second.now result }
{
    match (first, second) {
        (Some(row), None) => stated_number(row),
        _ => None,
    }
}

/// Returns the schema number if it is the only row of the table `meta`.
fn load_number<S: Alter>(alloc: Global, store: &mut S) -> Result<Option<i64>, StoreError>
    ensures number { IsClean (S.Store.view store.new)
        → IfOk result (IsNumberStated (map meta_listed ((S.Store.view store.old).trees 0))) }
    ensures quiet { IsQuiet S.Store.view S.Store.faults S.Store.recovers S.Store.is_shielded
        store.old store.new }
{
    let key = row::Row::new(alloc);
    store.seek(META_CURSOR, META_TREE, &key, Direction::Forward)?;
    let first = next_meta(alloc, store)?;
    let second = next_meta(alloc, store)?;
    Ok(only_number(&first, &second))
}

// ---- the schema

/// The fault of an error of the store: `Memory` if it is out of memory, otherwise `Store`.
fn fault_of_store_error(error: StoreError) -> OpenFault
    ensures { IsErrorFault result }
{
    match error {
        StoreError::OutOfMemory => OpenFault::Memory,
        _ => OpenFault::Store,
    }
}

/// Rolls the store back and returns the schema that it lists.
///
/// Fails with `NotOurs` if it lists none, with `Memory` if memory runs out, and with `Store` on
/// another error of the store.
pub fn load_schema<S: Alter>(alloc: Global, store: &mut S) -> Result<Schema, OpenFault>
    ensures loads { IsClean (S.Store.view store.new)
        → LoadsSchema (S.Store.recovers store.old) (S.Store.view store.new).trees result }
    ensures fault { IfErr result IsCreationFault }
    ensures quiet { IsQuiet S.Store.view S.Store.faults S.Store.recovers S.Store.is_shielded
        store.old store.new }
{
    store.rollback();
    if store.is_broken() {
        return Err(OpenFault::Store);
    }
    match load(store, alloc) {
        Ok(Some(schema)) => Ok(schema),
        Ok(None) => Err(OpenFault::NotOurs),
        Err(_) => Err(OpenFault::Memory),
    }
}

/// `check_schema` for a store that lists the schema.
fn check_listed_schema<S: Alter>(
    alloc: Global,
    store: &mut S,
    schema: &Schema,
) -> Result<(), OpenFault>
    ensures answers { IsClean (S.Store.view store.new)
        → ClassifiesSchema (database_of schema.now (S.Store.view store.old).trees) result }
    ensures quiet { IsQuiet S.Store.view S.Store.faults S.Store.recovers S.Store.is_shielded
        store.old store.new }
{
    let keeps = is_book_schema(schema);
    if !keeps && !is_first_schema(schema) {
        return Err(OpenFault::NotOurs);
    }
    match load_number(alloc, store) {
        Ok(stated) => verify(SCHEMA_NUMBER, keeps, stated),
        Err(error) => Err(fault_of_store_error(error)),
    }
}

/// `check_first_schema` for a store that lists the schema.
fn check_listed_first_schema<S: Alter>(
    alloc: Global,
    store: &mut S,
    schema: &Schema,
) -> Result<(), OpenFault>
    ensures answers { IsClean (S.Store.view store.new)
        → ClassifiesFirstSchema (database_of schema.now (S.Store.view store.old).trees) result }
    ensures quiet { IsQuiet S.Store.view S.Store.faults S.Store.recovers S.Store.is_shielded
        store.old store.new }
{
    let is_first = is_first_schema(schema);
    if !is_first && !is_book_schema(schema) {
        return Err(OpenFault::NotOurs);
    }
    match load_number(alloc, store) {
        Ok(stated) => verify(FIRST_SCHEMA_NUMBER, is_first, stated),
        Err(error) => Err(fault_of_store_error(error)),
    }
}

/// `check_schema` for a store over which no connection can be opened.
fn check_found_schema<S: Alter>(alloc: Global, store: &mut S) -> Result<(), OpenFault>
    ensures answers { IsClean (S.Store.view store.new)
        → ClassifiesFound ClassifiesSchema (S.Store.recovers store.old) result }
    ensures quiet { IsQuiet S.Store.view S.Store.faults S.Store.recovers S.Store.is_shielded
        store.old store.new }
{
    match load_schema(alloc, store) {
        Ok(schema) => check_listed_schema(alloc, store, &schema),
        Err(fault) => Err(fault),
    }
}

/// `check_first_schema` for a store over which no connection can be opened.
fn check_found_first_schema<S: Alter>(alloc: Global, store: &mut S) -> Result<(), OpenFault>
    ensures answers { IsClean (S.Store.view store.new)
        → ClassifiesFound ClassifiesFirstSchema (S.Store.recovers store.old) result }
    ensures quiet { IsQuiet S.Store.view S.Store.faults S.Store.recovers S.Store.is_shielded
        store.old store.new }
{
    match load_schema(alloc, store) {
        Ok(schema) => check_listed_first_schema(alloc, store, &schema),
        Err(fault) => Err(fault),
    }
}

// ---- the fault

/// Why no store is opened or created in files, and what is left of them, if they were opened.
pub type FileRefusal<S> = (OpenFault, Option<Leftover<FileFrom<S>>>);

/// Returns why files are refused that were to hold tables of schema 2, and over which no connection
/// opens, since they hold no database. `left` is what is left of them: a store in it is rolled back
/// and read.
///
/// If no store was opened over the files, the fault is `NotOurs`. Otherwise it is the fault of
/// `check_schema` for the tables in them, also `NotOurs` if they list no schema, and `Damaged` if
/// the tables pass: then rows break the declarations. Any call may instead return `Memory` when out
/// of memory, or `Store` on another error of the database.
pub fn fault_of_leftover<S: Start>(alloc: Global, left: &mut Leftover<FileFrom<S>>) -> OpenFault
    // If opening a connection over the files failed with `NotADatabase` and left this, and the disk
    // has returned what was written, the fault is right for what the files held. `Memory` and
    // `Store` always are.
    ensures fault { IsFaultOfLeftover ClassifiesSchema left.old left.new result }

    // A store in `left` stays there.
    ensures keeps_store { HasNoStore left.new → HasNoStore left.old }

    // No fault of the disk is forgotten.
    ensures clean { IsCleanLeft left.new → IsCleanLeft left.old }
{
    match left {
        Leftover::Files(_) | Leftover::Unopened(_) => OpenFault::NotOurs,
        Leftover::Store(store) => match check_found_schema(alloc, store) {
            Ok(()) => OpenFault::Damaged,
            Err(fault) => fault,
        },
    }
}

/// Returns why files are refused that were to hold tables of schema 1, and over which no connection
/// opens, since they hold no database. `left` is what is left of them: a store in it is rolled back
/// and read.
///
/// If no store was opened over the files, the fault is `NotOurs`. Otherwise it says what the tables
/// in them are: `Damaged` if they are those of schema 1 with the schema number 1, as rows then
/// break the declarations; `OtherSchema` if they are those of schema 1 or 2 with another number
/// than 1; and else `NotOurs`, as where no schema is listed. Any call may instead return `Memory`
/// when out of memory, or `Store` on another error of the database.
pub fn fault_of_first_leftover<S: Start>(
    alloc: Global,
    left: &mut Leftover<FileFrom<S>>,
) -> OpenFault
    // If opening a connection over the files failed with `NotADatabase` and left this, and the disk
    // has returned what was written, the fault is right for what the files held. `Memory` and
    // `Store` always are.
    ensures fault { IsFaultOfLeftover ClassifiesFirstSchema left.old left.new result }

    // A store in `left` stays there.
    ensures keeps_store { HasNoStore left.new → HasNoStore left.old }

    // No fault of the disk is forgotten.
    ensures clean { IsCleanLeft left.new → IsCleanLeft left.old }
{
    match left {
        Leftover::Files(_) | Leftover::Unopened(_) => OpenFault::NotOurs,
        Leftover::Store(store) => match check_found_first_schema(alloc, store) {
            Ok(()) => OpenFault::Damaged,
            Err(fault) => fault,
        },
    }
}
