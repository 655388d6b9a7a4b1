//! Tests whether the tables of a connection are a store's and hold well-formed books.
ghost use Rattle.store_check.specs.FaultSearches.{ChecksBooks, ChecksListed};
ghost use Rattle.store_check.specs.OnConnections.{AreBookRows, IsCountedResult, IsFaultSearch};
ghost use Rattle.store_check.specs.OnConnections.{ChecksMembers, IsOpenResult, IsTestResult};
ghost use Rattle.store_check.specs.OnConnections.{ObeySchema, OpensWellFormed};
ghost use Rattle.store_check.specs.RowFaults.{IsLabelled};
ghost use Rattle.store_check.specs.StoredTests.{PassBookTests};
ghost use Rattle.store_rows.specs.SoundTables.{HoldsWellFormed};
ghost use Rattle.store_schema.specs.OpenFaults.{IsErrorFault};
ghost use Rattle.store_schema.specs.OnConnections.{ChangesNothing, ComesFromOutside};
ghost use Rattle.store_schema.specs.OnConnections.{IsCurrentSchema};
ghost use Rattle.store_schema.specs.declared.open_fault.OpenFault.TheVariants.{Memory};
ghost use Rattle.store_tables.specs.Members.{AreMembers};
ghost use Rattle.store_tables.specs.OnConnections.{FailsFromOutside, GivenMembers, GivenTables};
ghost use Rattle.store_tables.specs.OnConnections.{HasCleanDisk, HoldsNow, IsConnectionOpen};
ghost use Rattle.store_tables.specs.OnConnections.{OnlyReads, UnchangedOnOk};
ghost use Rattle.std.specs.Prelude.{◌≡◌, IfErr, IfOk, OnOk};

use crate::books::first_faulty_book;
use crate::counts::{TombstoneCount, list_counts};
use crate::faults::{FaultyRow, RowFault};
use crate::labels::label_row;
use crate::listed::first_faulty_listed;
use crate::scanning::scan_members;
use crate::tables::have_unique_keys;
use crate::tallies::{BookTally, start_tallies};
use book_model::Limits;
use sqlite::{Alter, Connection, Error, Row};
use std::alloc::Global;
use store_schema::{OpenFault, check_schema, open_fault_of};
use store_tables::books::all_books;
use store_tables::imports::all_imports;
use store_tables::keeps::all_keeps;
use vcard_text::NoMemory;

/// The rows of all tables but that of the members, each table's in any order.
#[derive(Drop)]
struct BookRows {
    books: Vec<Row>,
    imports: Vec<Row>,
    keeps: Vec<Row>,
}

/// Reads all rows of books, imports and keeps, whatever their contents.
fn list_book_rows<S: Alter>(conn: &mut Connection<S>) -> Result<BookRows, Error>
    ensures lists { GivenTables S.Store conn.old conn.new (IfOk result
        (λ listed. AreBookRows S.Store conn.old listed.books.items listed.imports.items
        listed.keeps.items)) }
    ensures unchanged { UnchangedOnOk S.Store conn.old conn.new result }
    ensures fails_from_outside { FailsFromOutside S.Store conn.old conn.new result }
    ensures reads_only { OnlyReads S.Store conn.old conn.new }
{
    let books = all_books(conn)?;
    let imports = all_imports(conn)?;
    let keeps = all_keeps(conn)?;
    Ok(BookRows {
        books,
        imports,
        keeps,
    })
}

/// Proves for its caller that the rows of an open connection obey the declared tables. It has no
/// other effect.
fn assert_rows_obey<S: Alter>(conn: &Connection<S>)
    ensures { ObeySchema S.Store conn.now }
{
    let _schema = conn.schema();
}

/// The row with this fault, labelled.
fn label(alloc: Global, books: &[Row], row: &Row, fault: RowFault) -> Result<FaultyRow, OpenFault>
    ensures label { IfOk result (IsLabelled books.now row.now fault) }
    ensures fault { IfErr result (λ fault. fault ≡ Memory) }
{
    match label_row(alloc, books, row, fault) {
        Ok(faulty) => Ok(faulty),
        Err(NoMemory) => Err(OpenFault::Memory),
    }
}

/// Tests whether each book agrees with its members. Returns the tallies, or the first faulty book.
fn check_books(
    alloc: Global,
    limits: Limits,
    listed: &BookRows,
    tallies: Vec<BookTally>,
) -> Result<Result<Vec<BookTally>, FaultyRow>, OpenFault>
    ensures tests { IfOk result (ChecksBooks limits listed.now.books.items
        listed.now.keeps.items tallies.items) }
    ensures fault { IfErr result (λ fault. fault ≡ Memory) }
{
    let books = listed.books.as_slice();
    let keeps = listed.keeps.as_slice();
    match first_faulty_book(limits, books.len(), books, tallies.as_slice(), keeps) {
        Some((book, fault)) => Ok(Err(label(alloc, books, book, RowFault::Book(fault))?)),
        None => Ok(Ok(tallies)),
    }
}

/// Tests the members one at a time, and then whether each book agrees with its members. Returns the
/// tally of each book if all are good, or the first faulty row.
#[tactic(auto, using(crate::proofs::OpenLemmas::only_memory))]
fn check_members<S: Alter>(
    alloc: Global,
    conn: &mut Connection<S>,
    limits: Limits,
    listed: &BookRows,
) -> Result<Result<Vec<BookTally>, FaultyRow>, OpenFault>
    ensures tests { GivenTables S.Store conn.old conn.new (IfOk result
        (ChecksMembers S.Store conn.old limits listed.now.books.items listed.now.keeps.items)) }
    ensures fault { IfErr result IsErrorFault }

    // Where no two members share an id, it fails only for lack of memory or for an outside cause.
    ensures fails_from_outside { GivenMembers S.Store conn.old conn.new (λ members.
        AreMembers members → IfErr result (ComesFromOutside S.Store conn.old conn.new)) }
    ensures reads_only { OnlyReads S.Store conn.old conn.new }
{
    let books = listed.books.as_slice();
    let Ok(mut tallies) = start_tallies(alloc, books) else {
        return Err(OpenFault::Memory);
    };
    match scan_members(alloc, conn, books, tallies.as_mut_slice()) {
        Ok(None) => check_books(alloc, limits, listed, tallies),
        Ok(Some(faulty)) => Ok(Err(faulty)),
        Err(error) => Err(open_fault_of(error)),
    }
}

/// Tests the rows of books, imports and keeps, as far as no member need be read. Returns the first
/// faulty row.
fn check_listed(
    alloc: Global,
    limits: Limits,
    listed: &BookRows,
) -> Result<Option<FaultyRow>, OpenFault>
    ensures tests { IfOk result (ChecksListed limits listed.now.books.items
        listed.now.imports.items listed.now.keeps.items) }
    ensures fault { IfErr result IsErrorFault }

    // Rows that pass their tests have unique keys, so it fails only for lack of memory.
    ensures passed { PassBookTests limits listed.now.books.items listed.now.imports.items
        listed.now.keeps.items → IfErr result (λ fault. fault ≡ Memory) }
{
    let books = listed.books.as_slice();
    let imports = listed.imports.as_slice();
    let keeps = listed.keeps.as_slice();
    if let Some((row, fault)) = first_faulty_listed(limits, books, imports, keeps) {
        return Ok(Some(label(alloc, books, row, fault)?));
    }
    match have_unique_keys(alloc, books, imports, keeps) {
        Ok(true) => Ok(None),
        // SQLite keeps the keys of rows unique that have the columns of their tables.
        Ok(false) => Err(OpenFault::Store),
        Err(NoMemory) => Err(OpenFault::Memory),
    }
}

/// Tests the listed rows, and then the members. Returns how many tombstones each book has, or the
/// first faulty row.
fn check_all_rows<S: Alter>(
    alloc: Global,
    conn: &mut Connection<S>,
    limits: Limits,
    listed: &BookRows,
) -> Result<Result<Vec<TombstoneCount>, FaultyRow>, OpenFault>
    ensures answers { HasCleanDisk S.Store conn.new → IsCurrentSchema S.Store conn.old
        → IsConnectionOpen S.Store conn.old → AreBookRows S.Store conn.old
        listed.now.books.items listed.now.imports.items listed.now.keeps.items
        → IsTestResult S.Store conn.old limits result }
    ensures opens { HasCleanDisk S.Store conn.new
        → HoldsNow S.Store conn.old (HoldsWellFormed limits) → AreBookRows S.Store conn.old
        listed.now.books.items listed.now.imports.items listed.now.keeps.items
        → IfErr result (ComesFromOutside S.Store conn.old conn.new) }
    ensures reads_only { OnlyReads S.Store conn.old conn.new }
{
    assert_rows_obey(conn);
    if let Some(faulty) = check_listed(alloc, limits, listed)? {
        return Ok(Err(faulty));
    }
    match check_members(alloc, conn, limits, listed)? {
        Ok(tallies) => Ok(Ok(list_counts(alloc, listed.books.as_slice(), tallies.as_slice())?)),
        Err(faulty) => Ok(Err(faulty)),
    }
}

/// Reads and tests the rows of tables that have this schema.
fn check_rows<S: Alter>(
    alloc: Global,
    conn: &mut Connection<S>,
    limits: Limits,
) -> Result<Result<Vec<TombstoneCount>, FaultyRow>, OpenFault>
    ensures answers { HasCleanDisk S.Store conn.new → IsCurrentSchema S.Store conn.old
        → IsTestResult S.Store conn.old limits result }
    ensures opens { OpensWellFormed S.Store conn.old conn.new limits result }
    ensures reads_only { OnlyReads S.Store conn.old conn.new }
{
    match list_book_rows(conn) {
        Ok(listed) => check_all_rows(alloc, conn, limits, &listed),
        Err(error) => Err(open_fault_of(error)),
    }
}

/// Tests the schema, and then all rows.
fn check_schema_and_rows<S: Alter>(
    alloc: Global,
    conn: &mut Connection<S>,
    limits: Limits,
) -> Result<Result<Vec<TombstoneCount>, FaultyRow>, OpenFault>
    ensures answers { HasCleanDisk S.Store conn.new → IsTestResult S.Store conn.old limits result }
    ensures opens { OpensWellFormed S.Store conn.old conn.new limits result }
    ensures was_open { HasCleanDisk S.Store conn.new
        → OnOk result (IsConnectionOpen S.Store conn.old) }
    ensures changes_nothing { ChangesNothing S.Store conn.old conn.new }
{
    check_schema(conn)?;
    check_rows(alloc, conn, limits)
}

/// Tests whether the tables of the connection are a store's and hold well-formed books within the
/// limits. Returns a row that has a fault, or `None` if the tables hold well-formed books.
///
/// Which of several faulty rows it is, is only tested: the rows of books, imports and keeps come
/// first, then the members in the order of their row ids, and then whether each book agrees with
/// its members. Fails with `NotOurs` or `OtherSchema` if the tables aren't those of a store; with
/// `Memory` or `Store` if the database can't be read. It never fails with `Damaged`.
pub fn find_faulty_row<S: Alter>(
    alloc: Global,
    conn: &mut Connection<S>,
    limits: Limits,
) -> Result<Option<FaultyRow>, OpenFault>
    ensures answers { HasCleanDisk S.Store conn.new → IsFaultSearch S.Store conn.old limits result }

    // Over the rows of well-formed books it fails only for lack of memory, or with `Store` for an
    // outside cause.
    ensures opens { OpensWellFormed S.Store conn.old conn.new limits result }

    // Nothing is changed or committed, also on an error.
    ensures changes_nothing { ChangesNothing S.Store conn.old conn.new }
{
    match check_schema_and_rows(alloc, conn, limits)? {
        Ok(_) => Ok(None),
        Err(faulty) => Ok(Some(faulty)),
    }
}

/// Tests whether the tables of the connection are a store's and hold well-formed books within the
/// limits, and returns how many tombstones each book has, in any order of the books. The number is
/// counted as the members are read, so it costs no query.
///
/// Fails with `NotOurs` or `OtherSchema` if the schema test does, before any book is read; with
/// `Damaged` if the rows do not represent well-formed books; with `Memory` if memory runs out; and
/// with `Store` for any other error of the database.
pub fn count_tombstones<S: Alter>(
    alloc: Global,
    conn: &mut Connection<S>,
    limits: Limits,
) -> Result<Vec<TombstoneCount>, OpenFault>
    ensures answers { HasCleanDisk S.Store conn.new
        → IsCountedResult S.Store conn.old limits result }

    // Over the rows of well-formed books it fails only for lack of memory, or with `Store` for an
    // outside cause.
    ensures opens { OpensWellFormed S.Store conn.old conn.new limits result }
    ensures was_open { HasCleanDisk S.Store conn.new
        → OnOk result (IsConnectionOpen S.Store conn.old) }

    // Nothing is changed or committed, also on an error.
    ensures changes_nothing { ChangesNothing S.Store conn.old conn.new }
{
    match check_schema_and_rows(alloc, conn, limits)? {
        Ok(counts) => Ok(counts),
        Err(_) => Err(OpenFault::Damaged),
    }
}

/// Tests whether the tables of the connection are a store's and hold well-formed books within the
/// limits. Reads all rows and parses each card.
///
/// Fails with `NotOurs` or `OtherSchema` if the schema test does, before any book is read; with
/// `Damaged` if the rows do not represent well-formed books; with `Memory` if memory runs out; and
/// with `Store` for any other error of the database.
pub fn check_tables<S: Alter>(
    alloc: Global,
    conn: &mut Connection<S>,
    limits: Limits,
) -> Result<(), OpenFault>
    ensures answers { HasCleanDisk S.Store conn.new → IsOpenResult S.Store conn.old limits result }

    // Over the rows of well-formed books it fails only for lack of memory, or with `Store` for an
    // outside cause.
    ensures opens { OpensWellFormed S.Store conn.old conn.new limits result }

    // Nothing is changed or committed, also on an error.
    ensures changes_nothing { ChangesNothing S.Store conn.old conn.new }
{
    match count_tombstones(alloc, conn, limits) {
        Ok(_) => Ok(()),
        Err(fault) => Err(fault),
    }
}
