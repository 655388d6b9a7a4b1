//! Writes the tables of the second schema over those of the first, in one transaction.
ghost use Rattle.store_migration.specs.internal.FirstRows.{HasOneSchemaNumber};
ghost use Rattle.store_migration.specs.internal.MigrationWrites.{AcceptKeeps};
ghost use Rattle.store_tables.specs.Books.{BookRow};
ghost use Rattle.store_tables.specs.Keeps.{KeepRow};
ghost use Rattle.store_tables.specs.Tables.{book_schema};
ghost use Rattle.store_schema.specs.FirstSchema.{first_number};
ghost use Rattle.store_schema.specs.StoredSchema.{HasSchemaNumber};
ghost use Rattle.std.specs.Int.{w64};
ghost use Rattle.std.specs.Prelude.{◌≡◌, ℤ, FitsSigned, List, OnOk, [], false, map};
ghost use Rattle.store_migration.specs.InitialKeeps.{cells_of_keep};
ghost use Rattle.store_migration.specs.internal.OnConnections.{
  AddsKeeps,
  CommitsKeeps,
  IsFirstWithId,
  TreesAddKeeps,
  WroteKeeps,
};
ghost use Rattle.store_tables.specs.OnConnections.{
  CountsFaults,
  HasBooks,
  HasCleanDisk,
  HasOutsideCauseOfError,
  HoldsInTx,
  HoldsNow,
  InsideTx,
  KeepsCommit,
  KeepsCommitInTx,
  ObeyTables,
  Survives,
  SurvivesAsBefore,
  WriteFailsFromOutside,
  WritesOnly,
  table_rows,
};

use sqlite::{Alter, Connection, Error, Row, Transaction, params};
use store_check::cells::number_or_zero_at;
use store_tables::creation::create_keeps;
use store_tables::keeps::insert_keep;
use store_tables::meta::SCHEMA_NUMBER;
use store_tables::settled::assert_no_pending_writes;

/// Updates the schema number in the one row of the table `meta`, which held that of the first.
fn update_schema_number<S: Alter>(tx: &mut Transaction<'_, S>, number: i64) -> Result<usize, Error>
    ensures same_reference { tx.new.conn.ghost_name ≡ tx.old.conn.ghost_name }
    ensures updates { (id : ℤ)
        → InsideTx S.Store tx.old.conn.now tx.new.conn.now (tx.old.conn.now.schema ≡ book_schema
        → HoldsNow S.Store tx.old.conn.now (HasOneSchemaNumber id first_number)
        → OnOk result (HoldsNow S.Store tx.new.conn.now (HasSchemaNumber number))) }
    ensures writes { (id : ℤ)
        → InsideTx S.Store tx.old.conn.now tx.new.conn.now (tx.old.conn.now.schema ≡ book_schema
        → HoldsNow S.Store tx.old.conn.now (HasOneSchemaNumber id first_number)
        → OnOk result (WritesOnly S.Store tx.old.conn.now tx.new.conn.now 0)) }
    ensures keeps_commit { KeepsCommitInTx S.Store tx.old.conn.now tx.new.conn.now }
    ensures survives { SurvivesAsBefore S.Store tx.old.conn.now tx.new.conn.now }
    ensures fails_from_outside { (id : ℤ) → FitsSigned w64 id
        → HoldsNow S.Store tx.old.conn.now (HasOneSchemaNumber id first_number)
        → WriteFailsFromOutside S.Store tx.old.conn.now tx.new.conn.now result }
{
    tx.execute("UPDATE meta SET val = ?1", params![number])
}

/// Inserts the rows of the keeps, each a book's id and its keep, into the empty table. The
/// recursion is as deep as the number of keeps.
fn insert_keeps<S: Alter>(tx: &mut Transaction<'_, S>, keeps: &[Row]) -> Result<(), Error>
    ensures same_reference { tx.new.conn.ghost_name ≡ tx.old.conn.ghost_name }
    ensures holds { (keep_rows : List KeepRow)
        → InsideTx S.Store tx.old.conn.now tx.new.conn.now (tx.old.conn.now.schema ≡ book_schema
        → table_rows S.Store tx.old.conn.now 9 ≡ [] → keeps.now ≡ map cells_of_keep keep_rows
        → OnOk result (WroteKeeps S.Store tx.old.conn.now tx.new.conn.now keep_rows)) }
    ensures kept { (keep_rows : List KeepRow)
        → InsideTx S.Store tx.old.conn.now tx.new.conn.now (tx.old.conn.now.schema ≡ book_schema
        → table_rows S.Store tx.old.conn.now 9 ≡ [] → keeps.now ≡ map cells_of_keep keep_rows
        → KeepsCommit S.Store tx.old.conn.now tx.new.conn.now) }
    ensures survives { SurvivesAsBefore S.Store tx.old.conn.now tx.new.conn.now }
    ensures obeys { (keep_rows : List KeepRow)
        → InsideTx S.Store tx.old.conn.now tx.new.conn.now (tx.old.conn.now.schema ≡ book_schema
        → table_rows S.Store tx.old.conn.now 9 ≡ [] → keeps.now ≡ map cells_of_keep keep_rows
        → ObeyTables S.Store tx.old.conn.now → OnOk result (ObeyTables S.Store tx.new.conn.now)) }
    ensures fails_from_outside { (keep_rows : List KeepRow) (bs : List BookRow)
        → table_rows S.Store tx.old.conn.now 9 ≡ [] → keeps.now ≡ map cells_of_keep keep_rows
        → HasBooks S.Store tx.old.conn.now bs → AcceptKeeps bs keep_rows
        → WriteFailsFromOutside S.Store tx.old.conn.now tx.new.conn.now result }
{
    let Some((keep, others)) = keeps.split_first() else {
        return Ok(());
    };
    insert_keeps(tx, others)?;
    insert_keep(tx, number_or_zero_at(keep, 0), number_or_zero_at(keep, 1))?;
    Ok(())
}

/// Creates and fills the table `keeping`, and writes the number of the second schema.
fn write_keeps<S: Alter>(tx: &mut Transaction<'_, S>, keeps: &[Row]) -> Result<(), Error>
    ensures same_reference { tx.new.conn.ghost_name ≡ tx.old.conn.ghost_name }
    ensures writes { (id : ℤ) (keep_rows : List KeepRow)
        → InsideTx S.Store tx.old.conn.now tx.new.conn.now (IsFirstWithId S.Store tx.old.conn.now id
        → keeps.now ≡ map cells_of_keep keep_rows
        → OnOk result
        (HoldsInTx S.Store tx.new.conn.now (AddsKeeps S.Store tx.old.conn.now keep_rows))) }
    ensures keeps_commit { (id : ℤ) (keep_rows : List KeepRow)
        → InsideTx S.Store tx.old.conn.now tx.new.conn.now (IsFirstWithId S.Store tx.old.conn.now id
        → keeps.now ≡ map cells_of_keep keep_rows
        → KeepsCommit S.Store tx.old.conn.now tx.new.conn.now) }
    ensures survives { SurvivesAsBefore S.Store tx.old.conn.now tx.new.conn.now }
    ensures fails_from_outside { (id : ℤ) (keep_rows : List KeepRow) (bs : List BookRow)
        → InsideTx S.Store tx.old.conn.now tx.new.conn.now (IsFirstWithId S.Store tx.old.conn.now id
        → keeps.now ≡ map cells_of_keep keep_rows → HasBooks S.Store tx.old.conn.now bs
        → AcceptKeeps bs keep_rows
        → HasOutsideCauseOfError S.Store tx.old.conn.now tx.new.conn.now result) }
{
    create_keeps(tx)?;
    insert_keeps(tx, keeps)?;
    update_schema_number(tx, SCHEMA_NUMBER)?;
    Ok(())
}

/// Writes the second schema, with the keeps, in one transaction.
pub(crate) fn commit_keeps<S: Alter>(conn: &mut Connection<S>, keeps: &[Row]) -> Result<(), Error>
    requires { conn.old.in_transaction ≡ false }
    ensures atomic { (id : ℤ) (keep_rows : List KeepRow) → HasCleanDisk S.Store conn.new
        → IsFirstWithId S.Store conn.old id → keeps.now ≡ map cells_of_keep keep_rows
        → CommitsKeeps S.Store conn.old conn.new result (AddsKeeps S.Store conn.old keep_rows) }
    ensures settled { conn.new.in_transaction ≡ false }
    ensures survives { CountsFaults S.Store conn.old conn.new }
    ensures crash { (id : ℤ) (keep_rows : List KeepRow) → IsFirstWithId S.Store conn.old id
        → keeps.now ≡ map cells_of_keep keep_rows
        → Survives S.Store conn.old conn.new (TreesAddKeeps S.Store conn.old keep_rows) }
    ensures fails_from_outside { (id : ℤ) (keep_rows : List KeepRow) (bs : List BookRow)
        → HasCleanDisk S.Store conn.new → IsFirstWithId S.Store conn.old id
        → keeps.now ≡ map cells_of_keep keep_rows → HasBooks S.Store conn.old bs
        → AcceptKeeps bs keep_rows → HasOutsideCauseOfError S.Store conn.old conn.new result }
{
    assert_no_pending_writes(conn);
    let mut tx = conn.transaction();
    write_keeps(&mut tx, keeps)?;
    tx.commit()
}
