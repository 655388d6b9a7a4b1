//! Writes a planned resync in one transaction.
ghost use Rattle.store_lookups.specs.Faults.{IsDeniedFault};
ghost use Rattle.store_resync.specs.internal.Changes.{HoldsResync, HoldsStages};
ghost use Rattle.store_resync.specs.internal.OnConnections.{
  CommitsResync,
  CommitsResyncOnce,
  InTxWithPlan,
  InTxWithPlans,
  KeepsCommitWithPlan,
  KeepsCommitWithPlans,
  WritesMembersInTx,
  WritesStageInTx,
};
ghost use Rattle.store_resync.specs.internal.Stages.{header_after};
ghost use Rattle.store_tables.specs.OnConnections.{
  CountsFaults,
  HoldsInTx,
  SurvivesAsBefore,
};
ghost use Rattle.store_writes.specs.TableChanges.{AreHeaderColumns};
ghost use Rattle.store_resync.specs.declared.stages.Stage.TheVariants.{Pairs};
ghost use Rattle.std.specs.Prelude.{◌≡◌, IfErr, OnOk, false, length, pos};

use crate::planning::BookPlan;
use crate::stages::{Stage, horizon_after};
use book_model::Denied;
use sqlite::{Alter, Connection, Error, Transaction};
use store_lookups::{column_of, fault_of};
use store_tables::books::{BookNumbers, renumber_book};
use store_tables::members::{forget_members, update_or_put};
use store_tables::settled::assert_no_pending_writes;
use store_writes::columns::columns_of;

/// Writes the members of the plan's book `id`: its renewed card, if it has one, under the number
/// `last`; or without the tombstones up to `last`.
fn write_members<S: Alter>(
    tx: &mut Transaction<'_, S>,
    id: i64,
    last: i64,
    plan: &BookPlan,
    stage: Stage,
) -> Result<(), Error>
    ensures same_reference { tx.new.conn.ghost_name ≡ tx.old.conn.ghost_name }
    ensures members { id ≡ pos plan.now.header.id → last ≡ pos plan.now.last
        → WritesMembersInTx S.Store tx.old.conn.now tx.new.conn.now plan.now stage result }
    ensures keeps_commit { id ≡ pos plan.now.header.id
        → KeepsCommitWithPlan S.Store tx.old.conn.now tx.new.conn.now plan.now stage }
    ensures survives { SurvivesAsBefore S.Store tx.old.conn.now tx.new.conn.now }
{
    match stage {
        Stage::Pairs => match &plan.renewed {
            Some(card) => {
                update_or_put(tx, id, card.uid.as_str(), last, Some(card.text.as_str()))
            }
            None => Ok(()),
        },
        Stage::Forgetting => match forget_members(tx, id, last) {
            Ok(_) => Ok(()),
            Err(error) => Err(error),
        },
    }
}

/// Writes the stage for the plan's book `id`: its members, and then its own row.
fn write_stage<S: Alter>(
    tx: &mut Transaction<'_, S>,
    id: i64,
    last: i64,
    numbers: BookNumbers,
    plan: &BookPlan,
    stage: Stage,
) -> Result<(), Error>
    ensures same_reference { tx.new.conn.ghost_name ≡ tx.old.conn.ghost_name }
    ensures stage { AreHeaderColumns (header_after stage plan.now) id numbers
        → last ≡ pos plan.now.last
        → WritesStageInTx S.Store tx.old.conn.now tx.new.conn.now plan.now stage result }
    ensures keeps_commit { id ≡ pos plan.now.header.id → last ≡ pos plan.now.last
        → KeepsCommitWithPlan S.Store tx.old.conn.now tx.new.conn.now plan.now stage }
    ensures survives { SurvivesAsBefore S.Store tx.old.conn.now tx.new.conn.now }
{
    write_members(tx, id, last, plan, stage)?;
    renumber_book(tx, id, numbers)?;
    Ok(())
}

/// Writes the stage for the plan's book.
fn write_plan<S: Alter>(
    tx: &mut Transaction<'_, S>,
    plan: &BookPlan,
    stage: Stage,
) -> Result<(), Denied>
    ensures same_reference { tx.new.conn.ghost_name ≡ tx.old.conn.ghost_name }
    ensures stage { WritesStageInTx S.Store tx.old.conn.now tx.new.conn.now plan.now stage result }
    ensures keeps_commit { KeepsCommitWithPlan S.Store tx.old.conn.now tx.new.conn.now plan.now stage }
    ensures fault { IfErr result IsDeniedFault }
    ensures survives { SurvivesAsBefore S.Store tx.old.conn.now tx.new.conn.now }
{
    let id = column_of(plan.header.id())?;
    let last = column_of(plan.last)?;
    let horizon = horizon_after(stage, plan.header.horizon(), plan.last);
    let numbers = columns_of(plan.last, horizon, plan.counts)?;
    match write_stage(tx, id, last, numbers, plan, stage) {
        Ok(()) => Ok(()),
        Err(error) => Err(fault_of(error)),
    }
}

/// Writes the stage for all plans.
fn write_plans<S: Alter>(
    tx: &mut Transaction<'_, S>,
    plans: &[BookPlan],
    stage: Stage,
) -> Result<(), Denied>
    ensures same_reference { tx.new.conn.ghost_name ≡ tx.old.conn.ghost_name }
    ensures stage { InTxWithPlans S.Store tx.old.conn.now tx.new.conn.now plans.now stage
        (λ rows. OnOk result (HoldsInTx S.Store tx.new.conn.now
        (λ db. HoldsStages db rows plans.now stage (length plans.now)))) }
    ensures keeps_commit { KeepsCommitWithPlans S.Store tx.old.conn.now tx.new.conn.now plans.now stage }
    ensures fault { IfErr result IsDeniedFault }
    ensures survives { SurvivesAsBefore S.Store tx.old.conn.now tx.new.conn.now }
{
    for plan in plans {
        write_plan(tx, plan, stage)?;
    }
    Ok(())
}

/// Writes both stages for all plans.
fn write_resync<S: Alter>(tx: &mut Transaction<'_, S>, plans: &[BookPlan]) -> Result<(), Denied>
    ensures same_reference { tx.new.conn.ghost_name ≡ tx.old.conn.ghost_name }
    ensures resynced { InTxWithPlans S.Store tx.old.conn.now tx.new.conn.now plans.now Pairs
        (λ rows. OnOk result (HoldsInTx S.Store tx.new.conn.now
        (λ db. HoldsResync db rows plans.now))) }
    ensures keeps_commit { KeepsCommitWithPlans S.Store tx.old.conn.now tx.new.conn.now plans.now Pairs }
    ensures fault { IfErr result IsDeniedFault }
    ensures survives { SurvivesAsBefore S.Store tx.old.conn.now tx.new.conn.now }
{
    write_plans(tx, plans, Stage::Pairs)?;
    write_plans(tx, plans, Stage::Forgetting)
}

/// Writes the resync in one transaction.
pub(crate) fn commit_resync<S: Alter>(
    conn: &mut Connection<S>,
    plans: &[BookPlan],
) -> Result<(), Denied>
    requires { conn.old.in_transaction ≡ false }
    ensures atomic { CommitsResync S.Store conn.old conn.new plans.now result }
    ensures fault { IfErr result IsDeniedFault }
    ensures settled { conn.new.in_transaction ≡ false }
    ensures survives { CountsFaults S.Store conn.old conn.new }
    ensures crash { CommitsResyncOnce S.Store conn.old conn.new plans.now }
{
    assert_no_pending_writes(conn);

    // The proof needs the tables to obey their constraints, which this call ensures.
    let _tables = conn.schema();
    let mut tx = conn.transaction();
    write_resync(&mut tx, plans)?;
    match tx.commit() {
        Ok(()) => Ok(()),
        Err(error) => Err(fault_of(error)),
    }
}
