//! What came to the MemRowSets while a flush was outside the lock, put into what it wrote, and written behind it.
ghost use Rattle.std.specs.Prelude.{◌≡◌, ◌≤◌, ◌<◌, ◌^◌, ◌++◌, [], ℕ, None, IsTrue, IfErr, IfOk};
ghost use Rattle.std.specs.List.{AllByRecursion};
ghost use Rattle.kt_outputs.specs.Again.{AllAddLate};
ghost use Rattle.kt_outputs.specs.Outputs.{AreWhole, IsWhole};
ghost use Rattle.kt_merge.specs.Late.{AllTellChanges, TellsChanges};
ghost use Rattle.kt_merge.specs.Merge.{AreReadable, rows_and_changes};
ghost use Rattle.kt_merge.specs.Rewriting.{AddsRedo};
ghost use Rattle.kt_diskrowset.specs.Data.{held_in};
ghost use Rattle.kt_maint.specs.Outside.{AreWithChanges, AreWithSince, HasAdded};

use crate::late::write_late;
use crate::numbers::is_within;
use crate::outside::merge_and_write;
use kt_base::NoMemory;
use kt_disk::Disk;
use kt_diskrowset::{Outputs, RowSetData, RowSetList};
use kt_engine::MemsNow;
use kt_history::ChangeList;
use kt_merge::with_changes;
use kt_outputs::{WriteNo, is_whole};
use kt_storeside::Lent;
use std::alloc::Global;

// An output with what lists of changes have above the bound.
fn changed_output(
    alloc: Global,
    output: RowSetData,
    lists: &[ChangeList],
    bound: u64,
) -> Result<RowSetData, NoMemory>
    requires fresh { output.fresh ≡ [] }
    ensures tells { IfOk result (TellsChanges bound lists.now output) }
    ensures files { IfOk result (λ d. AddsRedo (held_in output) (held_in d)) }
    ensures number { IfOk result (λ d. d.number ≡ output.number) }
    ensures whole { IfOk result IsWhole }
{
    let late = with_changes(alloc, output, lists, bound)?;
    if is_whole(&late) {
        Ok(late)
    } else {
        Err(NoMemory)
    }
}

// Each output so.
fn changed_outputs(
    alloc: Global,
    outputs: Outputs,
    lists: &[ChangeList],
    bound: u64,
) -> Result<Outputs, NoMemory>
    requires fresh { AllByRecursion (λ d. d.fresh ≡ []) outputs.rowsets }
    ensures tells { IfOk result (λ late. AllTellChanges bound lists.now outputs.rowsets late.rowsets) }
    ensures adds { IfOk result (λ late. AllAddLate outputs.rowsets late.rowsets) }
    ensures whole { IfOk result (λ late. AreWhole late.rowsets) }
{
    let mut late = Vec::with_capacity(alloc, outputs.rowsets.len())?;
    let mut rest = outputs.rowsets.into_vec().into_iter();
    'rest: while let Some(output) = rest.next() {
        late.push_reserved(changed_output(alloc, output, lists, bound)?);
    }
    Ok(Outputs {
        rowsets: RowSetList::of(late),
    })
}

// Puts what lists of changes have above the bound into the outputs and writes it.
fn write_with_changes<D: Disk + Drop>(
    alloc: Global,
    lent: &mut Lent<D>,
    most: u64,
    outputs: Outputs,
    lists: &[ChangeList],
    bound: u64,
) -> Result<Outputs, WriteNo>
    requires vacant { IsTrue D.tells → (n : ℕ) → lent.old.next_file ≤ n → D.seen lent.old.device n ≡ None }
    requires apart { 3 ≤ lent.old.next_file }
    requires fresh { AllByRecursion (λ d. d.fresh ≡ []) outputs.rowsets }
    ensures added { HasAdded D.tells D.seen D.now D.leaves D.faults most lent.old lent.new result }
    ensures late { IfOk result (λ done. AreWithChanges D.tells D.seen D.now D.leaves bound lent.old lent.new lists.now outputs.rowsets done.rowsets) }
{
    match changed_outputs(alloc, outputs, lists, bound) {
        Ok(late) => write_late(alloc, lent, most, &late),
        Err(NoMemory) => Err(WriteNo::Memory),
    }
}

// Some outputs, and others behind them.
fn joined(first: Outputs, more: Outputs) -> Result<Outputs, WriteNo>
    ensures both { IfOk result (λ both. both.rowsets ≡ first.rowsets ++ more.rowsets) }
    ensures memory { IfErr result (λ no. no ≡ WriteNo.Memory) }
{
    let mut rowsets = first.rowsets.into_vec();
    let mut behind = more.rowsets.into_vec();
    match rowsets.append(&mut behind) {
        Ok(()) => Ok(Outputs {
            rowsets: RowSetList::of(rowsets),
        }),
        Err(_) => Err(WriteNo::Memory),
    }
}

/// Puts what the MemRowSets that a flush took with it have above the bound into its outputs, and writes it. What the others have is merged and written behind them.
pub fn write_since<D: Disk + Drop>(
    alloc: Global,
    lent: &mut Lent<D>,
    most: u64,
    outputs: Outputs,
    mems: MemsNow,
    bound: u64,
) -> Result<Outputs, WriteNo>
    requires readable { AreReadable mems.since.inputs }
    requires order { mems.since.mark ≤ mems.since.bound }
    requires few { rows_and_changes mems.since.inputs < 2 ^ 31 }
    requires vacant { IsTrue D.tells → (n : ℕ) → lent.old.next_file ≤ n → D.seen lent.old.device n ≡ None }
    requires apart { 3 ≤ lent.old.next_file }
    requires fresh { AllByRecursion (λ d. d.fresh ≡ []) outputs.rowsets }
    ensures added { HasAdded D.tells D.seen D.now D.leaves D.faults most lent.old lent.new result }
    ensures since { IfOk result (λ done. AreWithSince D.tells D.seen D.now D.leaves D.faults bound most lent.old lent.new mems outputs.rowsets done.rowsets) }
{
    is_within(mems.since.mark);
    let first = write_with_changes(alloc, lent, most, outputs, mems.now.as_slice(), bound)?;
    match merge_and_write(alloc, &mems.since, lent, most) {
        Ok(more) => joined(first, more),
        Err(no) => Err(no),
    }
}
