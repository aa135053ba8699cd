//! What came to what a flush or a compaction takes while it was outside the lock, put into what it wrote.
ghost use Rattle.std.specs.Prelude.{◌≡◌, ◌≤◌, [], ℕ, false, None, Some, Ok, IsTrue, IfOk};
ghost use Rattle.std.specs.List.{AllByRecursion};
ghost use Rattle.kt_outputs.specs.Again.{AllAddLate};
ghost use Rattle.kt_outputs.specs.Outputs.{AreWhole, IsWhole};
ghost use Rattle.kt_merge.specs.Late.{AllTellLate, TellsLate};
ghost use Rattle.kt_merge.specs.Rewriting.{AddsRedo};
ghost use Rattle.kt_diskrowset.specs.Data.{held_in};
ghost use Rattle.kt_engine.specs.Jobs.{JobView, job_of};
ghost use Rattle.kt_engine.specs.Visits.{part_in};
ghost use Rattle.kt_maint.specs.Runs.{MayAbandon};
ghost use Rattle.kt_maint.specs.Outside.{AreWithLate, HasCome, HasAdded, HaveLateFiles, IsBack, IsPutBy};

use crate::since::write_since;
use kt_base::{Clock, NoMemory};
use kt_disk::Disk;
use kt_diskrowset::{Outputs, RowSetData, RowSetList};
use kt_engine::{Engine, JobWait, Returned};
use kt_merge::with_late;
use kt_outputs::{NextNumbers, WriteNo, is_whole, write_again};
use kt_storeside::Lent;
use std::alloc::Global;

// An output with what the inputs have in memory above the bound.
fn late_output(
    alloc: Global,
    output: RowSetData,
    inputs: &[RowSetData],
    bound: u64,
) -> Result<RowSetData, NoMemory>
    requires fresh { output.fresh ≡ [] }
    ensures tells { IfOk result (TellsLate bound inputs.now output) }
    ensures files { IfOk result (λ d. AddsRedo (held_in output) (held_in d)) }
    ensures number { IfOk result (λ d. d.number ≡ output.number) }
    ensures whole { IfOk result IsWhole }
{
    let late = with_late(alloc, output, inputs, bound)?;
    if is_whole(&late) {
        Ok(late)
    } else {
        Err(NoMemory)
    }
}

// Each output so.
fn late_outputs(
    alloc: Global,
    outputs: Outputs,
    inputs: &[RowSetData],
    bound: u64,
) -> Result<Outputs, NoMemory>
    requires fresh { AllByRecursion (λ d. d.fresh ≡ []) outputs.rowsets }
    ensures tells { IfOk result (λ late. AllTellLate bound inputs.now outputs.rowsets late.rowsets) }
    ensures adds { IfOk result (λ late. AllAddLate outputs.rowsets late.rowsets) }
    ensures whole { IfOk result (λ late. AreWhole late.rowsets) }
{
    let mut late = Vec::with_capacity(alloc, outputs.rowsets.len())?;
    let mut rest = outputs.rowsets.into_vec().into_iter();
    'rest: while let Some(output) = rest.next() {
        late.push_reserved(late_output(alloc, output, inputs, bound)?);
    }
    Ok(Outputs {
        rowsets: RowSetList::of(late),
    })
}

/// Writes the REDO files that came to the outputs to the store.
pub fn write_late<D: Disk + Drop>(
    alloc: Global,
    lent: &mut Lent<D>,
    most: u64,
    late: &Outputs,
) -> Result<Outputs, WriteNo>
    requires vacant { IsTrue D.tells → (n : ℕ) → lent.old.next_file ≤ n → D.seen lent.old.device n ≡ None }
    requires apart { 3 ≤ lent.old.next_file }
    requires whole { AreWhole late.now.rowsets }
    ensures added { HasAdded D.tells D.seen D.now D.leaves D.faults most lent.old lent.new result }
    ensures files { IfOk result (λ done. HaveLateFiles D.tells D.seen D.now D.leaves lent.old lent.new late.now.rowsets done.rowsets) }
{
    let mut next = NextNumbers {
        rowset: lent.next_rowset,
        file: lent.next_file,
    };
    let written = write_again(alloc, &mut lent.device, &mut next, most, late);
    lent.next_file = next.file;
    written
}

// Puts what the inputs have in memory above the bound into the outputs and writes it.
fn write_with_late<D: Disk + Drop>(
    alloc: Global,
    lent: &mut Lent<D>,
    most: u64,
    outputs: Outputs,
    inputs: &[RowSetData],
    bound: u64,
) -> Result<Outputs, WriteNo>
    requires vacant { IsTrue D.tells → (n : ℕ) → lent.old.next_file ≤ n → D.seen lent.old.device n ≡ None }
    requires apart { 3 ≤ lent.old.next_file }
    requires fresh { AllByRecursion (λ d. d.fresh ≡ []) outputs.rowsets }
    ensures added { HasAdded D.tells D.seen D.now D.leaves D.faults most lent.old lent.new result }
    ensures late { IfOk result (λ done. AreWithLate D.tells D.seen D.now D.leaves bound lent.old lent.new inputs.now outputs.rowsets done.rowsets) }
{
    match late_outputs(alloc, outputs, inputs, bound) {
        Ok(late) => write_late(alloc, lent, most, &late),
        Err(NoMemory) => Err(WriteNo::Memory),
    }
}

/// The job of this pass goes on in this visit, while nothing flies: its outputs get what the stores that it takes have now and had not as they were read, and that is
/// written. A flush freezes once more, and writes what came to the other MemRowSets meanwhile behind.
pub fn put_late<L: Disk, D: Disk + Drop, C: Clock>(
    alloc: Global,
    engine: &mut Engine<L, D, C>,
    by: u32,
    bound: u64,
    most: u64,
    outputs: Outputs,
    lent: &mut Lent<D>,
) -> Result<Outputs, WriteNo>
    requires come { HasCome D.tells D.seen D.now D.leaves D.faults by bound most lent.old (Ok outputs) (part_in engine.old by) }
    requires goes { engine.old.tablet.core.stopped ≡ false }
    requires calm { engine.old.tablet.core.aloft ≡ [] }
    ensures returned { IsBack by engine.old engine.new }
    ensures added { HasAdded D.tells D.seen D.now D.leaves D.faults most lent.old lent.new result }
    ensures put { IfOk result (λ done. (job : JobView) → job_of by engine.old.upkeep ≡ Some job → IsPutBy job.want D.tells D.seen D.now D.leaves D.faults by bound most lent.old lent.new job outputs.rowsets done.rowsets engine.old engine.new) }
    ensures back { MayAbandon engine.new by }
{
    // No superblock goes out while the job is outside, and no file has a number that is still to be given.
    engine.standing();
    match engine.job_return(alloc, by) {
        Ok(Returned::Rowsets(now)) => {
            write_with_late(alloc, lent, most, outputs, now.as_slice(), bound)
        }
        Ok(Returned::Mems(mems)) => write_since(alloc, lent, most, outputs, mems, bound),
        Err(JobWait::Memory) => Err(WriteNo::Memory),
        // It merges, the tablet goes on, and nothing flies.
        Ok(Returned::Rowset(_)) => unreachable!(),
        Err(JobWait::Stopped) => unreachable!(),
        Err(JobWait::NotYet { ts: _ }) => unreachable!(),
    }
}
