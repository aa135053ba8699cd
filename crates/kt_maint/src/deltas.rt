//! What a job on the files of one disk rowset writes of it.
ghost use Rattle.std.specs.Prelude.{◌≡◌, [], IfOk};
ghost use Rattle.kt_diskrowset.specs.Data.{held_in};
ghost use Rattle.kt_diskrowset.specs.Rowset.{HeldFiles};
ghost use Rattle.kt_outputs.specs.Outputs.{IsWhole};
ghost use Rattle.kt_merge.specs.Rewriting.{IsRewritten, AddsRedo};
ghost use Rattle.kt_engine.specs.DeltaJobs.{IsOn, HasShape};
ghost use Rattle.kt_maint.specs.DeltaRuns.{Leaves};

use kt_base::NoMemory;
use kt_diskrowset::RowSetData;
use kt_merge::{with_deltas, with_folded, with_one_redo};
use kt_outputs::is_whole;
use kt_pick::Want;
use std::alloc::Global;

// A disk rowset without changes in memory as a want has it: its REDO files as one, or folded into its base rows, or as they are.
fn reworked(alloc: Global, want: &Want, flushed: RowSetData) -> Result<RowSetData, NoMemory>
    requires on { IsOn flushed.number want.now }
    requires none { flushed.fresh ≡ [] }
    ensures same { IfOk result (IsRewritten flushed) }
    ensures shape { IfOk result (HasShape want.now) }
    ensures leaves { (read : HeldFiles) → AddsRedo read (held_in flushed) → IfOk result (λ d. Leaves want.now read (held_in d)) }
{
    match want {
        Want::Minor(_) => with_one_redo(alloc, flushed),
        Want::Major(_) => with_folded(alloc, flushed),
        Want::FlushDeltas(_) | Want::Flush | Want::Compact(_) => Ok(flushed),
    }
}

/// The same of one with changes in memory, which are a REDO file then.
pub(crate) fn made_for(alloc: Global, want: &Want, read: RowSetData) -> Result<RowSetData, NoMemory>
    requires on { IsOn read.number want.now }
    ensures same { IfOk result (IsRewritten read) }
    ensures shape { IfOk result (HasShape want.now) }
    ensures leaves { IfOk result (λ d. Leaves want.now (held_in read) (held_in d)) }
    ensures whole { IfOk result IsWhole }
{
    let flushed = with_deltas(alloc, read)?;
    let made = reworked(alloc, want, flushed)?;
    if is_whole(&made) {
        Ok(made)
    } else {
        Err(NoMemory)
    }
}
