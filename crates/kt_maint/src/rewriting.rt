//! Writing those files of a disk rowset that are not written yet.
ghost use Rattle.std.specs.Prelude.{◌≡◌, IfOk};
ghost use Rattle.kt_outputs.specs.Outputs.{IsWhole};
ghost use Rattle.kt_engine.specs.DeltaJobs.{IsOn};
ghost use Rattle.kt_maint.specs.DeltaRuns.{IsVacant};
ghost use Rattle.kt_maint.specs.Outside.{HasAdded};
ghost use Rattle.kt_maint.specs.Reworks.{HasReworked, HaveNewFiles};

use crate::deltas::made_for;
use kt_base::NoMemory;
use kt_disk::Disk;
use kt_diskrowset::RowSetData;
use kt_outputs::{NextNumbers, WriteNo, write_rewritten};
use kt_pick::Want;
use kt_storeside::Lent;
use std::alloc::Global;

// Writes the files of a disk rowset that have no number to the store, under the next ones.
fn write_one<D: Disk + Drop>(
    alloc: Global,
    lent: &mut Lent<D>,
    most: u64,
    rowset: &RowSetData,
) -> Result<RowSetData, WriteNo>
    requires vacant { IsVacant D.tells D.seen lent.old }
    requires whole { IsWhole rowset.now }
    ensures added { HasAdded D.tells D.seen D.now D.leaves D.faults most lent.old lent.new result }
    ensures files { IfOk result (λ out. HaveNewFiles D.tells D.seen D.now D.leaves lent.old lent.new rowset.now out) }
{
    let mut next = NextNumbers {
        rowset: lent.next_rowset,
        file: lent.next_file,
    };
    let written = write_rewritten(alloc, &mut lent.device, &mut next, most, rowset);
    lent.next_file = next.file;
    written
}

/// Makes of a disk rowset what a want leaves of it, and writes that to the store.
pub fn make_and_write<D: Disk + Drop>(
    alloc: Global,
    want: &Want,
    read: RowSetData,
    lent: &mut Lent<D>,
    most: u64,
) -> Result<RowSetData, WriteNo>
    requires on { IsOn read.number want.now }
    requires vacant { IsVacant D.tells D.seen lent.old }
    ensures { HasReworked D.tells D.seen D.now D.leaves D.faults most want.now read lent.old lent.new result }
{
    match made_for(alloc, want, read) {
        Ok(made) => write_one(alloc, lent, most, &made),
        Err(NoMemory) => Err(WriteNo::Memory),
    }
}
