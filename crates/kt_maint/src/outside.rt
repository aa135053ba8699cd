//! What a flush or a compaction does outside the lock: it merges what was read, and writes that to the store's device.
ghost use Rattle.std.specs.Prelude.{◌≡◌, ◌≤◌, ◌<◌, ◌^◌, None, IsTrue, ℕ, length};
ghost use Rattle.kt_engine.specs.declared.job.JobInput.{JobInput as InputSpec};
ghost use Rattle.kt_merge.specs.Merge.{AreReadable, rows_and_changes};
ghost use Rattle.kt_maint.specs.Outside.{IsMergedOf, MayWrite, HasWritten};

use crate::numbers::is_within;
use kt_base::NoMemory;
use kt_disk::Disk;
use kt_diskrowset::Outputs;
use kt_engine::JobInput;
use kt_merge::merge_rows;
use kt_outputs::{NextNumbers, WriteNo, write_outputs};
use kt_storeside::Lent;
use std::alloc::Global;

// More disk rowsets than these no job writes at once.
const MOST_OUTPUTS: usize = 1 << 31;

/// What a flush or a compaction has outside the lock: what was read of what it takes, the first file number that its turn may not give, and the store.
#[derive(Drop)]
pub struct Outside<D> {
    pub input: JobInput,
    pub most: u64,
    pub lent: Lent<D>,
}

/// What it comes back with: the bound of what was read, that file number, the store, and what was written to it.
#[derive(Drop)]
pub struct Outcome<D> {
    pub bound: u64,
    pub most: u64,
    pub lent: Lent<D>,
    pub written: Result<Outputs, WriteNo>,
}

// Writes merged disk rowsets to the store under the next numbers.
fn write_merged<D: Disk + Drop>(
    alloc: Global,
    lent: &mut Lent<D>,
    most: u64,
    merged: &Outputs,
) -> Result<Outputs, WriteNo>
    requires vacant { IsTrue D.tells → (n : ℕ) → lent.old.next_file ≤ n → D.seen lent.old.device n ≡ None }
    requires apart { 3 ≤ lent.old.next_file }
    requires few { length merged.now.rowsets ≤ 2 ^ 31 }
    ensures { (input : InputSpec) → IsMergedOf input merged.now.rowsets → HasWritten D.tells D.seen D.now D.leaves D.faults most input lent.old lent.new result }
{
    let mut next = NextNumbers {
        rowset: lent.next_rowset,
        file: lent.next_file,
    };
    let written = write_outputs(alloc, &mut lent.device, &mut next, most, merged);
    is_within(next.rowset);
    lent.next_rowset = next.rowset;
    lent.next_file = next.file;
    written
}

/// Merges what was read and writes it.
pub(crate) fn merge_and_write<D: Disk + Drop>(
    alloc: Global,
    input: &JobInput,
    lent: &mut Lent<D>,
    most: u64,
) -> Result<Outputs, WriteNo>
    requires readable { AreReadable input.now.inputs }
    requires order { input.now.mark ≤ input.now.bound }
    requires few { rows_and_changes input.now.inputs < 2 ^ 31 }
    requires vacant { IsTrue D.tells → (n : ℕ) → lent.old.next_file ≤ n → D.seen lent.old.device n ≡ None }
    requires apart { 3 ≤ lent.old.next_file }
    ensures { HasWritten D.tells D.seen D.now D.leaves D.faults most input.now lent.old lent.new result }
{
    is_within(lent.next_rowset);
    let merged = match merge_rows(alloc, &input.inputs, input.bound, input.mark) {
        Ok(merged) => merged,
        Err(NoMemory) => return Err(WriteNo::Memory),
    };
    if merged.rowsets.len() > MOST_OUTPUTS {
        return Err(WriteNo::Memory);
    }
    write_merged(alloc, lent, most, &merged)
}

/// Merges what a flush or a compaction took outside the lock and writes it to the store, while visits go on.
pub fn write_outside<D: Disk + Drop>(alloc: Global, out: Outside<D>) -> Outcome<D>
    requires may { MayWrite D.tells D.seen out }
    ensures bound { (result.bound ≡ out.input.bound) × (result.most ≡ out.most) }
    ensures written { HasWritten D.tells D.seen D.now D.leaves D.faults out.most out.input out.lent result.lent result.written }
{
    let Outside {
        input,
        most,
        mut lent,
    } = out;
    let written = merge_and_write(alloc, &input, &mut lent, most);
    Outcome {
        bound: input.bound,
        most,
        lent,
        written,
    }
}
