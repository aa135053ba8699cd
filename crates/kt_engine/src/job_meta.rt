//! The superblock that a job publishes.
ghost use Rattle.std.specs.Prelude.{◌≡◌, ◌++◌, None, Some, true, IfOk, OnOk};
ghost use Rattle.kt_super.specs.Rowsets.{is_small};
ghost use Rattle.kt_engine.specs.Jobs.{JobView, job_of, takes_by};
ghost use Rattle.kt_engine.specs.JobMeta.{last_by, left_metas, with_outputs};

use crate::engine::Engine;
use kt_base::{Clock, NoMemory};
use kt_disk::Disk;
use kt_super::{FileRefs, Meta, MetaRowset, MetaRowsets};
use std::alloc::Global;

/// A superblock spells numbers below this one.
const SMALL: u64 = 1 << 62;

// Another owner of a list of files.
fn copy_refs(alloc: Global, files: &FileRefs) -> Result<FileRefs, NoMemory>
    ensures { IfOk result (λ copy. copy ≡ files.now) }
{
    let mut copy = Vec::with_capacity(alloc, files.as_slice().len())?;
    copy.extend_from_slice(files.as_slice())?;
    Ok(FileRefs::of(copy))
}

// Another owner of what a superblock says of a disk rowset.
pub(crate) fn copy_rowset(alloc: Global, rowset: &MetaRowset) -> Result<MetaRowset, NoMemory>
    ensures { IfOk result (λ copy. copy ≡ rowset.now) }
{
    Ok(MetaRowset {
        rowset: rowset.rowset,
        last_dms: rowset.last_dms,
        base: rowset.base,
        undo: copy_refs(alloc, &rowset.undo)?,
        redo: copy_refs(alloc, &rowset.redo)?,
    })
}

// Adds copies of those of other numbers than these behind other disk rowsets.
fn push_copies(
    alloc: Global,
    rowsets: &[MetaRowset],
    taken: &[u64],
    out: &mut Vec<MetaRowset>,
) -> Result<(), NoMemory>
    ensures { OnOk result (out.new.items ≡ out.old.items ++ left_metas taken.now rowsets.now) }
{
    'rowsets: for rowset in rowsets {
        if !taken.contains(&rowset.rowset) {
            out.push(copy_rowset(alloc, rowset)?)?;
        }
    }
    Ok(())
}

// The last MemRowSet in files once a job is published: the last one of a flush, or of a compaction the one that was.
fn last_with(taken: &[u64], last: u64, was: u64) -> u64
    ensures { result ≡ last_by (takes_by taken.now last) was }
{
    if taken.is_empty() { last } else { was }
}

impl<L: Disk, D: Disk + Drop, C: Clock> Engine<L, D, C> {
    // The superblock of the job of a pass: without the disk rowsets that it takes, with its outputs behind the others, and of a flush with the last MemRowSet that
    // they hold. Without a job it is as it was. Where a superblock cannot spell the number of that MemRowSet there is no memory.
    pub(crate) fn with_outputs(
        &self,
        alloc: Global,
        number: u32,
        next: Meta,
    ) -> Result<Meta, NoMemory>
        ensures meta { IfOk result (λ meta. meta ≡ with_outputs (job_of number self.now.upkeep) next) }
        ensures small { IfOk result (λ _. (job : JobView) → job_of number self.now.upkeep ≡ Some job → is_small job.last_mem ≡ true) }
    {
        let Some(job) = self.upkeep.job(number) else {
            return Ok(next);
        };
        if job.last_mem >= SMALL {
            return Err(NoMemory);
        }
        let taken = job.taken.as_slice();
        let last_mem = last_with(taken, job.last_mem, next.last_mem);
        let mut rowsets = Vec::new(alloc);
        push_copies(alloc, next.rowsets.as_slice(), taken, &mut rowsets)?;
        push_copies(alloc, job.outputs.metas(), &[], &mut rowsets)?;
        Ok(Meta {
            last_mem,
            rowsets: MetaRowsets::of(rowsets),
            ..next
        })
    }
}
