//! What a job on the files of one disk rowset does outside the lock, and any job there.
ghost use Rattle.std.specs.Prelude.{◌≡◌, Ok, Err, IfOk, IfErr};
ghost use Rattle.kt_engine.specs.DeltaJobs.{IsOn};
ghost use Rattle.kt_maint.specs.DeltaRuns.{IsVacant};
ghost use Rattle.kt_maint.specs.Reworks.{HasMade, HasWorked, MayWork};

use crate::changes::copy_deltas;
use crate::outside::{Outcome, Outside, write_outside};
use crate::rewriting::make_and_write;
use kt_base::NoMemory;
use kt_disk::Disk;
use kt_diskrowset::RowSetData;
use kt_history::DeltaList;
use kt_outputs::WriteNo;
use kt_pick::Want;
use kt_storeside::Lent;
use std::alloc::Global;

/// What a job on the files of a disk rowset has outside the lock: what it is for, what was read of the rowset, the first file number that its turn may not give, and
/// the store.
#[derive(Drop)]
pub struct Rework<D> {
    pub want: Want,
    pub rowset: RowSetData,
    pub most: u64,
    pub lent: Lent<D>,
}

/// A disk rowset as it was written, and the changes in memory that it was made with.
#[derive(Drop)]
pub struct Made {
    pub fresh: DeltaList,
    pub rowset: RowSetData,
}

/// What it comes back with.
#[derive(Drop)]
pub struct Reworked<D> {
    pub want: Want,
    pub most: u64,
    pub lent: Lent<D>,
    pub written: Result<Made, WriteNo>,
}

/// What a job has outside the lock.
#[derive(Drop)]
pub enum Away<D> {
    /// It merges.
    Merge(Outside<D>),
    /// It writes the files of one disk rowset again.
    One(Rework<D>),
}

/// What it comes back with.
#[derive(Drop)]
pub enum Came<D> {
    Merge(Outcome<D>),
    One(Reworked<D>),
}

// A disk rowset as it was written, with the changes in memory that it was made with.
fn kept(fresh: DeltaList, written: Result<RowSetData, WriteNo>) -> Result<Made, WriteNo>
    ensures kept { IfOk result (λ made. (written ≡ Ok made.rowset) × (made.fresh ≡ fresh)) }
    ensures no { IfErr result (λ no. written ≡ Err no) }
{
    match written {
        Ok(rowset) => Ok(Made { fresh, rowset }),
        Err(no) => {
            let _unused = fresh;
            Err(no)
        }
    }
}

// Makes and writes a disk rowset, and keeps the changes in memory that it is made with.
fn write_kept<D: Disk + Drop>(
    alloc: Global,
    want: &Want,
    read: RowSetData,
    lent: &mut Lent<D>,
    most: u64,
) -> Result<Made, WriteNo>
    requires on { IsOn read.number want.now }
    requires vacant { IsVacant D.tells D.seen lent.old }
    ensures { HasMade D.tells D.seen D.now D.leaves D.faults most want.now read lent.old lent.new result }
{
    match copy_deltas(alloc, &read.fresh) {
        Ok(fresh) => kept(fresh, make_and_write(alloc, want, read, lent, most)),
        Err(NoMemory) => {
            let _unused = read;
            Err(WriteNo::Memory)
        }
    }
}

// The same of what a job has outside.
fn rework_outside<D: Disk + Drop>(alloc: Global, out: Rework<D>) -> Reworked<D>
    requires on { IsOn out.rowset.number out.want }
    requires vacant { IsVacant D.tells D.seen out.lent }
    ensures same { (result.want ≡ out.want) × (result.most ≡ out.most) }
    ensures made { HasMade D.tells D.seen D.now D.leaves D.faults out.most out.want out.rowset out.lent result.lent result.written }
{
    let Rework {
        want,
        rowset,
        most,
        mut lent,
    } = out;
    let written = write_kept(alloc, &want, rowset, &mut lent, most);
    Reworked {
        want,
        most,
        lent,
        written,
    }
}

/// What a job does outside the lock, while visits go on.
pub fn work_outside<D: Disk + Drop>(alloc: Global, out: Away<D>) -> Came<D>
    requires may { MayWork D.tells D.seen out }
    ensures { HasWorked D.tells D.seen D.now D.leaves D.faults out result }
{
    match out {
        Away::Merge(out) => Came::Merge(write_outside(alloc, out)),
        Away::One(out) => Came::One(rework_outside(alloc, out)),
    }
}
