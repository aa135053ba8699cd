//! What a maintenance policy asks of a disk rowset.
ghost use Rattle.std.specs.Prelude.{◌≡◌, ◌^◌, min, IfOk};
ghost use Rattle.std.specs.List.{sum_by};
ghost use Rattle.kt_diskrowset.specs.Mems.{AllStand};
ghost use Rattle.kt_diskrowset.specs.Stats.{leaves_row, leaving_row, changes_had};

use super::DiskRowSet;
use super::ends::ends_of;
use crate::files::FileHeld;
use kt_base::NoMemory;
use kt_dms::DeltaMem;
use kt_history::{Change, Delta};
use kt_pick::RowSetStat;
use kt_pool::Pool;
use std::alloc::Global;

/// Changes are counted up to so many.
const MANY: u64 = 1 << 31;

// A count up to what is many.
fn capped(count: u64) -> u64
    ensures { result ≡ min count (2 ^ 31) }
{
    count.min(MANY)
}

// Whether a change leaves a row there.
fn leaves_row(change: &Change) -> bool
    ensures { result ≡ leaves_row change.now }
{
    match change {
        Change::Ins(_) | Change::Upd(_) => true,
        Change::Del => false,
    }
}

// How many of these records are no deletes.
fn leaving_row(records: &[Delta]) -> u64
    ensures { result ≡ min (leaving_row records.now) (2 ^ 31) }
{
    let mut count: u64 = 0;
    'records: for record in records {
        if leaves_row(&record.change) {
            count = capped(count + 1);
        }
    }
    count
}

// And of those of files.
fn leaving_row_in(files: &[FileHeld]) -> u64
    ensures { result ≡ min (sum_by (λ f. leaving_row f.deltas.value.list) files.now) (2 ^ 31) }
{
    let mut count: u64 = 0;
    'files: for file in files {
        count = capped(count + leaving_row(file.deltas.list().as_slice()));
    }
    count
}

// How many changes DeltaMemStores have.
fn changes_had(pool: &Pool, mems: &[DeltaMem]) -> u64
    requires { AllStand pool.now mems.now }
    ensures { result ≡ min (changes_had pool.now mems.now) (2 ^ 31) }
{
    let mut count: u64 = 0;
    'mems: for mem in mems {
        count = capped(count + u64::from(mem.len()));
    }
    count
}

impl DiskRowSet {
    ghost use Rattle.kt_diskrowset.specs.Held.{store_told};
    ghost use Rattle.kt_diskrowset.specs.Rowset.{IsStore, mems_of, held_of, store_of};
    ghost use Rattle.kt_diskrowset.specs.Stats.{IsStat};

    /// What a maintenance policy asks of it: how many rows its base file has, from which key to which; how many changes are in memory, how many REDO files it
    /// has and how many of their records are no deletes, each up to 2^31. Of a base file without a row both keys are empty. No job is told to hold it.
    pub fn stat(&self, alloc: Global, pool: &Pool) -> Result<RowSetStat, NoMemory>
        requires { IsStore self.now pool.now }
        ensures is { IfOk result (IsStat (held_of self.now) (changes_had pool.now (mems_of self.now))) }
        ensures told { IfOk result (λ stat. stat.fresh ≡ 0 → store_of self.now pool.now ≡ store_told (held_of self.now)) }
    {
        let (least, greatest) = ends_of(alloc, &self.base)?;
        let fresh = capped(changes_had(pool, &self.frozen) + u64::from(self.active.len()));
        Ok(RowSetStat {
            rowset: self.number,
            rows: self.base.rows(),
            fresh,
            redo_files: capped(self.redo.len() as u64) as u32,
            redo_changes: leaving_row_in(self.redo.as_slice()),
            base_len: self.base.len,
            least,
            greatest,
            held: false,
        })
    }
}
