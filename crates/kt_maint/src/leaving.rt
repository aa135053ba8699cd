//! The first visit of a job: it reads what it takes, and leaves the lock with that and the store.
ghost use Rattle.std.specs.Prelude.{◌≡◌, [], ◌∷◌, None, IfOk, IsErr};
ghost use Rattle.kt_diskrowset.specs.declared.data.RowSetData.{RowSetData as DataSpec};
ghost use Rattle.kt_engine.specs.Visits.{part_in};
ghost use Rattle.kt_engine.specs.declared.upkeep.Stage.TheVariants as stage;
ghost use Rattle.kt_pick.specs.declared.rules.Want.{Want as WantSpec};
ghost use Rattle.kt_maint.specs.Runs.{IsQuiet, IsReady, JobIsAt, MayAbandon};
ghost use Rattle.kt_maint.specs.DeltaRuns.{DeltasAt, HasReadOne, IsAwayOne};
ghost use Rattle.kt_maint.specs.JobRuns.{MergeBegins};
ghost use Rattle.kt_maint.specs.Outside.{HasRead, IsAway};

use crate::numbers::end_of_turn;
use crate::outside::Outside;
use crate::reworking::Rework;
use kt_base::{Clock, NoMemory};
use kt_disk::Disk;
use kt_diskrowset::{RowSetData, RowSetList};
use kt_engine::{Engine, JobInput, JobWait, Purpose, StoreNo};
use kt_pick::Want;
use std::alloc::Global;

// Reads what the flush or the compaction of this pass takes, which has begun.
fn read<L: Disk, D: Disk + Drop, C: Clock>(
    alloc: Global,
    engine: &mut Engine<L, D, C>,
    by: u32,
) -> Result<JobInput, NoMemory>
    requires begun { JobIsAt engine.old by stage.Begun }
    requires calm { IsReady engine.old }
    ensures quiet { IsQuiet by engine.old engine.new }
    ensures beside { engine.new ≡ record engine.old { upkeep = engine.new.upkeep } }
    ensures read { IfOk result (HasRead D.tells by engine.old engine.new) }
    ensures memory { IsErr result → MayAbandon engine.new by }
{
    match engine.job_snapshot(alloc, by) {
        Ok(input) => Ok(input),
        Err(JobWait::Memory) => Err(NoMemory),
        // The tablet goes on, and nothing flies.
        Err(JobWait::Stopped) => unreachable!(),
        Err(JobWait::NotYet { ts: _ }) => unreachable!(),
    }
}

/// The flush or the compaction of this pass, which has begun, goes on outside the lock.
pub fn go_out<L: Disk, D: Disk + Drop, C: Clock>(
    alloc: Global,
    engine: &mut Engine<L, D, C>,
    by: u32,
) -> Result<Outside<D>, NoMemory>
    requires begun { (want : WantSpec) × MergeBegins engine.old by want }
    requires calm { IsReady engine.old }
    ensures quiet { IsQuiet by engine.old engine.new }
    ensures away { IfOk result (λ out. (want : WantSpec) → MergeBegins engine.old by want → IsAway D.tells D.seen by want out (part_in engine.new by)) }
    ensures memory { IsErr result → MayAbandon engine.new by }
    ensures home { IsErr result → engine.new.store.holder ≡ None }
{
    // No file has a number that is still to be given.
    engine.standing();
    let input = read(alloc, engine, by)?;
    match engine.store_out(alloc, by, Purpose::Write) {
        Ok(lent) => {
            engine.job_leave(by);
            let most = end_of_turn(lent.next_file);
            Ok(Outside { input, most, lent })
        }
        Err(StoreNo::Memory) => Err(NoMemory),
        // The store is at home, and the tablet goes on.
        Err(StoreNo::Stopped) => unreachable!(),
        Err(StoreNo::Out { by: _ }) => unreachable!(),
    }
}

// The disk rowset that is handed out alone.
fn alone(rowsets: RowSetList) -> RowSetData
    requires one { (d : DataSpec) × (rowsets ≡ d ∷ []) }
    ensures { rowsets ≡ result ∷ [] }
{
    let mut rowsets = rowsets.into_vec();
    let Some(rowset) = rowsets.pop() else {
        unreachable!();
    };
    rowset
}

// Reads all that the tablet has of the disk rowset of this pass's job, which has begun.
fn read_one<L: Disk, D: Disk + Drop, C: Clock>(
    alloc: Global,
    engine: &mut Engine<L, D, C>,
    by: u32,
) -> Result<RowSetData, NoMemory>
    requires begun { (want : WantSpec) × DeltasAt engine.old by want stage.Begun }
    requires calm { IsReady engine.old }
    ensures quiet { IsQuiet by engine.old engine.new }
    ensures beside { engine.new ≡ record engine.old { upkeep = engine.new.upkeep } }
    ensures read { IfOk result (λ d. (want : WantSpec) → DeltasAt engine.old by want stage.Begun → HasReadOne engine.new by want d) }
    ensures memory { IsErr result → MayAbandon engine.new by }
{
    match engine.job_snapshot(alloc, by) {
        Ok(input) => Ok(alone(input.inputs.rowsets)),
        Err(JobWait::Memory) => Err(NoMemory),
        // The tablet goes on, and nothing flies.
        Err(JobWait::Stopped) => unreachable!(),
        Err(JobWait::NotYet { ts: _ }) => unreachable!(),
    }
}

/// The job of this pass on the files of a disk rowset, which has begun, goes on outside the lock.
pub fn go_out_one<L: Disk, D: Disk + Drop, C: Clock>(
    alloc: Global,
    engine: &mut Engine<L, D, C>,
    by: u32,
    want: Want,
) -> Result<Rework<D>, NoMemory>
    requires begun { DeltasAt engine.old by want stage.Begun }
    requires calm { IsReady engine.old }
    ensures quiet { IsQuiet by engine.old engine.new }
    ensures away { IfOk result (λ out. IsAwayOne D.tells D.seen by want out (part_in engine.new by)) }
    ensures memory { IsErr result → MayAbandon engine.new by }
    ensures home { IsErr result → engine.new.store.holder ≡ None }
{
    // No file has a number that is still to be given.
    engine.standing();
    let rowset = read_one(alloc, engine, by)?;
    match engine.store_out(alloc, by, Purpose::Write) {
        Ok(lent) => {
            engine.job_leave(by);
            let most = end_of_turn(lent.next_file);
            Ok(Rework {
                want,
                rowset,
                most,
                lent,
            })
        }
        Err(StoreNo::Memory) => Err(NoMemory),
        // The store is at home, and the tablet goes on.
        Err(StoreNo::Stopped) => unreachable!(),
        Err(StoreNo::Out { by: _ }) => unreachable!(),
    }
}
