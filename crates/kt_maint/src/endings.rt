//! The last visit of a job on the files of one disk rowset that was outside the lock, and of any job that was.
ghost use Rattle.std.specs.Prelude.{◌≡◌, ◌≢◌, [], ◌∷◌, false, true, None, Some, Ok, Err, OnOk, IfOk};
ghost use Rattle.kt_pick.specs.declared.rules.Want.{Want as WantSpec};
ghost use Rattle.kt_engine.specs.Jobs.{JobView, job_of};
ghost use Rattle.kt_engine.specs.Visits.{IsVisit, part_in};
ghost use Rattle.kt_engine.specs.DeltaJobs.{IsOn};
ghost use Rattle.kt_maint.specs.DeltaRuns.{IsVacant, MayHandOne};
ghost use Rattle.kt_maint.specs.JobRuns.{MayEnd};
ghost use Rattle.kt_maint.specs.Outside.{EndsAs, EndsRead, HasAdded, IsBack, KeepsRead};
ghost use Rattle.kt_maint.specs.Reworks.{HasComeBy, HasComeOne, IsPutOne, IsWrittenNow};
ghost use Rattle.kt_maint.specs.Runs.{IsReady, KeepsAsks, MayAbandon, StandsAs};

use crate::changes::same_deltas;
use crate::ending::{close, end_now, fail, give_up, take_home};
use crate::handing::hand_in;
use crate::publishing::publish_job;
use crate::ready::{Ready, append_waiting};
use crate::reworking::{Came, Made, Reworked};
use crate::rewriting::make_and_write;
use kt_base::{Clock, NoMemory};
use kt_disk::Disk;
use kt_diskrowset::{Outputs, RowSetData, RowSetList};
use kt_engine::{Engine, JobWait, MaintNo, Returned};
use kt_outputs::WriteNo;
use kt_outputs::laws::in_place_law;
use kt_pick::Want;
use kt_storeside::Lent;
use std::alloc::Global;

// A disk rowset as what a job writes.
fn as_outputs(alloc: Global, rowset: RowSetData) -> Result<Outputs, NoMemory>
    ensures { IfOk result (λ outputs. outputs.rowsets ≡ rowset ∷ []) }
{
    let mut rowsets = Vec::with_capacity(alloc, 1)?;
    rowsets.push_reserved(rowset);
    Ok(Outputs {
        rowsets: RowSetList::of(rowsets),
    })
}

// A disk rowset as it is now, as a want leaves it: what was written outside, where it has the changes in memory that this was made with, and else that made and
// written anew.
fn write_now<D: Disk + Drop>(
    alloc: Global,
    want: &Want,
    now: RowSetData,
    made: Made,
    lent: &mut Lent<D>,
    most: u64,
) -> Result<RowSetData, WriteNo>
    requires on { IsOn now.number want.now }
    requires vacant { IsVacant D.tells D.seen lent.old }
    ensures added { HasAdded D.tells D.seen D.now D.leaves D.faults most lent.old lent.new result }
    ensures written { IfOk result (λ out. IsWrittenNow D.tells D.seen D.now D.leaves want.now now made lent.old lent.new out) }
{
    if same_deltas(&now.fresh, &made.fresh) {
        Ok(made.rowset)
    } else {
        make_and_write(alloc, want, now, lent, most)
    }
}

// The job of this pass goes on in this visit, while nothing flies, with its disk rowset as it is now.
fn put_again<L: Disk, D: Disk + Drop, C: Clock>(
    alloc: Global,
    engine: &mut Engine<L, D, C>,
    by: u32,
    want: &Want,
    most: u64,
    made: Made,
    lent: &mut Lent<D>,
) -> Result<RowSetData, WriteNo>
    requires come { HasComeOne D.tells D.seen D.now D.leaves D.faults by want.now most lent.old (Ok made) (part_in engine.old by) }
    requires goes { engine.old.tablet.core.stopped ≡ false }
    requires calm { engine.old.tablet.core.aloft ≡ [] }
    ensures returned { IsBack by engine.old engine.new }
    ensures added { HasAdded D.tells D.seen D.now D.leaves D.faults most lent.old lent.new result }
    ensures put { IfOk result (λ out. IsPutOne D.tells D.seen D.now D.leaves by want.now lent.new out engine.old engine.new) }
    ensures back { MayAbandon engine.new by }
{
    // No superblock goes out while the job is outside, and no file has a number that is still to be given.
    engine.standing();
    match engine.job_return(alloc, by) {
        Ok(Returned::Rowset(now)) => write_now(alloc, want, now, made, lent, most),
        Err(JobWait::Memory) => Err(WriteNo::Memory),
        // It merges nothing, the tablet goes on, and nothing flies.
        Ok(Returned::Rowsets(_)) => unreachable!(),
        Ok(Returned::Mems(_)) => unreachable!(),
        Err(JobWait::Stopped) => unreachable!(),
        Err(JobWait::NotYet { ts: _ }) => unreachable!(),
    }
}

// Hands in the disk rowset of this pass's job, which is written, and publishes its superblock.
fn hand_one<L: Disk, D: Disk + Drop, C: Clock>(
    alloc: Global,
    engine: &mut Engine<L, D, C>,
    by: u32,
    rowset: RowSetData,
) -> Result<(), MaintNo>
    requires may { (want : WantSpec) × MayHandOne D.tells D.seen D.now D.leaves engine.old by want rowset }
    requires calm { IsReady engine.old }
    ensures visit { IsVisit by engine.old engine.new }
    ensures still { StandsAs by engine.old engine.new }
    ensures log { engine.new.log ≡ engine.old.log }
    ensures asks { result ≢ Err MaintNo.Stopped → KeepsAsks by engine.old.upkeep engine.new.upkeep }
    ensures published { OnOk result ((want : WantSpec) → MayHandOne D.tells D.seen D.now D.leaves engine.old by want rowset → MayEnd engine.new by want) }
    ensures reads { OnOk result (KeepsRead by engine.old.upkeep engine.new.upkeep) }
    ensures memory { result ≡ Err MaintNo.Memory → MayAbandon engine.new by }
    ensures stops { result ≡ Err MaintNo.Stopped → engine.new.tablet.core.stopped ≡ true }
    ensures home { engine.new.store.holder ≡ None }
{
    // The files that memory has are those that the published superblock names, which stand.
    engine.standing();
    in_place_law();
    let Ok(outputs) = as_outputs(alloc, rowset) else {
        return Err(MaintNo::Memory);
    };
    let Ok(()) = hand_in(alloc, engine, by, outputs) else {
        return Err(MaintNo::Memory);
    };
    publish_job(alloc, engine, by)
}

// The same up to the end of the job.
fn end_one_home<L: Disk, D: Disk + Drop, C: Clock>(
    alloc: Global,
    engine: &mut Engine<L, D, C>,
    by: u32,
    rowset: RowSetData,
) -> Result<(), MaintNo>
    requires may { (want : WantSpec) × MayHandOne D.tells D.seen D.now D.leaves engine.old by want rowset }
    requires calm { IsReady engine.old }
    ensures visit { IsVisit by engine.old engine.new }
    ensures still { StandsAs by engine.old engine.new }
    ensures ends { (want : WantSpec) → MayHandOne D.tells D.seen D.now D.leaves engine.old by want rowset → EndsAs by want engine.old engine.new result }
    ensures reads { OnOk result (EndsRead by engine.old.upkeep engine.new.upkeep) }
{
    let carried = hand_one(alloc, engine, by, rowset);
    close(engine, by, carried)
}

// The last visit, once nothing waits for the log and nothing flies, of a job whose disk rowset is written.
fn end_one_settled<L: Disk, D: Disk + Drop, C: Clock>(
    alloc: Global,
    engine: &mut Engine<L, D, C>,
    by: u32,
    want: &Want,
    most: u64,
    made: Made,
    mut lent: Lent<D>,
) -> Result<(), MaintNo>
    requires come { HasComeOne D.tells D.seen D.now D.leaves D.faults by want.now most lent (Ok made) (part_in engine.old by) }
    requires goes { engine.old.tablet.core.stopped ≡ false }
    requires calm { engine.old.tablet.core.aloft ≡ [] }
    requires settled { (engine.old.log.queued ≡ []) × (engine.old.log.out ≡ []) × (engine.old.log.holder ≡ None) }
    ensures visit { IsVisit by engine.old engine.new }
    ensures still { StandsAs by engine.old engine.new }
    ensures ends { EndsAs by want.now engine.old engine.new result }
    ensures reads { OnOk result (EndsRead by engine.old.upkeep engine.new.upkeep) }
{
    // The files that the published superblock names have numbers below those that were given.
    engine.standing();
    match put_again(alloc, engine, by, want, most, made, &mut lent) {
        Ok(out) => {
            take_home(engine, by, lent);
            end_one_home(alloc, engine, by, out)
        }
        Err(no) => Err(fail(engine, by, lent, no)),
    }
}

// The last visit of a job whose disk rowset is written.
fn end_one_written<L: Disk, D: Disk + Drop, C: Clock>(
    alloc: Global,
    engine: &mut Engine<L, D, C>,
    by: u32,
    want: &Want,
    most: u64,
    made: Made,
    lent: Lent<D>,
) -> Result<(), MaintNo>
    requires come { HasComeOne D.tells D.seen D.now D.leaves D.faults by want.now most lent (Ok made) (part_in engine.old by) }
    requires quiet { engine.old.tablet.core.stopped ≡ false → (engine.old.tablet.core.aloft ≡ []) × (engine.old.log.holder ≡ None) }
    ensures visit { IsVisit by engine.old engine.new }
    ensures still { StandsAs by engine.old engine.new }
    ensures ends { EndsAs by want.now engine.old engine.new result }
    ensures reads { OnOk result (EndsRead by engine.old.upkeep engine.new.upkeep) }
{
    // No superblock goes out while the job is outside.
    engine.standing();
    match append_waiting(alloc, engine, by) {
        Ready::Yes => end_one_settled(alloc, engine, by, want, most, made, lent),
        // The log is at home while the tablet goes on.
        Ready::Wait => unreachable!(),
        Ready::Stopped => {
            take_home(engine, by, lent);
            Err(MaintNo::Stopped)
        }
        Ready::Memory => {
            give_up(engine, by, lent);
            Err(MaintNo::Memory)
        }
    }
}

// The last visit of such a job, with what was written outside.
fn end_one<L: Disk, D: Disk + Drop, C: Clock>(
    alloc: Global,
    engine: &mut Engine<L, D, C>,
    by: u32,
    want: &Want,
    most: u64,
    lent: Lent<D>,
    written: Result<Made, WriteNo>,
) -> Result<(), MaintNo>
    requires come { HasComeOne D.tells D.seen D.now D.leaves D.faults by want.now most lent written (part_in engine.old by) }
    requires quiet { engine.old.tablet.core.stopped ≡ false → (engine.old.tablet.core.aloft ≡ []) × (engine.old.log.holder ≡ None) }
    ensures visit { IsVisit by engine.old engine.new }
    ensures still { StandsAs by engine.old engine.new }
    ensures ends { EndsAs by want.now engine.old engine.new result }
    ensures reads { OnOk result (EndsRead by engine.old.upkeep engine.new.upkeep) }
{
    // No superblock goes out while the job is outside.
    engine.standing();
    match written {
        Ok(made) => end_one_written(alloc, engine, by, want, most, made, lent),
        Err(no) => Err(fail(engine, by, lent, no)),
    }
}

/// The last visit of the job of this pass, with what was written outside, while nothing flies and the log is at home. A flush or a compaction puts in what came
/// meanwhile, and one on the files of a disk rowset makes and writes that anew where a change came. Its superblock is published. After a fault the tablet is stopped,
/// and for want of memory the job is given up.
pub fn end_away<L: Disk, D: Disk + Drop, C: Clock>(
    alloc: Global,
    engine: &mut Engine<L, D, C>,
    by: u32,
    came: Came<D>,
) -> Result<(), MaintNo>
    requires come { HasComeBy D.tells D.seen D.now D.leaves D.faults by came (part_in engine.old by) }
    requires quiet { engine.old.tablet.core.stopped ≡ false → (engine.old.tablet.core.aloft ≡ []) × (engine.old.log.holder ≡ None) }
    ensures visit { IsVisit by engine.old engine.new }
    ensures still { StandsAs by engine.old engine.new }
    ensures ends { (job : JobView) → job_of by engine.old.upkeep ≡ Some job → EndsAs by job.want engine.old engine.new result }
    ensures reads { OnOk result (EndsRead by engine.old.upkeep engine.new.upkeep) }
{
    match came {
        Came::Merge(outcome) => end_now(alloc, engine, by, outcome),
        Came::One(reworked) => {
            let Reworked {
                want,
                most,
                lent,
                written,
            } = reworked;
            end_one(alloc, engine, by, &want, most, lent, written)
        }
    }
}
