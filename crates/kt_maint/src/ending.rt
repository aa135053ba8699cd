//! The last visit of a flush or a compaction that was outside the lock.
ghost use Rattle.std.specs.Prelude.{◌≡◌, ◌≢◌, [], false, true, None, Some, Ok, Err, OnOk};
ghost use Rattle.kt_base.specs.Causes.{Rose};
ghost use Rattle.kt_pick.specs.declared.rules.Want.{Want};
ghost use Rattle.kt_engine.specs.Jobs.{JobView, job_of, upkeep_at};
ghost use Rattle.kt_engine.specs.Visits.{IsVisit, part_in};
ghost use Rattle.kt_maint.specs.Runs.{IsReady, KeepsAsks, MayAbandon, StandsAs};
ghost use Rattle.kt_maint.specs.JobRuns.{MayEnd, MayHandIn};
ghost use Rattle.kt_maint.specs.Outside.{EndsAs, EndsRead, HasCome, HasEnded, KeepsRead, MayComeHome};

use crate::handing::hand_in;
use crate::late::put_late;
use crate::numbers::is_within;
use crate::outside::Outcome;
use crate::publishing::publish_job;
use crate::ready::{Ready, append_waiting};
use kt_base::Clock;
use kt_disk::Disk;
use kt_diskrowset::Outputs;
use kt_engine::{Broken, Engine, MaintNo};
use kt_joblaws::laws::{
    beside_law, late_law, outputs_pass_law, passing_law, rise_law, written_law,
};
use kt_outputs::WriteNo;
use kt_outputs::laws::{
    again_law, behind_law, beside_law as files_beside_law, fewer_law, stand_law,
};
use kt_storeside::Lent;
use std::alloc::Global;

/// Takes the store home, which was written to.
pub(crate) fn take_home<L: Disk, D: Disk + Drop, C: Clock>(
    engine: &mut Engine<L, D, C>,
    by: u32,
    lent: Lent<D>,
)
    requires out { engine.old.store.holder ≡ Some by }
    requires may { MayComeHome D.tells D.seen D.now D.leaves D.faults engine.old.first_rowset engine.old.first_file engine.old.store lent }
    ensures visit { IsVisit by engine.old engine.new }
    ensures home { engine.new ≡ record engine.old { store = record engine.old.store { home = Some lent.device; known = lent.device; holder = None; lent = None; next_rowset = lent.next_rowset; next_file = lent.next_file; whole = true } } }
{
    // The published superblock stands on the device that went out.
    engine.standing();
    engine.store_home(by, lent, false);
}

// Takes the store home after a fault, and stops the tablet.
fn take_broken<L: Disk, D: Disk + Drop, C: Clock>(
    engine: &mut Engine<L, D, C>,
    by: u32,
    lent: Lent<D>,
)
    requires out { engine.old.store.holder ≡ Some by }
    requires may { MayComeHome D.tells D.seen D.now D.leaves D.faults engine.old.first_rowset engine.old.first_file engine.old.store lent }
    requires rose { Rose (D.faults engine.old.store.known) (D.faults lent.device) }
    ensures visit { IsVisit by engine.old engine.new }
    ensures still { StandsAs by engine.old engine.new }
    ensures stopped { engine.new.tablet.core.stopped ≡ true }
    ensures home { (engine.new.log ≡ engine.old.log) × (engine.new.store.holder ≡ None) }
{
    // The published superblock stands on the device that went out.
    engine.standing();
    engine.stop(by, Broken::Store(lent));
}

/// Gives the job of this pass up, which publishes nothing.
pub fn let_go<L: Disk, D: Disk + Drop, C: Clock>(engine: &mut Engine<L, D, C>, by: u32)
    requires job { MayAbandon engine.old by }
    ensures visit { IsVisit by engine.old engine.new }
    ensures beside { engine.new ≡ record engine.old { upkeep = engine.new.upkeep } }
    ensures none { job_of by engine.new.upkeep ≡ None }
{
    engine.job_abandon(by);
}

/// Gives the job up, and takes the store home.
pub(crate) fn give_up<L: Disk, D: Disk + Drop, C: Clock>(
    engine: &mut Engine<L, D, C>,
    by: u32,
    lent: Lent<D>,
)
    requires out { engine.old.store.holder ≡ Some by }
    requires may { MayComeHome D.tells D.seen D.now D.leaves D.faults engine.old.first_rowset engine.old.first_file engine.old.store lent }
    requires job { MayAbandon engine.old by }
    ensures visit { IsVisit by engine.old engine.new }
    ensures tablet { engine.new.tablet ≡ engine.old.tablet }
    ensures home { (engine.new.log ≡ engine.old.log) × (engine.new.store.holder ≡ None) }
    ensures none { job_of by engine.new.upkeep ≡ None }
{
    take_home(engine, by, lent);
    let_go(engine, by);
}

/// The same after a write that failed: for want of memory the job is given up, and after a fault the tablet is stopped.
pub(crate) fn fail<L: Disk, D: Disk + Drop, C: Clock>(
    engine: &mut Engine<L, D, C>,
    by: u32,
    lent: Lent<D>,
    no: WriteNo,
) -> MaintNo
    requires out { engine.old.store.holder ≡ Some by }
    requires may { MayComeHome D.tells D.seen D.now D.leaves D.faults engine.old.first_rowset engine.old.first_file engine.old.store lent }
    requires rose { no ≡ WriteNo.Fault → Rose (D.faults engine.old.store.known) (D.faults lent.device) }
    requires job { MayAbandon engine.old by }
    ensures visit { IsVisit by engine.old engine.new }
    ensures still { StandsAs by engine.old engine.new }
    ensures home { (engine.new.log ≡ engine.old.log) × (engine.new.store.holder ≡ None) }
    ensures stopped { result ≡ MaintNo.Stopped → engine.new.tablet.core.stopped ≡ true }
    ensures none { result ≡ MaintNo.Memory → job_of by engine.new.upkeep ≡ None }
{
    match no {
        WriteNo::Memory => {
            give_up(engine, by, lent);
            MaintNo::Memory
        }
        WriteNo::Fault => {
            take_broken(engine, by, lent);
            MaintNo::Stopped
        }
    }
}

/// The end of the job of this pass, as far as it came: it is over, or is given up.
pub fn close<L: Disk, D: Disk + Drop, C: Clock>(
    engine: &mut Engine<L, D, C>,
    by: u32,
    carried: Result<(), MaintNo>,
) -> Result<(), MaintNo>
    requires done { OnOk carried ((want : Want) × MayEnd engine.old by want) }
    requires memory { carried ≡ Err MaintNo.Memory → MayAbandon engine.old by }
    ensures same { result ≡ carried }
    ensures visit { IsVisit by engine.old engine.new }
    ensures still { StandsAs by engine.old engine.new }
    ensures line { engine.new.tablet.core.trail ≡ engine.old.tablet.core.trail }
    ensures stopped { result ≡ Err MaintNo.Stopped → engine.new ≡ engine.old }
    ensures beside { (engine.new.log ≡ engine.old.log) × (engine.new.store ≡ engine.old.store) }
    ensures none { result ≡ Err MaintNo.Memory → job_of by engine.new.upkeep ≡ None }
    ensures done { OnOk result ((upkeep_at by engine.new.upkeep.passes).done ≡ job_of by engine.old.upkeep) }
    ensures ended { OnOk result ((want : Want) → MayEnd engine.old by want → HasEnded by want engine.old engine.new) }
{
    match carried {
        Ok(()) => {
            engine.job_finish(by);
            Ok(())
        }
        Err(MaintNo::Memory) => {
            let_go(engine, by);
            Err(MaintNo::Memory)
        }
        Err(MaintNo::Stopped) => Err(MaintNo::Stopped),
    }
}

// Hands in the outputs of this pass's job, which are written, and publishes its superblock.
fn hand_over<L: Disk, D: Disk + Drop, C: Clock>(
    alloc: Global,
    engine: &mut Engine<L, D, C>,
    by: u32,
    outputs: Outputs,
) -> Result<(), MaintNo>
    requires may { (want : Want) × MayHandIn D.tells D.seen D.now D.leaves engine.old by want outputs.rowsets }
    requires calm { IsReady engine.old }
    ensures visit { IsVisit by engine.old engine.new }
    ensures still { StandsAs by engine.old engine.new }
    ensures log { engine.new.log ≡ engine.old.log }
    ensures asks { result ≢ Err MaintNo.Stopped → KeepsAsks by engine.old.upkeep engine.new.upkeep }
    ensures published { OnOk result ((want : Want) → MayHandIn D.tells D.seen D.now D.leaves engine.old by want outputs.rowsets → MayEnd engine.new by want) }
    ensures reads { OnOk result (KeepsRead by engine.old.upkeep engine.new.upkeep) }
    ensures memory { result ≡ Err MaintNo.Memory → MayAbandon engine.new by }
    ensures stops { result ≡ Err MaintNo.Stopped → engine.new.tablet.core.stopped ≡ true }
    ensures home { engine.new.store.holder ≡ None }
{
    written_law();
    fewer_law();
    let Ok(()) = hand_in(alloc, engine, by, outputs) else {
        return Err(MaintNo::Memory);
    };
    publish_job(alloc, engine, by)
}

// The same up to the end of the job.
fn end_home<L: Disk, D: Disk + Drop, C: Clock>(
    alloc: Global,
    engine: &mut Engine<L, D, C>,
    by: u32,
    outputs: Outputs,
) -> Result<(), MaintNo>
    requires may { (want : Want) × MayHandIn D.tells D.seen D.now D.leaves engine.old by want outputs.rowsets }
    requires calm { IsReady engine.old }
    ensures visit { IsVisit by engine.old engine.new }
    ensures still { StandsAs by engine.old engine.new }
    ensures ends { (want : Want) → MayHandIn D.tells D.seen D.now D.leaves engine.old by want outputs.rowsets → EndsAs by want engine.old engine.new result }
    ensures reads { OnOk result (EndsRead by engine.old.upkeep engine.new.upkeep) }
{
    let carried = hand_over(alloc, engine, by, outputs);
    close(engine, by, carried)
}

// The last visit, once nothing waits for the log and nothing flies, of a job whose outputs are written.
fn end_settled<L: Disk, D: Disk + Drop, C: Clock>(
    alloc: Global,
    engine: &mut Engine<L, D, C>,
    by: u32,
    bound: u64,
    most: u64,
    outputs: Outputs,
    mut lent: Lent<D>,
) -> Result<(), MaintNo>
    requires come { HasCome D.tells D.seen D.now D.leaves D.faults by bound most lent (Ok outputs) (part_in engine.old by) }
    requires goes { engine.old.tablet.core.stopped ≡ false }
    requires calm { engine.old.tablet.core.aloft ≡ [] }
    requires settled { (engine.old.log.queued ≡ []) × (engine.old.log.out ≡ []) × (engine.old.log.holder ≡ None) }
    ensures visit { IsVisit by engine.old engine.new }
    ensures still { StandsAs by engine.old engine.new }
    ensures ends { (job : JobView) → job_of by engine.old.upkeep ≡ Some job → EndsAs by job.want engine.old engine.new result }
    ensures reads { OnOk result (EndsRead by engine.old.upkeep engine.new.upkeep) }
{
    // The files that the published superblock names have numbers below those that were given.
    engine.standing();
    is_within(bound);
    late_law();
    outputs_pass_law();
    passing_law();
    rise_law();
    written_law();
    again_law();
    behind_law();
    fewer_law();
    stand_law();
    beside_law();
    files_beside_law();
    match put_late(alloc, engine, by, bound, most, outputs, &mut lent) {
        Ok(done) => {
            is_within(lent.next_rowset);
            take_home(engine, by, lent);
            end_home(alloc, engine, by, done)
        }
        Err(no) => Err(fail(engine, by, lent, no)),
    }
}

// The last visit of a job whose outputs are written.
fn end_written<L: Disk, D: Disk + Drop, C: Clock>(
    alloc: Global,
    engine: &mut Engine<L, D, C>,
    by: u32,
    bound: u64,
    most: u64,
    outputs: Outputs,
    lent: Lent<D>,
) -> Result<(), MaintNo>
    requires come { HasCome D.tells D.seen D.now D.leaves D.faults by bound most lent (Ok outputs) (part_in engine.old by) }
    requires quiet { engine.old.tablet.core.stopped ≡ false → (engine.old.tablet.core.aloft ≡ []) × (engine.old.log.holder ≡ None) }
    ensures visit { IsVisit by engine.old engine.new }
    ensures still { StandsAs by engine.old engine.new }
    ensures ends { (job : JobView) → job_of by engine.old.upkeep ≡ Some job → EndsAs by job.want engine.old engine.new result }
    ensures reads { OnOk result (EndsRead by engine.old.upkeep engine.new.upkeep) }
{
    // No superblock goes out while the job is outside.
    engine.standing();
    match append_waiting(alloc, engine, by) {
        Ready::Yes => end_settled(alloc, engine, by, bound, most, outputs, lent),
        // The log is at home while the tablet goes on.
        Ready::Wait => unreachable!(),
        Ready::Stopped => {
            take_home(engine, by, lent);
            Err(MaintNo::Stopped)
        }
        Ready::Memory => {
            give_up(engine, by, lent);
            Err(MaintNo::Memory)
        }
    }
}

/// The last visit of the flush or the compaction of this pass, with what was written outside, while nothing flies and the log is at home: what came meanwhile is put in, and
/// its superblock is published. After a fault the tablet is stopped, and for want of memory the job is given up.
pub fn end_now<L: Disk, D: Disk + Drop, C: Clock>(
    alloc: Global,
    engine: &mut Engine<L, D, C>,
    by: u32,
    outcome: Outcome<D>,
) -> Result<(), MaintNo>
    requires come { HasCome D.tells D.seen D.now D.leaves D.faults by outcome.bound outcome.most outcome.lent outcome.written (part_in engine.old by) }
    requires quiet { engine.old.tablet.core.stopped ≡ false → (engine.old.tablet.core.aloft ≡ []) × (engine.old.log.holder ≡ None) }
    ensures visit { IsVisit by engine.old engine.new }
    ensures still { StandsAs by engine.old engine.new }
    ensures ends { (job : JobView) → job_of by engine.old.upkeep ≡ Some job → EndsAs by job.want engine.old engine.new result }
    ensures reads { OnOk result (EndsRead by engine.old.upkeep engine.new.upkeep) }
{
    // No superblock goes out while the job is outside.
    engine.standing();
    let Outcome {
        bound,
        most,
        lent,
        written,
    } = outcome;
    match written {
        Ok(outputs) => end_written(alloc, engine, by, bound, most, outputs, lent),
        Err(no) => Err(fail(engine, by, lent, no)),
    }
}
