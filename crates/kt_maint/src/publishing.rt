//! Publishing the superblock of a job.
ghost use Rattle.std.specs.Prelude.{◌≡◌, ◌≢◌, [], None, Some, true, false, OnOk, Err};
ghost use Rattle.kt_super.specs.declared.meta.Meta.{Meta};
ghost use Rattle.kt_engine.specs.Jobs.{JobView, job_of};
ghost use Rattle.kt_engine.specs.JobSteps.{HasComeHome};
ghost use Rattle.kt_engine.specs.JobCalls.{MayGoOut};
ghost use Rattle.kt_engine.specs.Stored.{MayPublish};
ghost use Rattle.kt_engine.specs.Visits.{IsVisit};
ghost use Rattle.kt_maint.specs.Runs.{KeepsAsks, IsPublishing, IsPublished, HasTurned, HasBroken, StandsAs, MayAbandon};

use kt_base::Clock;
use kt_disk::Disk;
use kt_engine::{Broken, Engine, MaintNo, Purpose, StoreNo};
use kt_storeside::{Lent, publish};
use kt_super::PrepareNo;
use std::alloc::Global;

// Publishes the superblock of a job that is lent, and takes the store home. After a fault the tablet is stopped.
fn publish_and_return<L: Disk, D: Disk + Drop, C: Clock>(
    alloc: Global,
    engine: &mut Engine<L, D, C>,
    by: u32,
    lent: Lent<D>,
) -> Result<(), MaintNo>
    requires publishing { IsPublishing engine.old by lent }
    requires ready { (m : Meta) → lent.meta ≡ Some m → MayPublish D.tells D.seen D.now D.leaves lent.device m }
    requires goes { engine.old.tablet.core.stopped ≡ false }
    ensures turned { result ≢ Err MaintNo.Stopped → HasTurned engine.old engine.new }
    ensures broken { result ≡ Err MaintNo.Stopped → HasBroken engine.old engine.new }
    ensures published { (job : JobView) → job_of by engine.old.upkeep ≡ Some job → OnOk result (HasComeHome by job true engine.old.upkeep engine.new.upkeep × (engine.new.store.meta.number ≡ job.super)) }
    ensures memory { (job : JobView) → job_of by engine.old.upkeep ≡ Some job → result ≡ Err MaintNo.Memory → HasComeHome by job false engine.old.upkeep engine.new.upkeep }
    ensures numbers { engine.new.store.next_rowset ≡ engine.old.store.next_rowset }
    ensures lent { result ≢ Err MaintNo.Stopped → engine.new.store.lent ≡ None }
{
    // The known device publishes the superblock from before.
    engine.standing();
    let Lent {
        mut device,
        meta,
        next_rowset,
        next_file,
    } = lent;
    let Some(next) = &meta else {
        unreachable!();
    };
    let answer = publish(alloc, &mut device, next);
    let back = Lent {
        device,
        meta,
        next_rowset,
        next_file,
    };
    match answer {
        Ok(()) => {
            engine.store_home(by, back, true);
            Ok(())
        }
        Err(PrepareNo::Memory) => {
            engine.store_home(by, back, false);
            Err(MaintNo::Memory)
        }
        Err(PrepareNo::Fault) => {
            engine.stop(by, Broken::Store(back));
            Err(MaintNo::Stopped)
        }
    }
}

/// Publishes the superblock of this pass's job, whose outputs are written, and which publishes until it is over. After a fault the tablet is stopped.
pub fn publish_job<L: Disk, D: Disk + Drop, C: Clock>(
    alloc: Global,
    engine: &mut Engine<L, D, C>,
    by: u32,
) -> Result<(), MaintNo>
    requires home { engine.old.store.holder ≡ None }
    requires durable { (engine.old.log.queued ≡ []) × (engine.old.log.out ≡ []) }
    requires goes { engine.old.tablet.core.stopped ≡ false }
    requires may { (job : JobView) × (job_of by engine.old.upkeep ≡ Some job) × MayGoOut D.tells D.seen D.now D.leaves engine.old job job.output }
    requires free { engine.old.upkeep.publishing ≡ None }
    ensures visit { IsVisit by engine.old engine.new }
    ensures still { StandsAs by engine.old engine.new }
    ensures log { engine.new.log ≡ engine.old.log }
    ensures asks { result ≢ Err MaintNo.Stopped → KeepsAsks by engine.old.upkeep engine.new.upkeep }
    ensures stops { result ≡ Err MaintNo.Stopped → engine.new.tablet.core.stopped ≡ true }
    ensures published { (job : JobView) → job_of by engine.old.upkeep ≡ Some job → OnOk result (IsPublished by job engine.old engine.new) }
    ensures back { result ≡ Err MaintNo.Memory → MayAbandon engine.new by }
    ensures home { engine.new.store.holder ≡ None }
{
    match engine.store_out(alloc, by, Purpose::Publish) {
        Ok(lent) => publish_and_return(alloc, engine, by, lent),
        Err(StoreNo::Memory) => Err(MaintNo::Memory),
        // The store is at home, and the tablet goes on.
        Err(StoreNo::Stopped) => unreachable!(),
        Err(StoreNo::Out { by: _ }) => unreachable!(),
    }
}
