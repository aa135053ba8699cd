//! The end of a run: what still waits for the log is made durable, and a superblock is published.
ghost use Rattle.std.specs.Prelude.{◌≡◌, [], Some, None, false, IsTrue};
ghost use Rattle.kt_super.specs.declared.meta.Meta.{Meta};
ghost use Rattle.kt_engine.specs.Engines.{IsLent};
ghost use Rattle.kt_engine.specs.Stored.{MayPublish, next_super};
ghost use Rattle.kt_engine.specs.Visits.{root_of};
ghost use Rattle.kt_serve.specs.Sessions.{has_stop};
ghost use Rattle.kt_serve.specs.Closing.{IsDone, IsClosed, AppendsAs, EndsAs, MayHalt};

use kt_base::Clock;
use kt_disk::Disk;
use kt_engine::{Broken, Engine, LogNo, Purpose, StoreNo};
use kt_journal::AppendNo;
use kt_loglaws::Batch;
use kt_storeside::{Lent, publish};
use kt_super::PrepareNo;
use std::alloc::Global;

/// How a run ended.
#[derive(Clone, Copy, PartialEq, Eq)]
pub enum End {
    /// Nothing waits for the log, and the superblock is published.
    Done,
    /// A device has failed.
    Stopped,
    /// There was no memory for what still waits, or for the superblock.
    Memory,
}

/// The engine that a run leaves, and how the run ended.
#[derive(Drop)]
pub struct Closing<L: Disk, D: Disk, C: Clock> {
    pub engine: Engine<L, D, C>,
    pub end: End,
}

// Appends what was queued last, and takes the log home.
fn append_last<L: Disk, D: Disk + Drop, C: Clock>(
    alloc: Global,
    engine: &mut Engine<L, D, C>,
    number: u32,
    mut batch: Batch<L>,
) -> End
    requires out { engine.old.log.holder ≡ Some number }
    requires journal { (batch.journal ≡ engine.old.log.known) × (batch.records ≡ engine.old.log.out) }
    requires queued { engine.old.log.queued ≡ [] }
    requires goes { engine.old.tablet.core.stopped ≡ false }
    requires none { has_stop engine.old.tablet.core.trail ≡ false }
    requires lent { IsLent L.tells L.seen L.now L.leaves batch.journal batch.records }
    ensures root { root_of engine.new ≡ root_of engine.old }
    ensures home { engine.new.log.holder ≡ None }
    ensures store { engine.new.store ≡ engine.old.store }
    ensures tablet { MayHalt engine.old engine.new }
    ensures upkeep { engine.new.upkeep ≡ engine.old.upkeep }
    ensures ends { AppendsAs engine.new result }
{
    match batch.journal.append_batch(alloc, &batch.records) {
        Ok(()) => {
            engine.log_home(number, batch);
            End::Done
        }
        Err(AppendNo::Memory) => {
            engine.log_back(number, batch);
            End::Memory
        }
        Err(AppendNo::Fault) => {
            engine.stop(number, Broken::Log(batch));
            End::Stopped
        }
    }
}

// Makes all that is queued durable.
fn append_all<L: Disk, D: Disk + Drop, C: Clock>(
    alloc: Global,
    engine: &mut Engine<L, D, C>,
    number: u32,
) -> End
    requires home { engine.old.log.holder ≡ None }
    ensures root { root_of engine.new ≡ root_of engine.old }
    ensures home { engine.new.log.holder ≡ None }
    ensures store { engine.new.store ≡ engine.old.store }
    ensures tablet { MayHalt engine.old engine.new }
    ensures upkeep { engine.new.upkeep ≡ engine.old.upkeep }
    ensures ends { AppendsAs engine.new result }
{
    engine.standing();
    if engine.is_stopped() {
        return End::Stopped;
    }
    match engine.log_out(alloc, number) {
        Ok(batch) => append_last(alloc, engine, number, batch),
        Err(LogNo::Empty) => End::Done,
        Err(LogNo::Memory) => End::Memory,
        Err(LogNo::Stopped) => unreachable!(),
        Err(LogNo::Out { by: _ }) => unreachable!(),
    }
}

// Publishes the superblock that went out, and takes the store home.
fn publish_lent<L: Disk, D: Disk + Drop, C: Clock>(
    alloc: Global,
    engine: &mut Engine<L, D, C>,
    number: u32,
    lent: Lent<D>,
) -> End
    requires home { engine.old.log.holder ≡ None }
    requires out { engine.old.store.holder ≡ Some number }
    requires whole { IsTrue engine.old.store.whole }
    requires device { lent.device ≡ engine.old.store.known }
    requires meta { (lent.meta ≡ Some (next_super engine.old)) × (engine.old.store.lent ≡ lent.meta) }
    requires numbers { (lent.next_rowset ≡ engine.old.store.next_rowset) × (lent.next_file ≡ engine.old.store.next_file) }
    requires ready { (m : Meta) → lent.meta ≡ Some m → MayPublish D.tells D.seen D.now D.leaves lent.device m }
    requires done { IsDone engine.old }
    requires free { engine.old.upkeep.publishing ≡ None }
    ensures root { root_of engine.new ≡ root_of engine.old }
    ensures home { engine.new.log.holder ≡ None }
    ensures store_home { engine.new.store.holder ≡ None }
    ensures tablet { MayHalt engine.old engine.new }
    ensures upkeep { engine.new.upkeep ≡ engine.old.upkeep }
    ensures ends { EndsAs engine.new result }
{
    // The known device publishes the superblock from before.
    engine.standing();
    let Lent {
        mut device,
        meta,
        next_rowset,
        next_file,
    } = lent;
    let Some(next) = &meta else {
        unreachable!();
    };
    let answer = publish(alloc, &mut device, next);
    let back = Lent {
        device,
        meta,
        next_rowset,
        next_file,
    };
    match answer {
        Ok(()) => {
            engine.store_home(number, back, true);
            End::Done
        }
        Err(PrepareNo::Memory) => {
            engine.store_home(number, back, false);
            End::Memory
        }
        Err(PrepareNo::Fault) => {
            engine.stop(number, Broken::Store(back));
            End::Stopped
        }
    }
}

// Publishes a superblock with the present mark and last timestamp, where all records are durable. A pass with a job would publish that job's.
fn publish_last<L: Disk, D: Disk + Drop, C: Clock>(
    alloc: Global,
    engine: &mut Engine<L, D, C>,
    number: u32,
) -> End
    requires home { engine.old.log.holder ≡ None }
    requires store_home { engine.old.store.holder ≡ None }
    requires done { IsDone engine.old }
    ensures root { root_of engine.new ≡ root_of engine.old }
    ensures home { engine.new.log.holder ≡ None }
    ensures store_home { engine.new.store.holder ≡ None }
    ensures tablet { MayHalt engine.old engine.new }
    ensures upkeep { engine.new.upkeep ≡ engine.old.upkeep }
    ensures ends { EndsAs engine.new result }
{
    if engine.has_job(number) {
        return End::Memory;
    }
    match engine.store_out(alloc, number, Purpose::Publish) {
        Ok(lent) => publish_lent(alloc, engine, number, lent),
        Err(StoreNo::Memory) => End::Memory,
        Err(StoreNo::Stopped) => unreachable!(),
        Err(StoreNo::Out { by: _ }) => unreachable!(),
    }
}

// Makes all that is queued durable, as the pass of this number, publishes a superblock with the present mark and last timestamp, and tells how the run ends.
pub(crate) fn finish<L: Disk, D: Disk + Drop, C: Clock>(
    alloc: Global,
    engine: &mut Engine<L, D, C>,
    number: u32,
) -> End
    requires home { engine.old.log.holder ≡ None }
    requires store_home { engine.old.store.holder ≡ None }
    ensures root { root_of engine.new ≡ root_of engine.old }
    ensures home { engine.new.log.holder ≡ None }
    ensures store_home { engine.new.store.holder ≡ None }
    ensures tablet { MayHalt engine.old engine.new }
    ensures upkeep { engine.new.upkeep ≡ engine.old.upkeep }
    ensures ends { EndsAs engine.new result }
{
    match append_all(alloc, engine, number) {
        End::Done => publish_last(alloc, engine, number),
        End::Stopped => End::Stopped,
        End::Memory => End::Memory,
    }
}
