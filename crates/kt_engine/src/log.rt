//! The log's device, lent for an append and taken home.
ghost use Rattle.std.specs.Prelude.{◌≡◌, ◌≤◌, ◌+◌, ◌++◌, ◌↔◌, ℕ, IsTrue, IfOk, OnErr, Err, Some, None, false, true, [], length};
ghost use Rattle.kt_base.specs.Causes.{Rose};
ghost use Rattle.kt_disk.specs.Disk.{Files};
ghost use Rattle.kt_journal.specs.Log.{records_of, Holds, IsOldOrBoth, CanOpen};
ghost use Rattle.kt_histlaws.specs.Events.{halted};
ghost use Rattle.kt_storeside.specs.Turns.{IsTurn, HasOneOf};
ghost use Rattle.kt_storeside.specs.Sides.{published_in};
ghost use Rattle.kt_tablet.specs.Views.{place_at};
ghost use Rattle.kt_engine.specs.Engines.{IsLent, KeepsOthers};
ghost use Rattle.kt_engine.specs.Moments.{IsAppendedTo, LeavesInTurn};
ghost use Rattle.kt_engine.specs.Visits.{IsVisit};

use crate::engine::Engine;
use kt_base::Clock;
use kt_disk::Disk;
use kt_loglaws::{Batch, LogNo as SideNo};
use kt_storeside::Lent;
use std::alloc::Global;
use thiserror::Error;

/// Why the log is not lent.
#[derive(Clone, Copy, Debug, PartialEq, Eq, Error)]
pub enum LogNo {
    /// The tablet has stopped.
    #[error("the tablet has stopped")]
    Stopped,
    /// This pass has it out.
    #[error("pass {by} has the log out")]
    Out { by: u32 },
    /// Nothing is queued.
    #[error("nothing is queued")]
    Empty,
    /// There was no memory.
    #[error("out of memory")]
    Memory,
}

impl From<SideNo> for LogNo {
    ghost use Rattle.std.specs.Prelude.{◌≡◌};
    ghost use Rattle.kt_engine.specs.Engines.{no_of};

    ghost from_gives = { λ no e. e ≡ no_of no };

    fn from(no: SideNo) -> Self {
        match no {
            SideNo::Out { by } => LogNo::Out { by },
            SideNo::Empty => LogNo::Empty,
            SideNo::Memory => LogNo::Memory,
        }
    }
}

/// A device that failed, as it comes home.
#[derive(Drop)]
pub enum Broken<L: Disk, D> {
    Log(Batch<L>),
    Store(Lent<D>),
}

impl<L: Disk, D: Disk + Drop, C: Clock> Engine<L, D, C> {
    /// How many records are durable.
    pub fn durable(&self) -> u64
        ensures { result ≡ self.now.log.known.count }
    {
        self.log.durable()
    }

    /// The place of the REPLICATE of the flying write of a session, among all records, counted from 1.
    pub fn place(&self, number: u32) -> u64
        requires { (place : ℕ) × (place_at number self.now.tablet.places ≡ Some place) }
        ensures { place_at number self.now.tablet.places ≡ Some result }
    {
        self.tablet.place(number)
    }

    /// Lends the log and all that is queued to a pass.
    pub fn log_out(&mut self, alloc: Global, number: u32) -> Result<Batch<L>, LogNo>
        ensures visit { IsVisit number self.old self.new }
        ensures lent { IfOk result (λ batch. (self.old.log.home ≡ Some batch.journal) × (batch.records ≡ self.old.log.queued)
            × (self.new ≡ record self.old { log = record self.old.log { home = None; holder = Some number; out = self.old.log.queued; queued = [] } })) }
        ensures known { IfOk result (λ batch. (batch.journal ≡ self.old.log.known) × (self.old.log.out ≡ [])) }
        ensures ready { IfOk result (λ batch. IsLent L.tells L.seen L.now L.leaves batch.journal batch.records) }
        ensures stopped { result ≡ Err LogNo.Stopped ↔ self.old.tablet.core.stopped ≡ true }
        ensures out { (by : ℕ) → result ≡ Err (LogNo.Out by) ↔ (self.old.tablet.core.stopped ≡ false) × (self.old.log.holder ≡ Some by) }
        ensures empty { result ≡ Err LogNo.Empty ↔ (self.old.tablet.core.stopped ≡ false) × (self.old.log.holder ≡ None) × (self.old.log.queued ≡ []) }
        ensures stays { OnErr result (self.new ≡ self.old) }
    {
        if self.tablet.is_stopped() {
            return Err(LogNo::Stopped);
        }
        // What is durable is what a crash leaves.
        let _ = self.log.durable();
        Ok(self.log.log_out(alloc, number)?)
    }

    /// Takes the log home after an append that was Ok: its records are durable.
    pub fn log_home(&mut self, number: u32, batch: Batch<L>)
        requires out { self.old.log.holder ≡ Some number }
        requires usable { IsTrue batch.journal.usable }
        requires count { batch.journal.count ≡ self.old.log.known.count + length self.old.log.out }
        requires reads { IsTrue L.tells → records_of (L.seen batch.journal.disk) ≡ records_of (L.seen self.old.log.known.disk) ++ self.old.log.out }
        requires durable { IsTrue L.tells → Holds L.now L.leaves batch.journal.disk (records_of (L.seen batch.journal.disk)) }
        requires opens { IsTrue L.tells → CanOpen L.now L.leaves batch.journal.disk }
        requires others { IsTrue L.tells → KeepsOthers L.now L.leaves self.old.log.known.disk batch.journal.disk }
        requires faults { L.faults self.old.log.known.disk ≤ L.faults batch.journal.disk }
        // At no moment has a crash left anything else than what was durable, or that and the batch.
        requires moments { IsTrue L.tells → IsAppendedTo L.seen L.now L.leaves self.old.log.known self.old.log.out batch.journal.disk }
        ensures visit { IsVisit number self.old self.new }
        ensures home { self.new ≡ record self.old { log = record self.old.log { home = Some batch.journal; known = batch.journal; holder = None; out = [] } } }
    {
        self.log.log_home(number, batch);
    }

    /// Takes the log home after an append that met want of memory: its records stand in front of what was queued since.
    pub fn log_back(&mut self, number: u32, batch: Batch<L>)
        requires out { self.old.log.holder ≡ Some number }
        requires journal { batch.journal ≡ self.old.log.known }
        requires records { batch.records ≡ self.old.log.out }
        requires opens { IsTrue L.tells → CanOpen L.now L.leaves batch.journal.disk }
        ensures visit { IsVisit number self.old self.new }
        ensures home { self.new ≡ record self.old { log = record self.old.log { home = Some batch.journal; holder = None; out = []; queued = self.old.log.out ++ self.old.log.queued } } }
    {
        self.log.log_back(number, batch);
    }

    /// Takes the failed device home, and stops the tablet unless the other device did. It takes no memory.
    pub fn stop(&mut self, number: u32, device: Broken<L, D>)
        requires out { (batch : _) → device ≡ Broken.Log batch → self.old.log.holder ≡ Some number }
        requires faults { (batch : _) → device ≡ Broken.Log batch → L.faults self.old.log.known.disk ≤ L.faults batch.journal.disk }
        requires rose { (batch : _) → device ≡ Broken.Log batch → Rose (L.faults self.old.log.known.disk) (L.faults batch.journal.disk) }
        requires images { (batch : _) → device ≡ Broken.Log batch → IsTrue L.tells → (image : Files) → L.leaves batch.journal.disk (L.now batch.journal.disk) image → IsOldOrBoth (records_of (L.seen self.old.log.known.disk)) self.old.log.out (image 1) }
        requires opens { (batch : _) → device ≡ Broken.Log batch → IsTrue L.tells → CanOpen L.now L.leaves batch.journal.disk }
        requires others { (batch : _) → device ≡ Broken.Log batch → IsTrue L.tells → KeepsOthers L.now L.leaves self.old.log.known.disk batch.journal.disk }
        requires log_moments { (batch : _) → device ≡ Broken.Log batch → IsTrue L.tells → IsAppendedTo L.seen L.now L.leaves self.old.log.known self.old.log.out batch.journal.disk }

        // The store went out for a turn: it touched no file but the slots and those of new numbers, and each image has the superblock that is published or the one
        // that went out to be.
        requires store_out { (lent : _) → device ≡ Broken.Store lent → self.old.store.holder ≡ Some number }
        requires store_faults { (lent : _) → device ≡ Broken.Store lent → D.faults self.old.store.known ≤ D.faults lent.device }
        requires store_rose { (lent : _) → device ≡ Broken.Store lent → Rose (D.faults self.old.store.known) (D.faults lent.device) }
        requires numbers { (lent : _) → device ≡ Broken.Store lent → self.old.store.next_file ≤ lent.next_file }
        requires turn { (lent : _) → device ≡ Broken.Store lent → IsTrue D.tells → IsTurn D.seen D.now D.leaves self.old.store.next_file lent.next_file self.old.store.known lent.device }
        requires one_of { (lent : _) → device ≡ Broken.Store lent → IsTrue D.tells → HasOneOf D.now D.leaves self.old.store.meta (published_in true self.old.store.lent self.old.store.meta) lent.device }
        requires store_moments { (lent : _) → device ≡ Broken.Store lent → IsTrue D.tells → LeavesInTurn D.seen D.now D.leaves self.old.store.lent self.old.store.next_file lent.next_file self.old.store.known lent.device }

        ensures visit { IsVisit number self.old self.new }
        ensures core { self.old.tablet.core.stopped ≡ false → self.new.tablet ≡ record self.old.tablet { core = halted self.old.tablet.core } }
        ensures once { self.old.tablet.core.stopped ≡ true → self.new.tablet ≡ self.old.tablet }
        ensures home { (batch : _) → device ≡ Broken.Log batch → self.new ≡ record self.old { tablet = self.new.tablet; log = record self.old.log { home = Some batch.journal; holder = None; whole = false } } }
        ensures store_home { (lent : _) → device ≡ Broken.Store lent → self.new ≡ record self.old { tablet = self.new.tablet; store = record self.old.store { home = Some lent.device; holder = None; whole = false } } }
    {
        self.tablet.stop();
        match device {
            Broken::Log(batch) => self.log.broken(number, batch),
            Broken::Store(lent) => {
                // The published superblock and the one that is lent keep their rules.
                self.store.standing();
                self.store.come_broken(number, lent)
            }
        }
    }
}
