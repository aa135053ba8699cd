//! The store's device, lent for a turn and taken home.
ghost use Rattle.std.specs.Prelude.{◌≡◌, ◌≤◌, ◌<◌, ◌+◌, ◌^◌, max, ◌⊎◌, ◌↔◌, ℕ, is_some, IsTrue, IfOk, OnErr, Ok, Err, Some, None, false, true, []};
ghost use Rattle.kt_super.specs.declared.meta.Meta.{Meta as MetaSpec};
ghost use Rattle.kt_super.specs.Slots.{super_of, AreStable};
ghost use Rattle.kt_diskrowset.specs.declared.data.RowSetData.{RowSetData as DataSpec};
ghost use Rattle.kt_super.specs.Rowsets.{is_small};
ghost use Rattle.kt_storeside.specs.Turns.{IsTurn};
ghost use Rattle.kt_storeside.specs.Sides.{published_in, MayBeLent};
ghost use Rattle.kt_engine.specs.Jobs.{JobView, job_of};
ghost use Rattle.kt_engine.specs.JobSteps.{IsLent, HasComeHome, MayPublishJob};
ghost use Rattle.kt_engine.specs.DeltaJobs.{StayNamed, NamesAtMostOneRedo};
ghost use Rattle.kt_engine.specs.JobCalls.{MayGoOut, goes_out, lent_with, meta_with};
ghost use Rattle.kt_engine.specs.Moments.{LeavesInTurn};
ghost use Rattle.kt_engine.specs.Near.{most_rowsets, most_files};
ghost use Rattle.kt_engine.specs.Outside.{any_outside};
ghost use Rattle.kt_engine.specs.Stored.{next_super, job_meta, meta_for, MayPublish};
ghost use Rattle.kt_engine.specs.Visits.{IsVisit};

use crate::engine::Engine;
use crate::job::MANY_FILES;
use kt_base::{Clock, NoMemory};
use kt_disk::Disk;
use kt_storeside::Lent;
use kt_super::Meta;
use std::alloc::Global;
use thiserror::Error;

/// So many rowset numbers are given in one opening at most, but for those of the last turn.
const MANY_ROWSETS: u64 = 1 << 44;

/// What a pass wants the store for.
#[derive(Clone, Copy, PartialEq, Eq)]
pub enum Purpose {
    /// To write files.
    Write,
    /// To publish a superblock.
    Publish,
}

/// Why the store is not lent.
#[derive(Clone, Copy, Debug, PartialEq, Eq, Error)]
pub enum StoreNo {
    /// The tablet has stopped.
    #[error("the tablet has stopped")]
    Stopped,
    /// This pass has it out.
    #[error("pass {by} has the store out")]
    Out { by: u32 },
    /// There was no memory.
    #[error("out of memory")]
    Memory,
}

impl From<NoMemory> for StoreNo {
    ghost use Rattle.kt_engine.specs.declared.store.StoreNo.TheVariants as no;

    ghost from_gives = { λ _ e. e ≡ no.Memory };

    fn from(_: NoMemory) -> StoreNo {
        StoreNo::Memory
    }
}

// The number of a superblock, which is there.
fn number_in(meta: &Option<Meta>) -> u64
    ensures { (m : MetaSpec) → meta.now ≡ Some m → result ≡ m.number }
{
    match meta {
        Some(meta) => meta.number,
        None => 0,
    }
}

impl<L: Disk, D: Disk + Drop, C: Clock> Engine<L, D, C> {
    // The superblock for this purpose: for a pass without a job the same rowsets with the present mark, last timestamp and count of durable records, and
    // else that of its job.
    fn meta_for(
        &self,
        alloc: Global,
        number: u32,
        purpose: Purpose,
    ) -> Result<Option<Meta>, NoMemory>
        requires job { (job : JobView) → purpose ≡ Purpose.Publish → job_of number self.now.upkeep ≡ Some job → MayBeLent D.tells D.seen D.now D.leaves self.now.store (next_super self.now) → is_small job.last_mem ≡ true → MayBeLent D.tells D.seen D.now D.leaves self.now.store (job_meta self.now job) }
        ensures meta { IfOk result (λ meta. meta ≡ meta_for number purpose self.now) }
        ensures lent { IfOk result (λ meta. (m : MetaSpec) → meta ≡ Some m → MayBeLent D.tells D.seen D.now D.leaves self.now.store m) }
    {
        match purpose {
            Purpose::Write => Ok(None),
            Purpose::Publish => {
                let (a, c) = self.times();
                let next = self.store.next_meta(alloc, a, c, self.log.durable())?;
                let meta = self.with_outputs(alloc, number, next)?;
                Ok(Some(meta))
            }
        }
    }

    // Whether no job publishes or is outside, if the store is to publish, and rowset and file numbers are left, if it is to write.
    fn is_free(&self, purpose: Purpose) -> bool
        ensures free { IsTrue result → purpose ≡ Purpose.Publish → self.now.upkeep.publishing ≡ None }
        ensures inside { IsTrue result → purpose ≡ Purpose.Publish → any_outside self.now.upkeep.passes ≡ false }
        ensures near { IsTrue result → purpose ≡ Purpose.Write → self.now.store.next_rowset < self.now.first_rowset + 2 ^ 44 }
        ensures near_files { IsTrue result → purpose ≡ Purpose.Write → self.now.store.next_file < self.now.first_file + 2 ^ 44 }
    {
        match purpose {
            Purpose::Write => {
                let (next_rowset, next_file) = self.store.next_numbers();
                next_rowset.saturating_sub(self.first_rowset) < MANY_ROWSETS
                    && next_file.saturating_sub(self.first_file) < MANY_FILES
            }
            Purpose::Publish => !self.upkeep.is_publishing() && !self.upkeep.is_outside(),
        }
    }

    // Whether the store is to publish for the job of a pass.
    fn is_of_job(&self, number: u32, purpose: Purpose) -> bool
        ensures yes { IsTrue result → (purpose ≡ Purpose.Publish) × (is_some (job_of number self.now.upkeep) ≡ true) }
        ensures no { result ≡ false → (purpose ≡ Purpose.Write) ⊎ (job_of number self.now.upkeep ≡ None) }
    {
        match purpose {
            Purpose::Write => false,
            Purpose::Publish => self.upkeep.has_job(number),
        }
    }

    // Lends the store to publish for the job of a pass, which is written.
    fn lend_of_job(&mut self, number: u32, meta: Option<Meta>) -> Lent<D>
        requires home { self.old.store.holder ≡ None }
        requires whole { IsTrue self.old.store.whole }
        requires job { (job : JobView) × (job_of number self.old.upkeep ≡ Some job) × MayPublishJob D.tells D.seen D.now D.leaves self.old job × (meta ≡ Some (job_meta self.old job)) }
        requires lent { (m : MetaSpec) → meta ≡ Some m → MayBeLent D.tells D.seen D.now D.leaves self.old.store m }
        requires settled { (self.old.log.out ≡ []) × (self.old.log.queued ≡ []) }
        requires free { self.old.upkeep.publishing ≡ None }
        requires inside { any_outside self.old.upkeep.passes ≡ false }
        ensures visit { IsVisit number self.old self.new }
        ensures device { (self.old.store.home ≡ Some result.device) × (result.device ≡ self.old.store.known) }
        ensures meta { result.meta ≡ meta }
        ensures numbers { (result.next_rowset ≡ self.old.store.next_rowset) × (result.next_file ≡ self.old.store.next_file) }
        ensures side { self.new ≡ record self.old { store = record self.old.store { home = None; holder = Some number; lent = meta }; upkeep = self.new.upkeep } }
        ensures lent { (job : JobView) (m : MetaSpec) → job_of number self.old.upkeep ≡ Some job → meta ≡ Some m → IsLent number job m.number self.old.upkeep self.new.upkeep }
    {
        // The stores show the run, and what the published superblock names stands.
        self.tablet.standing();
        self.store.standing();
        let superblock = number_in(&meta);
        let lent = self.store.lend(number, meta);
        self.upkeep.publish(number, superblock);
        lent
    }

    // Lends the store to a pass, and to publish with it the superblock that comes next, or that of the pass's job that merges.
    fn lend_out(
        &mut self,
        alloc: Global,
        number: u32,
        purpose: Purpose,
    ) -> Result<Lent<D>, NoMemory>
        requires home { self.old.store.holder ≡ None }
        requires goes { self.old.tablet.core.stopped ≡ false }
        requires settled { purpose ≡ Purpose.Publish → (self.old.log.out ≡ []) × (self.old.log.queued ≡ []) }
        requires free { purpose ≡ Purpose.Publish → self.old.upkeep.publishing ≡ None }
        requires inside { purpose ≡ Purpose.Publish → any_outside self.old.upkeep.passes ≡ false }
        requires job { (job : JobView) → purpose ≡ Purpose.Publish → job_of number self.old.upkeep ≡ Some job → MayPublishJob D.tells D.seen D.now D.leaves self.old job }
        ensures visit { IsVisit number self.old self.new }
        ensures lent { IfOk result (λ lent. (self.old.store.home ≡ Some lent.device) × (lent.device ≡ self.old.store.known)
            × (self.new ≡ record self.old { store = record self.old.store { home = None; holder = Some number; lent = lent.meta }; upkeep = self.new.upkeep })) }
        ensures upkeep { IfOk result (λ lent. (lent.meta ≡ None) ⊎ (job_of number self.old.upkeep ≡ None) → self.new.upkeep ≡ self.old.upkeep) }
        ensures publishes { IfOk result (λ lent. (job : JobView) (m : MetaSpec) → lent.meta ≡ Some m → job_of number self.old.upkeep ≡ Some job → IsLent number job m.number self.old.upkeep self.new.upkeep) }
        ensures meta { IfOk result (λ lent. lent.meta ≡ meta_for number purpose self.old) }
        ensures numbers { IfOk result (λ lent. (lent.next_rowset ≡ self.old.store.next_rowset) × (lent.next_file ≡ self.old.store.next_file)) }
        ensures ready { IfOk result (λ lent. (m : MetaSpec) → lent.meta ≡ Some m → MayPublish D.tells D.seen D.now D.leaves lent.device m) }
        ensures whole { IfOk result (λ _. IsTrue self.old.store.whole) }
        ensures stays { OnErr result (self.new ≡ self.old) }
    {
        let meta = self.meta_for(alloc, number, purpose)?;
        // What the engine stands for is told of the superblock that goes out too.
        self.tablet.standing();
        self.store.standing();
        if self.is_of_job(number, purpose) {
            return Ok(self.lend_of_job(number, meta));
        }
        Ok(self.store.lend(number, meta))
    }

    // Whether the store is to publish for a job of a pass that has written a disk rowset again.
    fn is_rewritten(&self, number: u32, purpose: Purpose) -> bool
        ensures { result ≡ is_some (goes_out purpose (job_of number self.now.upkeep)) }
    {
        match purpose {
            Purpose::Write => false,
            Purpose::Publish => self.upkeep.has_output(number),
        }
    }

    /// Lends the store to a pass, and to publish with it the superblock that comes next: the same rowsets with the present mark and last timestamp, or with those of
    /// the pass's job. Of a job on the files of one disk rowset the next DeltaMemStore of that takes changes from now on. Until jobs run in two phases it is lent
    /// for that only while all records are durable, and not while a job publishes or is outside.
    pub fn store_out(
        &mut self,
        alloc: Global,
        number: u32,
        purpose: Purpose,
    ) -> Result<Lent<D>, StoreNo>
        requires settled { purpose ≡ Purpose.Publish → (self.old.log.out ≡ []) × (self.old.log.queued ≡ []) }
        requires job { (job : JobView) → purpose ≡ Purpose.Publish → job_of number self.old.upkeep ≡ Some job → MayGoOut D.tells D.seen D.now D.leaves self.old job job.output }
        ensures visit { IsVisit number self.old self.new }
        ensures lent { IfOk result (λ lent. (self.old.store.home ≡ Some lent.device) × (lent.device ≡ self.old.store.known)
            × (self.new ≡ lent_with (goes_out purpose (job_of number self.old.upkeep)) self.old number lent.meta self.new.upkeep)) }
        ensures upkeep { IfOk result (λ lent. (lent.meta ≡ None) ⊎ (job_of number self.old.upkeep ≡ None) → self.new.upkeep ≡ self.old.upkeep) }
        ensures publishes { IfOk result (λ lent. (job : JobView) (m : MetaSpec) → lent.meta ≡ Some m → job_of number self.old.upkeep ≡ Some job → IsLent number job m.number self.old.upkeep self.new.upkeep) }
        ensures free { IfOk result (λ lent. (m : MetaSpec) → lent.meta ≡ Some m → self.old.upkeep.publishing ≡ None) }
        ensures meta { IfOk result (λ lent. lent.meta ≡ meta_with (goes_out purpose (job_of number self.old.upkeep)) number purpose self.old) }
        ensures stay { IfOk result (λ lent. (job : JobView) (d : DataSpec) (m : MetaSpec) → job_of number self.old.upkeep ≡ Some job → job.output ≡ Some d → lent.meta ≡ Some m → StayNamed job.want d.number self.old.store.meta.rowsets m.rowsets) }
        ensures names { IfOk result (λ lent. (job : JobView) (d : DataSpec) (m : MetaSpec) → job_of number self.old.upkeep ≡ Some job → job.output ≡ Some d → lent.meta ≡ Some m → NamesAtMostOneRedo job.want m.rowsets) }
        ensures numbers { IfOk result (λ lent. (lent.next_rowset ≡ self.old.store.next_rowset) × (lent.next_file ≡ self.old.store.next_file)) }
        ensures ready { IfOk result (λ lent. (m : MetaSpec) → lent.meta ≡ Some m → MayPublish D.tells D.seen D.now D.leaves lent.device m) }
        ensures whole { IfOk result (λ _. IsTrue self.old.store.whole) }
        ensures near { IfOk result (λ _. purpose ≡ Purpose.Write → self.old.store.next_rowset < self.old.first_rowset + 2 ^ 44) }
        ensures near_files { IfOk result (λ _. purpose ≡ Purpose.Write → self.old.store.next_file < self.old.first_file + 2 ^ 44) }
        ensures stopped { result ≡ Err StoreNo.Stopped ↔ self.old.tablet.core.stopped ≡ true }
        ensures out { (by : ℕ) → result ≡ Err (StoreNo.Out by) ↔ (self.old.tablet.core.stopped ≡ false) × (self.old.store.holder ≡ Some by) }
        ensures stays { OnErr result (self.new ≡ self.old) }
    {
        if self.tablet.is_stopped() {
            return Err(StoreNo::Stopped);
        }
        if let Some(by) = self.store.by() {
            return Err(StoreNo::Out { by });
        }
        if !self.is_free(purpose) {
            return Err(StoreNo::Memory);
        }
        if self.is_rewritten(number, purpose) {
            return Ok(self.delta_out(alloc, number)?);
        }
        Ok(self.lend_out(alloc, number, purpose)?)
    }

    /// Takes the store home after its turn, with the first numbers that were not used, and with it the superblock that went out, where its gate was opened.
    pub fn store_home(&mut self, number: u32, lent: Lent<D>, published: bool)
        requires out { self.old.store.holder ≡ Some number }
        requires whole { IsTrue self.old.store.whole }
        requires meta { lent.meta ≡ self.old.store.lent }
        requires lent { IsTrue published → (m : MetaSpec) × (lent.meta ≡ Some m) }
        requires numbers { (self.old.store.next_rowset ≤ lent.next_rowset) × (self.old.store.next_file ≤ lent.next_file) }
        // Where a job publishes, the superblock that comes home is its own.
        requires job { (m : MetaSpec) → lent.meta ≡ Some m → (self.old.upkeep.publishing ≡ None) ⊎ ((self.old.upkeep.publishing ≡ Some number) × ((job : JobView) × (job_of number self.old.upkeep ≡ Some job) × (self.old.store.meta.number < job.super))) }
        requires turn { IsTrue D.tells → IsTurn D.seen D.now D.leaves self.old.store.next_file lent.next_file self.old.store.known lent.device }
        requires superblock { IsTrue D.tells → super_of (D.seen lent.device) ≡ Ok (Some (published_in published lent.meta self.old.store.meta)) }
        requires slots { IsTrue D.tells → AreStable D.seen D.now D.leaves lent.device }
        requires faults { D.faults self.old.store.known ≤ D.faults lent.device }
        // At no moment has a crash left anything else than its turn was for.
        requires moments { IsTrue D.tells → LeavesInTurn D.seen D.now D.leaves self.old.store.lent self.old.store.next_file lent.next_file self.old.store.known lent.device }
        // Its turn has not given too many numbers.
        requires near { lent.next_rowset ≤ max self.old.store.next_rowset (self.old.first_rowset + most_rowsets) }
        requires near_files { lent.next_file ≤ max self.old.store.next_file (self.old.first_file + most_files) }
        ensures visit { IsVisit number self.old self.new }
        ensures columns { self.new.store.meta.schema ≡ self.old.store.meta.schema }
        ensures home { self.new ≡ record self.old { store = record self.old.store { home = Some lent.device; known = lent.device; holder = None; meta = published_in published lent.meta self.old.store.meta; lent = None; next_rowset = lent.next_rowset; next_file = lent.next_file; whole = true }; upkeep = self.new.upkeep } }
        ensures upkeep { (lent.meta ≡ None) ⊎ (self.old.upkeep.publishing ≡ None) → self.new.upkeep ≡ self.old.upkeep }
        ensures came { (job : JobView) (m : MetaSpec) → lent.meta ≡ Some m → self.old.upkeep.publishing ≡ Some number → job_of number self.old.upkeep ≡ Some job → HasComeHome number job published self.old.upkeep self.new.upkeep }
    {
        // The published superblock and the one that is lent keep their rules.
        self.store.standing();
        let publishes = lent.meta.is_some();
        self.store.come_home(number, lent, published);
        if !publishes {
            return;
        }
        if !self.upkeep.is_publishing() {
            return;
        }
        self.upkeep.come_home(number, published);
    }
}
