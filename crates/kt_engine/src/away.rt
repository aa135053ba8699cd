//! A job that goes on outside the lock, and comes back.
ghost use Rattle.std.specs.Prelude.{◌≡◌, ◌≢◌, ◌↔◌, ℕ, IfOk, OnErr, Err, Some, None, true, false, []};
ghost use Rattle.kt_engine.specs.Jobs.{JobView, IsAtStage, job_of, first_flying};
ghost use Rattle.kt_engine.specs.JobSteps.{AtNewStage};
ghost use Rattle.kt_engine.specs.Outside.{Rewrites, job_out};
ghost use Rattle.kt_engine.specs.Returning.{MayLeave, HasReturned, HasRefrozen, HasReread, ReturnsBy};
ghost use Rattle.kt_engine.specs.Visits.{IsVisit};

use crate::again::{MemsNow, split};
use crate::engine::Engine;
use crate::job::{JobInput, JobWait, MOST_JOBS, Returned};
use crate::upkeep::Stage;
use kt_base::{Clock, NoMemory};
use kt_disk::Disk;
use kt_diskrowset::{RowSetData, RowSetList};
use kt_pick::Want;
use std::alloc::Global;
use std::snapshot::Snapshot;

impl<L: Disk, D: Disk + Drop, C: Clock> Engine<L, D, C> {
    /// A job goes on outside the lock with what was handed out to it, while nothing flies and no superblock is lent.
    pub fn job_leave(&mut self, number: u32)
        requires free { self.old.upkeep.publishing ≡ None }
        requires stage { (job : JobView) × IsAtStage self.old.upkeep number Stage.Read job × MayLeave self.old job }
        requires unlent { self.old.store.lent ≡ None }
        requires calm { self.old.tablet.core.aloft ≡ [] }
        requires begun { self.old.upkeep.begun ≢ 0 }
        ensures visit { IsVisit number self.old self.new }
        ensures left { (job : JobView) → job_of number self.old.upkeep ≡ Some job → AtNewStage number (job_out self.old.tablet.frozen job) self.old self.new }
    {
        // What it takes has no change above the last timestamp.
        self.tablet.standing();
        let frozen = self.tablet.frozen();
        self.upkeep.go_out(number, frozen);
    }

    // A job that was outside is back, while nothing flies: all that its disk rowsets have now is read.
    fn merge_return(&mut self, alloc: Global, number: u32) -> Result<RowSetList, NoMemory>
        requires stage { (job : JobView) × IsAtStage self.old.upkeep number Stage.Outside job × (job.want ≡ Want.Compact job.taken) }
        requires calm { self.old.tablet.core.aloft ≡ [] }
        ensures visit { IsVisit number self.old self.new }
        ensures back { IfOk result (λ list. (job : JobView) → job_of number self.old.upkeep ≡ Some job → HasReturned D.tells number job list self.old self.new) }
        ensures same { OnErr result (self.new ≡ self.old) }
    {
        let Some(job) = self.upkeep.job(number) else {
            return Err(NoMemory);
        };
        let list = self.tablet.read_taken(alloc, job.taken.as_slice())?;
        let many = self.log.count();
        let last_mem = self.tablet.active_number();
        let now = RowSetList::of(list);
        let returned = Snapshot::of(&now);
        self.upkeep.come_back(number, many, last_mem, returned);
        Ok(now)
    }

    // A flush that was outside is back, while nothing flies: all that the MemRowSets have is read, and the one that takes inserts freezes.
    fn flush_return(&mut self, alloc: Global, number: u32) -> Result<MemsNow, NoMemory>
        requires stage { (job : JobView) × IsAtStage self.old.upkeep number Stage.Outside job × (job.want ≡ Want.Flush) }
        requires calm { self.old.tablet.core.aloft ≡ [] }
        ensures visit { IsVisit number self.old self.new }
        ensures back { IfOk result (λ m. (job : JobView) → job_of number self.old.upkeep ≡ Some job → HasRefrozen D.tells number job m self.old self.new) }
        ensures same { OnErr result (self.new ≡ self.old) }
    {
        let (mark, last) = self.times();
        let inputs = self.flush_inputs(alloc, last)?;
        let input = JobInput {
            bound: last,
            mark: last.min(mark),
            inputs,
        };
        // Its MemRowSets are the last of those that are frozen.
        self.tablet.standing();
        let Some(job) = self.upkeep.job(number) else {
            return Err(NoMemory);
        };
        let now = split(input, job.frozen)?;
        let (_, begun) = self.upkeep.counts();
        if begun >= MOST_JOBS {
            return Err(NoMemory);
        }
        let many = self.log.count();
        let again = Snapshot::of(&now);
        self.tablet.freeze()?;
        let last_mem = self.tablet.last_frozen();
        self.upkeep.come_again(number, many, last_mem, again);
        Ok(now)
    }

    // A job on the files of a disk rowset that was outside is back: all that the rowset has now is read.
    fn delta_return(&mut self, alloc: Global, number: u32) -> Result<RowSetData, NoMemory>
        requires stage { (job : JobView) × IsAtStage self.old.upkeep number Stage.Outside job × Rewrites job.want }
        ensures visit { IsVisit number self.old self.new }
        ensures back { IfOk result (λ d. (job : JobView) → job_of number self.old.upkeep ≡ Some job → HasReread D.tells D.seen number job d self.old self.new) }
        ensures same { OnErr result (self.new ≡ self.old) }
    {
        let (rowset, dms) = self.read_deltas(alloc, number)?;
        let read = Snapshot::of(&rowset);
        self.upkeep.read_deltas(number, dms, read);
        Ok(rowset)
    }

    // A job that was outside is back, while nothing flies.
    fn come_back(&mut self, alloc: Global, number: u32) -> Result<Returned, NoMemory>
        requires stage { (job : JobView) × IsAtStage self.old.upkeep number Stage.Outside job }
        requires calm { self.old.tablet.core.aloft ≡ [] }
        ensures visit { IsVisit number self.old self.new }
        ensures back { IfOk result (λ r. (job : JobView) → job_of number self.old.upkeep ≡ Some job → ReturnsBy job.want D.tells D.seen number job r self.old self.new) }
        ensures same { OnErr result (self.new ≡ self.old) }
    {
        if self.upkeep.rewrites(number) {
            return Ok(Returned::Rowset(self.delta_return(alloc, number)?));
        }
        // Of disk rowsets a compaction takes some, and a flush none.
        let Some(job) = self.upkeep.job(number) else {
            return Err(NoMemory);
        };
        if job.taken.as_slice().is_empty() {
            Ok(Returned::Mems(self.flush_return(alloc, number)?))
        } else {
            Ok(Returned::Rowsets(self.merge_return(alloc, number)?))
        }
    }

    /// A job that was outside goes on in this visit, once nothing flies. A compaction hands out all that its disk rowsets have now. A flush freezes the MemRowSet that
    /// took inserts meanwhile, takes that too, and hands out what all its MemRowSets have. One on the files of a disk rowset hands out all that this has now.
    pub fn job_return(&mut self, alloc: Global, number: u32) -> Result<Returned, JobWait>
        requires stage { (job : JobView) × IsAtStage self.old.upkeep number Stage.Outside job }
        ensures visit { IsVisit number self.old self.new }
        ensures back { IfOk result (λ r. (job : JobView) → job_of number self.old.upkeep ≡ Some job → ReturnsBy job.want D.tells D.seen number job r self.old self.new) }
        ensures waits { (ts : ℕ) → result ≡ Err (JobWait.NotYet ts) ↔ (self.old.tablet.core.stopped ≡ false) × (first_flying self.old.tablet ≡ Some ts) }
        ensures stopped { result ≡ Err JobWait.Stopped ↔ self.old.tablet.core.stopped ≡ true }
        ensures same { OnErr result (self.new ≡ self.old) }
    {
        if self.tablet.is_stopped() {
            return Err(JobWait::Stopped);
        }
        if let Some(ts) = self.tablet.least_flying() {
            return Err(JobWait::NotYet { ts });
        }
        Ok(self.come_back(alloc, number)?)
    }
}
