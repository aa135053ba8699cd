//! The life of a job: it begins, its inputs are read, its outputs come, and it is finished or given up.
ghost use Rattle.std.specs.Prelude.{◌≡◌, ◌≢◌, ◌≤◌, ◌<◌, ◌^◌, ◌+◌, ◌-◌, ◌⊎◌, ◌↔◌, ℕ, List, is_some, IsTrue, IfOk, IfErr, OnOk, OnErr, Ok, Err, Some, None, true, false, [], length, map, nat_le};
ghost use Rattle.std.specs.List.{AllByRecursion, sum_by};
ghost use Rattle.kt_history.specs.History.{Past};
ghost use Rattle.kt_content.specs.Rules.{Rules};
ghost use Rattle.kt_merge.specs.Merge.{AreFaultless};
ghost use Rattle.kt_outputs.specs.Outputs.{meta_in};
ghost use Rattle.kt_tablet.specs.Jobs.{dms_in, changes_in_memory, taken_stores, entries_in, MayChangeOver, HasChangedOver};
ghost use Rattle.kt_schema.specs.Columns.{other_columns};
ghost use Rattle.kt_baseset.specs.Rows.{AreShapes};
ghost use Rattle.kt_joblaws.specs.Apart.{AreOfTable};
ghost use Rattle.kt_diskrowset.specs.Rowset.{store_of, name_of, held_of};
ghost use Rattle.kt_stores.specs.Leaving.{AreNew};
ghost use Rattle.kt_stores.specs.Takes.{rowsets};
ghost use Rattle.kt_engine.specs.Columns.{shape_of, ReadsMemory, ReadsRowsets, ReadsInputs};
ghost use Rattle.kt_engine.specs.Engines.{IsFound, IsContent};
ghost use Rattle.kt_engine.specs.Logged.{PlanPasses};
ghost use Rattle.kt_engine.specs.Jobs.{JobView, IsAtStage, IsUnpublished, HasUpkeep, upkeep_at, job_of, asked_for_nothing, job_abandoned, first_flying, NoRows, takes_by};
ghost use Rattle.kt_engine.specs.JobSteps.{TellAll, TellPassing, running, first_holder, IsMerge, IsNothing, LacksOne, HasBegunJob, IsUntouched, AtNewStage, HasInput, HasSwapped, MayFinish, HasFinished};
ghost use Rattle.kt_engine.specs.Upkeeps.{IsThere};
ghost use Rattle.kt_engine.specs.DeltaJobs.{IsOn, HasNoWork, HasBegunDeltas};
ghost use Rattle.kt_engine.specs.JobCalls.{ByWant, HasReadRowset, GivesOne, HasTakenOne, MayEndBy, HasEndedBy};
ghost use Rattle.kt_engine.specs.Visits.{IsVisit};

use crate::again::MemsNow;
use crate::engine::Engine;
use crate::filled::filled;
use crate::fitting::are_shapes;
use crate::outputs::{JobOutputs, lead_back};
use crate::telling::{all_told, have_many, tell_many};
use crate::upkeep::{Job, Stage, copy_ids, copy_want};
use kt_base::{Clock, NoMemory};
use kt_baseset::{ColumnShape, Schema1};
use kt_disk::Disk;
use kt_diskrowset::{ChangeLists, DiskRowSet, Inputs, Missed, Outputs, RowSetData, RowSetList};
use kt_history::ChangeList;
use kt_outputs::MissedFiles;
use kt_pick::Want;
use kt_policy::IdList;
use kt_stores::RangedRowSets;
use kt_super::Meta;
use kt_tablet::{LookNo, Tablet};
use std::alloc::Global;
use std::snapshot::Snapshot;
use thiserror::Error;

/// Why no job begins.
#[derive(Clone, Copy, Debug, PartialEq, Eq, Error)]
pub enum JobNo {
    /// The tablet has stopped.
    #[error("the tablet has stopped")]
    Stopped,
    /// There is nothing to do.
    #[error("there is nothing to do")]
    Nothing,
    /// This job holds an input.
    #[error("job {by} holds an input")]
    Held { by: u32 },
    /// There was no memory.
    #[error("out of memory")]
    Memory,
}

/// Why a job does not go on.
#[derive(Clone, Copy, Debug, PartialEq, Eq, Error)]
pub enum JobWait {
    /// The tablet has stopped.
    #[error("the tablet has stopped")]
    Stopped,
    /// This write still flies.
    #[error("the write of timestamp {ts} still flies")]
    NotYet { ts: u64 },
    /// There was no memory.
    #[error("out of memory")]
    Memory,
}

/// Why maintenance did not go on.
#[derive(Clone, Copy, Debug, PartialEq, Eq, Error)]
pub enum MaintNo {
    /// The tablet has stopped.
    #[error("the tablet has stopped")]
    Stopped,
    /// There was no memory.
    #[error("out of memory")]
    Memory,
}

impl From<NoMemory> for JobNo {
    ghost use Rattle.kt_engine.specs.declared.job.JobNo.TheVariants as no;

    ghost from_gives = { λ _ e. e ≡ no.Memory };

    fn from(_: NoMemory) -> JobNo {
        JobNo::Memory
    }
}

impl From<NoMemory> for JobWait {
    ghost use Rattle.kt_engine.specs.declared.job.JobWait.TheVariants as no;

    ghost from_gives = { λ _ e. e ≡ no.Memory };

    fn from(_: NoMemory) -> JobWait {
        JobWait::Memory
    }
}

/// What a job reads: its inputs as of the bound, and the job's mark.
#[derive(Drop)]
pub struct JobInput {
    pub bound: u64,
    pub mark: u64,
    pub inputs: Inputs,
}

/// What a job takes that comes back from outside the lock, as it is now.
#[derive(Drop)]
pub enum Returned {
    /// All that the disk rowsets of a compaction have.
    Rowsets(RowSetList),
    /// What the MemRowSets of a flush have.
    Mems(MemsNow),
    /// All that the disk rowset has whose files the job writes again.
    Rowset(RowSetData),
}

/// So many jobs begin in one opening at most. A flush that comes back from outside the lock counts as one more.
pub(crate) const MOST_JOBS: u32 = 1 << 24;

/// So many rows and changes together are too many for a job.
const MANY_CHANGES: u64 = 1 << 31;

/// So many run at once at most.
const MOST_RUNNING: usize = 512;

/// So many file numbers are given in one opening at most, but for those of the last turn.
pub(crate) const MANY_FILES: u64 = 1 << 44;

/// More stores than this a tablet does not take.
const MOST_STORES: usize = 1 << 31;

// Whether lists have too many changes together for a job.
#[tactic(auto, using(std::proofs::lemmas::List::Sums::sum_by_more))]
fn are_many(lists: &[ChangeList]) -> bool
    ensures { result ≡ nat_le (2 ^ 31) (sum_by (λ list. length list) lists.now) }
{
    let mut count: u64 = 0;
    'lists: for list in lists {
        count = (count + (list.len() as u64).min(MANY_CHANGES)).min(MANY_CHANGES);
    }
    count >= MANY_CHANGES
}

// What a job took of the stores of a tablet leaves while nothing flies: disk rowsets, or the frozen MemRowSets where it has none. Its outputs come behind the others.
fn leave_to<C: Clock>(
    tablet: &mut Tablet<DiskRowSet, C>,
    taken: &[u64],
    last: u64,
    outputs: RangedRowSets<DiskRowSet>,
    room: RangedRowSets<DiskRowSet>,
)
    requires calm { tablet.old.core.aloft ≡ [] }
    requires outputs { AreNew tablet.old.pool outputs.items }
    requires vacant { room.items ≡ [] }
    requires room { length tablet.old.core.stores + length outputs.items ≤ room.room + tablet.old.frozen + 1 }
    requires few { length tablet.old.core.stores + length outputs.items < 2 ^ 32 }
    requires may { MayChangeOver tablet.old (takes_by taken.now last) (map (λ r. store_of r tablet.old.pool) outputs.items) }
    ensures { HasChangedOver tablet.old tablet.new (takes_by taken.now last) (map (λ r. store_of r tablet.old.pool) outputs.items) (map name_of outputs.items) (map held_of outputs.items) }
{
    if taken.is_empty() {
        tablet.change_over(last, outputs, room);
    } else {
        tablet.compact_over(taken, outputs, room);
    }
}

// Whether one of these disk rowsets is not there.
fn lacks_one<C: Clock>(tablet: &Tablet<DiskRowSet, C>, taken: &[u64]) -> bool
    ensures { IsTrue result ↔ LacksOne taken.now tablet.now.names }
{
    'taken: for rowset in taken {
        if tablet.dms_of(*rowset).is_none() {
            return true;
        }
    }
    false
}

// The columns of a table that are no key, as a base file has them.
pub(crate) fn columns_of(alloc: Global, meta: &Meta) -> Result<Schema1, NoMemory>
    ensures { IfOk result (λ columns. columns ≡ map shape_of (other_columns meta.now.schema)) }
{
    let others = meta.schema.other_columns();
    let mut shapes = Vec::with_capacity(alloc, others.len())?;
    'columns: for column in others {
        shapes.push_reserved(ColumnShape {
            id: column.id,
            kind: column.kind,
            nullable: column.nullable,
        });
    }
    Ok(Schema1::of(shapes))
}

impl<L: Disk, D: Disk + Drop, C: Clock> Engine<L, D, C> {
    /// Whether nothing flies, no record waits for the log, and both devices are at home. Then a job can be run in one visit.
    pub fn is_calm(&self) -> bool
        ensures { IsTrue result ↔ (self.now.tablet.core.aloft ≡ []) × (self.now.log.queued ≡ []) × (self.now.log.holder ≡ None) × (self.now.store.holder ≡ None) }
    {
        self.tablet.flying() == 0
            && self.log.queued_len() == 0
            && self.log.by().is_none()
            && self.store.by().is_none()
    }

    /// Whether a pass has a job.
    pub fn has_job(&self, number: u32) -> bool
        ensures { result ≡ is_some (job_of number self.now.upkeep) }
    {
        self.upkeep.has_job(number)
    }

    // Whether too many jobs have begun or run, or no file or rowset number is left for one.
    fn is_full(&self) -> bool
        ensures { IsTrue result ↔ (2 ^ 24 ≤ self.now.upkeep.begun) ⊎ ((512 ≤ running self.now.upkeep) ⊎ ((self.now.first_file + 2 ^ 44 ≤ self.now.store.next_file) ⊎ (self.now.store.next_rowset ≡ 2 ^ 64 - 1))) }
    {
        let (running, begun) = self.upkeep.counts();
        let (next_rowset, next_file) = self.store.next_numbers();
        begun >= MOST_JOBS
            || running >= MOST_RUNNING
            || next_file.saturating_sub(self.first_file) >= MANY_FILES
            || next_rowset == u64::MAX
    }

    // Whether the MemRowSets have no row, and none is frozen.
    fn has_no_rows(&self) -> bool
        ensures { IsTrue result ↔ NoRows self.now.tablet }
    {
        self.tablet.is_vacant() && self.tablet.frozen() == 0
    }

    // Whether a flush has nothing to write, or too much.
    fn is_no_flush(&self, alloc: Global) -> Result<bool, NoMemory>
        ensures { IfOk result (λ nothing. IsTrue nothing ↔ NoRows self.now.tablet ⊎ (2 ^ 31 ≤ sum_by (λ list. length list) (changes_in_memory self.now.tablet.core.c self.now.tablet))) }
    {
        if self.has_no_rows() {
            return Ok(true);
        }
        let (_, last) = self.times();
        let lists = self.tablet.lists_in_memory(alloc, last)?;
        Ok(are_many(&lists))
    }

    // Whether a compaction of these disk rowsets has none, lacks one, or has too much to read.
    fn is_no_compaction(&self, alloc: Global, taken: &[u64]) -> Result<bool, NoMemory>
        ensures { IfOk result (λ nothing. IsTrue nothing ↔ (taken.now ≡ []) ⊎ (LacksOne taken.now self.now.tablet.names ⊎ (2 ^ 31 ≤ entries_in (taken_stores (rowsets taken.now) self.now.tablet)))) }
    {
        if taken.is_empty() {
            return Ok(true);
        }
        if lacks_one(&self.tablet, taken) {
            return Ok(true);
        }
        let rowsets = self.tablet.read_taken(alloc, taken)?;
        Ok(tell_many(&rowsets))
    }

    // Whether there is nothing to do for a want.
    fn is_nothing(&self, alloc: Global, want: &Want) -> Result<bool, NoMemory>
        ensures nothing { IfOk result (λ nothing. IsTrue nothing → HasNoWork self.now want.now) }
        ensures something { IfOk result (λ nothing. nothing ≡ false → ¬ IsNothing self.now want.now) }
        ensures there { IfOk result (λ nothing. nothing ≡ false → (rowset : ℕ) → IsOn rowset want.now → (dms : ℕ) × (dms_in rowset self.now.tablet.names ≡ Some dms)) }
    {
        if self.is_full() {
            return Ok(true);
        }
        match want {
            Want::Flush => self.is_no_flush(alloc),
            Want::Compact(taken) => self.is_no_compaction(alloc, taken.as_slice()),
            Want::FlushDeltas(rowset) | Want::Minor(rowset) | Want::Major(rowset) => {
                Ok(self.has_no_work(want, *rowset))
            }
        }
    }

    // The changes of the stores in memory up to a time, each insert filled. For those that are not of the table there is no memory.
    fn filled_lists(
        &self,
        alloc: Global,
        columns: &[ColumnShape],
        upto: u64,
    ) -> Result<Vec<ChangeList>, NoMemory>
        requires { AreShapes columns.now }
        ensures lists { IfOk result (λ lists. lists.items ≡ changes_in_memory upto self.now.tablet) }
        ensures table { IfOk result (λ lists. AllByRecursion (AreOfTable columns.now) lists.items) }
    {
        let fill = self.tablet.fill();
        let lists = self.tablet.lists_in_memory(alloc, upto)?;
        let mut out = Vec::with_capacity(alloc, lists.len())?;
        'lists: for list in &lists {
            out.push(filled(alloc, columns, fill, list)?)?;
        }
        Ok(out)
    }

    // What a flush reads as of a time. For what its files could not hold there is no memory.
    pub(crate) fn flush_inputs(&self, alloc: Global, upto: u64) -> Result<Inputs, NoMemory>
        ensures reads { IfOk result (λ inputs. ReadsMemory self.now.tablet upto inputs) }
        ensures columns { IfOk result (λ inputs. inputs.columns ≡ map shape_of (other_columns self.now.store.meta.schema)) }
    {
        let columns = columns_of(alloc, self.store.meta())?;
        if !are_shapes(columns.as_slice()) {
            return Err(NoMemory);
        }
        let mems = self.filled_lists(alloc, columns.as_slice(), upto)?;
        if are_many(&mems) {
            return Err(NoMemory);
        }
        Ok(Inputs {
            columns,
            mems: ChangeLists::of(mems),
            rowsets: RowSetList::of(Vec::new(alloc)),
        })
    }

    // What a compaction reads: all that these disk rowsets have. For what is not of the table, or not in the order of its times, there is no memory.
    fn compaction_inputs(&self, alloc: Global, taken: &[u64]) -> Result<Inputs, NoMemory>
        ensures reads { IfOk result (ReadsRowsets self.now.tablet taken.now) }
        ensures columns { IfOk result (λ inputs. inputs.columns ≡ map shape_of (other_columns self.now.store.meta.schema)) }
    {
        let columns = columns_of(alloc, self.store.meta())?;
        if !are_shapes(columns.as_slice()) {
            return Err(NoMemory);
        }
        let read = self.tablet.read_taken(alloc, taken)?;
        let rowsets = all_told(alloc, &columns, read)?;
        if have_many(&rowsets) {
            return Err(NoMemory);
        }
        Ok(Inputs {
            columns,
            mems: ChangeLists::of(Vec::new(alloc)),
            rowsets: RowSetList::of(rowsets),
        })
    }

    // What a job reads as of a time: of disk rowsets, or of the MemRowSets where there are none.
    fn inputs_of(&self, alloc: Global, taken: &[u64], upto: u64) -> Result<Inputs, NoMemory>
        ensures reads { IfOk result (ReadsInputs self.now.tablet taken.now upto) }
        ensures columns { IfOk result (λ inputs. inputs.columns ≡ map shape_of (other_columns self.now.store.meta.schema)) }
    {
        if taken.is_empty() {
            self.flush_inputs(alloc, upto)
        } else {
            self.compaction_inputs(alloc, taken)
        }
    }

    // What a job reads, while nothing flies and no job publishes.
    fn read_inputs(&self, alloc: Global, taken: &[u64]) -> Result<JobInput, NoMemory>
        requires free { self.now.upkeep.publishing ≡ None }
        requires calm { self.now.tablet.core.aloft ≡ [] }
        ensures read { IfOk result (λ input. HasInput self.now.tablet taken.now input.inputs input.bound input.mark) }
        ensures columns { IfOk result (λ input. input.inputs.columns ≡ map shape_of (other_columns self.now.store.meta.schema)) }
        ensures faultless { IfOk result (λ input. (first : Past) → IsFound self.now first → AreFaultless (record { mark = input.mark; bound = input.bound }) input.inputs) }
        ensures tells { IfOk result (λ input. (first : Past) → IsFound self.now first → TellAll self.now.tablet taken.now input.bound input.inputs) }
        ensures passes { IsTrue D.tells → IfOk result (λ input. (rules : Rules) (first : Past) → IsContent rules self.now first → PlanPasses rules self.now.tablet.core.work → TellPassing rules input.bound input.mark input.inputs) }
    {
        self.tablet.standing();
        let (a, c) = self.times();
        let inputs = self.inputs_of(alloc, taken, c)?;
        Ok(JobInput {
            bound: c,
            mark: c.min(a),
            inputs,
        })
    }

    // For each output of a job a list of no changes.
    fn no_changes(&self, alloc: Global, number: u32) -> Result<Vec<ChangeList>, NoMemory>
        ensures { IfOk result (λ lists. (job : JobView) → job_of number self.now.upkeep ≡ Some job → lists.items ≡ map (λ h. []) job.held) }
    {
        let mut lists = Vec::new(alloc);
        let Some(job) = self.upkeep.job(number) else {
            return Ok(lists);
        };
        'outputs: for _ in 0..job.outputs.len() {
            lists.push(ChangeList::new(alloc))?;
        }
        Ok(lists)
    }

    // Makes a place for a pass, so that its asks need no memory.
    fn make_place(&mut self, alloc: Global, number: u32) -> Result<(), NoMemory>
        ensures same { IsUntouched self.old self.new }
        ensures there { OnOk result (IsThere number self.new.upkeep.passes) }
    {
        self.upkeep.make_place(alloc, number)
    }

    // There is nothing to do for what a pass asked. It has a place, and no job.
    fn say_nothing(&mut self, number: u32, asked: Want)
        requires there { IsThere number self.old.upkeep.passes }
        requires none { job_of number self.old.upkeep ≡ None }
        ensures own { HasUpkeep number (asked_for_nothing asked (upkeep_at number self.old.upkeep.passes)) self.old.upkeep self.new.upkeep }
        ensures beside { self.new ≡ record self.old { upkeep = self.new.upkeep } }
    {
        self.upkeep.say_nothing(number, asked);
    }

    // Begins the flush that a pass asked for. It has a place.
    fn begin_flush(&mut self, alloc: Global, number: u32, asked: Want) -> Result<u32, NoMemory>
        requires flush { asked ≡ Want.Flush }
        requires few { self.old.upkeep.begun < 2 ^ 24 }
        requires last { self.old.store.next_rowset ≢ 2 ^ 64 - 1 }
        requires there { IsThere number self.old.upkeep.passes }
        requires free { self.old.upkeep.publishing ≡ None }
        ensures begun { IfOk result (λ k. HasBegunJob self.old self.new number asked k) }
        ensures same { OnErr result (self.new ≡ self.old) }
    {
        // The rowsets that are published have numbers below those that are given now.
        self.store.standing();
        self.tablet.freeze()?;
        let (_, begun) = self.upkeep.counts();
        let (first_rowset, first_file) = self.store.next_numbers();
        let job = Job {
            number: begun + 1,
            stage: Stage::Begun,
            bound: 0,
            mark: 0,
            taken: IdList::of(Vec::new(alloc)),
            last_mem: self.tablet.last_frozen(),
            many: self.log.count(),
            first_rowset,
            first_file,
            inputs: None,
            outputs: JobOutputs::none(alloc),
            superblock: 0,
            rowset: 0,
            dms: 0,
            read: None,
            returned: None,
            frozen: 0,
            again: None,
            output: None,
        };
        self.tablet.standing();
        Ok(self.upkeep.begin(number, asked, job))
    }

    // Begins the compaction of these disk rowsets that a pass asked for. It has a place.
    fn begin_compaction(&mut self, alloc: Global, number: u32, asked: Want, taken: IdList) -> u32
        requires compacts { asked ≡ Want.Compact taken }
        requires some { taken ≢ [] }
        requires all_there { ¬ LacksOne taken self.old.tablet.names }
        requires few { self.old.upkeep.begun < 2 ^ 24 }
        requires last { self.old.store.next_rowset ≢ 2 ^ 64 - 1 }
        requires there { IsThere number self.old.upkeep.passes }
        requires free { self.old.upkeep.publishing ≡ None }
        ensures { HasBegunJob self.old self.new number asked result }
    {
        // The rowsets that are published have numbers below those that are given now.
        self.store.standing();
        let (_, begun) = self.upkeep.counts();
        let (first_rowset, first_file) = self.store.next_numbers();
        let job = Job {
            number: begun + 1,
            stage: Stage::Begun,
            bound: 0,
            mark: 0,
            taken,
            last_mem: self.tablet.active_number(),
            many: self.log.count(),
            first_rowset,
            first_file,
            inputs: None,
            outputs: JobOutputs::none(alloc),
            superblock: 0,
            rowset: 0,
            dms: 0,
            read: None,
            returned: None,
            frozen: 0,
            again: None,
            output: None,
        };
        self.tablet.standing();
        self.upkeep.begin(number, asked, job)
    }

    // Begins the job that a pass asked for. It has a place.
    fn begin_job(&mut self, alloc: Global, number: u32, asked: Want) -> Result<u32, NoMemory>
        requires few { self.old.upkeep.begun < 2 ^ 24 }
        requires last { self.old.store.next_rowset ≢ 2 ^ 64 - 1 }
        requires taken { (taken : List ℕ) → asked ≡ Want.Compact taken → (taken ≢ []) × ¬ LacksOne taken self.old.tablet.names }
        requires rowset { (rowset : ℕ) → IsOn rowset asked → (dms : ℕ) × (dms_in rowset self.old.tablet.names ≡ Some dms) }
        requires there { IsThere number self.old.upkeep.passes }
        requires free { self.old.upkeep.publishing ≡ None }
        ensures begun { IfOk result (λ k. ByWant asked (HasBegunJob self.old self.new number asked k) (λ rowset. HasBegunDeltas self.old self.new number asked k)) }
        ensures same { OnErr result (self.new ≡ self.old) }
    {
        match &asked {
            Want::Flush => self.begin_flush(alloc, number, asked),
            Want::Compact(rowsets) => {
                let taken = copy_ids(alloc, rowsets)?;
                Ok(self.begin_compaction(alloc, number, asked, taken))
            }
            Want::FlushDeltas(rowset) | Want::Minor(rowset) | Want::Major(rowset) => {
                let rowset = *rowset;
                Ok(self.begin_deltas(alloc, number, asked, rowset))
            }
        }
    }

    /// Begins a job, whose inputs are held from now on. A flush freezes here. Where there is nothing to do that is told, and counts as an ask: there is none for a
    /// minor compaction of fewer than two REDO files, for a major one of none, and for a flush of changes where none is in memory. Until jobs run in two phases
    /// none begins while a job publishes.
    pub fn job_begin(&mut self, alloc: Global, number: u32, want: &Want) -> Result<u32, JobNo>
        requires none { job_of number self.old.upkeep ≡ None }
        ensures visit { IsVisit number self.old self.new }
        ensures line { self.new.tablet.core.trail ≡ self.old.tablet.core.trail }
        ensures begun { IfOk result (λ k. ByWant want.now (HasBegunJob self.old self.new number want.now k) (λ rowset. HasBegunDeltas self.old self.new number want.now k)) }
        ensures nothing { result ≡ Err JobNo.Nothing → (self.old.tablet.core.stopped ≡ false) × HasNoWork self.old want.now }
        ensures none_to_do { self.old.tablet.core.stopped ≡ false → IsNothing self.old want.now → (result ≡ Err JobNo.Nothing) ⊎ (result ≡ Err JobNo.Memory) }
        ensures asked { result ≡ Err JobNo.Nothing → (self.new ≡ record self.old { upkeep = self.new.upkeep }) × HasUpkeep number (asked_for_nothing want.now (upkeep_at number self.old.upkeep.passes)) self.old.upkeep self.new.upkeep }
        ensures held { (by : ℕ) → result ≡ Err (JobNo.Held by) → (self.old.tablet.core.stopped ≡ false) × ¬ IsNothing self.old want.now × (first_holder want.now self.old.upkeep.passes ≡ Some by) }
        ensures alone { IfOk result (λ _. first_holder want.now self.old.upkeep.passes ≡ None) }
        ensures holds { (by : ℕ) → self.old.tablet.core.stopped ≡ false → ¬ HasNoWork self.old want.now → first_holder want.now self.old.upkeep.passes ≡ Some by → (result ≡ Err (JobNo.Held by)) ⊎ (result ≡ Err JobNo.Memory) }
        ensures stopped { result ≡ Err JobNo.Stopped ↔ self.old.tablet.core.stopped ≡ true }
        ensures same { IfErr result (λ e. e ≢ JobNo.Nothing → IsUntouched self.old self.new) }
    {
        if self.is_stopped() {
            return Err(JobNo::Stopped);
        }
        let asked = copy_want(alloc, want)?;
        let nothing = self.is_nothing(alloc, want)?;
        let holder = self.upkeep.holder_of(want);
        let publishing = self.upkeep.is_publishing();
        self.make_place(alloc, number)?;
        if nothing {
            self.say_nothing(number, asked);
            return Err(JobNo::Nothing);
        }
        if let Some(by) = holder {
            return Err(JobNo::Held { by });
        }
        // What freezes while another job publishes would be lacking in what that one does at its end.
        if publishing {
            return Err(JobNo::Memory);
        }
        Ok(self.begin_job(alloc, number, asked)?)
    }

    // What a flush or a compaction reads is handed out, while nothing flies.
    fn merge_snapshot(&mut self, alloc: Global, number: u32) -> Result<JobInput, NoMemory>
        requires free { self.old.upkeep.publishing ≡ None }
        requires stage { (job : JobView) × IsAtStage self.old.upkeep number Stage.Begun job }
        requires calm { self.old.tablet.core.aloft ≡ [] }
        ensures visit { IsVisit number self.old self.new }
        ensures read { IfOk result (λ input. (job : JobView) → job_of number self.old.upkeep ≡ Some job → HasInput self.old.tablet job.taken input.inputs input.bound input.mark
            × AtNewStage number (record job { stage = Stage.Read; bound = input.bound; mark = input.mark; inputs = Some input.inputs }) self.old self.new) }
        ensures columns { IfOk result (λ input. input.inputs.columns ≡ map shape_of (other_columns self.old.store.meta.schema)) }
        ensures faultless { IfOk result (λ input. (first : Past) → IsFound self.old first → AreFaultless (record { mark = input.mark; bound = input.bound }) input.inputs) }
        ensures tells { IfOk result (λ input. (job : JobView) (first : Past) → job_of number self.old.upkeep ≡ Some job → IsFound self.old first → TellAll self.old.tablet job.taken input.bound input.inputs) }
        ensures passes { IsTrue D.tells → IfOk result (λ input. (rules : Rules) (first : Past) → IsContent rules self.old first → PlanPasses rules self.old.tablet.core.work → TellPassing rules input.bound input.mark input.inputs) }
        ensures same { OnErr result (self.new ≡ self.old) }
    {
        let Some(job) = self.upkeep.job(number) else {
            return Err(NoMemory);
        };
        let input = self.read_inputs(alloc, job.taken.as_slice())?;
        let inputs = Snapshot::of(&input.inputs);
        self.upkeep.read(number, input.bound, input.mark, inputs);
        Ok(input)
    }

    /// Hands out what the job reads, once nothing flies: of a job on the files of one disk rowset all that the tablet has of it.
    pub fn job_snapshot(&mut self, alloc: Global, number: u32) -> Result<JobInput, JobWait>
        requires free { self.old.upkeep.publishing ≡ None }
        requires stage { (job : JobView) × IsAtStage self.old.upkeep number Stage.Begun job }
        ensures visit { IsVisit number self.old self.new }
        ensures read { IfOk result (λ input. (job : JobView) → job_of number self.old.upkeep ≡ Some job → ByWant job.want
            (HasInput self.old.tablet job.taken input.inputs input.bound input.mark
            × AtNewStage number (record job { stage = Stage.Read; bound = input.bound; mark = input.mark; inputs = Some input.inputs }) self.old self.new)
            (λ rowset. HasReadRowset D.tells D.seen number job input.inputs input.bound input.mark self.old self.new)) }
        ensures columns { IfOk result (λ input. input.inputs.columns ≡ map shape_of (other_columns self.old.store.meta.schema)) }
        ensures faultless { IfOk result (λ input. (job : JobView) (first : Past) → job_of number self.old.upkeep ≡ Some job → IsMerge job.want → IsFound self.old first → AreFaultless (record { mark = input.mark; bound = input.bound }) input.inputs) }
        ensures tells { IfOk result (λ input. (job : JobView) (first : Past) → job_of number self.old.upkeep ≡ Some job → IsMerge job.want → IsFound self.old first → TellAll self.old.tablet job.taken input.bound input.inputs) }
        ensures passes { IsTrue D.tells → IfOk result (λ input. (job : JobView) (rules : Rules) (first : Past) → job_of number self.old.upkeep ≡ Some job → IsMerge job.want → IsContent rules self.old first → PlanPasses rules self.old.tablet.core.work
            → TellPassing rules input.bound input.mark input.inputs) }
        ensures waits { (ts : ℕ) → result ≡ Err (JobWait.NotYet ts) ↔ (self.old.tablet.core.stopped ≡ false) × (first_flying self.old.tablet ≡ Some ts) }
        ensures stopped { result ≡ Err JobWait.Stopped ↔ self.old.tablet.core.stopped ≡ true }
        ensures same { OnErr result (self.new ≡ self.old) }
    {
        if self.tablet.is_stopped() {
            return Err(JobWait::Stopped);
        }
        if let Some(ts) = self.tablet.least_flying() {
            return Err(JobWait::NotYet { ts });
        }
        if self.upkeep.rewrites(number) {
            return Ok(self.delta_snapshot(alloc, number)?);
        }
        Ok(self.merge_snapshot(alloc, number)?)
    }

    // Takes the outputs of a flush or a compaction, new disk rowsets that have no change in memory. It takes the memory of the end.
    fn merge_swap(&mut self, alloc: Global, number: u32, outputs: Outputs) -> Result<(), NoMemory>
        requires free { self.old.upkeep.publishing ≡ None }
        requires stage { (job : JobView) × IsAtStage self.old.upkeep number Stage.Read job }
        requires fresh { AllByRecursion (λ d. d.fresh ≡ []) outputs.rowsets }
        ensures visit { IsVisit number self.old self.new }
        ensures swapped { OnOk result (HasSwapped number outputs.rowsets (map (meta_in 0) outputs.rowsets) self.old self.new) }
        ensures few { OnOk result (length self.old.tablet.core.stores + length outputs.rowsets < 2 ^ 32) }
        ensures same { OnErr result (self.new ≡ self.old) }
    {
        // The tablet counts its stores by u32.
        let rowsets = self.tablet.rowsets();
        let stores = rowsets.saturating_add(self.tablet.frozen());
        if stores.saturating_add(outputs.rowsets.len()) >= MOST_STORES {
            return Err(NoMemory);
        }
        if !lead_back(alloc, outputs.rowsets.as_slice())? {
            return Err(NoMemory);
        }
        let outputs = JobOutputs::of(alloc, outputs, rowsets)?;
        self.upkeep.swap(number, outputs);
        Ok(())
    }

    /// Takes the outputs, disk rowsets that have no change in memory: of a flush or a compaction new ones, and of a job on the files of one disk rowset that one as it
    /// was written, in the shape of its want and with the files that this leaves. It takes the memory of the end. Where UNDO records do not fit it is as for want
    /// of memory.
    pub fn job_swap(&mut self, alloc: Global, number: u32, outputs: Outputs) -> Result<(), LookNo>
        requires free { self.old.upkeep.publishing ≡ None }
        requires stage { (job : JobView) × IsAtStage self.old.upkeep number Stage.Read job }
        requires fresh { AllByRecursion (λ d. d.fresh ≡ []) outputs.rowsets }
        requires rewritten { (job : JobView) → job_of number self.old.upkeep ≡ Some job → ByWant job.want (Unit {0}) (λ rowset. GivesOne job.want self.old.tablet.files outputs.rowsets) }
        ensures visit { IsVisit number self.old self.new }
        ensures swapped { OnOk result ((job : JobView) → job_of number self.old.upkeep ≡ Some job → ByWant job.want
            (HasSwapped number outputs.rowsets (map (meta_in 0) outputs.rowsets) self.old self.new × (length self.old.tablet.core.stores + length outputs.rowsets < 2 ^ 32))
            (λ rowset. HasTakenOne number job outputs.rowsets self.old self.new)) }
        ensures stopped { self.old.tablet.core.stopped ≡ true → result ≡ Err LookNo.Stopped }
        ensures goes { result ≡ Err LookNo.Stopped → self.old.tablet.core.stopped ≡ true }
        ensures same { OnErr result (self.new ≡ self.old) }
    {
        if self.tablet.is_stopped() {
            return Err(LookNo::Stopped);
        }
        let taken = if self.upkeep.rewrites(number) {
            self.delta_swap(alloc, number, outputs)
        } else {
            self.merge_swap(alloc, number, outputs)
        };
        match taken {
            Ok(()) => Ok(()),
            Err(NoMemory) => Err(LookNo::Memory),
        }
    }

    /// Hands out what the outputs lack: nothing, since nothing flies and no change came after the bound.
    pub fn job_collect(&mut self, alloc: Global, number: u32) -> Result<Missed, JobWait>
        requires free { self.old.upkeep.publishing ≡ None }
        requires stage { (job : JobView) × IsAtStage self.old.upkeep number Stage.Swapped job }
        requires calm { self.old.tablet.core.aloft ≡ [] }
        ensures visit { IsVisit number self.old self.new }
        ensures none { IfOk result (λ missed. (job : JobView) → job_of number self.old.upkeep ≡ Some job → (missed.lists ≡ map (λ h. []) job.held) × AtNewStage number (record job { stage = Stage.Collected }) self.old self.new) }
        ensures waits { (ts : ℕ) → result ≢ Err (JobWait.NotYet ts) }
        ensures stopped { result ≡ Err JobWait.Stopped ↔ self.old.tablet.core.stopped ≡ true }
        ensures same { OnErr result (self.new ≡ self.old) }
    {
        if self.tablet.is_stopped() {
            return Err(JobWait::Stopped);
        }
        let lists = self.no_changes(alloc, number)?;
        self.upkeep.go_on(number, Stage::Collected);
        Ok(Missed {
            lists: ChangeLists::of(lists),
        })
    }

    /// Takes the files of what the outputs lacked: none, since they lack nothing.
    pub fn job_missed(&mut self, number: u32, files: MissedFiles) -> Result<(), LookNo>
        requires free { self.old.upkeep.publishing ≡ None }
        requires stage { (job : JobView) × IsAtStage self.old.upkeep number Stage.Collected job × (files ≡ map (λ h. None) job.held) }
        ensures visit { IsVisit number self.old self.new }
        ensures written { OnOk result ((job : JobView) → job_of number self.old.upkeep ≡ Some job → AtNewStage number (record job { stage = Stage.Written }) self.old self.new) }
        ensures stopped { self.old.tablet.core.stopped ≡ true → result ≡ Err LookNo.Stopped }
        ensures goes { result ≡ Err LookNo.Stopped → self.old.tablet.core.stopped ≡ true }
        ensures same { OnErr result (self.new ≡ self.old) }
    {
        if self.tablet.is_stopped() {
            return Err(LookNo::Stopped);
        }
        let _none = files;
        self.upkeep.go_on(number, Stage::Written);
        Ok(())
    }

    // What a flush or a compaction took leaves, and its outputs come behind the other stores. It takes no memory.
    fn merge_finish(&mut self, number: u32)
        requires may { (job : JobView) × (job_of number self.old.upkeep ≡ Some job) × MayFinish self.old number job }
        ensures visit { IsVisit number self.old self.new }
        ensures line { self.new.tablet.core.trail ≡ self.old.tablet.core.trail }
        ensures finished { HasFinished number self.old self.new }
    {
        self.standing();
        let Some(job) = self.upkeep.finish(number) else {
            return;
        };
        let (rowsets, room) = job.outputs.into_parts();
        let taken = job.taken.as_slice();
        leave_to(&mut self.tablet, taken, job.last_mem, rowsets, room);
    }

    /// What the job took leaves, and its outputs come behind the other stores; of a job on the files of one disk rowset its new files take the place of the old ones,
    /// and the changes that they hold give their cells back. Its superblock is published. It takes no memory.
    pub fn job_finish(&mut self, number: u32)
        requires may { (job : JobView) × (job_of number self.old.upkeep ≡ Some job) × MayEndBy self.old number job job.output }
        ensures visit { IsVisit number self.old self.new }
        ensures line { self.new.tablet.core.trail ≡ self.old.tablet.core.trail }
        ensures finished { (job : JobView) → job_of number self.old.upkeep ≡ Some job → HasEndedBy job.output number self.old self.new }
    {
        if self.upkeep.has_output(number) {
            self.delta_finish(number);
        } else {
            self.merge_finish(number);
        }
    }

    /// Gives a job up, whose superblock is neither published nor lent. What it froze stays frozen. It takes no memory.
    pub fn job_abandon(&mut self, number: u32)
        requires free { self.old.upkeep.publishing ≡ None }
        requires stage { (job : JobView) × (job_of number self.old.upkeep ≡ Some job) × IsUnpublished job.stage }
        ensures visit { IsVisit number self.old self.new }
        ensures abandoned { (job : JobView) → job_of number self.old.upkeep ≡ Some job → HasUpkeep number (job_abandoned job.want (upkeep_at number self.old.upkeep.passes)) self.old.upkeep self.new.upkeep }
        ensures beside { self.new ≡ record self.old { upkeep = self.new.upkeep } }
    {
        self.upkeep.abandon(number);
    }
}
