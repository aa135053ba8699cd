//! What the calls of a job do for one on the files of one disk rowset: it begins, the rowset is read, it comes written, its superblock goes out, and it is finished.
ghost use Rattle.std.specs.Prelude.{◌≡◌, ◌≢◌, ◌<◌, ◌^◌, ◌+◌, ◌-◌, ℕ, [], ◌∷◌, ◌==◌, if◌then◌else◌, map, IsTrue, IfOk, OnOk, OnErr, Some, None, false, MatchOption};
ghost use Rattle.kt_super.specs.declared.meta.Meta.{Meta as MetaSpec};
ghost use Rattle.kt_history.specs.Views.{AreRising};
ghost use Rattle.kt_baseset.specs.Rows.{keys_in};
ghost use Rattle.kt_diskrowset.specs.declared.data.RowSetData.{RowSetData as DataSpec};
ghost use Rattle.kt_diskrowset.specs.Data.{held_in};
ghost use Rattle.kt_outputs.specs.InPlace.{in_place};
ghost use Rattle.kt_storeside.specs.Sides.{MayBeLent};
ghost use Rattle.kt_tablet.specs.Jobs.{dms_in, files_of};
ghost use Rattle.kt_engine.specs.Outside.{any_outside};
ghost use Rattle.kt_engine.specs.Jobs.{JobView, IsAtStage, job_of};
ghost use Rattle.kt_engine.specs.JobSteps.{IsLent};
ghost use Rattle.kt_engine.specs.JobCalls.{HasReadRowset, GivesOne, HasTakenOne};
ghost use Rattle.kt_engine.specs.Columns.{shape_of};
ghost use Rattle.kt_schema.specs.Columns.{other_columns};
ghost use Rattle.kt_engine.specs.DeltaJobs.{IsOn, redo_files, HasNoWork, HasBegunDeltas, IsRead, StayNamed, NamesAtMostOneRedo, delta_meta, MayPublishDeltas, lent_deltas, MayFinishDeltas, HasFinishedDeltas};
ghost use Rattle.kt_engine.specs.Stored.{MayPublish};
ghost use Rattle.kt_engine.specs.Near.{most_deltas};
ghost use Rattle.kt_engine.specs.Upkeeps.{IsThere};
ghost use Rattle.kt_engine.specs.Visits.{IsVisit};

use crate::engine::Engine;
use crate::job::{JobInput, columns_of};
use crate::job_meta::copy_rowset;
use crate::outputs::JobOutputs;
use crate::upkeep::{Job, Stage};
use kt_base::{Clock, NoMemory};
use kt_baseset::Schema1;
use kt_disk::Disk;
use kt_diskrowset::{ChangeLists, Inputs, Outputs, RowSetData, RowSetList};
use kt_outputs::named_rowset;
use kt_pick::Want;
use kt_policy::IdList;
use kt_storeside::Lent;
use kt_super::{Meta, MetaRowset, MetaRowsets};
use std::alloc::Global;
use std::snapshot::Snapshot;

/// A superblock spells numbers below this one.
const SMALL: u64 = 1 << 62;

/// So many DeltaMemStores of a rowset an opening freezes at most, above its first rowset number.
const MANY_DELTAS: u64 = 1 << 44;

// How many REDO files these name of a disk rowset.
fn redo_files(rowsets: &[MetaRowset], rowset: u64) -> usize
    ensures { result ≡ redo_files rowset rowsets.now }
{
    'rowsets: for named in rowsets {
        if named.rowset == rowset {
            return named.redo.as_slice().len();
        }
    }
    0
}

// What a job has written, which leaves it.
fn output_of(job: Option<Job>) -> Option<RowSetData>
    ensures { MatchOption job (result ≡ None) (λ left. result ≡ left.output) }
{
    let Job { output, .. } = job?;
    output
}

// What stands in the place of a disk rowset: this one, where it has its number.
fn entry_of(alloc: Global, rowset: &MetaRowset, named: &MetaRowset) -> Result<MetaRowset, NoMemory>
    ensures { IfOk result (λ entry. entry ≡ (if named.now.rowset == rowset.now.rowset then rowset.now else named.now)) }
{
    if named.rowset == rowset.rowset {
        copy_rowset(alloc, rowset)
    } else {
        copy_rowset(alloc, named)
    }
}

// These disk rowsets, of which one stands in the place of the one of its number.
fn in_place(
    alloc: Global,
    rowset: &MetaRowset,
    rowsets: &[MetaRowset],
) -> Result<Vec<MetaRowset>, NoMemory>
    ensures { IfOk result (λ list. list.items ≡ in_place rowset.now rowsets.now) }
{
    let mut list = Vec::with_capacity(alloc, rowsets.len())?;
    'rowsets: for named in rowsets {
        list.push(entry_of(alloc, rowset, named)?)?;
    }
    Ok(list)
}

// What is read of a disk rowset alone.
fn alone(alloc: Global, columns: Schema1, rowset: RowSetData) -> Result<Inputs, NoMemory>
    ensures columns { IfOk result (λ inputs. inputs.columns ≡ columns) }
    ensures mems { IfOk result (λ inputs. inputs.mems ≡ []) }
    ensures rowsets { IfOk result (λ inputs. inputs.rowsets ≡ rowset ∷ []) }
{
    let mut rowsets = Vec::with_capacity(alloc, 1)?;
    rowsets.push_reserved(rowset);
    Ok(Inputs {
        columns,
        mems: ChangeLists::of(Vec::new(alloc)),
        rowsets: RowSetList::of(rowsets),
    })
}

// The disk rowset that is alone in a list.
fn only(outputs: Outputs) -> RowSetData
    requires one { (d : DataSpec) × (outputs.rowsets ≡ d ∷ []) }
    ensures { outputs.rowsets ≡ result ∷ [] }
{
    let mut rowsets = outputs.rowsets.into_vec();
    let Some(rowset) = rowsets.pop() else {
        unreachable!();
    };
    rowset
}

impl<L: Disk, D: Disk + Drop, C: Clock> Engine<L, D, C> {
    // Whether there is nothing to do for a want on the files of a disk rowset.
    pub(crate) fn has_no_work(&self, want: &Want, rowset: u64) -> bool
        requires on { IsOn rowset want.now }
        ensures nothing { IsTrue result → HasNoWork self.now want.now }
        ensures there { result ≡ false → (dms : ℕ) × (dms_in rowset self.now.tablet.names ≡ Some dms) }
    {
        let Some(_dms) = self.tablet.dms_of(rowset) else {
            return true;
        };
        let redo = redo_files(self.store.meta().rowsets.as_slice(), rowset);
        match want {
            Want::FlushDeltas(_) => !self.tablet.has_deltas(rowset),
            Want::Minor(_) => redo < 2,
            Want::Major(_) => redo == 0,
            Want::Flush | Want::Compact(_) => unreachable!(),
        }
    }

    // Begins the job that a pass asked for. It has a place.
    pub(crate) fn begin_deltas(
        &mut self,
        alloc: Global,
        number: u32,
        asked: Want,
        rowset: u64,
    ) -> u32
        requires on { IsOn rowset asked }
        requires few { self.old.upkeep.begun < 2 ^ 24 }
        requires place { IsThere number self.old.upkeep.passes }
        requires free { self.old.upkeep.publishing ≡ None }
        requires there { (dms : ℕ) × (dms_in rowset self.old.tablet.names ≡ Some dms) }
        ensures { HasBegunDeltas self.old self.new number asked result }
    {
        let (_, begun) = self.upkeep.counts();
        let job = Job {
            number: begun + 1,
            stage: Stage::Begun,
            bound: 0,
            mark: 0,
            taken: IdList::of(Vec::new(alloc)),
            last_mem: 0,
            many: 0,
            first_rowset: 0,
            first_file: 0,
            inputs: None,
            outputs: JobOutputs::none(alloc),
            superblock: 0,
            rowset,
            dms: 0,
            read: None,
            returned: None,
            frozen: 0,
            again: None,
            output: None,
        };
        self.upkeep.begin(number, asked, job)
    }

    // What a job reads, and the number of the DeltaMemStore that takes changes.
    pub(crate) fn read_deltas(
        &self,
        alloc: Global,
        number: u32,
    ) -> Result<(RowSetData, u64), NoMemory>
        ensures read { IfOk result (λ read. (job : JobView) → job_of number self.now.upkeep ≡ Some job → IsRead self.now.tablet job.rowset read.1 read.0) }
        ensures held { IfOk result (λ read. files_of read.0.number self.now.tablet.files ≡ Some (held_in read.0)) }
    {
        let Some(job) = self.upkeep.job(number) else {
            return Err(NoMemory);
        };
        let rowset = job.rowset;
        let Some(dms) = self.tablet.dms_of(rowset) else {
            return Err(NoMemory);
        };
        let data = self.tablet.read_rowset(alloc, rowset)?;
        Ok((data, dms))
    }

    // What the job reads is handed out, while nothing flies: all that the tablet has of its disk rowset. Its files are those that the published superblock names, or
    // what can be read of them.
    pub(crate) fn delta_snapshot(
        &mut self,
        alloc: Global,
        number: u32,
    ) -> Result<JobInput, NoMemory>
        requires free { self.old.upkeep.publishing ≡ None }
        requires stage { (job : JobView) × IsAtStage self.old.upkeep number Stage.Begun job }
        requires calm { self.old.tablet.core.aloft ≡ [] }
        ensures visit { IsVisit number self.old self.new }
        ensures read { IfOk result (λ input. (job : JobView) → job_of number self.old.upkeep ≡ Some job → HasReadRowset D.tells D.seen number job input.inputs input.bound input.mark self.old self.new) }
        ensures columns { IfOk result (λ input. input.inputs.columns ≡ map shape_of (other_columns self.old.store.meta.schema)) }
        ensures same { OnErr result (self.new ≡ self.old) }
    {
        let columns = columns_of(alloc, self.store.meta())?;
        let (rowset, dms) = self.read_deltas(alloc, number)?;
        let (a, c) = self.times();
        let mark = c.min(a);
        let read = Snapshot::of(&rowset);
        let inputs = alone(alloc, columns, rowset)?;
        self.upkeep.read(number, c, mark, Snapshot::of(&inputs));
        self.upkeep.read_deltas(number, dms, read);
        Ok(JobInput {
            bound: c,
            mark,
            inputs,
        })
    }

    // Takes the disk rowset as it was written, without a change in memory. A flush of changes adds one REDO file at most to the files that memory has. After a minor
    // compaction the base and UNDO files are those, and there is at most one REDO file; after a major one the UNDO files are, with one more at most, and the
    // REDO file has deletes only. Where its UNDO records do not fit it is as for want of memory.
    pub(crate) fn delta_swap(
        &mut self,
        alloc: Global,
        number: u32,
        outputs: Outputs,
    ) -> Result<(), NoMemory>
        requires free { self.old.upkeep.publishing ≡ None }
        requires stage { (job : JobView) × IsAtStage self.old.upkeep number Stage.Read job }
        requires rewritten { (job : JobView) → job_of number self.old.upkeep ≡ Some job → GivesOne job.want self.old.tablet.files outputs.rowsets }
        ensures visit { IsVisit number self.old self.new }
        ensures swapped { OnOk result ((job : JobView) → job_of number self.old.upkeep ≡ Some job → HasTakenOne number job outputs.rowsets self.old self.new) }
        ensures same { OnErr result (self.new ≡ self.old) }
    {
        let rowset = only(outputs);
        let fit = rowset.undos_fit(alloc)?;
        if !fit {
            return Err(NoMemory);
        }
        self.upkeep.take_output(number, rowset);
        Ok(())
    }

    // The superblock of the job of a pass, which has its output, and the number of its disk rowset. Where a superblock or the COMMITs of this opening cannot spell
    // the number of a DeltaMemStore there is no memory.
    fn delta_meta(&self, alloc: Global, number: u32) -> Result<(Meta, u64), NoMemory>
        requires may { (job : JobView) × ((d : DataSpec) × (job_of number self.now.upkeep ≡ Some job) × MayPublishDeltas D.tells D.seen D.now D.leaves self.now job d) }
        ensures meta { IfOk result (λ meta. (job : JobView) (d : DataSpec) → job_of number self.now.upkeep ≡ Some job → job.output ≡ Some d → (meta.0 ≡ delta_meta self.now job.dms d) × (meta.1 ≡ d.number) × (job.dms < most_deltas self.now.first_rowset) × AreRising (keys_in d.base.set.value.rows)) }
        ensures lent { IfOk result (λ meta. MayBeLent D.tells D.seen D.now D.leaves self.now.store meta.0) }
        ensures last { IfOk result (λ _. self.now.store.next_rowset ≢ 2 ^ 64 - 1) }
    {
        let Some(job) = self.upkeep.job(number) else {
            return Err(NoMemory);
        };
        let Some(rowset) = &job.output else {
            return Err(NoMemory);
        };
        let (next_rowset, _) = self.store.next_numbers();
        let dms = job.dms;
        if dms >= SMALL
            || next_rowset == u64::MAX
            || dms.saturating_sub(self.first_rowset) >= MANY_DELTAS
        {
            return Err(NoMemory);
        }
        rowset.base.standing();
        let (a, c) = self.times();
        let next = self.store.next_meta(alloc, a, c, self.log.durable())?;
        let entry = named_rowset(alloc, rowset, dms)?;
        let rowsets = in_place(alloc, &entry, next.rowsets.as_slice())?;
        let meta = Meta {
            rowsets: MetaRowsets::of(rowsets),
            ..next
        };
        Ok((meta, rowset.number))
    }

    // Freezes the DeltaMemStore of the job's disk rowset, and lends the store to publish its superblock: the job publishes from now on.
    fn lend_deltas(&mut self, number: u32, rowset: u64, meta: Meta) -> Result<Lent<D>, NoMemory>
        requires home { self.old.store.holder ≡ None }
        requires whole { IsTrue self.old.store.whole }
        requires may { (job : JobView) × ((d : DataSpec) × (job_of number self.old.upkeep ≡ Some job) × MayPublishDeltas D.tells D.seen D.now D.leaves self.old job d × (meta ≡ delta_meta self.old job.dms d) × (rowset ≡ d.number) × (job.dms < most_deltas self.old.first_rowset) × AreRising (keys_in d.base.set.value.rows)) }
        requires lent { MayBeLent D.tells D.seen D.now D.leaves self.old.store meta }
        requires last { self.old.store.next_rowset ≢ 2 ^ 64 - 1 }
        requires settled { (self.old.log.out ≡ []) × (self.old.log.queued ≡ []) }
        requires free { self.old.upkeep.publishing ≡ None }
        requires inside { any_outside self.old.upkeep.passes ≡ false }
        ensures visit { IsVisit number self.old self.new }
        ensures device { IfOk result (λ lent. (self.old.store.home ≡ Some lent.device) × (lent.device ≡ self.old.store.known)) }
        ensures meta { IfOk result (λ lent. lent.meta ≡ Some meta) }
        ensures numbers { IfOk result (λ lent. (lent.next_rowset ≡ self.old.store.next_rowset) × (lent.next_file ≡ self.old.store.next_file)) }
        ensures side { OnOk result (self.new ≡ lent_deltas self.old number rowset meta self.new.upkeep) }
        ensures lent { OnOk result ((job : JobView) → job_of number self.old.upkeep ≡ Some job → IsLent number job meta.number self.old.upkeep self.new.upkeep) }
        ensures same { OnErr result (self.new ≡ self.old) }
    {
        // The stores show the run, and what the published superblock names stands.
        self.tablet.standing();
        self.store.standing();
        let superblock = meta.number;
        self.tablet.freeze_deltas(rowset)?;
        let lent = self.store.lend(number, Some(meta));
        self.upkeep.publish(number, superblock);
        Ok(lent)
    }

    // Lends the store to publish the superblock of this pass's job on the files of a disk rowset, which is written. The DeltaMemStore that takes changes freezes, and
    // the next one takes them: nothing flies. All records are durable, and no other job publishes; until it is over this one does. Of the files that the published
    // superblock names those stay that the want leaves.
    pub(crate) fn delta_out(&mut self, alloc: Global, number: u32) -> Result<Lent<D>, NoMemory>
        requires home { self.old.store.holder ≡ None }
        requires goes { self.old.tablet.core.stopped ≡ false }
        requires may { (job : JobView) × ((d : DataSpec) × (job_of number self.old.upkeep ≡ Some job) × MayPublishDeltas D.tells D.seen D.now D.leaves self.old job d) }
        requires settled { (self.old.log.out ≡ []) × (self.old.log.queued ≡ []) }
        requires free { self.old.upkeep.publishing ≡ None }
        requires inside { any_outside self.old.upkeep.passes ≡ false }
        ensures visit { IsVisit number self.old self.new }
        ensures lent { IfOk result (λ lent. (self.old.store.home ≡ Some lent.device) × (lent.device ≡ self.old.store.known)) }
        ensures out { IfOk result (λ lent. (job : JobView) (d : DataSpec) → job_of number self.old.upkeep ≡ Some job → job.output ≡ Some d
            → (lent.meta ≡ Some (delta_meta self.old job.dms d)) × (self.new ≡ lent_deltas self.old number d.number (delta_meta self.old job.dms d) self.new.upkeep)) }
        ensures publishes { IfOk result (λ lent. (job : JobView) (m : MetaSpec) → lent.meta ≡ Some m → job_of number self.old.upkeep ≡ Some job → IsLent number job m.number self.old.upkeep self.new.upkeep) }
        ensures stay { IfOk result (λ lent. (job : JobView) (d : DataSpec) (m : MetaSpec) → job_of number self.old.upkeep ≡ Some job → job.output ≡ Some d → lent.meta ≡ Some m → StayNamed job.want d.number self.old.store.meta.rowsets m.rowsets) }
        ensures names { IfOk result (λ lent. (job : JobView) (m : MetaSpec) → job_of number self.old.upkeep ≡ Some job → lent.meta ≡ Some m → NamesAtMostOneRedo job.want m.rowsets) }
        ensures numbers { IfOk result (λ lent. (lent.next_rowset ≡ self.old.store.next_rowset) × (lent.next_file ≡ self.old.store.next_file)) }
        ensures ready { IfOk result (λ lent. (m : MetaSpec) → lent.meta ≡ Some m → MayPublish D.tells D.seen D.now D.leaves lent.device m) }
        ensures whole { IfOk result (λ _. IsTrue self.old.store.whole) }
        ensures stays { OnErr result (self.new ≡ self.old) }
    {
        let (meta, rowset) = self.delta_meta(alloc, number)?;
        // What may be lent stands on the device.
        self.store.standing();
        self.lend_deltas(number, rowset, meta)
    }

    // The disk rowset as it was written takes the place of the one in memory, whose changes in memory give their cells back. It takes no memory.
    pub(crate) fn delta_finish(&mut self, number: u32)
        requires may { (job : JobView) × ((d : DataSpec) × (job_of number self.old.upkeep ≡ Some job) × MayFinishDeltas self.old number job d) }
        ensures visit { IsVisit number self.old self.new }
        ensures line { self.new.tablet.core.trail ≡ self.old.tablet.core.trail }
        ensures finished { HasFinishedDeltas number self.old self.new }
    {
        let Some(rowset) = output_of(self.upkeep.finish(number)) else {
            unreachable!();
        };
        self.tablet.put_files(rowset);
    }
}
