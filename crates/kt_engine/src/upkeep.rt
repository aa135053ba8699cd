//! What passes have of maintenance: their asks, their rounds, and their jobs.
ghost use Rattle.std.specs.Prelude.{◌≡◌, ◌≤◌, ◌<◌, ◌^◌, ℕ, suc, false, IsTrue, is_some, map, length, slice_get, Some, None, IfOk, OnOk, OnErr, MatchOption};
ghost use Rattle.std.specs.List.{sum_by};
ghost use Rattle.std.specs.Option.{option_map};
ghost use Rattle.kt_pick.specs.declared.rules.Want.{Want as WantSpec};
ghost use Rattle.kt_diskrowset.specs.Rowset.{held_of};
ghost use Rattle.kt_engine.specs.Jobs.{idle, no_upkeep, upkeep_at, job_of, asked, asked_for_nothing, job_finished, job_abandoned, same_want, without_want, rewritten, JobView, HasUpkeep};
ghost use Rattle.kt_engine.specs.DeltaJobs.{IsOn};
ghost use Rattle.kt_engine.specs.JobSteps.{IsMerge, one_job, running, stage_home, publishing_home, shares, names, or_holder, first_holder};
ghost use Rattle.kt_engine.specs.Outside.{is_outside, any_outside, job_again, job_back, job_out};
ghost use Rattle.kt_engine.specs.Rounds.{round_of};
ghost use Rattle.kt_engine.specs.Upkeeps.{upkeep_of, job_in, IsThere};

use crate::again::MemsNow;
use crate::outputs::JobOutputs;
use kt_base::{Chore, NoMemory};
use kt_diskrowset::{Inputs, RowSetData, RowSetList};
use kt_pick::Want;
use kt_policy::IdList;
use std::alloc::Global;
use std::marker::Model;
use std::snapshot::Snapshot;

/// How far a job has come.
#[derive(Clone, Copy, PartialEq, Eq)]
pub enum Stage {
    /// It has its inputs.
    Begun,
    /// They were handed out.
    Read,
    /// It goes on outside the lock with them.
    Outside,
    /// Its outputs are there.
    Swapped,
    /// What they lack was handed out.
    Collected,
    /// And is written.
    Written,
    /// Its superblock is lent.
    Publishing,
    /// It is published.
    Published,
}

/// How the last ask for a job ended.
#[derive(Clone, Copy, PartialEq, Eq)]
pub enum Last {
    None,
    Nothing,
    Begun,
    Finished,
    Abandoned,
}

/// A job. Beside its outputs there is room for the disk rowsets of the tablet.
#[derive(Drop)]
pub struct Job {
    pub number: u32,
    pub stage: Stage,
    pub bound: u64,
    pub mark: u64,
    /// The disk rowsets that a compaction takes.
    pub taken: IdList,
    /// The last MemRowSet that a flush writes, or the one that took inserts as a compaction began.
    pub last_mem: u64,
    /// How many records the log had as it began.
    pub many: u64,
    /// The numbers of the next rowset and of the next file as it began.
    pub first_rowset: u64,
    pub first_file: u64,
    /// What was handed out to it, for contracts alone.
    pub inputs: Option<Snapshot<Inputs>>,
    pub outputs: JobOutputs,
    /// The number of the superblock that it publishes.
    pub superblock: u64,
    /// The disk rowset whose files it writes again, the last DeltaMemStore that it reads of it, what was handed out of it, for contracts alone, and what it has
    /// written.
    pub rowset: u64,
    pub dms: u64,
    pub read: Option<Snapshot<RowSetData>>,
    /// What its disk rowsets had as it came back from outside the lock, for contracts alone.
    pub returned: Option<Snapshot<RowSetList>>,
    /// How many MemRowSets a flush takes that went outside.
    pub frozen: usize,
    /// What its MemRowSets had as it came back, for contracts alone.
    pub again: Option<Snapshot<MemsNow>>,
    pub output: Option<RowSetData>,
}

/// What a pass has of maintenance.
#[derive(Drop)]
pub struct Upkeep {
    pub pass: u32,
    pub asks: u64,
    pub last: Last,
    /// What it asked for last, and what its job does: a flush where it has not asked.
    pub want: Want,
    pub round: Option<Chore>,
    pub rounds: u64,
    pub todo: Vec<Want>,
    pub job: Option<Job>,
    /// The last of its jobs that was finished, as it was at its end, and what that was for. They are for contracts alone.
    pub done: Snapshot<Option<Job>>,
    pub done_want: Snapshot<Want>,
}

/// That of all passes that asked, how many jobs have begun, and the pass whose job publishes. Contracts see it as a list, in which a pass that is not there is
/// idle.
#[derive(Drop)]
pub struct Upkeeps {
    passes: Vec<Upkeep>,
    begun: u32,
    publishing: Option<u32>,
}

/// No pass has asked.
pub fn no_upkeep(alloc: Global) -> Upkeeps
    ensures { result ≡ no_upkeep }
{
    Upkeeps {
        passes: Vec::new(alloc),
        begun: 0,
        publishing: None,
    }
}

impl Model for Upkeeps {
    ghost use Rattle.std.specs.Prelude.{map};
    ghost use Rattle.kt_engine.specs.Jobs.{UpkeepsView};
    ghost use Rattle.kt_engine.specs.Upkeeps.{upkeep_of, AreApart};

    ghost Value = { UpkeepsView };

    ghost view = { λ u. record { passes = map upkeep_of u.passes.items; begun = u.begun; publishing = u.publishing } };

    ghost invariant = { λ u. AreApart u.passes.items };
}

/// Another owner of a want.
pub fn copy_want(alloc: Global, want: &Want) -> Result<Want, NoMemory>
    ensures { IfOk result (λ copy. copy ≡ want.now) }
{
    Ok(match want {
        Want::Flush => Want::Flush,
        Want::FlushDeltas(rowset) => Want::FlushDeltas(*rowset),
        Want::Minor(rowset) => Want::Minor(*rowset),
        Want::Major(rowset) => Want::Major(*rowset),
        Want::Compact(rowsets) => Want::Compact(copy_ids(alloc, rowsets)?),
    })
}

/// Another owner of a list of numbers.
pub fn copy_ids(alloc: Global, ids: &IdList) -> Result<IdList, NoMemory>
    ensures { IfOk result (λ copy. copy ≡ ids.now) }
{
    let mut copy = Vec::with_capacity(alloc, ids.as_slice().len())?;
    copy.extend_from_slice(ids.as_slice())?;
    Ok(IdList::of(copy))
}

impl Upkeep {
    // What a pass has that has not asked.
    fn idle(alloc: Global, pass: u32) -> Upkeep
        ensures { upkeep_of result ≡ (pass, idle) }
    {
        let want = Want::Flush;
        let job = None;
        Upkeep {
            pass,
            asks: 0,
            last: Last::None,
            round: None,
            rounds: 0,
            todo: Vec::new(alloc),
            done: Snapshot::of(&job),
            done_want: Snapshot::of(&want),
            want,
            job,
        }
    }

    // How many jobs it has: one, or none.
    fn jobs(&self) -> usize
        ensures jobs { result ≡ one_job (upkeep_of self.now).1.job }
        ensures few { result ≤ 1 }
    {
        match &self.job {
            Some(_) => 1,
            None => 0,
        }
    }

    // Takes a want off what is to do.
    fn strike(&mut self)
        ensures beside { self.new ≡ record self.old { todo = self.new.todo } }
        ensures struck { self.new.todo.items ≡ without_want self.old.want self.old.todo.items }
    {
        let Upkeep { want, todo, .. } = self;
        todo.retain(|other| !is_same(want, other));
    }

    // There is nothing to do for what it asked. It has no job.
    fn say_nothing(&mut self, want: Want)
        requires none { self.old.job ≡ None }
        ensures own { (upkeep_of self.new).1 ≡ asked_for_nothing want (upkeep_of self.old).1 }
        ensures pass { self.new.pass ≡ self.old.pass }
    {
        self.asks = self.asks.saturating_add(1);
        self.last = Last::Nothing;
        self.want = want;
        self.strike();
    }

    // Its job begins.
    fn begin(&mut self, want: Want, job: Job)
        ensures own { (upkeep_of self.new).1 ≡ asked want (job_in want job) (upkeep_of self.old).1 }
        ensures pass { self.new.pass ≡ self.old.pass }
    {
        self.asks = self.asks.saturating_add(1);
        self.last = Last::Begun;
        self.want = want;
        self.job = Some(job);
    }

    // Its job has come further.
    fn go_on(&mut self, stage: Stage)
        ensures own { (job : JobView) → (upkeep_of self.old).1.job ≡ Some job → (upkeep_of self.new).1 ≡ record (upkeep_of self.old).1 { job = Some (record job { stage = stage }) } }
        ensures pass { self.new.pass ≡ self.old.pass }
    {
        if let Some(job) = &mut self.job {
            job.stage = stage;
        }
    }

    // Its job goes outside, of this many frozen MemRowSets.
    fn go_out(&mut self, frozen: usize)
        ensures own { (job : JobView) → (upkeep_of self.old).1.job ≡ Some job → (upkeep_of self.new).1 ≡ record (upkeep_of self.old).1 { job = Some (job_out frozen job) } }
        ensures pass { self.new.pass ≡ self.old.pass }
    {
        if let Some(job) = &mut self.job {
            job.stage = Stage::Outside;
            job.frozen = frozen;
        }
    }

    // The superblock of its job is lent.
    fn publish(&mut self, superblock: u64)
        ensures own { (job : JobView) → (upkeep_of self.old).1.job ≡ Some job → (upkeep_of self.new).1 ≡ record (upkeep_of self.old).1 { job = Some (record job { stage = Stage.Publishing; super = superblock }) } }
        ensures pass { self.new.pass ≡ self.old.pass }
    {
        if let Some(job) = &mut self.job {
            job.stage = Stage::Publishing;
            job.superblock = superblock;
        }
    }

    // The inputs of its job were handed out.
    fn read(&mut self, bound: u64, mark: u64, inputs: Snapshot<Inputs>)
        ensures own { (job : JobView) → (upkeep_of self.old).1.job ≡ Some job → (upkeep_of self.new).1 ≡ record (upkeep_of self.old).1 { job = Some (record job { stage = Stage.Read; bound = bound; mark = mark; inputs = Some inputs.value }) } }
        ensures pass { self.new.pass ≡ self.old.pass }
    {
        if let Some(job) = &mut self.job {
            job.stage = Stage::Read;
            job.bound = bound;
            job.mark = mark;
            job.inputs = Some(inputs);
        }
    }

    // Its job is back, with so many records in the log, and this MemRowSet takes inserts. Its disk rowsets were handed out as they are.
    fn come_back(&mut self, many: u64, last_mem: u64, returned: Snapshot<RowSetList>)
        ensures own { (job : JobView) → (upkeep_of self.old).1.job ≡ Some job → (upkeep_of self.new).1 ≡ record (upkeep_of self.old).1 { job = Some (job_back many last_mem returned.value job) } }
        ensures pass { self.new.pass ≡ self.old.pass }
    {
        if let Some(job) = &mut self.job {
            job.stage = Stage::Read;
            job.many = many;
            job.last_mem = last_mem;
            job.returned = Some(returned);
        }
    }

    // Its job is back, a flush, with so many records in the log, and takes the MemRowSets up to this one. They were handed out as they are.
    fn come_again(&mut self, many: u64, last_mem: u64, again: Snapshot<MemsNow>)
        ensures own { (job : JobView) → (upkeep_of self.old).1.job ≡ Some job → (upkeep_of self.new).1 ≡ record (upkeep_of self.old).1 { job = Some (job_again many last_mem again.value job) } }
        ensures pass { self.new.pass ≡ self.old.pass }
    {
        if let Some(job) = &mut self.job {
            job.stage = Stage::Read;
            job.many = many;
            job.last_mem = last_mem;
            job.again = Some(again);
        }
    }

    // Whether its job is outside the lock.
    fn is_outside(&self) -> bool
        ensures { result ≡ is_outside (upkeep_of self.now).1.job }
    {
        match &self.job {
            Some(job) => job.stage == Stage::Outside,
            None => false,
        }
    }

    // All that the tablet has of the disk rowset of its job was handed out.
    fn read_deltas(&mut self, dms: u64, read: Snapshot<RowSetData>)
        ensures own { (job : JobView) → (upkeep_of self.old).1.job ≡ Some job → (upkeep_of self.new).1 ≡ record (upkeep_of self.old).1 { job = Some (record job { stage = Stage.Read; dms = dms; read = Some read.value }) } }
        ensures pass { self.new.pass ≡ self.old.pass }
    {
        if let Some(job) = &mut self.job {
            job.stage = Stage::Read;
            job.dms = dms;
            job.read = Some(read);
        }
    }

    // The disk rowset of its job is written.
    fn take_output(&mut self, rowset: RowSetData)
        ensures own { (job : JobView) → (upkeep_of self.old).1.job ≡ Some job → (upkeep_of self.new).1 ≡ record (upkeep_of self.old).1 { job = Some (record job { stage = Stage.Swapped; output = Some rowset }) } }
        ensures pass { self.new.pass ≡ self.old.pass }
    {
        if let Some(job) = &mut self.job {
            job.stage = Stage::Swapped;
            job.output = Some(rowset);
        }
    }

    // The outputs of its job are there.
    fn swap(&mut self, outputs: JobOutputs)
        ensures own { (job : JobView) → (upkeep_of self.old).1.job ≡ Some job → (upkeep_of self.new).1 ≡ record (upkeep_of self.old).1 { job = Some (record job { stage = Stage.Swapped; metas = outputs.metas; held = map held_of outputs.rowsets; room = outputs.room }) } }
        ensures pass { self.new.pass ≡ self.old.pass }
    {
        if let Some(job) = &mut self.job {
            job.stage = Stage::Swapped;
            job.outputs = outputs;
        }
    }

    // Its job is over, and is kept as what was done last.
    fn finish(&mut self) -> Option<Job>
        ensures own { (job : JobView) → (upkeep_of self.old).1.job ≡ Some job → (upkeep_of self.new).1 ≡ job_finished job.want (upkeep_of self.old).1 }
        ensures job { result ≡ self.old.job }
        ensures pass { self.new.pass ≡ self.old.pass }
    {
        self.done = Snapshot::of(&self.job);
        self.done_want = Snapshot::of(&self.want);
        let job = self.job.take();
        self.last = Last::Finished;
        self.strike();
        job
    }

    // Its job is given up.
    fn abandon(&mut self)
        ensures own { (job : JobView) → (upkeep_of self.old).1.job ≡ Some job → (upkeep_of self.new).1 ≡ job_abandoned job.want (upkeep_of self.old).1 }
        ensures pass { self.new.pass ≡ self.old.pass }
    {
        self.job = None;
        self.last = Last::Abandoned;
    }

    // A round of a chore begins.
    fn begin_round(&mut self, chore: Chore, todo: Vec<Want>)
        ensures own { (upkeep_of self.new).1 ≡ round_of chore todo.items (upkeep_of self.old).1 }
        ensures pass { self.new.pass ≡ self.old.pass }
    {
        self.round = Some(chore);
        self.rounds = self.rounds.saturating_add(1);
        self.todo = todo;
    }
}

/// Whether two wants are the same.
pub fn is_same(want: &Want, other: &Want) -> bool
    ensures { result ≡ same_want want.now other.now }
{
    match (want, other) {
        (Want::Flush, Want::Flush) => true,
        (Want::FlushDeltas(one), Want::FlushDeltas(two)) => one == two,
        (Want::Minor(one), Want::Minor(two)) => one == two,
        (Want::Major(one), Want::Major(two)) => one == two,
        (Want::Compact(some), Want::Compact(others)) => some.as_slice() == others.as_slice(),
        _ => false,
    }
}

// Whether a want merges what it takes. If not it is on the files of one disk rowset.
fn is_merge(want: &Want) -> bool
    ensures yes { IsTrue result → IsMerge want.now }
    ensures no { result ≡ false → (rowset : ℕ) × IsOn rowset want.now }
{
    match want {
        Want::Flush | Want::Compact(_) => true,
        Want::FlushDeltas(_) | Want::Minor(_) | Want::Major(_) => false,
    }
}

impl Upkeeps {
    // Where a pass stands that asked before.
    fn place(&self, pass: u32) -> Option<usize>
        ensures { MatchOption result (¬ IsThere pass self.now.passes) (λ at. (at < length self.now.passes) × (option_map (λ u. u.0) (slice_get self.now.passes at) ≡ Some pass)) }
    {
        self.passes.iter().position(|upkeep| upkeep.pass == pass)
    }

    /// Makes a place for a pass, so that its asks need no memory.
    pub fn make_place(&mut self, alloc: Global, pass: u32) -> Result<(), NoMemory>
        ensures same { HasUpkeep pass (upkeep_at pass self.old.passes) self.old self.new }
        ensures begun { (self.new.begun ≡ self.old.begun) × (self.new.publishing ≡ self.old.publishing) }
        ensures there { OnOk result (IsThere pass self.new.passes) }
    {
        if let Some(_) = self.place(pass) {
            return Ok(());
        }
        self.passes.push(Upkeep::idle(alloc, pass))?;
        Ok(())
    }

    /// How many jobs run, and how many have begun.
    pub fn counts(&self) -> (usize, u32)
        ensures running { result.0 ≡ running self.now }
        ensures begun { result.1 ≡ self.now.begun }
    {
        (running_in(&self.passes), self.begun)
    }

    /// Whether the superblock of a job is lent or published, and the job is not over.
    pub fn is_publishing(&self) -> bool
        ensures { result ≡ is_some self.now.publishing }
    {
        self.publishing.is_some()
    }

    /// The superblock of this number of the job of a pass is lent.
    pub fn publish(&mut self, pass: u32, superblock: u64)
        requires job { (job : JobView) × (job_of pass self.old ≡ Some job) }
        ensures own { (job : JobView) → job_of pass self.old ≡ Some job → HasUpkeep pass (record (upkeep_at pass self.old.passes) { job = Some (record job { stage = Stage.Publishing; super = superblock }) }) self.old self.new }
        ensures begun { (self.new.begun ≡ self.old.begun) × (self.new.publishing ≡ Some pass) }
    {
        self.publishing = Some(pass);
        let Some(at) = self.place(pass) else {
            return;
        };
        self.passes[at].publish(superblock);
    }

    /// It is published, or has come home unpublished.
    pub fn come_home(&mut self, pass: u32, published: bool)
        requires job { (job : JobView) × (job_of pass self.old ≡ Some job) }
        ensures own { (job : JobView) → job_of pass self.old ≡ Some job → HasUpkeep pass (record (upkeep_at pass self.old.passes) { job = Some (record job { stage = stage_home published }) }) self.old self.new }
        ensures begun { (self.new.begun ≡ self.old.begun) × (self.new.publishing ≡ publishing_home published self.old.publishing) }
    {
        if published {
            self.go_on(pass, Stage::Published);
        } else {
            self.go_on(pass, Stage::Written);
            self.publishing = None;
        }
    }

    /// The job that holds an input of a want, the first of the passes that has one.
    pub fn holder_of(&self, want: &Want) -> Option<u32>
        ensures { result ≡ first_holder want.now self.now.passes }
    {
        holder_in(&self.passes, want)
    }

    /// There is nothing to do for what a pass asked. It has a place, and no job.
    pub fn say_nothing(&mut self, pass: u32, want: Want)
        requires there { IsThere pass self.old.passes }
        requires none { job_of pass self.old ≡ None }
        ensures own { HasUpkeep pass (asked_for_nothing want (upkeep_at pass self.old.passes)) self.old self.new }
        ensures begun { (self.new.begun ≡ self.old.begun) × (self.new.publishing ≡ self.old.publishing) }
    {
        let Some(at) = self.place(pass) else {
            return;
        };
        self.passes[at].say_nothing(want);
    }

    /// A job of a pass begins. It has a place.
    pub fn begin(&mut self, pass: u32, want: Want, job: Job) -> u32
        requires there { IsThere pass self.old.passes }
        ensures own { HasUpkeep pass (asked want (job_in want job) (upkeep_at pass self.old.passes)) self.old self.new }
        ensures begun { (result ≡ job.number) × (self.new.begun ≡ job.number) × (self.new.publishing ≡ self.old.publishing) }
    {
        let number = job.number;
        self.begun = number;
        let Some(at) = self.place(pass) else {
            return number;
        };
        self.passes[at].begin(want, job);
        number
    }

    /// The job of a pass has come further.
    pub fn go_on(&mut self, pass: u32, stage: Stage)
        requires job { (job : JobView) × (job_of pass self.old ≡ Some job) }
        ensures own { (job : JobView) → job_of pass self.old ≡ Some job → HasUpkeep pass (record (upkeep_at pass self.old.passes) { job = Some (record job { stage = stage }) }) self.old self.new }
        ensures begun { (self.new.begun ≡ self.old.begun) × (self.new.publishing ≡ self.old.publishing) }
    {
        let Some(at) = self.place(pass) else {
            return;
        };
        self.passes[at].go_on(stage);
    }

    /// It goes outside, of this many frozen MemRowSets.
    pub fn go_out(&mut self, pass: u32, frozen: usize)
        requires job { (job : JobView) × (job_of pass self.old ≡ Some job) }
        ensures own { (job : JobView) → job_of pass self.old ≡ Some job → HasUpkeep pass (record (upkeep_at pass self.old.passes) { job = Some (job_out frozen job) }) self.old self.new }
        ensures begun { (self.new.begun ≡ self.old.begun) × (self.new.publishing ≡ self.old.publishing) }
    {
        let Some(at) = self.place(pass) else {
            return;
        };
        self.passes[at].go_out(frozen);
    }

    /// Its inputs were handed out, with this bound and this mark.
    pub fn read(&mut self, pass: u32, bound: u64, mark: u64, inputs: Snapshot<Inputs>)
        requires job { (job : JobView) × (job_of pass self.old ≡ Some job) }
        ensures own { (job : JobView) → job_of pass self.old ≡ Some job → HasUpkeep pass (record (upkeep_at pass self.old.passes) { job = Some (record job { stage = Stage.Read; bound = bound; mark = mark; inputs = Some inputs.value }) }) self.old self.new }
        ensures begun { (self.new.begun ≡ self.old.begun) × (self.new.publishing ≡ self.old.publishing) }
    {
        let Some(at) = self.place(pass) else {
            return;
        };
        self.passes[at].read(bound, mark, inputs);
    }

    /// It is back from outside the lock, with so many records in the log, and this MemRowSet takes inserts. Its disk rowsets were handed out as they are.
    pub fn come_back(&mut self, pass: u32, many: u64, last_mem: u64, returned: Snapshot<RowSetList>)
        requires job { (job : JobView) × (job_of pass self.old ≡ Some job) }
        ensures own { (job : JobView) → job_of pass self.old ≡ Some job → HasUpkeep pass (record (upkeep_at pass self.old.passes) { job = Some (job_back many last_mem returned.value job) }) self.old self.new }
        ensures begun { (self.new.begun ≡ self.old.begun) × (self.new.publishing ≡ self.old.publishing) }
    {
        let Some(at) = self.place(pass) else {
            return;
        };
        self.passes[at].come_back(many, last_mem, returned);
    }

    /// A flush is back from outside the lock, with so many records in the log, and takes the MemRowSets up to this one. They were handed out as they are. It counts as
    /// one more job that has begun, since it froze once more.
    pub fn come_again(&mut self, pass: u32, many: u64, last_mem: u64, again: Snapshot<MemsNow>)
        requires job { (job : JobView) × (job_of pass self.old ≡ Some job) }
        requires few { self.old.begun < 2 ^ 24 }
        ensures own { (job : JobView) → job_of pass self.old ≡ Some job → HasUpkeep pass (record (upkeep_at pass self.old.passes) { job = Some (job_again many last_mem again.value job) }) self.old self.new }
        ensures begun { (self.new.begun ≡ suc self.old.begun) × (self.new.publishing ≡ self.old.publishing) }
    {
        self.begun += 1;
        let Some(at) = self.place(pass) else {
            return;
        };
        self.passes[at].come_again(many, last_mem, again);
    }

    /// Whether a job is outside the lock.
    pub fn is_outside(&self) -> bool
        ensures { result ≡ any_outside self.now.passes }
    {
        outside_in(&self.passes)
    }

    /// All that the tablet has of the disk rowset of the job of a pass was handed out, of which this DeltaMemStore takes changes.
    pub fn read_deltas(&mut self, pass: u32, dms: u64, read: Snapshot<RowSetData>)
        requires job { (job : JobView) × (job_of pass self.old ≡ Some job) }
        ensures own { (job : JobView) → job_of pass self.old ≡ Some job → HasUpkeep pass (record (upkeep_at pass self.old.passes) { job = Some (record job { stage = Stage.Read; dms = dms; read = Some read.value }) }) self.old self.new }
        ensures begun { (self.new.begun ≡ self.old.begun) × (self.new.publishing ≡ self.old.publishing) }
    {
        let Some(at) = self.place(pass) else {
            return;
        };
        self.passes[at].read_deltas(dms, read);
    }

    /// The disk rowset of the job of a pass is written.
    pub fn take_output(&mut self, pass: u32, rowset: RowSetData)
        requires job { (job : JobView) × (job_of pass self.old ≡ Some job) }
        ensures own { (job : JobView) → job_of pass self.old ≡ Some job → HasUpkeep pass (record (upkeep_at pass self.old.passes) { job = Some (record job { stage = Stage.Swapped; output = Some rowset }) }) self.old self.new }
        ensures begun { (self.new.begun ≡ self.old.begun) × (self.new.publishing ≡ self.old.publishing) }
    {
        let Some(at) = self.place(pass) else {
            return;
        };
        self.passes[at].take_output(rowset);
    }

    /// Its outputs are there.
    pub fn swap(&mut self, pass: u32, outputs: JobOutputs)
        requires job { (job : JobView) × (job_of pass self.old ≡ Some job) }
        ensures own { (job : JobView) → job_of pass self.old ≡ Some job → HasUpkeep pass (record (upkeep_at pass self.old.passes) { job = Some (record job { stage = Stage.Swapped; metas = outputs.metas; held = map held_of outputs.rowsets; room = outputs.room }) }) self.old self.new }
        ensures begun { (self.new.begun ≡ self.old.begun) × (self.new.publishing ≡ self.old.publishing) }
    {
        let Some(at) = self.place(pass) else {
            return;
        };
        self.passes[at].swap(outputs);
    }

    /// The job of a pass is over, and leaves; none publishes then. It takes no memory.
    pub fn finish(&mut self, pass: u32) -> Option<Job>
        requires job { (job : JobView) × (job_of pass self.old ≡ Some job) }
        ensures own { (job : JobView) → job_of pass self.old ≡ Some job → HasUpkeep pass (job_finished job.want (upkeep_at pass self.old.passes)) self.old self.new }
        ensures left { (job : JobView) → job_of pass self.old ≡ Some job → (left : Job) × (result ≡ Some left) × (job_in job.want left ≡ job) }
        ensures begun { (self.new.begun ≡ self.old.begun) × (self.new.publishing ≡ None) }
    {
        let at = self.place(pass)?;
        self.publishing = None;
        self.passes[at].finish()
    }

    /// The job of a pass is given up. It takes no memory.
    pub fn abandon(&mut self, pass: u32)
        requires job { (job : JobView) × (job_of pass self.old ≡ Some job) }
        ensures own { (job : JobView) → job_of pass self.old ≡ Some job → HasUpkeep pass (job_abandoned job.want (upkeep_at pass self.old.passes)) self.old self.new }
        ensures begun { (self.new.begun ≡ self.old.begun) × (self.new.publishing ≡ self.old.publishing) }
    {
        let Some(at) = self.place(pass) else {
            return;
        };
        self.passes[at].abandon();
    }

    /// Whether a pass has a job.
    pub fn has_job(&self, pass: u32) -> bool
        ensures { result ≡ is_some (job_of pass self.now) }
    {
        self.job(pass).is_some()
    }

    /// The job of a pass, to be read.
    pub fn job(&self, pass: u32) -> Option<&Job>
        ensures { MatchOption result (job_of pass self.now ≡ None) (λ read. (want : WantSpec) × (job_of pass self.now ≡ Some (job_in want read.now))) }
    {
        let at = self.place(pass)?;
        self.passes[at].job.as_ref()
    }

    /// Whether the job of a pass writes the files of one disk rowset again, and merges nothing.
    pub fn rewrites(&self, pass: u32) -> bool
        ensures yes { IsTrue result → (job : JobView) → job_of pass self.now ≡ Some job → (rowset : ℕ) × IsOn rowset job.want }
        ensures no { result ≡ false → (job : JobView) → job_of pass self.now ≡ Some job → IsMerge job.want }
    {
        match self.place(pass) {
            Some(at) => !is_merge(&self.passes[at].want),
            None => false,
        }
    }

    /// Whether the job of a pass has a disk rowset that it has written again.
    pub fn has_output(&self, pass: u32) -> bool
        ensures { result ≡ is_some (rewritten (job_of pass self.now)) }
    {
        match self.job(pass) {
            Some(job) => job.output.is_some(),
            None => false,
        }
    }

    /// A round of a chore of a pass begins, with all that is to do of it.
    pub fn begin_round(
        &mut self,
        alloc: Global,
        pass: u32,
        chore: Chore,
        todo: Vec<Want>,
    ) -> Result<(), NoMemory>
        ensures ok { OnOk result (HasUpkeep pass (round_of chore todo.items (upkeep_at pass self.old.passes)) self.old self.new) }
        ensures begun { (self.new.begun ≡ self.old.begun) × (self.new.publishing ≡ self.old.publishing) }
        ensures err { OnErr result ((k : ℕ) → upkeep_at k self.new.passes ≡ upkeep_at k self.old.passes) }
    {
        self.make_place(alloc, pass)?;
        let Some(at) = self.place(pass) else {
            return Ok(());
        };
        self.passes[at].begin_round(chore, todo);
        Ok(())
    }
}

// How many jobs these passes have.
fn running_in(passes: &[Upkeep]) -> usize
    ensures { result ≡ sum_by (λ p. one_job p.1.job) (map upkeep_of passes.now) }
{
    let mut running: usize = 0;
    'passes: for upkeep in passes {
        running += upkeep.jobs();
    }
    running
}

// The job that a pass has, where it holds an input of a want.
fn held_by(upkeep: &Upkeep, want: &Want) -> Option<u32>
    ensures { result ≡ or_holder want.now (upkeep_of upkeep.now).1.job None }
{
    let job = upkeep.job.as_ref()?;
    if shares(want, &upkeep.want) {
        Some(job.number)
    } else {
        None
    }
}

// Whether one of these passes has a job that is outside the lock.
fn outside_in(passes: &[Upkeep]) -> bool
    ensures { result ≡ any_outside (map upkeep_of passes.now) }
{
    passes.iter().any(|upkeep| upkeep.is_outside())
}

// The job of the first pass that has one which holds an input of a want.
fn holder_in(passes: &[Upkeep], want: &Want) -> Option<u32>
    ensures { result ≡ first_holder want.now (map upkeep_of passes.now) }
{
    'passes: for upkeep in passes {
        let holder = held_by(upkeep, want);
        if holder.is_some() {
            return holder;
        }
    }
    None
}

// Whether two wants have an input in common. At most one flush runs, and two jobs never share a rowset.
fn shares(want: &Want, held: &Want) -> bool
    ensures { result ≡ shares want.now held.now }
{
    match (want, held) {
        (Want::Flush, Want::Flush) => true,
        (Want::Flush, _) => false,
        (_, Want::Flush) => false,
        (Want::Compact(rowsets), _) => rowsets.as_slice().iter().any(|rowset| names(held, *rowset)),
        (Want::FlushDeltas(rowset) | Want::Minor(rowset) | Want::Major(rowset), _) => names(
            held, *rowset,
        ),
    }
}

// Whether a want is on a rowset.
fn names(want: &Want, rowset: u64) -> bool
    ensures { result ≡ names want.now rowset }
{
    match want {
        Want::Flush => false,
        Want::FlushDeltas(other) | Want::Minor(other) | Want::Major(other) => *other == rowset,
        Want::Compact(others) => others.as_slice().contains(&rowset),
    }
}
