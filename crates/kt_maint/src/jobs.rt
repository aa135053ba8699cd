//! A job up to where it leaves the lock.
ghost use Rattle.std.specs.Prelude.{◌≡◌, OnOk, IfErr};
ghost use Rattle.kt_engine.specs.Visits.{IsVisit};
ghost use Rattle.kt_pick.specs.declared.rules.Want.{Want as WantSpec};
ghost use Rattle.kt_engine.specs.declared.upkeep.Stage.TheVariants as stage;
ghost use Rattle.kt_maint.specs.DeltaRuns.{DeltasAt};
ghost use Rattle.kt_maint.specs.Runs.{IsReady, RunsAs, HasNoDevice, StandsAs};
ghost use Rattle.kt_maint.specs.JobRuns.{HasBegunNow, MergeBegins};
ghost use Rattle.kt_maint.specs.Outside.{StartsAs, LeftAs};

use crate::ending::let_go;
use crate::leaving::{go_out, go_out_one};
use crate::ready::{Ready, make_ready};
use crate::reworking::Away;
use crate::tries::Turn;
use kt_base::{Clock, NoMemory};
use kt_disk::Disk;
use kt_engine::{Engine, JobNo};
use kt_pick::Want;
use std::alloc::Global;

/// What came of a visit.
#[derive(Drop)]
pub enum Start<T, D> {
    /// It is over so.
    Over(T),
    /// A job goes on outside the lock.
    Out(Away<D>),
}

// The flush or the compaction of this pass, which has begun, goes outside, or is given up for want of memory.
fn leave_now<L: Disk, D: Disk + Drop, C: Clock>(
    alloc: Global,
    engine: &mut Engine<L, D, C>,
    by: u32,
) -> Start<Turn, D>
    requires begun { (want : WantSpec) × MergeBegins engine.old by want }
    requires calm { IsReady engine.old }
    ensures visit { IsVisit by engine.old engine.new }
    ensures still { StandsAs by engine.old engine.new }
    ensures left { (want : WantSpec) → MergeBegins engine.old by want → LeftAs D.tells D.seen by want engine.old engine.new result }
{
    match go_out(alloc, engine, by) {
        Ok(out) => Start::Out(Away::Merge(out)),
        Err(NoMemory) => {
            let_go(engine, by);
            Start::Over(Turn::Memory)
        }
    }
}

// The same of a job on the files of a disk rowset.
fn leave_one<L: Disk, D: Disk + Drop, C: Clock>(
    alloc: Global,
    engine: &mut Engine<L, D, C>,
    by: u32,
    want: Want,
) -> Start<Turn, D>
    requires begun { DeltasAt engine.old by want stage.Begun }
    requires calm { IsReady engine.old }
    ensures visit { IsVisit by engine.old engine.new }
    ensures still { StandsAs by engine.old engine.new }
    ensures left { LeftAs D.tells D.seen by want engine.old engine.new result }
{
    match go_out_one(alloc, engine, by, want) {
        Ok(out) => Start::Out(Away::One(out)),
        Err(NoMemory) => {
            let_go(engine, by);
            Start::Over(Turn::Memory)
        }
    }
}

// Asks for a job in this visit. Where something is under way none is begun, and the log is at home with less to append. A pass that has a job begins no other
// and is answered as for want of memory.
fn begin_now<L: Disk, D: Disk + Drop, C: Clock>(
    alloc: Global,
    engine: &mut Engine<L, D, C>,
    by: u32,
    want: &Want,
) -> Result<(), Turn>
    requires home { HasNoDevice by engine.old }
    ensures visit { IsVisit by engine.old engine.new }
    ensures still { StandsAs by engine.old engine.new }
    ensures begun { OnOk result (HasBegunNow by want.now engine.old engine.new) }
    ensures over { IfErr result (λ turn. RunsAs by want.now engine.old engine.new turn) }
{
    if engine.has_job(by) {
        return Err(Turn::Memory);
    }
    match make_ready(alloc, engine, by) {
        Ready::Yes => {}
        Ready::Wait => return Err(Turn::Wait),
        Ready::Stopped => return Err(Turn::Stopped),
        Ready::Memory => return Err(Turn::Memory),
    }
    match engine.job_begin(alloc, by, want) {
        Ok(_) => Ok(()),
        Err(JobNo::Nothing) => Err(Turn::Nothing),
        Err(JobNo::Held { by: _ }) => Err(Turn::Wait),
        Err(JobNo::Stopped) => Err(Turn::Stopped),
        Err(JobNo::Memory) => Err(Turn::Memory),
    }
}

/// Tries a job in this visit, which goes on outside the lock. Where something is under way nothing is begun, and the log is at home with less to append. A pass that
/// has a job begins no other and is answered as for want of memory.
pub fn start_now<L: Disk, D: Disk + Drop, C: Clock>(
    alloc: Global,
    engine: &mut Engine<L, D, C>,
    by: u32,
    want: &Want,
) -> Start<Turn, D>
    requires home { HasNoDevice by engine.old }
    ensures visit { IsVisit by engine.old engine.new }
    ensures still { StandsAs by engine.old engine.new }
    ensures starts { StartsAs D.tells D.seen by want.now engine.old engine.new result }
{
    match begin_now(alloc, engine, by, want) {
        Ok(()) => {}
        Err(turn) => return Start::Over(turn),
    }
    match want {
        Want::Flush | Want::Compact(_) => leave_now(alloc, engine, by),
        Want::FlushDeltas(rowset) => leave_one(alloc, engine, by, Want::FlushDeltas(*rowset)),
        Want::Minor(rowset) => leave_one(alloc, engine, by, Want::Minor(*rowset)),
        Want::Major(rowset) => leave_one(alloc, engine, by, Want::Major(*rowset)),
    }
}
