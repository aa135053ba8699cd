//! Background workers: each picks a job and runs it, in the visit in which it picked it or, a flush or a compaction, in that one and one more, and rests where there is none.
ghost use Rattle.std.specs.Prelude.{◌≡◌, ◌≢◌, ◌⊎◌, ℕ, false, true, IfOk};
ghost use Rattle.kt_seatlock.specs.Passes.{number, seen, part, MayEnter, IsBack, IsPassOf, IsOutside, IsSame};
ghost use Rattle.kt_engine.specs.Calls.{SeesOthers, HasNoDevice, StandsStill};
ghost use Rattle.kt_engine.specs.Visits.{IsVisit};
ghost use Rattle.kt_maint.specs.Calls.{HasAway, HasNoJob, LeavesNoJob, has_stop};
ghost use Rattle.kt_maint.specs.Points.{HasTold};
ghost use Rattle.kt_maint.specs.declared.jobs.Start.TheVariants as start;
ghost use Rattle.kt_maint.specs.Runs.{HasNoDevice as PassHasNone, StandsAs};
ghost use Rattle.kt_maint.specs.Work.{LeftNone, Picks, TookAs};

use crate::jobs::{Start, start_now};
use crate::reworking::Away;
use crate::run::end_outside;
use crate::tries::Turn;
use kt_base::{Clock, NoMemory};
use kt_disk::{Disk, Gate};
use kt_engine::{Engine, Pulse, Stats};
use kt_pick::Want;
use kt_seatlock::{Pass, SeatLock};
use std::alloc::Global;
use std::sync::Wait;
use std::thread::Parker;
use std::time::Duration;

/// A worker ends after so many jobs.
const MOST_JOBS: u32 = 1_048_576;

/// So many rows in memory, or changes of one rowset, make work: as many as the rules of kt_pick ask.
const MANY_ROWS: u32 = 8192;

const MANY_CHANGES: u32 = 4096;

/// A worker that has nothing to do looks no sooner than after so many milliseconds.
const NAP: u64 = 1;

// What a look finds.
#[derive(Drop)]
struct Found {
    /// The job of the first rule that applies, if one does.
    want: Option<Want>,
    /// Where none does, none applies before so many cells more are taken.
    leeway: u32,
}

// How many cells may be taken before a rule applies, where none does: each row and each change in memory takes one at least.
fn leeway(stats: &Stats) -> u32 {
    let rows = MANY_ROWS.saturating_sub(stats.mem_rows);
    let cells = stats.free.saturating_sub(stats.cells / 4);
    let mut changes = MANY_CHANGES;
    'rowsets: for stat in stats.rowsets.as_slice() {
        let fresh = stat.fresh.min(u64::from(MANY_CHANGES)) as u32;
        changes = changes.min(MANY_CHANGES - fresh);
    }
    rows.min(cells).min(changes).max(1)
}

// Counts what the stores hold, and picks by that.
fn look<L: Disk, D: Disk + Drop, C: Clock>(
    alloc: Global,
    engine: &Engine<L, D, C>,
) -> Result<Found, NoMemory>
    ensures { IfOk result (λ found. Picks engine.now found.want) }
{
    let stats = engine.stats(alloc)?;
    let leeway = leeway(&stats);
    Ok(Found {
        want: kt_pick::pick(stats),
        leeway,
    })
}

/// The job of the first rule of the maintenance policy that applies to the tablet, if one does.
pub fn pick<L: Disk, D: Disk + Drop, C: Clock>(
    alloc: Global,
    engine: &Engine<L, D, C>,
) -> Result<Option<Want>, NoMemory>
    ensures { IfOk result (Picks engine.now) }
{
    Ok(look(alloc, engine)?.want)
}

// What there was as a look found nothing, and how many cells may be taken before another one can find more.
#[derive(Clone, Copy)]
struct Watch {
    pulse: Pulse,
    leeway: u32,
}

// Whether a rule may apply now: where no look found nothing, where a job has begun or ended since the last that did, or where enough cells were taken.
fn is_due(watch: Option<Watch>, now: Pulse) -> bool {
    let Some(Watch { pulse, leeway }) = watch else {
        return true;
    };
    now.begun != pulse.begun
        || now.running != pulse.running
        || now.free.saturating_add(leeway) <= pulse.free
}

// How a turn of a worker ended.
#[derive(Clone, Copy, PartialEq, Eq)]
enum Step {
    /// It has run a job.
    Worked,
    /// What was picked has to wait after all, or there was nothing to do for it.
    Tried,
    /// There may be something to do once what is under way has ended. Nothing was changed.
    Busy,
    /// There is nothing to do. Nothing was changed.
    Idle,
    /// No session runs any more, the tablet has stopped, or there was no memory.
    Over,
}

impl Step {
    // Whether the visit may have changed the engine.
    fn changes(self) -> bool
        ensures { result ≡ false → (self ≡ Step.Busy) ⊎ (self ≡ Step.Idle) }
    {
        match self {
            Step::Worked | Step::Tried | Step::Over => true,
            Step::Busy | Step::Idle => false,
        }
    }
}

// Whether the visit of a turn may have changed the engine.
fn changes<D>(took: &Start<Step, D>) -> bool
    ensures { result ≡ false → (took.now ≡ start.Over Step.Busy) ⊎ (took.now ≡ start.Over Step.Idle) }
{
    match took {
        Start::Over(step) => step.changes(),
        Start::Out(_) => true,
    }
}

// Tries what was picked, in the visit in which it was. Where something is under way after all it is looked for again.
fn run_found<L: Disk, D: Disk + Drop, C: Clock>(
    alloc: Global,
    engine: &mut Engine<L, D, C>,
    by: u32,
    want: &Want,
    watch: &mut Option<Watch>,
) -> Start<Step, D>
    requires home { PassHasNone by engine.old }
    ensures visit { IsVisit by engine.old engine.new }
    ensures still { StandsAs by engine.old engine.new }
    ensures took { TookAs D.tells D.seen by engine.new result }
    ensures none { LeftNone by engine.old engine.new result }
    ensures tried { (result ≢ start.Over Step.Busy) × (result ≢ start.Over Step.Idle) }
    ensures worked { result ≢ start.Over Step.Worked }
{
    match start_now(alloc, engine, by, want) {
        Start::Out(out) => Start::Out(out),
        Start::Over(Turn::Nothing) => Start::Over(Step::Tried),
        Start::Over(Turn::Wait) => {
            *watch = None;
            Start::Over(Step::Tried)
        }
        Start::Over(Turn::Stopped | Turn::Memory) => Start::Over(Step::Over),
    }
}

// Looks where a rule may apply and nothing is under way, and begins the job of the first that does, which goes on outside.
fn turn<L: Disk, D: Disk + Drop, C: Clock>(
    alloc: Global,
    engine: &mut Engine<L, D, C>,
    by: u32,
    watch: &mut Option<Watch>,
) -> Start<Step, D>
    requires home { PassHasNone by engine.old }
    ensures visit { IsVisit by engine.old engine.new }
    ensures still { StandsAs by engine.old engine.new }
    ensures took { TookAs D.tells D.seen by engine.new result }
    ensures none { LeftNone by engine.old engine.new result }
    ensures same { (result ≡ start.Over Step.Busy) ⊎ (result ≡ start.Over Step.Idle) → engine.new ≡ engine.old }
    ensures worked { result ≢ start.Over Step.Worked }
{
    if engine.over() || engine.is_stopped() {
        return Start::Over(Step::Over);
    }
    let pulse = engine.pulse();
    if !is_due(*watch, pulse) {
        return Start::Over(Step::Idle);
    }
    if !engine.is_idle() {
        return Start::Over(Step::Busy);
    }
    let Ok(Found { want, leeway }) = look(alloc, engine) else {
        return Start::Over(Step::Over);
    };
    *watch = Some(Watch { pulse, leeway });
    match want {
        Some(want) => run_found(alloc, engine, by, &want, watch),
        None => Start::Over(Step::Idle),
    }
}

// Waits behind a turn without a job until another visit has ended, and where there was nothing to do a while longer: then no session has to wake it at each of
// its visits.
fn wait<L: Disk, D: Disk + Drop, C: Clock, R: Wait>(
    rt: &R,
    lock: &SeatLock<Engine<L, D, C>>,
    pass: &mut Pass<Engine<L, D, C>>,
    step: Step,
)
    requires own { IsPassOf lock.now pass.old }
    requires outside { IsOutside pass.old }
    ensures { IsSame pass.old pass.new }
{
    match step {
        Step::Worked | Step::Over => {}
        Step::Tried | Step::Busy => lock.rest(rt, pass),
        Step::Idle => {
            lock.rest(rt, pass);
            Parker::new().park_timeout(rt, Duration::from_millis(NAP));
        }
    }
}

// The rest of the job of this number, which went outside.
fn finish<L: Disk, D: Disk + Drop, C: Clock, R: Wait, G: Gate>(
    rt: &R,
    alloc: Global,
    lock: &SeatLock<Engine<L, D, C>>,
    pass: &mut Pass<Engine<L, D, C>>,
    out: Away<D>,
    job: u32,
    gate: &G,
) -> Step
    requires enters { MayEnter lock.now pass.old }
    requires away { HasAway D.tells D.seen (number pass.old) out (part pass.old) }
    ensures pass { IsBack pass.old pass.new }
    ensures still { StandsStill (part pass.old) (part pass.new) }
    ensures quiet { SeesOthers (number pass.old) (seen pass.old) (seen pass.new) }
    ensures home { HasNoDevice (part pass.new) }
    ensures none { HasNoJob (part pass.new) ⊎ (has_stop (seen pass.new) ≡ true) }
    ensures points { result ≡ Step.Worked → HasTold (G.came gate.now) job }
{
    match end_outside(rt, alloc, lock, pass, out, job, gate) {
        Ok(()) => Step::Worked,
        Err(_) => Step::Over,
    }
}

// One visit of a worker, and a rest behind it where it ran no job, or the rest of a job that went outside. Where it changed nothing it wakes nobody who rests.
fn take_step<L: Disk, D: Disk + Drop, C: Clock, R: Wait, G: Gate>(
    rt: &R,
    alloc: Global,
    lock: &SeatLock<Engine<L, D, C>>,
    pass: &mut Pass<Engine<L, D, C>>,
    watch: &mut Option<Watch>,
    gate: &G,
) -> Step
    requires enters { MayEnter lock.now pass.old }
    requires home { HasNoDevice (part pass.old) }
    ensures pass { IsBack pass.old pass.new }
    ensures still { StandsStill (part pass.old) (part pass.new) }
    ensures quiet { SeesOthers (number pass.old) (seen pass.old) (seen pass.new) }
    ensures home { HasNoDevice (part pass.new) }
    ensures none { LeavesNoJob (part pass.old) (part pass.new) (seen pass.new) }
    ensures points { result ≡ Step.Worked → (job : ℕ) × HasTold (G.came gate.now) job }
{
    let by = pass.number();
    let mut engine = lock.enter(rt, pass);
    let took = turn(alloc, &mut engine, by, watch);
    let job = engine.pulse().begun;
    // Its lines tell whether the tablet has stopped.
    engine.standing();
    lock.leave_as(pass, engine, changes(&took));
    match took {
        Start::Over(step) => {
            wait(rt, lock, pass, step);
            step
        }
        Start::Out(out) => finish(rt, alloc, lock, pass, out, job, gate),
    }
}

/// A worker: it picks a job and runs it, and rests where there is none. It looks again only where a rule may apply since the last look that
/// found nothing, and no sooner than after a millisecond. It ends once no session runs any more, where the tablet is stopped, after 1,048,576 jobs, or where
/// picking or a job meets want of memory. The gate is called at the points of each job, outside the lock.
pub fn work<L: Disk, D: Disk + Drop, C: Clock, R: Wait, G: Gate>(
    rt: &R,
    alloc: Global,
    lock: &SeatLock<Engine<L, D, C>>,
    pass: &mut Pass<Engine<L, D, C>>,
    gate: &G,
)
    requires enters { MayEnter lock.now pass.old }
    requires home { HasNoDevice (part pass.old) }
    ensures pass { IsBack pass.old pass.new }
    ensures still { StandsStill (part pass.old) (part pass.new) }
    ensures quiet { SeesOthers (number pass.old) (seen pass.old) (seen pass.new) }
    ensures home { HasNoDevice (part pass.new) }
    ensures none { LeavesNoJob (part pass.old) (part pass.new) (seen pass.new) }
{
    let mut watch = None;
    let mut jobs: u32 = 0;
    'steps: for _ in rt.forever() {
        let step = take_step(rt, alloc, lock, pass, &mut watch, gate);
        if step == Step::Worked {
            jobs = jobs.saturating_add(1);
        }
        if step == Step::Over || jobs == MOST_JOBS {
            return;
        }
    }
}
