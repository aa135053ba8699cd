//! The sessions of a plan at once, and workers beside them, each in a thread.
ghost use Rattle.std.specs.Prelude.{◌≡◌, ◌⊎◌, ◌+◌, ◌<◌, ◌≤◌, ℕ, [], IfOk, IfErr, Some, None, true, length, vec_capacity, slice_get};
ghost use Rattle.kt_history.specs.Machine.{nth, first_turns};
ghost use Rattle.kt_seatlock.specs.Passes.{number, seen, part, given, passes_of, IsVacant, IsPassOf, MayEnter, IsBack};
ghost use Rattle.kt_engine.specs.Visits.{root_of};
ghost use Rattle.kt_serve.specs.Maintained.{HasNoJob, StoreRests};
ghost use Rattle.kt_serve.specs.Points.{CameTo};
ghost use Rattle.kt_serve.specs.Scans.{IsOn};
ghost use Rattle.kt_serve.specs.Sessions.{OnRoot, HasLeft, HasNoLog, IsFresh, MayRun, has_stop};
ghost use Rattle.kt_serve.specs.Closing.{EndsAs};
ghost use Rattle.kt_serve.specs.Runs.{HasRunTo, PlaceHasRun, PlanRuns, AllEnded, HaveBegunRounds};

use crate::chores::Chores;
use crate::close::{Closing, End};
use crate::log::Halt;
use crate::places::{Place, join_all, split_all};
use crate::session::{SessionEnd, run_session};
use crate::tablet::SharedTablet;
use kt_base::Clock;
use kt_disk::{Disk, Gate};
use kt_engine::Engine;
use kt_history::{Command, Session};
use kt_schema::Schema;
use kt_seatlock::{Pass, SeatLock, Shared};
use std::alloc::{AllocError, Global};
use std::sync::Wait;
use std::thread;
use std::thread::Threads;

// Runs a session to its end.
fn run_one<L: Disk, D: Disk + Drop, C: Clock, R: Wait, G: Gate, H: Chores<L, D, C>>(
    rt: &R,
    alloc: Global,
    schema: &Schema,
    tablet: &SharedTablet<L, D, C>,
    commands: &[Command],
    gate: &G,
    chores: &H,
    place: &mut Place<Engine<L, D, C>>,
)
    requires enters { MayEnter tablet.now.lock place.old.pass }
    requires on { OnRoot (part place.old.pass) (λ root. IsOn schema.now root.work) }
    requires rests { StoreRests (part place.old.pass) }
    requires runs { MayRun (part place.old.pass) (seen place.old.pass) (number place.old.pass) commands.now }
    ensures pass { IsBack place.old.pass place.new.pass }
    ensures rests { StoreRests (part place.new.pass) }
    ensures none { HasNoJob (part place.old.pass) → HasNoJob (part place.new.pass) ⊎ (has_stop (seen place.new.pass) ≡ true) }
    ensures run { HasRunTo (CameTo G.came gate.now) (part place.old.pass) (part place.new.pass) (number place.old.pass) commands.now (seen place.new.pass) place.new.end }
{
    place.end = run_session(
        rt,
        alloc,
        schema,
        tablet,
        commands,
        &mut place.pass,
        gate,
        chores,
    );
}

// Runs a session to its end, and leaves the run.
fn run_and_leave<L: Disk, D: Disk + Drop, C: Clock, R: Wait, G: Gate, H: Chores<L, D, C>>(
    rt: &R,
    alloc: Global,
    schema: &Schema,
    tablet: &SharedTablet<L, D, C>,
    commands: &[Command],
    gate: &G,
    chores: &H,
    place: &mut Place<Engine<L, D, C>>,
)
    requires enters { MayEnter tablet.now.lock place.old.pass }
    requires on { OnRoot (part place.old.pass) (λ root. IsOn schema.now root.work) }
    requires rests { StoreRests (part place.old.pass) }
    requires runs { MayRun (part place.old.pass) (seen place.old.pass) (number place.old.pass) commands.now }
    ensures pass { IsBack place.old.pass place.new.pass }
    ensures rests { StoreRests (part place.new.pass) }
    ensures left { HasLeft (part place.new.pass) }
    ensures home { HasNoLog (part place.new.pass) }
    ensures none { HasNoJob (part place.old.pass) → HasNoJob (part place.new.pass) ⊎ (has_stop (seen place.new.pass) ≡ true) }
    ensures run { HasRunTo (CameTo G.came gate.now) (part place.old.pass) (part place.new.pass) (number place.old.pass) commands.now (seen place.new.pass) place.new.end }
{
    run_one(rt, alloc, schema, tablet, commands, gate, chores, place);
    tablet.leave_run(rt, &mut place.pass);
}

// Runs jobs until no session runs any more, and leaves the run.
fn work_and_leave<L: Disk, D: Disk + Drop, C: Clock, R: Wait, H: Chores<L, D, C>>(
    rt: &R,
    alloc: Global,
    tablet: &SharedTablet<L, D, C>,
    chores: &H,
    pass: &mut Pass<Engine<L, D, C>>,
)
    requires enters { MayEnter tablet.now.lock pass.old }
    requires rests { StoreRests (part pass.old) }
    requires idle { HasNoLog (part pass.old) }
    ensures pass { IsBack pass.old pass.new }
    ensures rests { StoreRests (part pass.new) }
    ensures none { HasNoJob (part pass.old) → HasNoJob (part pass.new) ⊎ (has_stop (seen pass.new) ≡ true) }
    ensures left { HasLeft (part pass.new) }
    ensures home { HasNoLog (part pass.new) }
{
    chores.work(rt, alloc, &tablet.lock, pass);
    tablet.leave_run(rt, pass);
}

// Runs the session of this place to its end, or the worker of a place behind the sessions'.
fn run_place<L: Disk, D: Disk + Drop, C: Clock, R: Wait, G: Gate, H: Chores<L, D, C>>(
    rt: &R,
    alloc: Global,
    schema: &Schema,
    tablet: &SharedTablet<L, D, C>,
    plan: &[Session],
    gate: &G,
    chores: &H,
    at: usize,
    place: &mut Place<Engine<L, D, C>>,
)
    requires enters { MayEnter tablet.now.lock place.old.pass }
    requires on { OnRoot (part place.old.pass) (λ root. IsOn schema.now root.work) }
    requires rests { StoreRests (part place.old.pass) }
    requires idle { HasNoLog (part place.old.pass) }
    requires runs { (commands : _) → slice_get plan.now at ≡ Some commands → MayRun (part place.old.pass) (seen place.old.pass) (number place.old.pass) commands }
    ensures { PlaceHasRun (CameTo G.came gate.now) plan.now at place.old place.new }
{
    if at < plan.len() {
        run_and_leave(
            rt,
            alloc,
            schema,
            tablet,
            plan[at].as_slice(),
            gate,
            chores,
            place,
        );
    } else {
        work_and_leave(rt, alloc, tablet, chores, &mut place.pass);
    }
}

// Runs all sessions and the workers behind them at once, each in a thread of its own where one can be made.
fn run_all<
    L: Disk + Send,
    D: Disk + Drop + Send,
    C: Clock + Send,
    R: Threads + Wait + Sync,
    G: Gate + Sync,
    H: Chores<L, D, C> + Sync,
>(
    rt: &R,
    alloc: Global,
    schema: &Schema,
    tablet: &SharedTablet<L, D, C>,
    plan: &[Session],
    gate: &G,
    chores: &H,
    places: &mut [Place<Engine<L, D, C>>],
)
    requires enters { (j : ℕ) (p : _) → slice_get places.old j ≡ Some p → MayEnter tablet.now.lock p.pass }
    requires on { (j : ℕ) (p : _) → slice_get places.old j ≡ Some p → OnRoot (part p.pass) (λ root. IsOn schema.now root.work) }
    requires rests { (j : ℕ) (p : _) → slice_get places.old j ≡ Some p → StoreRests (part p.pass) }
    requires idle { (j : ℕ) (p : _) → slice_get places.old j ≡ Some p → HasNoLog (part p.pass) }
    requires runs { (j : ℕ) (p : _) → slice_get places.old j ≡ Some p → (commands : _) → slice_get plan.now j ≡ Some commands → MayRun (part p.pass) (seen p.pass) (number p.pass) commands }
    ensures { (j : ℕ) (p : _) → slice_get places.old j ≡ Some p → (q : _) × (slice_get places.new j ≡ Some q) × PlaceHasRun (CameTo G.came gate.now) plan.now j p q }
{
    let threads = places.len();
    if threads > 0 {
        thread::for_each_mut(
            rt,
            places,
            threads,
            &|at, place| run_place(rt, alloc, schema, tablet, plan, gate, chores, at, place),
        );
    }
}

// Room for so many places and ends.
fn rooms<T: Shared>(
    alloc: Global,
    count: usize,
) -> Result<(Vec<Place<T>>, Vec<SessionEnd>), AllocError>
    ensures places { IfOk result (λ r. (r.0.items ≡ []) × (count ≤ vec_capacity r.0)) }
    ensures ends { IfOk result (λ r. (r.1.items ≡ []) × (count ≤ vec_capacity r.1)) }
{
    Ok((
        Vec::with_capacity(alloc, count)?,
        Vec::with_capacity(alloc, count)?,
    ))
}

// Runs all sessions, and so many workers, over the engine in this lock, and gives what each session ended with, and what the run leaves.
fn run_locked<
    L: Disk + Send,
    D: Disk + Drop + Send,
    C: Clock + Send,
    R: Threads + Wait + Sync,
    G: Gate + Sync,
    H: Chores<L, D, C> + Sync,
>(
    rt: &R,
    alloc: Global,
    schema: &Schema,
    lock: SeatLock<Engine<L, D, C>>,
    mut pass: Pass<Engine<L, D, C>>,
    engine: Engine<L, D, C>,
    plan: &[Session],
    workers: u32,
    gate: &G,
    chores: &H,
) -> Result<(Vec<SessionEnd>, Closing<L, D, C>), Engine<L, D, C>>
    requires own { IsPassOf lock pass × IsVacant pass × (given pass ≡ 1) × (number pass ≡ 0) }
    requires passes { length plan.now + workers < passes_of lock }
    requires fresh { IsFresh engine }
    requires on { IsOn schema.now engine.tablet.core.work }
    requires plan { (engine.tablet.core.work.plan ≡ plan.now) × (engine.tablet.core.turns ≡ first_turns plan.now) }
    requires runs { PlanRuns plan.now }
    ensures root { IfOk result (λ r. root_of r.1.engine ≡ root_of engine) }
    ensures home { IfOk result (λ r. r.1.engine.log.holder ≡ None) }
    ensures store_home { IfOk result (λ r. r.1.engine.store.holder ≡ None) }
    ensures ended { IfOk result (λ r. AllEnded (CameTo G.came gate.now) (root_of engine) plan.now r.1.engine.tablet.core.trail r.0.items) }
    ensures rounds { IfOk result (λ r. HaveBegunRounds plan.now r.0.items r.1.engine) }
    ensures ends { IfOk result (λ r. EndsAs r.1.engine r.1.end) }
    ensures back { IfErr result (λ e. e ≡ engine) }
{
    let sessions = plan.len();
    let count = sessions + workers as usize;
    let Ok((mut places, ends)) = rooms(alloc, count) else {
        lock.unmake(pass);
        return Err(engine);
    };
    lock.fill(&mut pass, engine);
    split_all(alloc, &lock, &mut pass, count, &mut places);
    let tablet = SharedTablet::of(lock);
    run_all(rt, alloc, schema, &tablet, plan, gate, chores, &mut places);
    let mut ends = join_all(&tablet.lock, &mut pass, places, ends);
    ends.truncate(sessions);
    let closing = tablet.close(alloc, pass);
    Ok((ends, closing))
}

/// What a run of all sessions leaves.
#[derive(Drop)]
pub struct Ran<L: Disk, D: Disk, C: Clock> {
    /// What each session ended with, in the order of their numbers.
    pub ends: Vec<SessionEnd>,
    pub end: End,
    pub engine: Engine<L, D, C>,
}

/// Runs the sessions of a plan at once over an engine in which nothing has happened yet, and so many workers beside them, each by a pass of its own in a
/// thread of its own where one can be made, makes durable what then still waits for the log, and publishes a superblock. For every schedule, each
/// session has the replies that the engine's lines tell it, and no other, and has begun a round of maintenance at least for each command that asked for it. Where there was no memory for the passes, nothing
/// was run, and the engine comes back.
pub fn run_sessions<
    L: Disk + Send,
    D: Disk + Drop + Send,
    C: Clock + Send,
    R: Threads + Wait + Sync,
    G: Gate + Sync,
    H: Chores<L, D, C> + Sync,
>(
    rt: &R,
    alloc: Global,
    schema: &Schema,
    lock: SeatLock<Engine<L, D, C>>,
    pass: Pass<Engine<L, D, C>>,
    engine: Engine<L, D, C>,
    plan: &[Session],
    workers: u32,
    gate: &G,
    chores: &H,
) -> Result<Ran<L, D, C>, Engine<L, D, C>>
    requires own { IsPassOf lock pass × IsVacant pass × (given pass ≡ 1) × (number pass ≡ 0) }
    requires passes { length plan.now + workers < passes_of lock }
    requires fresh { IsFresh engine }
    requires on { IsOn schema.now engine.tablet.core.work }
    requires plan { (engine.tablet.core.work.plan ≡ plan.now) × (engine.tablet.core.turns ≡ first_turns plan.now) }
    requires runs { PlanRuns plan.now }
    ensures root { IfOk result (λ ran. root_of ran.engine ≡ root_of engine) }
    ensures home { IfOk result (λ ran. ran.engine.log.holder ≡ None) }
    ensures store_home { IfOk result (λ ran. ran.engine.store.holder ≡ None) }
    ensures ended { IfOk result (λ ran. AllEnded (CameTo G.came gate.now) (root_of engine) plan.now ran.engine.tablet.core.trail ran.ends.items) }
    ensures rounds { IfOk result (λ ran. HaveBegunRounds plan.now ran.ends.items ran.engine) }
    ensures ends { IfOk result (λ ran. EndsAs ran.engine ran.end) }
    ensures halted { IfOk result (λ ran. (s : ℕ) (end : _) → nth ran.ends.items s ≡ Some end → end.halt ≡ Some Halt.Stopped → ran.end ≡ End.Stopped) }
    ensures back { IfErr result (λ e. e ≡ engine) }
{
    match run_locked(
        rt, alloc, schema, lock, pass, engine, plan, workers, gate, chores,
    ) {
        Ok((ends, closing)) => {
            let Closing { engine, end } = closing;
            Ok(Ran { ends, end, engine })
        }
        Err(engine) => Err(engine),
    }
}
