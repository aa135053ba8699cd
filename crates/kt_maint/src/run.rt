//! Calls for one job, each in two visits of the lock.
ghost use Rattle.std.specs.Prelude.{◌≡◌, ℕ, false, [], None, Some, Ok, OnOk};
ghost use Rattle.kt_seatlock.specs.Passes.{number, seen, part, got, MayEnter, IsBack, IsSamePass, IsAsFull};
ghost use Rattle.kt_pick.specs.declared.rules.Want.TheVariants as want;
ghost use Rattle.kt_engine.specs.Calls.{SeesOthers, HasNoDevice, StandsStill};
ghost use Rattle.kt_engine.specs.Visits.{part_in};
ghost use Rattle.kt_maint.specs.Calls.{AfterCall, AfterEnd, AfterStart, ComesTo, HasAway, ran_of};
ghost use Rattle.kt_maint.specs.Points.{HasTold};

use crate::endings::end_away;
use crate::jobs::{Start, start_now};
use crate::points::{tell_ended, tell_written};
use crate::reworking::{Away, Came, work_outside};
use crate::tries::Turn;
use kt_base::Clock;
use kt_disk::{Disk, Gate, Point};
use kt_engine::upkeep::copy_ids;
use kt_engine::{Engine, MaintNo};
use kt_pick::Want;
use kt_policy::IdList;
use kt_seatlock::{Pass, SeatLock};
use std::alloc::Global;
use std::sync::Wait;

/// How a call for a job ended.
#[derive(Clone, Copy, PartialEq, Eq)]
pub enum Ran {
    /// The job is done.
    Done,
    /// There was nothing to do.
    Nothing,
}

// Whether something is under way that another pass has, and that ends in a visit of that pass.
fn is_held<L: Disk, D: Disk + Drop, C: Clock>(engine: &Engine<L, D, C>) -> bool {
    !engine.is_stopped() && !engine.is_idle()
}

// One visit that tries a job, or begins one that goes on outside, and tells the number of the last job that has begun. Where it has to wait for what another pass
// has, it wakes nobody who rests.
fn try_job<L: Disk, D: Disk + Drop, C: Clock, R: Wait>(
    rt: &R,
    alloc: Global,
    lock: &SeatLock<Engine<L, D, C>>,
    pass: &mut Pass<Engine<L, D, C>>,
    want: &Want,
    job: &mut u32,
) -> Start<Turn, D>
    requires enters { MayEnter lock.now pass.old }
    requires home { HasNoDevice (part pass.old) }
    ensures pass { IsBack pass.old pass.new }
    ensures still { StandsStill (part pass.old) (part pass.new) }
    ensures quiet { SeesOthers (number pass.old) (seen pass.old) (seen pass.new) }
    ensures start { AfterStart D.tells D.seen (number pass.old) want.now (part pass.old) (part pass.new) (seen pass.new) result }
{
    let by = pass.number();
    let mut engine = lock.enter(rt, pass);
    if is_held(&engine) {
        lock.leave_same(pass, engine);
        return Start::Over(Turn::Wait);
    }
    let start = start_now(alloc, &mut engine, by, want);
    *job = engine.pulse().begun;
    // Its lines tell whether the tablet has stopped.
    engine.standing();
    lock.leave(pass, engine);
    start
}

// Enters the lock once nothing flies and the log is at home, or the tablet has stopped. Where it has to wait it wakes nobody who rests.
fn enter_quiet<L: Disk, D: Disk + Drop, C: Clock, R: Wait>(
    rt: &R,
    lock: &SeatLock<Engine<L, D, C>>,
    pass: &mut Pass<Engine<L, D, C>>,
) -> Engine<L, D, C>
    requires enters { MayEnter lock.now pass.old }
    ensures pass { IsSamePass pass.old pass.new × IsAsFull pass.old pass.new }
    ensures got { (got pass.new ≡ Some result) × (seen pass.new ≡ result.tablet.core.trail) }
    ensures trail { SeesOthers (number pass.old) (seen pass.old) result.tablet.core.trail }
    ensures part { (part pass.old ≡ Some (part_in result (number pass.old))) × (part pass.new ≡ part pass.old) }
    ensures quiet { result.tablet.core.stopped ≡ false → (result.tablet.core.aloft ≡ []) × (result.log.holder ≡ None) }
{
    'visits: for _ in rt.forever() {
        let engine = lock.enter(rt, pass);
        if engine.is_stopped() || engine.is_quiet() {
            return engine;
        }
        lock.leave_same(pass, engine);
        lock.rest(rt, pass);
    }
    unreachable!()
}

/// The last visit of a job of this pass that was outside the lock, with what was written there.
pub fn end_job<L: Disk, D: Disk + Drop, C: Clock, R: Wait>(
    rt: &R,
    alloc: Global,
    lock: &SeatLock<Engine<L, D, C>>,
    pass: &mut Pass<Engine<L, D, C>>,
    came: Came<D>,
) -> Result<(), MaintNo>
    requires enters { MayEnter lock.now pass.old }
    requires comes { ComesTo D.tells D.seen D.now D.leaves D.faults (number pass.old) came (part pass.old) }
    ensures pass { IsBack pass.old pass.new }
    ensures still { StandsStill (part pass.old) (part pass.new) }
    ensures quiet { SeesOthers (number pass.old) (seen pass.old) (seen pass.new) }
    ensures end { AfterEnd (part pass.old) (part pass.new) (seen pass.new) result }
{
    let by = pass.number();
    let mut engine = enter_quiet(rt, lock, pass);
    let ended = end_away(alloc, &mut engine, by, came);
    // Its lines tell whether the tablet has stopped.
    engine.standing();
    lock.leave(pass, engine);
    ended
}

/// What a job of this pass does outside the lock, and its last visit. The gate is called behind either, for the job of that number.
pub fn end_outside<L: Disk, D: Disk + Drop, C: Clock, R: Wait, G: Gate>(
    rt: &R,
    alloc: Global,
    lock: &SeatLock<Engine<L, D, C>>,
    pass: &mut Pass<Engine<L, D, C>>,
    out: Away<D>,
    job: u32,
    gate: &G,
) -> Result<(), MaintNo>
    requires enters { MayEnter lock.now pass.old }
    requires away { HasAway D.tells D.seen (number pass.old) out (part pass.old) }
    ensures pass { IsBack pass.old pass.new }
    ensures still { StandsStill (part pass.old) (part pass.new) }
    ensures quiet { SeesOthers (number pass.old) (seen pass.old) (seen pass.new) }
    ensures end { AfterEnd (part pass.old) (part pass.new) (seen pass.new) result }
    ensures written { G.came gate.now (Point.PhaseOne job) }
    ensures done { OnOk result (HasTold (G.came gate.now) job) }
{
    let came = work_outside(alloc, out);
    tell_written(gate, job);
    let ended = end_job(rt, alloc, lock, pass, came);
    tell_ended(gate, job, &ended);
    ended
}

// How a call ended whose job went outside.
fn answer(ended: Result<(), MaintNo>) -> Result<Ran, MaintNo>
    ensures { result ≡ ran_of ended }
{
    match ended {
        Ok(()) => Ok(Ran::Done),
        Err(no) => Err(no),
    }
}

/// Runs a job for a want in two visits, between which it writes outside the lock. It waits until nothing is under way. For want of memory nothing is changed but that the rows in memory are frozen. A pass that has a job
/// is answered as for want of memory. The gate is called at the points of the job, outside the lock.
pub fn run_job<L: Disk, D: Disk + Drop, C: Clock, R: Wait, G: Gate>(
    rt: &R,
    alloc: Global,
    lock: &SeatLock<Engine<L, D, C>>,
    pass: &mut Pass<Engine<L, D, C>>,
    want: &Want,
    gate: &G,
) -> Result<Ran, MaintNo>
    requires enters { MayEnter lock.now pass.old }
    requires home { HasNoDevice (part pass.old) }
    ensures pass { IsBack pass.old pass.new }
    ensures still { StandsStill (part pass.old) (part pass.new) }
    ensures quiet { SeesOthers (number pass.old) (seen pass.old) (seen pass.new) }
    ensures call { AfterCall want.now (part pass.old) (part pass.new) (seen pass.new) result }
    ensures points { result ≡ Ok Ran.Done → (job : ℕ) × HasTold (G.came gate.now) job }
{
    'tries: for _ in rt.forever() {
        let mut job = 0;
        match try_job(rt, alloc, lock, pass, want, &mut job) {
            Start::Over(Turn::Nothing) => return Ok(Ran::Nothing),
            Start::Over(Turn::Stopped) => return Err(MaintNo::Stopped),
            Start::Over(Turn::Memory) => return Err(MaintNo::Memory),
            Start::Over(Turn::Wait) => lock.rest(rt, pass),
            Start::Out(out) => {
                return answer(end_outside(rt, alloc, lock, pass, out, job, gate));
            }
        }
    }
    unreachable!()
}

/// Freezes the rows in memory and writes all that are frozen as disk rowsets.
pub fn run_flush<L: Disk, D: Disk + Drop, C: Clock, R: Wait, G: Gate>(
    rt: &R,
    alloc: Global,
    lock: &SeatLock<Engine<L, D, C>>,
    pass: &mut Pass<Engine<L, D, C>>,
    gate: &G,
) -> Result<Ran, MaintNo>
    requires enters { MayEnter lock.now pass.old }
    requires home { HasNoDevice (part pass.old) }
    ensures pass { IsBack pass.old pass.new }
    ensures still { StandsStill (part pass.old) (part pass.new) }
    ensures quiet { SeesOthers (number pass.old) (seen pass.old) (seen pass.new) }
    ensures call { AfterCall want.Flush (part pass.old) (part pass.new) (seen pass.new) result }
    ensures points { result ≡ Ok Ran.Done → (job : ℕ) × HasTold (G.came gate.now) job }
{
    run_job(rt, alloc, lock, pass, &Want::Flush, gate)
}

/// Writes the changes that are in memory of a disk rowset as a REDO file of it. Its other files stay.
pub fn run_dms_flush<L: Disk, D: Disk + Drop, C: Clock, R: Wait, G: Gate>(
    rt: &R,
    alloc: Global,
    lock: &SeatLock<Engine<L, D, C>>,
    pass: &mut Pass<Engine<L, D, C>>,
    rowset: u64,
    gate: &G,
) -> Result<Ran, MaintNo>
    requires enters { MayEnter lock.now pass.old }
    requires home { HasNoDevice (part pass.old) }
    ensures pass { IsBack pass.old pass.new }
    ensures still { StandsStill (part pass.old) (part pass.new) }
    ensures quiet { SeesOthers (number pass.old) (seen pass.old) (seen pass.new) }
    ensures call { AfterCall (want.FlushDeltas rowset) (part pass.old) (part pass.new) (seen pass.new) result }
    ensures points { result ≡ Ok Ran.Done → (job : ℕ) × HasTold (G.came gate.now) job }
{
    run_job(rt, alloc, lock, pass, &Want::FlushDeltas(rowset), gate)
}

/// Makes one REDO file of all changes of a disk rowset, those in memory too. Its base and UNDO files stay.
pub fn run_minor<L: Disk, D: Disk + Drop, C: Clock, R: Wait, G: Gate>(
    rt: &R,
    alloc: Global,
    lock: &SeatLock<Engine<L, D, C>>,
    pass: &mut Pass<Engine<L, D, C>>,
    rowset: u64,
    gate: &G,
) -> Result<Ran, MaintNo>
    requires enters { MayEnter lock.now pass.old }
    requires home { HasNoDevice (part pass.old) }
    ensures pass { IsBack pass.old pass.new }
    ensures still { StandsStill (part pass.old) (part pass.new) }
    ensures quiet { SeesOthers (number pass.old) (seen pass.old) (seen pass.new) }
    ensures call { AfterCall (want.Minor rowset) (part pass.old) (part pass.new) (seen pass.new) result }
    ensures points { result ≡ Ok Ran.Done → (job : ℕ) × HasTold (G.came gate.now) job }
{
    run_job(rt, alloc, lock, pass, &Want::Minor(rowset), gate)
}

/// Folds all changes of a disk rowset into its base rows, those in memory too, so that at most one REDO file is left, of deletes. Its UNDO files
/// stay, and one more at most is written.
pub fn run_major<L: Disk, D: Disk + Drop, C: Clock, R: Wait, G: Gate>(
    rt: &R,
    alloc: Global,
    lock: &SeatLock<Engine<L, D, C>>,
    pass: &mut Pass<Engine<L, D, C>>,
    rowset: u64,
    gate: &G,
) -> Result<Ran, MaintNo>
    requires enters { MayEnter lock.now pass.old }
    requires home { HasNoDevice (part pass.old) }
    ensures pass { IsBack pass.old pass.new }
    ensures still { StandsStill (part pass.old) (part pass.new) }
    ensures quiet { SeesOthers (number pass.old) (seen pass.old) (seen pass.new) }
    ensures call { AfterCall (want.Major rowset) (part pass.old) (part pass.new) (seen pass.new) result }
    ensures points { result ≡ Ok Ran.Done → (job : ℕ) × HasTold (G.came gate.now) job }
{
    run_job(rt, alloc, lock, pass, &Want::Major(rowset), gate)
}

/// Merges disk rowsets into new ones, with all changes of them in memory, and joins the histories of each key. It takes memory for a copy of the list.
pub fn run_compact<L: Disk, D: Disk + Drop, C: Clock, R: Wait, G: Gate>(
    rt: &R,
    alloc: Global,
    lock: &SeatLock<Engine<L, D, C>>,
    pass: &mut Pass<Engine<L, D, C>>,
    rowsets: &IdList,
    gate: &G,
) -> Result<Ran, MaintNo>
    requires enters { MayEnter lock.now pass.old }
    requires home { HasNoDevice (part pass.old) }
    ensures pass { IsBack pass.old pass.new }
    ensures still { StandsStill (part pass.old) (part pass.new) }
    ensures quiet { SeesOthers (number pass.old) (seen pass.old) (seen pass.new) }
    ensures call { AfterCall (want.Compact rowsets.now) (part pass.old) (part pass.new) (seen pass.new) result }
    ensures points { result ≡ Ok Ran.Done → (job : ℕ) × HasTold (G.came gate.now) job }
{
    let Ok(rowsets) = copy_ids(alloc, rowsets) else {
        return Err(MaintNo::Memory);
    };
    run_job(rt, alloc, lock, pass, &Want::Compact(rowsets), gate)
}
