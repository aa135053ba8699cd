//! The rows of a write that flies, and its end, by as few visits as the others may wait for.
ghost use Rattle.std.specs.Prelude.{◌≡◌, ◌≤◌, ℕ, Err, IfOk, List, OnErr, Some, false, length, true};
ghost use Rattle.kt_history.specs.declared.operation.RowOp.{RowOp};
ghost use Rattle.kt_seatlock.specs.Passes.{number, seen, part, MayEnter, IsBack};
ghost use Rattle.kt_tablet.specs.Views.{place_at};
ghost use Rattle.kt_engine.specs.Visits.{IsVisit};
ghost use Rattle.kt_serve.specs.Homes.{IsAppended, Returns};
ghost use Rattle.kt_serve.specs.Maintained.{KeepsUpkeep};
ghost use Rattle.kt_serve.specs.Sessions.{HasNoLog, IsFlying, IsGoing, IsNext, IsStill, SameRoot, OwnFlight, Applies, AppliedBy, AfterApply, AfterCommand, has_stop};

use crate::log::{Halt, make_durable};
use kt_base::Clock;
use kt_disk::Disk;
use kt_engine::laws::visit_law;
use kt_engine::{Engine, Stopped, WriteDone};
use kt_history::{Reply, Write};
use kt_loglaws::Batch;
use kt_seatlock::{Pass, SeatLock};
use std::alloc::Global;
use std::sync::Wait;

// How many rows a visit applies at most: others wait for the lock no longer than these take.
const ROWS_A_VISIT: usize = 16;

/// How far a visit brought a write.
#[derive(Drop)]
pub enum RowTurn {
    /// Its rows up to this one are applied.
    Applied(usize),
    /// All are, and it has ended.
    Ended(WriteDone),
    /// The REPLICATE is not durable yet.
    Early,
    Stopped,
}

// Applies the rows from `at` up to `to`, of a write whose REPLICATE is durable.
fn apply_part<L: Disk, D: Disk + Drop, C: Clock>(
    engine: &mut Engine<L, D, C>,
    by: u32,
    at: usize,
    to: usize,
)
    requires flies { (i ts : ℕ) × (ops : List RowOp) × OwnFlight engine.old by i ts ops at × (to ≤ length ops) }
    requires within { at ≤ to }
    requires goes { engine.old.tablet.core.stopped ≡ false }
    requires durable { (place : ℕ) × (place_at by engine.old.tablet.places ≡ Some place) × (place ≤ engine.old.log.known.count) }
    ensures applied { Applies engine.old engine.new by at to }
    ensures goes { engine.new.tablet.core.stopped ≡ false }
    ensures store { engine.new.store ≡ engine.old.store }
    ensures upkeep { engine.new.upkeep ≡ engine.old.upkeep }
{
    visit_law::<L, D, C>();
    for row in at..to {
        match engine.apply_row(by, row) {
            Ok(_) => {}
            Err(Stopped) => unreachable!(),
        }
    }
}

// Applies the next rows of a write of so many, if its REPLICATE is durable, and ends it once none is left.
fn go_on<L: Disk, D: Disk + Drop, C: Clock>(
    engine: &mut Engine<L, D, C>,
    by: u32,
    at: usize,
    count: usize,
) -> RowTurn
    requires flies { (i ts : ℕ) × (ops : List RowOp) × OwnFlight engine.old by i ts ops at × IsNext engine.old by i × (count ≡ length ops) }
    requires within { at ≤ count }
    ensures visit { IsVisit by engine.old engine.new }
    ensures store { engine.new.store ≡ engine.old.store }
    ensures upkeep { engine.new.upkeep ≡ engine.old.upkeep }
    ensures applied { AppliedBy engine.old engine.new by at count result }
{
    engine.standing();
    if engine.is_stopped() {
        return RowTurn::Stopped;
    }
    if engine.durable() < engine.place(by) {
        return RowTurn::Early;
    }
    let to = at + ROWS_A_VISIT.min(count - at);
    apply_part(engine, by, at, to);
    if to < count {
        return RowTurn::Applied(to);
    }
    visit_law::<L, D, C>();
    match engine.end(by) {
        Ok(done) => RowTurn::Ended(done),
        Err(Stopped) => unreachable!(),
    }
}

// One visit that brings the session's write on.
fn bring_on<L: Disk, D: Disk + Drop, C: Clock, R: Wait>(
    rt: &R,
    lock: &SeatLock<Engine<L, D, C>>,
    pass: &mut Pass<Engine<L, D, C>>,
    at: usize,
    write: &Write,
) -> RowTurn
    requires enters { MayEnter lock.now pass.old }
    requires flying { (i : ℕ) × IsFlying (part pass.old) (number pass.old) i write.now at }
    requires within { at ≤ length write.now.ops }
    requires home { HasNoLog (part pass.old) }
    ensures pass { IsBack pass.old pass.new }
    ensures upkeep { KeepsUpkeep (part pass.old) (part pass.new) }
    ensures home { HasNoLog (part pass.new) }
    ensures applied { AfterApply (part pass.old) (part pass.new) (seen pass.old) (seen pass.new) (number pass.old) write.now at result }
{
    let by = pass.number();
    let count = write.ops.len();
    let mut engine = lock.enter(rt, pass);
    engine.standing();
    let turn = go_on(&mut engine, by, at, count);
    lock.leave(pass, engine);
    turn
}

// One visit that brings the log home, whose batch is durable, and the session's write on.
fn bring_home<L: Disk, D: Disk + Drop, C: Clock, R: Wait>(
    rt: &R,
    lock: &SeatLock<Engine<L, D, C>>,
    pass: &mut Pass<Engine<L, D, C>>,
    batch: Batch<L>,
    at: usize,
    write: &Write,
) -> RowTurn
    requires enters { MayEnter lock.now pass.old }
    requires flying { (i : ℕ) × IsFlying (part pass.old) (number pass.old) i write.now at }
    requires within { at ≤ length write.now.ops }
    requires appended { Returns (IsAppended L.tells L.seen L.now L.leaves L.faults) (part pass.old) batch.journal }
    ensures pass { IsBack pass.old pass.new }
    ensures upkeep { KeepsUpkeep (part pass.old) (part pass.new) }
    ensures home { HasNoLog (part pass.new) }
    ensures applied { AfterApply (part pass.old) (part pass.new) (seen pass.old) (seen pass.new) (number pass.old) write.now at result }
{
    visit_law::<L, D, C>();
    let by = pass.number();
    let count = write.ops.len();
    let mut engine = lock.enter(rt, pass);
    engine.standing();
    engine.log_home(by, batch);
    let turn = go_on(&mut engine, by, at, count);
    lock.leave(pass, engine);
    turn
}

// One visit that brings the session's write on. Where its REPLICATE may not be durable it is made so before, and the visit brings the log home.
fn go_far<L: Disk, D: Disk + Drop, C: Clock, R: Wait>(
    rt: &R,
    alloc: Global,
    lock: &SeatLock<Engine<L, D, C>>,
    pass: &mut Pass<Engine<L, D, C>>,
    early: bool,
    at: usize,
    write: &Write,
) -> Result<RowTurn, Halt>
    requires enters { MayEnter lock.now pass.old }
    requires flying { (i : ℕ) × IsFlying (part pass.old) (number pass.old) i write.now at }
    requires within { at ≤ length write.now.ops }
    requires home { HasNoLog (part pass.old) }
    ensures pass { IsBack pass.old pass.new }
    ensures upkeep { KeepsUpkeep (part pass.old) (part pass.new) }
    ensures home { HasNoLog (part pass.new) }
    ensures applied { IfOk result (λ turn. AfterApply (part pass.old) (part pass.new) (seen pass.old) (seen pass.new) (number pass.old) write.now at turn) }
    ensures still { OnErr result (IsStill (number pass.old) (part pass.old) (part pass.new) (seen pass.old) (seen pass.new)) }
    ensures stopped { result ≡ Err Halt.Stopped → has_stop (seen pass.new) ≡ true }
{
    if !early {
        return Ok(bring_on(rt, lock, pass, at, write));
    }
    match make_durable(rt, alloc, lock, pass)? {
        Some(batch) => Ok(bring_home(rt, lock, pass, batch, at, write)),
        None => Ok(bring_on(rt, lock, pass, at, write)),
    }
}

/// Makes the REPLICATE of the session's write durable, applies its rows, ends it and answers it. Each visit brings it on, or finds that it has to wait for
/// the log. What the write held is freed once the engine is back.
pub fn finish_write<L: Disk, D: Disk + Drop, C: Clock, R: Wait>(
    rt: &R,
    alloc: Global,
    lock: &SeatLock<Engine<L, D, C>>,
    pass: &mut Pass<Engine<L, D, C>>,
    write: &Write,
) -> Result<Reply, Halt>
    requires enters { MayEnter lock.now pass.old }
    requires flying { (i : ℕ) × IsFlying (part pass.old) (number pass.old) i write.now 0 }
    requires home { HasNoLog (part pass.old) }
    ensures pass { IsBack pass.old pass.new }
    ensures upkeep { KeepsUpkeep (part pass.old) (part pass.new) }
    ensures home { HasNoLog (part pass.new) }
    ensures root { SameRoot (part pass.old) (part pass.new) }
    ensures reply { IfOk result (λ reply. (i : ℕ) → IsFlying (part pass.old) (number pass.old) i write.now 0 → AfterCommand (part pass.old) (part pass.new) (seen pass.old) (seen pass.new) (number pass.old) i reply) }
    ensures going { OnErr result (IsGoing (number pass.old) (part pass.old) (part pass.new) (seen pass.old) (seen pass.new)) }
    ensures stopped { result ≡ Err Halt.Stopped → has_stop (seen pass.new) ≡ true }
{
    let mut at = 0;
    let mut early = true;
    for _ in rt.forever() {
        match go_far(rt, alloc, lock, pass, early, at, write)? {
            RowTurn::Applied(to) => {
                at = to;
                early = false;
            }
            RowTurn::Ended(WriteDone { ts, outcomes, .. }) => {
                return Ok(Reply::At { ts, outcomes });
            }
            RowTurn::Early => early = true,
            RowTurn::Stopped => return Err(Halt::Stopped),
        }
    }
    unreachable!()
}
