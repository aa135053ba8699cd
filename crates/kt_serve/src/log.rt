//! The log, taken out by a pass, appended to outside the lock, and brought home.
ghost use Rattle.std.specs.Prelude.{◌≡◌, ℕ, Err, List, true, IfOk, OnErr, MatchOption};
ghost use Rattle.kt_history.specs.declared.operation.RowOp.{RowOp};
ghost use Rattle.kt_seatlock.specs.Passes.{number, seen, part, MayEnter, IsBack};
ghost use Rattle.kt_engine.specs.Engines.{IsLent};
ghost use Rattle.kt_engine.specs.Visits.{IsVisit};
ghost use Rattle.kt_serve.specs.Homes.{IsAppended, Returns};
ghost use Rattle.kt_serve.specs.Maintained.{KeepsUpkeep};
ghost use Rattle.kt_serve.specs.Sessions.{Flies, LentBy, IsAloft, HasNoLog, HasLog, IsStill, AfterTurn, changes, has_stop};

use crate::home::{emptied, take_back, take_broken};
use kt_base::Clock;
use kt_disk::Disk;
use kt_engine::{Engine, LogNo};
use kt_journal::AppendNo;
use kt_loglaws::Batch;
use kt_seatlock::{Pass, SeatLock};
use std::alloc::Global;
use std::sync::Wait;

/// Why a command has no reply.
#[derive(Clone, Copy, PartialEq, Eq)]
pub enum Halt {
    /// A device has failed.
    Stopped,
    /// There was no memory.
    Memory,
}

/// How the log stands for a write.
#[derive(Drop)]
pub enum LogTurn<L: Disk> {
    /// Its REPLICATE is durable.
    Durable,
    /// The log is out to this pass.
    Append(Batch<L>),
    /// Another pass has it.
    Wait,
    Stopped,
    Memory,
}

impl<L: Disk> LogTurn<L> {
    // Whether the visit may have changed the engine.
    fn changes(&self) -> bool
        ensures { result ≡ changes self.now }
    {
        matches!(self, LogTurn::Append(_))
    }
}

// Lends the log, unless the REPLICATE of the session's write is durable.
fn lend<L: Disk, D: Disk + Drop, C: Clock>(
    alloc: Global,
    engine: &mut Engine<L, D, C>,
    by: u32,
) -> LogTurn<L>
    requires { Flies engine.old by }
    ensures visit { IsVisit by engine.old engine.new }
    ensures tablet { engine.new.tablet ≡ engine.old.tablet }
    ensures store { engine.new.store ≡ engine.old.store }
    ensures upkeep { engine.new.upkeep ≡ engine.old.upkeep }
    ensures turn { LentBy (IsLent L.tells L.seen L.now L.leaves) engine.old engine.new by result }
{
    engine.standing();
    if engine.is_stopped() {
        return LogTurn::Stopped;
    }
    if engine.place(by) <= engine.durable() {
        return LogTurn::Durable;
    }
    match engine.log_out(alloc, by) {
        Ok(batch) => LogTurn::Append(batch),
        Err(LogNo::Stopped) => unreachable!(),
        Err(LogNo::Out { by: _ }) => LogTurn::Wait,
        Err(LogNo::Empty) => unreachable!(),
        Err(LogNo::Memory) => LogTurn::Memory,
    }
}

// Asks for the log, unless the REPLICATE of the session's write is durable.
fn ask_log<L: Disk, D: Disk + Drop, C: Clock, R: Wait>(
    rt: &R,
    alloc: Global,
    lock: &SeatLock<Engine<L, D, C>>,
    pass: &mut Pass<Engine<L, D, C>>,
) -> LogTurn<L>
    requires enters { MayEnter lock.now pass.old }
    requires aloft { (i ts n : ℕ) × (ops : List RowOp) × IsAloft (part pass.old) (number pass.old) i ts ops n }
    requires home { HasNoLog (part pass.old) }
    ensures pass { IsBack pass.old pass.new }
    ensures upkeep { KeepsUpkeep (part pass.old) (part pass.new) }
    ensures still { IsStill (number pass.old) (part pass.old) (part pass.new) (seen pass.old) (seen pass.new) }
    ensures turn { AfterTurn (IsLent L.tells L.seen L.now L.leaves) (part pass.new) (seen pass.new) result }
{
    let by = pass.number();
    let mut engine = lock.enter(rt, pass);
    engine.standing();
    let turn = lend(alloc, &mut engine, by);
    lock.leave_as(pass, engine, turn.changes());
    turn
}

// Appends the batch, whose log stays out to the pass. Where that does not come about the log is brought home.
fn append<L: Disk, D: Disk + Drop, C: Clock, R: Wait>(
    rt: &R,
    alloc: Global,
    lock: &SeatLock<Engine<L, D, C>>,
    pass: &mut Pass<Engine<L, D, C>>,
    mut batch: Batch<L>,
) -> Result<Batch<L>, Halt>
    requires enters { MayEnter lock.now pass.old }
    requires lent { HasLog (part pass.old) batch.journal batch.records }
    requires ready { IsLent L.tells L.seen L.now L.leaves batch.journal batch.records }
    ensures pass { IsBack pass.old pass.new }
    ensures upkeep { KeepsUpkeep (part pass.old) (part pass.new) }
    ensures still { IsStill (number pass.old) (part pass.old) (part pass.new) (seen pass.old) (seen pass.new) }
    ensures appended { IfOk result (λ batch. Returns (IsAppended L.tells L.seen L.now L.leaves L.faults) (part pass.new) batch.journal) }
    ensures home { OnErr result (HasNoLog (part pass.new)) }
    ensures stopped { result ≡ Err Halt.Stopped → has_stop (seen pass.new) ≡ true }
{
    match batch.journal.append_batch(alloc, &batch.records) {
        Ok(()) => {
            batch.records = emptied(batch.records);
            Ok(batch)
        }
        Err(AppendNo::Memory) => {
            take_back(rt, lock, pass, batch);
            Err(Halt::Memory)
        }
        Err(AppendNo::Fault) => {
            take_broken(rt, lock, pass, batch);
            Err(Halt::Stopped)
        }
    }
}

/// Makes the REPLICATE of the session's write durable: this pass does it, and then has the log, which its next visit is to bring home; or it waits for the
/// pass that has it. A visit that only asks wakes nobody who rests.
pub fn make_durable<L: Disk, D: Disk + Drop, C: Clock, R: Wait>(
    rt: &R,
    alloc: Global,
    lock: &SeatLock<Engine<L, D, C>>,
    pass: &mut Pass<Engine<L, D, C>>,
) -> Result<Option<Batch<L>>, Halt>
    requires enters { MayEnter lock.now pass.old }
    requires aloft { (i ts n : ℕ) × (ops : List RowOp) × IsAloft (part pass.old) (number pass.old) i ts ops n }
    requires home { HasNoLog (part pass.old) }
    ensures pass { IsBack pass.old pass.new }
    ensures upkeep { KeepsUpkeep (part pass.old) (part pass.new) }
    ensures still { IsStill (number pass.old) (part pass.old) (part pass.new) (seen pass.old) (seen pass.new) }
    ensures appended { IfOk result (λ home. MatchOption home (HasNoLog (part pass.new)) (λ batch. Returns (IsAppended L.tells L.seen L.now L.leaves L.faults) (part pass.new) batch.journal)) }
    ensures home { OnErr result (HasNoLog (part pass.new)) }
    ensures stopped { result ≡ Err Halt.Stopped → has_stop (seen pass.new) ≡ true }
{
    for _ in rt.forever() {
        match ask_log(rt, alloc, lock, pass) {
            LogTurn::Durable => return Ok(None),
            LogTurn::Append(batch) => return Ok(Some(append(rt, alloc, lock, pass, batch)?)),
            LogTurn::Wait => lock.rest(rt, pass),
            LogTurn::Stopped => return Err(Halt::Stopped),
            LogTurn::Memory => return Err(Halt::Memory),
        }
    }
    unreachable!()
}
