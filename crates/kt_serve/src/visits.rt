//! Single visits of a pass.
ghost use Rattle.std.specs.Prelude.{◌≡◌, ◌≢◌, ◌<◌, ◌+◌, ◌^◌, ℕ, List, Ok, Err, Some, IfOk, OnOk, OnErr, true, false};
ghost use Rattle.kt_history.specs.declared.change.Outcome.{Outcome};
ghost use Rattle.kt_history.specs.declared.command.Command.{Command};
ghost use Rattle.kt_seatlock.specs.Passes.{number, seen, part, MayEnter, IsBack};
ghost use Rattle.kt_engine.specs.Calls.{SeesOthers};
ghost use Rattle.kt_serve.specs.Answered.{IsOpen};
ghost use Rattle.kt_serve.specs.Maintained.{HasNoJob, KeepsRounds, KeepsUpkeep, StoreRests};
ghost use Rattle.kt_serve.specs.Sessions.{IsFree, IsCommand, IsWrite, SameRoot, OnRoot, AfterBegin, AfterBeginning, AfterCommand, IsGoing, HasNoLog, has_stop};

use crate::chores::Chores;
use kt_base::{Chore, Clock, NoMemory};
use kt_disk::Disk;
use kt_engine::{BeginNo, Draft, Engine, LookNo, MaintNo, Stopped};
use kt_history::{Reply, Write};
use kt_seatlock::{Pass, SeatLock};
use std::alloc::Global;
use std::sync::Wait;

// Whether a visit that would begin a write may have changed the engine: not where the write waits.
fn changes(begun: &Result<u64, BeginNo>) -> bool
    ensures { result ≡ false → (ts : ℕ) × (begun.now ≡ Err (BeginNo.Wait ts)) }
{
    !matches!(begun, Err(BeginNo::Wait { ts: _ }))
}

/// Begins the next command of a session, a write that was made ready, unless something stands in its way. What was made
/// ready then stays for another visit.
pub fn begin_once<L: Disk, D: Disk + Drop, C: Clock, R: Wait>(
    rt: &R,
    alloc: Global,
    lock: &SeatLock<Engine<L, D, C>>,
    pass: &mut Pass<Engine<L, D, C>>,
    index: u32,
    draft: &mut Draft,
) -> Result<u64, BeginNo>
    requires enters { MayEnter lock.now pass.old }
    requires next { IsFree (part pass.old) index }
    requires command { IsCommand (part pass.old) (number pass.old) index (Command.Write (record { ops = draft.old.write.ops })) }
    requires write { IsWrite index draft.old.write.ops }
    ensures pass { IsBack pass.old pass.new }
    ensures upkeep { KeepsUpkeep (part pass.old) (part pass.new) }
    ensures root { SameRoot (part pass.old) (part pass.new) }
    ensures open { OnRoot (part pass.old) (λ root. IsOpen root (number pass.old) index (seen pass.old)) }
    ensures begun { AfterBegin (part pass.old) (part pass.new) (seen pass.old) (seen pass.new) (number pass.old) index draft.old.write.ops result }
    ensures kept { OnErr result (draft.new.write.ops ≡ draft.old.write.ops) }
{
    let by = pass.number();
    let mut engine = lock.enter(rt, pass);
    engine.standing();
    let begun = engine.begin_draft(alloc, by, index, draft);
    lock.leave_as(pass, engine, changes(&begun));
    begun
}

// Runs a chore for a session whose write has no room.
fn run_for_room<L: Disk, D: Disk + Drop, C: Clock, R: Wait, H: Chores<L, D, C>>(
    rt: &R,
    alloc: Global,
    lock: &SeatLock<Engine<L, D, C>>,
    pass: &mut Pass<Engine<L, D, C>>,
    index: u32,
    chores: &H,
    chore: Chore,
) -> Result<(), MaintNo>
    requires enters { MayEnter lock.now pass.old }
    requires rests { StoreRests (part pass.old) }
    requires next { IsFree (part pass.old) index }
    ensures pass { IsBack pass.old pass.new }
    ensures rests { StoreRests (part pass.new) }
    ensures next { IsFree (part pass.new) index }
    ensures going { IsGoing (number pass.old) (part pass.old) (part pass.new) (seen pass.old) (seen pass.new) }
    ensures none { result ≢ Err MaintNo.Stopped → HasNoJob (part pass.old) → HasNoJob (part pass.new) }
    ensures rounds { OnOk result (KeepsRounds (part pass.old) (part pass.new)) }
    ensures stopped { result ≡ Err MaintNo.Stopped → has_stop (seen pass.new) ≡ true }
{
    chores.run(rt, alloc, lock, pass, chore)
}

// Gives cells back to the pool: a flush, and a flush of the changes of each disk rowset.
fn make_room<L: Disk, D: Disk + Drop, C: Clock, R: Wait, H: Chores<L, D, C>>(
    rt: &R,
    alloc: Global,
    lock: &SeatLock<Engine<L, D, C>>,
    pass: &mut Pass<Engine<L, D, C>>,
    index: u32,
    chores: &H,
) -> Result<(), MaintNo>
    requires enters { MayEnter lock.now pass.old }
    requires rests { StoreRests (part pass.old) }
    requires next { IsFree (part pass.old) index }
    ensures pass { IsBack pass.old pass.new }
    ensures rests { StoreRests (part pass.new) }
    ensures next { IsFree (part pass.new) index }
    ensures going { IsGoing (number pass.old) (part pass.old) (part pass.new) (seen pass.old) (seen pass.new) }
    ensures none { result ≢ Err MaintNo.Stopped → HasNoJob (part pass.old) → HasNoJob (part pass.new) }
    ensures rounds { OnOk result (KeepsRounds (part pass.old) (part pass.new)) }
    ensures stopped { result ≡ Err MaintNo.Stopped → has_stop (seen pass.new) ≡ true }
{
    let rows = run_for_room(rt, alloc, lock, pass, index, chores, Chore::Flush);
    match rows {
        Ok(()) => run_for_room(rt, alloc, lock, pass, index, chores, Chore::FlushDeltas),
        Err(no) => Err(no),
    }
}

// One visit that asks whether more cells of the pool are in use than these, as far as there is memory to tell. It wakes nobody who rests.
fn is_crowded<L: Disk, D: Disk + Drop, C: Clock, R: Wait>(
    rt: &R,
    alloc: Global,
    lock: &SeatLock<Engine<L, D, C>>,
    pass: &mut Pass<Engine<L, D, C>>,
    most: u32,
) -> bool
    requires enters { MayEnter lock.now pass.old }
    ensures pass { IsBack pass.old pass.new }
    ensures same { part pass.new ≡ part pass.old }
    ensures quiet { SeesOthers (number pass.old) (seen pass.old) (seen pass.new) }
{
    let engine = lock.enter(rt, pass);
    let stats = engine.stats(alloc);
    lock.leave_same(pass, engine);
    match stats {
        Ok(stats) => stats.cells.saturating_sub(stats.free) > most,
        Err(NoMemory) => false,
    }
}

/// Makes room before the first command of a session, where more cells are in use than it may begin with: opening makes a pool with several times the cells that
/// the unflushed operations of the log then take, so no write would ask for room. Want of memory is passed over.
pub fn clear_room<L: Disk, D: Disk + Drop, C: Clock, R: Wait, H: Chores<L, D, C>>(
    rt: &R,
    alloc: Global,
    lock: &SeatLock<Engine<L, D, C>>,
    pass: &mut Pass<Engine<L, D, C>>,
    chores: &H,
) -> Result<(), Stopped>
    requires enters { MayEnter lock.now pass.old }
    requires rests { StoreRests (part pass.old) }
    requires next { IsFree (part pass.old) 1 }
    ensures pass { IsBack pass.old pass.new }
    ensures rests { StoreRests (part pass.new) }
    ensures next { IsFree (part pass.new) 1 }
    ensures going { IsGoing (number pass.old) (part pass.old) (part pass.new) (seen pass.old) (seen pass.new) }
    ensures none { OnOk result (HasNoJob (part pass.old) → HasNoJob (part pass.new)) }
    ensures stopped { OnErr result (has_stop (seen pass.new) ≡ true) }
{
    if !is_crowded(rt, alloc, lock, pass, chores.most_cells()) {
        return Ok(());
    }
    match make_room(rt, alloc, lock, pass, 1, chores) {
        Ok(()) => Ok(()),
        Err(MaintNo::Stopped) => Err(Stopped),
        Err(MaintNo::Memory) => Ok(()),
    }
}

/// Begins the next command of a session, a write, as soon as its keys and its room are free. It is made ready once,
/// before the first visit. Where it has no room the session flushes, and again where another write took the room that this gave: a flush waits while writes fly.
pub fn begin_write<L: Disk, D: Disk + Drop, C: Clock, R: Wait, H: Chores<L, D, C>>(
    rt: &R,
    alloc: Global,
    lock: &SeatLock<Engine<L, D, C>>,
    pass: &mut Pass<Engine<L, D, C>>,
    index: u32,
    write: &Write,
    chores: &H,
) -> Result<Option<Reply>, NoMemory>
    requires enters { MayEnter lock.now pass.old }
    requires rests { StoreRests (part pass.old) }
    requires next { IsFree (part pass.old) index }
    requires command { IsCommand (part pass.old) (number pass.old) index (Command.Write write.now) }
    requires write { IsWrite index write.now.ops }
    ensures pass { IsBack pass.old pass.new }
    ensures rests { StoreRests (part pass.new) }
    ensures none { result ≢ Ok (Some Reply.Stopped) → HasNoJob (part pass.old) → HasNoJob (part pass.new) }
    ensures rounds { result ≢ Ok (Some Reply.Stopped) → OnOk result (KeepsRounds (part pass.old) (part pass.new)) }
    ensures home { HasNoLog (part pass.new) }
    ensures open { OnOk result (OnRoot (part pass.old) (λ root. IsOpen root (number pass.old) index (seen pass.old))) }
    ensures unwritten { (ts : ℕ) (outcomes : List Outcome) → result ≢ Ok (Some (Reply.At ts outcomes)) }
    ensures begun { AfterBeginning (part pass.old) (part pass.new) (seen pass.old) (seen pass.new) (number pass.old) index write.now.ops result }
{
    let Ok(mut draft) = Draft::of(alloc, write) else {
        return Err(NoMemory);
    };
    for _ in rt.forever() {
        match begin_once(rt, alloc, lock, pass, index, &mut draft) {
            Ok(_) => return Ok(None),
            Err(BeginNo::Stopped) => return Ok(Some(Reply::Stopped)),
            Err(BeginNo::Large { need }) => return Ok(Some(Reply::Large { n: need })),
            Err(BeginNo::Wait { ts: _ }) => lock.rest(rt, pass),
            Err(BeginNo::Room { need: _, free: _ }) => {
                match make_room(rt, alloc, lock, pass, index, chores) {
                    Ok(()) => {}
                    Err(MaintNo::Stopped) => return Ok(Some(Reply::Stopped)),
                    Err(MaintNo::Memory) => return Err(NoMemory),
                }
            }
            Err(BeginNo::Memory) => return Err(NoMemory),
        }
    }
    unreachable!()
}

/// Raises the mark as the next command of a session.
pub fn mark_once<L: Disk, D: Disk + Drop, C: Clock, R: Wait>(
    rt: &R,
    lock: &SeatLock<Engine<L, D, C>>,
    pass: &mut Pass<Engine<L, D, C>>,
    index: u32,
    to: u64,
) -> Result<Reply, NoMemory>
    requires enters { MayEnter lock.now pass.old }
    requires next { IsFree (part pass.old) index }
    requires command { IsCommand (part pass.old) (number pass.old) index (Command.Mark to) }
    requires few { index + 1 < 2 ^ 32 }
    ensures pass { IsBack pass.old pass.new }
    ensures upkeep { KeepsUpkeep (part pass.old) (part pass.new) }
    ensures home { HasNoLog (part pass.new) }
    ensures root { SameRoot (part pass.old) (part pass.new) }
    ensures open { OnOk result (OnRoot (part pass.old) (λ root. IsOpen root (number pass.old) index (seen pass.old))) }
    ensures reply { IfOk result (λ reply. AfterCommand (part pass.old) (part pass.new) (seen pass.old) (seen pass.new) (number pass.old) index reply) }
    ensures unwritten { (ts : ℕ) (outcomes : List Outcome) → result ≢ Ok (Reply.At ts outcomes) }
    ensures memory { OnErr result (IsGoing (number pass.old) (part pass.old) (part pass.new) (seen pass.old) (seen pass.new)) }
{
    let by = pass.number();
    let mut engine = lock.enter(rt, pass);
    engine.standing();
    let marked = engine.mark(by, index, to);
    lock.leave(pass, engine);
    match marked {
        Ok(a) => Ok(Reply::Ahm { a }),
        Err(LookNo::Stopped) => Ok(Reply::Stopped),
        Err(LookNo::Memory) => Err(NoMemory),
    }
}
