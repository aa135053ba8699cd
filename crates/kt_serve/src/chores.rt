//! Maintenance, as a session asks for it, and in the background.
ghost use Rattle.std.specs.Prelude.{◌≡◌, ◌≢◌, ◌⊎◌, ◌<◌, ◌+◌, ◌^◌, ℕ, List, Ok, Err, IfOk, OnOk, OnErr, true};
ghost use Rattle.kt_history.specs.declared.change.Outcome.{Outcome};
ghost use Rattle.kt_history.specs.declared.command.Command.{Command};
ghost use Rattle.kt_seatlock.specs.Passes.{number, seen, part, MayEnter, IsBack};
ghost use Rattle.kt_engine.specs.Calls.{HasNoDevice, HasDone, StandsStill, SeesOthers};
ghost use Rattle.kt_serve.specs.Answered.{IsOpen};
ghost use Rattle.kt_serve.specs.Maintained.{HasDoneWith, HasNoJob, KeepsUpkeep, StoreRests};
ghost use Rattle.kt_serve.specs.Sessions.{IsFree, IsCommand, SameRoot, OnRoot, AfterCommand, IsGoing, HasNoLog, has_stop};

use kt_base::{Chore, Clock, NoMemory};
use kt_disk::Disk;
use kt_engine::{Engine, LookNo, MaintNo};
use kt_history::Reply;
use kt_seatlock::{Pass, SeatLock};
use std::alloc::Global;
use std::sync::Wait;

/// What does maintenance for a session.
pub trait Chores<L: Disk, D: Disk + Drop, C: Clock> {
    /// So many cells of the pool may be in use as a session begins. Where more are, it makes room first.
    fn most_cells(&self) -> u32;

    /// Does all that a chore asks for, as the stores stand when it begins. It shows nothing of it to a session, and leaves no job to the pass unless the tablet has stopped.
    fn run<R: Wait>(
        &self,
        rt: &R,
        alloc: Global,
        lock: &SeatLock<Engine<L, D, C>>,
        pass: &mut Pass<Engine<L, D, C>>,
        chore: Chore,
    ) -> Result<(), MaintNo>
        requires enters { MayEnter lock.now pass.old }
        requires rests { HasNoDevice (part pass.old) }
        ensures pass { IsBack pass.old pass.new }
        ensures still { StandsStill (part pass.old) (part pass.new) }
        ensures quiet { SeesOthers (number pass.old) (seen pass.old) (seen pass.new) }
        ensures home { HasNoDevice (part pass.new) }
        ensures done { OnOk result (HasDone chore (part pass.old) (part pass.new)) }
        ensures none { result ≢ Err MaintNo.Stopped → HasNoJob (part pass.old) → HasNoJob (part pass.new) }
        ensures stopped { result ≡ Err MaintNo.Stopped → has_stop (seen pass.new) ≡ true };

    /// Runs jobs in the background until no session runs any more. It shows nothing of them to a session.
    fn work<R: Wait>(
        &self,
        rt: &R,
        alloc: Global,
        lock: &SeatLock<Engine<L, D, C>>,
        pass: &mut Pass<Engine<L, D, C>>,
    )
        requires enters { MayEnter lock.now pass.old }
        requires rests { HasNoDevice (part pass.old) }
        ensures pass { IsBack pass.old pass.new }
        ensures still { StandsStill (part pass.old) (part pass.new) }
        ensures quiet { SeesOthers (number pass.old) (seen pass.old) (seen pass.new) }
        ensures home { HasNoDevice (part pass.new) }
        ensures none { HasNoJob (part pass.old) → HasNoJob (part pass.new) ⊎ (has_stop (seen pass.new) ≡ true) };
}

// One visit that answers the command, whose chore is done.
fn answer_once<L: Disk, D: Disk + Drop, C: Clock, R: Wait>(
    rt: &R,
    lock: &SeatLock<Engine<L, D, C>>,
    pass: &mut Pass<Engine<L, D, C>>,
    index: u32,
    chore: Chore,
) -> Result<Reply, NoMemory>
    requires enters { MayEnter lock.now pass.old }
    requires next { IsFree (part pass.old) index }
    requires command { IsCommand (part pass.old) (number pass.old) index (Command.Chore chore) }
    requires few { index + 1 < 2 ^ 32 }
    requires done { HasDoneWith chore (part pass.old) }
    ensures pass { IsBack pass.old pass.new }
    ensures upkeep { KeepsUpkeep (part pass.old) (part pass.new) }
    ensures home { HasNoLog (part pass.new) }
    ensures root { SameRoot (part pass.old) (part pass.new) }
    ensures open { OnOk result (OnRoot (part pass.old) (λ root. IsOpen root (number pass.old) index (seen pass.old))) }
    ensures reply { IfOk result (λ reply. AfterCommand (part pass.old) (part pass.new) (seen pass.old) (seen pass.new) (number pass.old) index reply) }
    ensures unwritten { (ts : ℕ) (outcomes : List Outcome) → result ≢ Ok (Reply.At ts outcomes) }
    ensures memory { OnErr result (IsGoing (number pass.old) (part pass.old) (part pass.new) (seen pass.old) (seen pass.new)) }
{
    let by = pass.number();
    let mut engine = lock.enter(rt, pass);
    engine.standing();
    let answered = engine.chore_done(by, index);
    lock.leave(pass, engine);
    match answered {
        Ok(()) => Ok(Reply::Done),
        Err(LookNo::Stopped) => Ok(Reply::Stopped),
        Err(LookNo::Memory) => Err(NoMemory),
    }
}

/// Runs a chore as the next command of a session, and answers it once nothing of it is left to do: of the round that this call made of it.
pub fn run_chore<L: Disk, D: Disk + Drop, C: Clock, R: Wait, H: Chores<L, D, C>>(
    rt: &R,
    alloc: Global,
    lock: &SeatLock<Engine<L, D, C>>,
    pass: &mut Pass<Engine<L, D, C>>,
    index: u32,
    chore: Chore,
    chores: &H,
) -> Result<Reply, NoMemory>
    requires enters { MayEnter lock.now pass.old }
    requires rests { StoreRests (part pass.old) }
    requires next { IsFree (part pass.old) index }
    requires command { IsCommand (part pass.old) (number pass.old) index (Command.Chore chore) }
    requires few { index + 1 < 2 ^ 32 }
    ensures pass { IsBack pass.old pass.new }
    ensures rests { StoreRests (part pass.new) }
    ensures done { IfOk result (λ reply. reply ≢ Reply.Stopped → HasDone chore (part pass.old) (part pass.new)) }
    ensures none { result ≢ Ok Reply.Stopped → HasNoJob (part pass.old) → HasNoJob (part pass.new) }
    ensures home { HasNoLog (part pass.new) }
    ensures root { SameRoot (part pass.old) (part pass.new) }
    ensures open { IfOk result (λ reply. reply ≢ Reply.Stopped → OnRoot (part pass.old) (λ root. IsOpen root (number pass.old) index (seen pass.old))) }
    ensures reply { IfOk result (λ reply. AfterCommand (part pass.old) (part pass.new) (seen pass.old) (seen pass.new) (number pass.old) index reply) }
    ensures unwritten { (ts : ℕ) (outcomes : List Outcome) → result ≢ Ok (Reply.At ts outcomes) }
    ensures memory { OnErr result (IsGoing (number pass.old) (part pass.old) (part pass.new) (seen pass.old) (seen pass.new)) }
{
    match chores.run(rt, alloc, lock, pass, chore) {
        Ok(()) => answer_once(rt, lock, pass, index, chore),
        Err(MaintNo::Stopped) => Ok(Reply::Stopped),
        Err(MaintNo::Memory) => Err(NoMemory),
    }
}
