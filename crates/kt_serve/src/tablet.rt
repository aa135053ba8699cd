//! A tablet that sessions share.
ghost use Rattle.std.specs.Prelude.{◌≡◌, ◌≢◌, ◌<◌, ◌+◌, ◌^◌, ℕ, List, None, Ok, OnErr, IfOk, true};
ghost use Rattle.kt_history.specs.declared.change.Outcome.{Outcome};
ghost use Rattle.kt_history.specs.declared.command.Command.{Command};
ghost use Rattle.kt_seatlock.specs.Passes.{number, seen, part, MayEnter, IsBack, IsPassOf, IsOutside, IsLastPass};
ghost use Rattle.kt_base.specs.declared.chore.Chore.{Chore};
ghost use Rattle.kt_engine.specs.Calls.{HasDone};
ghost use Rattle.kt_engine.specs.Engines.{EngineView};
ghost use Rattle.kt_engine.specs.Visits.{root_of};
ghost use Rattle.kt_tablet.specs.Views.{IsSound};
ghost use Rattle.kt_serve.specs.Answered.{IsAnswered};
ghost use Rattle.kt_serve.specs.Closing.{IsTold, AreHome, MayHalt, EndsAs};
ghost use Rattle.kt_serve.specs.Maintained.{HasNoJob, KeepsRounds, KeepsUpkeep, StoreRests};
ghost use Rattle.kt_serve.specs.Scans.{IsOn, LacksReply};
ghost use Rattle.kt_serve.specs.Sessions.{IsFree, IsCommand, IsWrite, IsStill, IsGoing, SameRoot, OnRoot, HasNoLog, HasLeft, AfterCommand, CanRun, has_stop};

use crate::chores::{Chores, run_chore};
use crate::close::{Closing, finish};
use crate::log::Halt;
use crate::rows::finish_write;
use crate::visits::{begin_write, mark_once};
use kt_base::{Chore, Clock, NoMemory};
use kt_disk::{Disk, Gate, Point};
use kt_engine::Engine;
use kt_history::{Command, Reply, Write};
use kt_schema::Schema;
use kt_seatlock::{Pass, SeatLock};
use std::alloc::Global;
use std::sync::Wait;

/// A tablet in a seat lock.
#[derive(Drop)]
pub struct SharedTablet<L: Disk, D: Disk, C: Clock> {
    pub lock: SeatLock<Engine<L, D, C>>,
}

impl<L: Disk, D: Disk + Drop, C: Clock> SharedTablet<L, D, C> {
    /// The tablet of a filled lock.
    pub fn of(lock: SeatLock<Engine<L, D, C>>) -> SharedTablet<L, D, C>
        ensures { result.lock ≡ lock }
    {
        SharedTablet { lock }
    }

    /// Its lock.
    pub fn lock(&self) -> &SeatLock<Engine<L, D, C>>
        ensures { result.now ≡ self.now.lock }
    {
        &self.lock
    }

    /// A write. Its reply is the answer to the command in what the pass has then seen. The gate is called once it flies,
    /// before its REPLICATE is durable. Where it has no room the session flushes first.
    pub fn write<R: Wait, G: Gate, H: Chores<L, D, C>>(
        &self,
        rt: &R,
        alloc: Global,
        pass: &mut Pass<Engine<L, D, C>>,
        index: u32,
        write: &Write,
        gate: &G,
        chores: &H,
    ) -> Result<Reply, NoMemory>
        requires enters { MayEnter self.now.lock pass.old }
        requires rests { StoreRests (part pass.old) }
        requires next { IsFree (part pass.old) index }
        requires command { IsCommand (part pass.old) (number pass.old) index (Command.Write write.now) }
        requires write { IsWrite index write.now.ops }
        ensures pass { IsBack pass.old pass.new }
        ensures rests { StoreRests (part pass.new) }
        ensures none { result ≢ Ok Reply.Stopped → HasNoJob (part pass.old) → HasNoJob (part pass.new) }
        ensures rounds { IfOk result (λ reply. reply ≢ Reply.Stopped → KeepsRounds (part pass.old) (part pass.new)) }
        ensures home { HasNoLog (part pass.new) }
        ensures root { SameRoot (part pass.old) (part pass.new) }
        ensures reply { IfOk result (λ reply. AfterCommand (part pass.old) (part pass.new) (seen pass.old) (seen pass.new) (number pass.old) index reply) }
        ensures answer { IfOk result (λ reply. reply ≢ Reply.Stopped → OnRoot (part pass.old) (λ root. IsAnswered root (number pass.old) index reply (seen pass.new))) }
        ensures begun { (ts : ℕ) (outcomes : List Outcome) → result ≡ Ok (Reply.At ts outcomes) → G.came gate.now (Point.Begun (number pass.old) index) }
        ensures memory { OnErr result (IsGoing (number pass.old) (part pass.old) (part pass.new) (seen pass.old) (seen pass.new)) }
    {
        let session = pass.number();
        match begin_write(rt, alloc, &self.lock, pass, index, write, chores)? {
            Some(reply) => return Ok(reply),
            None => {}
        }
        gate.at(Point::Begun { session, index });
        match finish_write(rt, alloc, &self.lock, pass, write) {
            Ok(reply) => Ok(reply),
            Err(Halt::Stopped) => Ok(Reply::Stopped),
            Err(Halt::Memory) => Err(NoMemory),
        }
    }

    /// A mark. The same holds of its reply.
    pub fn mark<R: Wait>(
        &self,
        rt: &R,
        pass: &mut Pass<Engine<L, D, C>>,
        index: u32,
        to: u64,
    ) -> Result<Reply, NoMemory>
        requires enters { MayEnter self.now.lock pass.old }
        requires next { IsFree (part pass.old) index }
        requires command { IsCommand (part pass.old) (number pass.old) index (Command.Mark to) }
        requires few { index + 1 < 2 ^ 32 }
        ensures pass { IsBack pass.old pass.new }
        ensures upkeep { KeepsUpkeep (part pass.old) (part pass.new) }
        ensures home { HasNoLog (part pass.new) }
        ensures root { SameRoot (part pass.old) (part pass.new) }
        ensures reply { IfOk result (λ reply. AfterCommand (part pass.old) (part pass.new) (seen pass.old) (seen pass.new) (number pass.old) index reply) }
        ensures answer { IfOk result (λ reply. reply ≢ Reply.Stopped → OnRoot (part pass.old) (λ root. IsAnswered root (number pass.old) index reply (seen pass.new))) }
        ensures unwritten { (ts : ℕ) (outcomes : List Outcome) → result ≢ Ok (Reply.At ts outcomes) }
        ensures memory { OnErr result (IsGoing (number pass.old) (part pass.old) (part pass.new) (seen pass.old) (seen pass.new)) }
    {
        mark_once(rt, &self.lock, pass, index, to)
    }

    /// Maintenance: it is answered once all that it asks for is done, by a round of this call. The same holds of its reply.
    pub fn chore<R: Wait, H: Chores<L, D, C>>(
        &self,
        rt: &R,
        alloc: Global,
        pass: &mut Pass<Engine<L, D, C>>,
        index: u32,
        chore: Chore,
        chores: &H,
    ) -> Result<Reply, NoMemory>
        requires enters { MayEnter self.now.lock pass.old }
        requires rests { StoreRests (part pass.old) }
        requires next { IsFree (part pass.old) index }
        requires command { IsCommand (part pass.old) (number pass.old) index (Command.Chore chore) }
        requires few { index + 1 < 2 ^ 32 }
        ensures pass { IsBack pass.old pass.new }
        ensures rests { StoreRests (part pass.new) }
        ensures none { result ≢ Ok Reply.Stopped → HasNoJob (part pass.old) → HasNoJob (part pass.new) }
        ensures home { HasNoLog (part pass.new) }
        ensures root { SameRoot (part pass.old) (part pass.new) }
        ensures reply { IfOk result (λ reply. AfterCommand (part pass.old) (part pass.new) (seen pass.old) (seen pass.new) (number pass.old) index reply) }
        ensures answer { IfOk result (λ reply. reply ≢ Reply.Stopped → OnRoot (part pass.old) (λ root. IsAnswered root (number pass.old) index reply (seen pass.new))) }
        ensures done { IfOk result (λ reply. reply ≢ Reply.Stopped → HasDone chore (part pass.old) (part pass.new)) }
        ensures unwritten { (ts : ℕ) (outcomes : List Outcome) → result ≢ Ok (Reply.At ts outcomes) }
        ensures memory { OnErr result (IsGoing (number pass.old) (part pass.old) (part pass.new) (seen pass.old) (seen pass.new)) }
    {
        run_chore(rt, alloc, &self.lock, pass, index, chore, chores)
    }

    /// The last visit of a session, whatever ended it: the session does not run any more.
    pub fn leave_run<R: Wait>(&self, rt: &R, pass: &mut Pass<Engine<L, D, C>>)
        requires enters { MayEnter self.now.lock pass.old }
        ensures pass { IsBack pass.old pass.new }
        ensures upkeep { KeepsUpkeep (part pass.old) (part pass.new) }
        ensures still { IsStill (number pass.old) (part pass.old) (part pass.new) (seen pass.old) (seen pass.new) }
        ensures left { HasLeft (part pass.new) }
        ensures log { HasNoLog (part pass.old) → HasNoLog (part pass.new) }
        ensures stop { has_stop (seen pass.old) ≡ true → has_stop (seen pass.new) ≡ true }
    {
        let by = pass.number();
        let mut engine = self.lock.enter(rt, pass);
        engine.session_over(by);
        self.lock.leave(pass, engine);
    }

    /// Ends a run, once each other pass was joined into this one and none has a device: makes durable what still waits for the log, and publishes a
    /// superblock with the present mark and last timestamp. The tablet that it leaves is the one that all passes tell, but for a `stop` line, and so is what they have
    /// of maintenance.
    pub fn close(self, alloc: Global, pass: Pass<Engine<L, D, C>>) -> Closing<L, D, C>
        requires own { IsPassOf self.lock pass }
        requires outside { IsOutside pass }
        requires last { IsLastPass pass }
        requires home { AreHome pass }
        ensures told { (view : EngineView L D C) × IsTold pass view × IsSound C.readings view.tablet × (root_of result.engine ≡ root_of view) × MayHalt view result.engine × (result.engine.upkeep ≡ view.upkeep) }
        ensures home { result.engine.log.holder ≡ None }
        ensures store_home { result.engine.store.holder ≡ None }
        ensures ends { EndsAs result.engine result.end }
    {
        let number = pass.number();
        let SharedTablet { lock } = self;
        let mut engine = lock.close(pass);
        engine.standing();
        let end = finish(alloc, &mut engine, number);
        Closing { engine, end }
    }

    /// The next command of a session: a write, a scan, a mark or maintenance.
    pub fn take<R: Wait, G: Gate, H: Chores<L, D, C>>(
        &self,
        rt: &R,
        alloc: Global,
        schema: &Schema,
        pass: &mut Pass<Engine<L, D, C>>,
        index: u32,
        command: &Command,
        gate: &G,
        chores: &H,
    ) -> Result<Reply, NoMemory>
        requires enters { MayEnter self.now.lock pass.old }
        requires on { OnRoot (part pass.old) (λ root. IsOn schema.now root.work) }
        requires rests { StoreRests (part pass.old) }
        requires next { IsFree (part pass.old) index }
        requires command { IsCommand (part pass.old) (number pass.old) index command.now }
        requires runs { CanRun index command.now }
        ensures pass { IsBack pass.old pass.new }
        ensures rests { StoreRests (part pass.new) }
        ensures none { result ≢ Ok Reply.Stopped → HasNoJob (part pass.old) → HasNoJob (part pass.new) }
        ensures rounds { IfOk result (λ reply. reply ≢ Reply.Stopped → KeepsRounds (part pass.old) (part pass.new)) }
        ensures home { HasNoLog (part pass.new) }
        ensures root { SameRoot (part pass.old) (part pass.new) }
        ensures reply { IfOk result (λ reply. AfterCommand (part pass.old) (part pass.new) (seen pass.old) (seen pass.new) (number pass.old) index reply) }
        ensures answer { IfOk result (λ reply. reply ≢ Reply.Stopped → OnRoot (part pass.old) (λ root. IsAnswered root (number pass.old) index reply (seen pass.new))) }
        ensures begun { (ts : ℕ) (outcomes : List Outcome) → result ≡ Ok (Reply.At ts outcomes) → G.came gate.now (Point.Begun (number pass.old) index) }
        ensures done { (chore : Chore) → command.now ≡ Command.Chore chore → IfOk result (λ reply. reply ≢ Reply.Stopped → HasDone chore (part pass.old) (part pass.new)) }
        ensures memory { OnErr result (LacksReply (number pass.old) index (part pass.old) (part pass.new) (seen pass.old) (seen pass.new)) }
    {
        match command {
            Command::Write(write) => { self.write(rt, alloc, pass, index, write, gate, chores) }
            Command::Mark(to) => self.mark(rt, pass, index, *to),
            Command::Scan(scan) => self.scan(rt, alloc, schema, pass, index, scan),
            Command::Chore(chore) => self.chore(rt, alloc, pass, index, *chore, chores),
        }
    }
}
