//! A scan: the visits that draw its time and read a snapshot, and its rows, which are made from that outside the lock.
ghost use Rattle.std.specs.Prelude.{◌≡◌, ◌≢◌, ◌<◌, ◌+◌, ◌^◌, ℕ, List, IfOk, OnOk, OnErr, Ok, Err, true};
ghost use Rattle.kt_history.specs.declared.change.Outcome.{Outcome};
ghost use Rattle.kt_history.specs.declared.command.Command.{Command};
ghost use Rattle.kt_history.specs.declared.scan.At.TheVariants.{Looked};
ghost use Rattle.kt_seatlock.specs.Passes.{number, seen, part, MayEnter, IsBack};
ghost use Rattle.kt_serve.specs.Answered.{IsAnswered, IsOpen};
ghost use Rattle.kt_serve.specs.Maintained.{KeepsUpkeep};
ghost use Rattle.kt_serve.specs.Sessions.{IsFree, IsCommand, OnRoot, SameRoot, HasNoLog, IsGoing, AfterCommand, has_stop};
ghost use Rattle.kt_serve.specs.Scans.{IsOn, ScansAt, IsLooking, AfterLook, turn_of_read, changes, AfterRead, LacksReply};

use crate::log::Halt;
use crate::shown::snap_shown;
use crate::tablet::SharedTablet;
use kt_base::{Clock, NoMemory};
use kt_disk::Disk;
use kt_diskrowset::RowSetView;
use kt_engine::{Engine, LookNo, Snap, SnapNo};
use kt_history::{At, Reply, Scan};
use kt_schema::Schema;
use kt_seatlock::{Pass, SeatLock};
use std::alloc::Global;
use std::sync::Wait;

/// What became of a scan that would read.
#[derive(Drop)]
pub enum ScanTurn {
    /// A line answers it by the rows of this snapshot.
    Read(Snap<RowSetView>),
    /// It has this reply.
    Told(Reply),
    /// A write flies that is not later than the time that it has drawn.
    Wait,
    Memory,
}

impl ScanTurn {
    // Whether the visit may have changed the engine.
    fn changes(&self) -> bool
        ensures { result ≡ changes self.now }
    {
        !matches!(self, ScanTurn::Wait)
    }
}

fn turn_of(read: Result<Snap<RowSetView>, SnapNo>) -> ScanTurn
    ensures { result ≡ turn_of_read read }
{
    match read {
        Ok(snap) => ScanTurn::Read(snap),
        Err(SnapNo::Stopped) => ScanTurn::Told(Reply::Stopped),
        Err(SnapNo::Ancient { t, a }) => ScanTurn::Told(Reply::Ancient { t, a }),
        Err(SnapNo::Busy { t, f }) => ScanTurn::Told(Reply::Busy { t, f }),
        Err(SnapNo::NotYet { f: _ }) => ScanTurn::Wait,
        Err(SnapNo::Memory) => ScanTurn::Memory,
    }
}

// One visit that draws the time of the next command, a scan of the present.
fn look_once<L: Disk, D: Disk + Drop, C: Clock, R: Wait>(
    rt: &R,
    lock: &SeatLock<Engine<L, D, C>>,
    pass: &mut Pass<Engine<L, D, C>>,
    index: u32,
) -> Result<u64, LookNo>
    requires enters { MayEnter lock.now pass.old }
    requires next { IsFree (part pass.old) index }
    requires scan { ScansAt (part pass.old) (number pass.old) index Looked }
    ensures pass { IsBack pass.old pass.new }
    ensures upkeep { KeepsUpkeep (part pass.old) (part pass.new) }
    ensures home { HasNoLog (part pass.new) }
    ensures root { SameRoot (part pass.old) (part pass.new) }
    ensures looked { AfterLook (part pass.old) (part pass.new) (seen pass.old) (seen pass.new) (number pass.old) index result }
{
    let by = pass.number();
    let mut engine = lock.enter(rt, pass);
    engine.standing();
    let looked = engine.look(by, index);
    lock.leave(pass, engine);
    looked
}

// A scan of the present draws its time, and one at a given time has it.
fn draw_time<L: Disk, D: Disk + Drop, C: Clock, R: Wait>(
    rt: &R,
    lock: &SeatLock<Engine<L, D, C>>,
    pass: &mut Pass<Engine<L, D, C>>,
    index: u32,
    at: At,
) -> Result<(), Halt>
    requires enters { MayEnter lock.now pass.old }
    requires next { IsFree (part pass.old) index }
    requires scan { ScansAt (part pass.old) (number pass.old) index at }
    ensures pass { IsBack pass.old pass.new }
    ensures upkeep { KeepsUpkeep (part pass.old) (part pass.new) }
    ensures home { HasNoLog (part pass.new) }
    ensures going { IsGoing (number pass.old) (part pass.old) (part pass.new) (seen pass.old) (seen pass.new) }
    ensures drawn { OnOk result (IsLooking (part pass.new) index at) }
    ensures stopped { result ≡ Err Halt.Stopped → has_stop (seen pass.new) ≡ true }
{
    match at {
        At::Looked => match look_once(rt, lock, pass, index) {
            Ok(_) => Ok(()),
            Err(LookNo::Stopped) => Err(Halt::Stopped),
            Err(LookNo::Memory) => Err(Halt::Memory),
        },
        At::Given(_) => Ok(()),
    }
}

// One visit that reads a snapshot, unless something stands in the scan's way.
fn read_once<L: Disk, D: Disk + Drop, C: Clock, R: Wait>(
    rt: &R,
    alloc: Global,
    lock: &SeatLock<Engine<L, D, C>>,
    pass: &mut Pass<Engine<L, D, C>>,
    index: u32,
    at: At,
) -> ScanTurn
    requires enters { MayEnter lock.now pass.old }
    requires next { IsLooking (part pass.old) index at }
    requires scan { ScansAt (part pass.old) (number pass.old) index at }
    requires few { index + 1 < 2 ^ 32 }
    ensures pass { IsBack pass.old pass.new }
    ensures upkeep { KeepsUpkeep (part pass.old) (part pass.new) }
    ensures home { HasNoLog (part pass.new) }
    ensures root { SameRoot (part pass.old) (part pass.new) }
    ensures open { OnRoot (part pass.old) (λ root. IsOpen root (number pass.old) index (seen pass.old)) }
    ensures unwritten { (ts : ℕ) (outcomes : List Outcome) → result ≢ ScanTurn.Told (Reply.At ts outcomes) }
    ensures read { AfterRead (part pass.old) (part pass.new) (seen pass.old) (seen pass.new) (number pass.old) index at result }
{
    let by = pass.number();
    let mut engine = lock.enter(rt, pass);
    engine.standing();
    let read = engine.snapshot(alloc, by, index, at);
    let turn = turn_of(read);
    lock.leave_as(pass, engine, turn.changes());
    turn
}

// Answers a scan whose time is drawn or given, as soon as no write flies that is not later than the time drawn.
fn read_rows<L: Disk, D: Disk + Drop, C: Clock, R: Wait>(
    rt: &R,
    alloc: Global,
    schema: &Schema,
    lock: &SeatLock<Engine<L, D, C>>,
    pass: &mut Pass<Engine<L, D, C>>,
    index: u32,
    scan: &Scan,
) -> Result<Reply, NoMemory>
    requires enters { MayEnter lock.now pass.old }
    requires on { OnRoot (part pass.old) (λ root. IsOn schema.now root.work) }
    requires next { IsLooking (part pass.old) index scan.now.at }
    requires command { IsCommand (part pass.old) (number pass.old) index (Command.Scan scan.now) }
    requires few { index + 1 < 2 ^ 32 }
    ensures pass { IsBack pass.old pass.new }
    ensures upkeep { KeepsUpkeep (part pass.old) (part pass.new) }
    ensures home { HasNoLog (part pass.new) }
    ensures root { SameRoot (part pass.old) (part pass.new) }
    ensures open { OnOk result (OnRoot (part pass.old) (λ root. IsOpen root (number pass.old) index (seen pass.old))) }
    ensures reply { IfOk result (λ reply. AfterCommand (part pass.old) (part pass.new) (seen pass.old) (seen pass.new) (number pass.old) index reply) }
    ensures unwritten { (ts : ℕ) (outcomes : List Outcome) → result ≢ Ok (Reply.At ts outcomes) }
    ensures memory { OnErr result (LacksReply (number pass.old) index (part pass.old) (part pass.new) (seen pass.old) (seen pass.new)) }
{
    for _ in rt.forever() {
        match read_once(rt, alloc, lock, pass, index, scan.at) {
            ScanTurn::Read(snap) => {
                let rows = snap_shown(alloc, schema, &snap, scan)?;
                return Ok(Reply::Rows { t: snap.t, rows });
            }
            ScanTurn::Told(reply) => return Ok(reply),
            ScanTurn::Wait => lock.rest(rt, pass),
            ScanTurn::Memory => return Err(NoMemory),
        }
    }
    unreachable!()
}

impl<L: Disk, D: Disk + Drop, C: Clock> SharedTablet<L, D, C> {
    /// A scan, of the present or at a given time. The same holds of its reply as of a write's. After want of memory the
    /// line that answers it may stand.
    pub fn scan<R: Wait>(
        &self,
        rt: &R,
        alloc: Global,
        schema: &Schema,
        pass: &mut Pass<Engine<L, D, C>>,
        index: u32,
        scan: &Scan,
    ) -> Result<Reply, NoMemory>
        requires enters { MayEnter self.now.lock pass.old }
        requires on { OnRoot (part pass.old) (λ root. IsOn schema.now root.work) }
        requires next { IsFree (part pass.old) index }
        requires command { IsCommand (part pass.old) (number pass.old) index (Command.Scan scan.now) }
        requires few { index + 1 < 2 ^ 32 }
        ensures pass { IsBack pass.old pass.new }
        ensures upkeep { KeepsUpkeep (part pass.old) (part pass.new) }
        ensures home { HasNoLog (part pass.new) }
        ensures root { SameRoot (part pass.old) (part pass.new) }
        ensures reply { IfOk result (λ reply. AfterCommand (part pass.old) (part pass.new) (seen pass.old) (seen pass.new) (number pass.old) index reply) }
        ensures answer { IfOk result (λ reply. reply ≢ Reply.Stopped → OnRoot (part pass.old) (λ root. IsAnswered root (number pass.old) index reply (seen pass.new))) }
        ensures unwritten { (ts : ℕ) (outcomes : List Outcome) → result ≢ Ok (Reply.At ts outcomes) }
        ensures memory { OnErr result (LacksReply (number pass.old) index (part pass.old) (part pass.new) (seen pass.old) (seen pass.new)) }
    {
        match draw_time(rt, &self.lock, pass, index, scan.at) {
            Ok(()) => read_rows(rt, alloc, schema, &self.lock, pass, index, scan),
            Err(Halt::Stopped) => Ok(Reply::Stopped),
            Err(Halt::Memory) => Err(NoMemory),
        }
    }
}
