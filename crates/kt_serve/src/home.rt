//! The log as a pass brings it home that was not appended to.
ghost use Rattle.std.specs.Prelude.{◌≡◌, [], true, IsTrue};
ghost use Rattle.kt_journal.specs.Log.{CanOpen};
ghost use Rattle.kt_seatlock.specs.Passes.{number, seen, part, MayEnter, IsBack};
ghost use Rattle.kt_serve.specs.Homes.{IsBroken, Returns};
ghost use Rattle.kt_serve.specs.Maintained.{KeepsUpkeep};
ghost use Rattle.kt_serve.specs.Sessions.{HasNoLog, HasLog, IsStill, has_stop};

use kt_base::Clock;
use kt_disk::Disk;
use kt_engine::{Broken, Engine};
use kt_loglaws::Batch;
use kt_records::RecordList;
use kt_seatlock::{Pass, SeatLock};
use std::sync::Wait;

/// No record is left. The room that they had stays.
pub fn emptied(records: RecordList) -> RecordList
    ensures { result ≡ [] }
{
    let mut records = records.into_vec();
    records.clear();
    RecordList::of(records)
}

/// Brings home a log whose batch was not written for want of memory: it is queued again.
pub fn take_back<L: Disk, D: Disk + Drop, C: Clock, R: Wait>(
    rt: &R,
    lock: &SeatLock<Engine<L, D, C>>,
    pass: &mut Pass<Engine<L, D, C>>,
    batch: Batch<L>,
)
    requires enters { MayEnter lock.now pass.old }
    requires lent { HasLog (part pass.old) batch.journal batch.records }
    requires opens { IsTrue L.tells → CanOpen L.now L.leaves batch.journal.disk }
    ensures pass { IsBack pass.old pass.new }
    ensures upkeep { KeepsUpkeep (part pass.old) (part pass.new) }
    ensures still { IsStill (number pass.old) (part pass.old) (part pass.new) (seen pass.old) (seen pass.new) }
    ensures home { HasNoLog (part pass.new) }
{
    let by = pass.number();
    let mut engine = lock.enter(rt, pass);
    engine.log_back(by, batch);
    lock.leave(pass, engine);
}

/// Brings home a log whose device failed, and stops the tablet. The records are let go of before the visit.
pub fn take_broken<L: Disk, D: Disk + Drop, C: Clock, R: Wait>(
    rt: &R,
    lock: &SeatLock<Engine<L, D, C>>,
    pass: &mut Pass<Engine<L, D, C>>,
    mut batch: Batch<L>,
)
    requires enters { MayEnter lock.now pass.old }
    requires broken { Returns (IsBroken L.tells L.seen L.now L.leaves L.faults) (part pass.old) batch.journal }
    ensures pass { IsBack pass.old pass.new }
    ensures upkeep { KeepsUpkeep (part pass.old) (part pass.new) }
    ensures still { IsStill (number pass.old) (part pass.old) (part pass.new) (seen pass.old) (seen pass.new) }
    ensures home { HasNoLog (part pass.new) }
    ensures stopped { has_stop (seen pass.new) ≡ true }
{
    let by = pass.number();
    batch.records = emptied(batch.records);
    let mut engine = lock.enter(rt, pass);
    engine.standing();
    engine.stop(by, Broken::Log(batch));
    lock.leave(pass, engine);
}
