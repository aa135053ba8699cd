//! All that a maintenance command asks for.
ghost use Rattle.std.specs.Prelude.{◌≡◌, ◌≢◌, true, Err, IfOk, OnOk, Option};
ghost use Rattle.kt_seatlock.specs.Passes.{number, seen, part, MayEnter, IsBack};
ghost use Rattle.kt_base.specs.declared.chore.Chore.{Chore};
ghost use Rattle.kt_engine.specs.Calls.{SeesOthers, HasNoDevice, StandsStill, HasDone};
ghost use Rattle.kt_engine.specs.Visits.{PartView};
ghost use Rattle.kt_maint.specs.Calls.{HasBegunRound, HasNoJob, has_stop};

use crate::run::run_job;
use kt_base::{Chore, Clock};
use kt_disk::{Disk, Gate};
use kt_engine::{Engine, LookNo, MaintNo, WantList};
use kt_pick::Want;
use kt_seatlock::{Pass, SeatLock};
use std::alloc::Global;
use std::sync::Wait;

// One visit that begins a round of a chore.
fn begin_round<L: Disk, D: Disk + Drop, C: Clock, R: Wait>(
    rt: &R,
    alloc: Global,
    lock: &SeatLock<Engine<L, D, C>>,
    pass: &mut Pass<Engine<L, D, C>>,
    chore: Chore,
) -> Result<WantList, MaintNo>
    requires enters { MayEnter lock.now pass.old }
    requires home { HasNoDevice (part pass.old) }
    ensures pass { IsBack pass.old pass.new }
    ensures still { StandsStill (part pass.old) (part pass.new) }
    ensures quiet { SeesOthers (number pass.old) (seen pass.old) (seen pass.new) }
    ensures home { HasNoDevice (part pass.new) }
    ensures none { HasNoJob (part pass.old) → HasNoJob (part pass.new) }
    ensures begun { IfOk result (λ wants. HasBegunRound chore wants (part pass.old) (part pass.new)) }
    ensures stopped { result ≡ Err MaintNo.Stopped → has_stop (seen pass.new) ≡ true }
{
    let by = pass.number();
    let mut engine = lock.enter(rt, pass);
    engine.standing();
    let wants = engine.round(alloc, by, chore);
    lock.leave(pass, engine);
    match wants {
        Ok(wants) => Ok(wants),
        Err(LookNo::Stopped) => Err(MaintNo::Stopped),
        Err(LookNo::Memory) => Err(MaintNo::Memory),
    }
}

// Runs each of these wants in turn.
fn run_all<L: Disk, D: Disk + Drop, C: Clock, R: Wait, G: Gate>(
    rt: &R,
    alloc: Global,
    lock: &SeatLock<Engine<L, D, C>>,
    pass: &mut Pass<Engine<L, D, C>>,
    wants: &[Want],
    gate: &G,
) -> Result<(), MaintNo>
    requires enters { MayEnter lock.now pass.old }
    requires home { HasNoDevice (part pass.old) }
    ensures pass { IsBack pass.old pass.new }
    ensures still { StandsStill (part pass.old) (part pass.new) }
    ensures quiet { SeesOthers (number pass.old) (seen pass.old) (seen pass.new) }
    ensures done { (chore : Chore) (before : Option (PartView L D C)) → HasBegunRound chore wants.now before (part pass.old) → OnOk result (HasDone chore before (part pass.new)) }
    ensures stopped { result ≡ Err MaintNo.Stopped → has_stop (seen pass.new) ≡ true }
    ensures home { HasNoDevice (part pass.new) }
    ensures none { result ≢ Err MaintNo.Stopped → HasNoJob (part pass.old) → HasNoJob (part pass.new) }
{
    'wants: for want in wants {
        run_job(rt, alloc, lock, pass, want, gate)?;
    }
    Ok(())
}

/// Does all that a chore asks for, as the stores stand when it begins: each want of its round in turn. It is done where nothing of the round is left. The
/// gate is called at the points of each job.
pub fn run_chore<L: Disk, D: Disk + Drop, C: Clock, R: Wait, G: Gate>(
    rt: &R,
    alloc: Global,
    lock: &SeatLock<Engine<L, D, C>>,
    pass: &mut Pass<Engine<L, D, C>>,
    chore: Chore,
    gate: &G,
) -> Result<(), MaintNo>
    requires enters { MayEnter lock.now pass.old }
    requires home { HasNoDevice (part pass.old) }
    ensures pass { IsBack pass.old pass.new }
    ensures still { StandsStill (part pass.old) (part pass.new) }
    ensures quiet { SeesOthers (number pass.old) (seen pass.old) (seen pass.new) }
    ensures done { OnOk result (HasDone chore (part pass.old) (part pass.new)) }
    ensures stopped { result ≡ Err MaintNo.Stopped → has_stop (seen pass.new) ≡ true }
    ensures home { HasNoDevice (part pass.new) }
    ensures none { result ≢ Err MaintNo.Stopped → HasNoJob (part pass.old) → HasNoJob (part pass.new) }
{
    let wants = begin_round(rt, alloc, lock, pass, chore)?;
    run_all(rt, alloc, lock, pass, wants.as_slice(), gate)
}
