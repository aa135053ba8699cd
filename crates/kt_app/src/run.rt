//! A run of a plan on an engine that was opened, to its output text.
ghost use Rattle.std.specs.Prelude.{◌≡◌, ◌+◌, ◌^◌, ℕ, ◌<◌, ◌≤◌, [], IfSome, IfOk, OnOk, IsTrue, Ok, Option, None, false, true, map, length, All};
ghost use Rattle.kt_base.specs.Causes.{Grows};
ghost use Rattle.kt_journal.specs.Log.{CanOpen};
ghost use Rattle.kt_history.specs.Machine.{first_turns};
ghost use Rattle.kt_script.specs.Fit.{PlanFits};
ghost use Rattle.kt_script.specs.Loads.{IsLoad};
ghost use Rattle.kt_storeside.specs.Supers.{NamedStand};
ghost use Rattle.kt_reopen.specs.Opened.{OneRose};
ghost use Rattle.kt_disk.specs.Disk.{Files};
ghost use Rattle.kt_engine.specs.Engines.{KeepsOthers};
ghost use Rattle.kt_engine.specs.Logged.{HoldsRecords};
ghost use Rattle.kt_engine.specs.Near.{IsUpTo, IsBelow};
ghost use Rattle.kt_engine.specs.Visits.{root_of};
ghost use Rattle.kt_serve.specs.declared.session.SessionEnd.{SessionEnd};
ghost use Rattle.kt_seatlock.specs.Passes.{number, given, passes_of, IsVacant, IsPassOf};
ghost use Rattle.kt_serve.specs.Scans.{IsOn};
ghost use Rattle.kt_app.specs.Images.{CrashLeaves, Both, SpellNear};
ghost use Rattle.kt_app.specs.Moments.{LogGrew};
ghost use Rattle.kt_storeside.specs.Published.{WasPublished};
ghost use Rattle.kt_app.specs.Session.{IsCounted};
ghost use Rattle.kt_app.specs.Played.{IsFresh, KeptOn, RanOn, IsWhole, HasPlayed};
ghost use Rattle.kt_app.specs.Loaded.{IsText};
ghost use Rattle.kt_app.specs.declared.load.Load.{Load as LoadSpec};

use crate::chores::Jobs;
use crate::load::{Load, load_now, load_text};
use crate::text::{Output, RunEnd, output_of};
use kt_base::{Clock, NoMemory};
use kt_disk::{Disk, Gate};
use kt_engine::{Engine, Parts};
use kt_history::{EventList, Plan, Session};
use kt_loadlaws::laws::summary_law;
use kt_schema::Schema;
use kt_seatlock::{Pass, SeatLock};
use kt_serve::{End, Halt, Ran as Ended, SessionEnd, SessionReplies, run_sessions};
use std::alloc::Global;
use std::sync::Wait;
use std::thread::Threads;

/// The replies of a run, and whether a device fault stopped it.
#[derive(Drop)]
pub struct Played {
    pub stopped: bool,
    pub replies: Vec<SessionReplies>,
}

// Whether want of memory has halted a session.
fn is_lost(end: &SessionEnd) -> bool
    ensures { result ≡ false → IsWhole end.now }
{
    match end.halt {
        Some(Halt::Memory) => true,
        Some(Halt::Stopped) => false,
        None => false,
    }
}

// Whether it has halted none of them.
fn are_whole(ends: &[SessionEnd]) -> bool
    ensures { result ≡ true → All IsWhole ends.now }
{
    for end in ends {
        if is_lost(end) {
            return false;
        }
    }
    true
}

// The replies of all sessions.
fn replies_of(alloc: Global, ends: Vec<SessionEnd>) -> Result<Vec<SessionReplies>, NoMemory>
    ensures { IfOk result (λ replies. replies.items ≡ map (λ (e : SessionEnd). e.replies) ends.items) }
{
    let mut replies = Vec::with_capacity(alloc, ends.len())?;
    for end in ends {
        replies.push(end.replies)?;
    }
    Ok(replies)
}

// The replies of all sessions, unless memory was wanting for one of them.
fn gather(alloc: Global, ends: Vec<SessionEnd>, stopped: bool) -> Result<Played, NoMemory>
    ensures stopped { IfOk result (λ played. played.stopped ≡ stopped) }
    ensures replies { IfOk result (λ played. played.replies.items ≡ map (λ (e : SessionEnd). e.replies) ends.items) }
    ensures whole { OnOk result (All IsWhole ends.items) }
{
    if !are_whole(&ends) {
        return Err(NoMemory);
    }
    let replies = replies_of(alloc, ends)?;
    Ok(Played { stopped, replies })
}

// Runs the sessions of a plan that the engine has, and so many workers beside them, each in a thread. Where more cells are in use than these as a session begins,
// it makes room first.
fn play<
    L: Disk + Send,
    D: Disk + Drop + Send,
    C: Clock + Send,
    G: Gate + Sync,
    R: Threads + Wait + Sync,
>(
    rt: &R,
    alloc: Global,
    schema: &Schema,
    plan: &Plan,
    lock: SeatLock<Engine<L, D, C>>,
    pass: Pass<Engine<L, D, C>>,
    engine: Engine<L, D, C>,
    cells: u32,
    workers: u32,
    gate: &G,
) -> (Result<Played, NoMemory>, Engine<L, D, C>)
    requires counted { IsCounted schema.now }
    requires fits { PlanFits schema.now plan.now }
    requires own { IsPassOf lock pass × IsVacant pass × (given pass ≡ 1) × (number pass ≡ 0) }
    requires passes { length plan.now + workers < passes_of lock }
    requires on { IsOn schema.now engine.tablet.core.work × (engine.tablet.core.work.plan ≡ plan.now) }
    requires fresh { (engine.tablet.core.trail ≡ []) × (engine.tablet.core.aloft ≡ []) × (engine.log.holder ≡ None) × (engine.store.holder ≡ None) }
    requires turns { engine.tablet.core.turns ≡ first_turns plan.now }
    ensures root { root_of result.1 ≡ root_of engine }
    ensures home { (result.1.log.holder ≡ None) × (result.1.store.holder ≡ None) }
    ensures played { IfOk result.0 (λ played. HasPlayed result.1 plan.now played.stopped played.replies.items) }
{
    match run_sessions(
        rt,
        alloc,
        schema,
        lock,
        pass,
        engine,
        plan.as_slice(),
        workers,
        gate,
        &Jobs { gate, cells },
    ) {
        Ok(Ended { ends, end, engine }) => match end {
            End::Done => (gather(alloc, ends, false), engine),
            End::Stopped => (gather(alloc, ends, true), engine),
            End::Memory => (Err(NoMemory), engine),
        },
        Err(engine) => (Err(NoMemory), engine),
    }
}

// What is printed of a run with these replies, this history and this end: its output text, or the summary of a load that leaves this.
fn printed(
    alloc: Global,
    schema: &Schema,
    plan: &[Session],
    load: Result<Option<Load>, NoMemory>,
    replies: Vec<SessionReplies>,
    trail: &EventList,
    end: &RunEnd,
) -> Result<Output, NoMemory>
    ensures stopped { IfOk result (λ out. out.stopped ≡ end.now.stopped) }
    ensures text { IfOk result (λ out. (l : Option LoadSpec) × (load ≡ Ok l) × IsText schema.now plan.now l replies.items trail.now end.now.stopped end.now.a end.now.c end.now.rowsets out.text) }
{
    match load? {
        Some(load) => {
            let text = load_text(alloc, &load, &replies, end.stopped)?;
            Ok(Output {
                stopped: end.stopped,
                text,
            })
        }
        None => output_of(alloc, schema, plan, replies, trail, end),
    }
}

/// Runs a plan on an engine that was opened, and so many workers beside it, and gives what is printed of it, unless memory is wanting, and what the engine is
/// taken apart into. Of a load that is its summary. A session that begins where more cells are in use than these makes room first. The lock is made before there is an engine, so that no want of memory loses one.
pub fn run_plan<
    L: Disk + Send,
    D: Disk + Drop + Send,
    C: Clock + Send,
    G: Gate + Sync,
    R: Threads + Wait + Sync,
>(
    rt: &R,
    alloc: Global,
    schema: &Schema,
    plan: &Plan,
    lock: SeatLock<Engine<L, D, C>>,
    pass: Pass<Engine<L, D, C>>,
    mut engine: Engine<L, D, C>,
    load: Option<u32>,
    cells: u32,
    workers: u32,
    gate: &G,
) -> (Option<Output>, Parts<L, D, C>)
    requires counted { IsCounted schema.now }
    requires fits { PlanFits schema.now plan.now }
    requires own { IsPassOf lock pass × IsVacant pass × (given pass ≡ 1) × (number pass ≡ 0) }
    requires passes { length plan.now + workers < passes_of lock }
    requires fresh { IsFresh engine }
    requires work { IsOn schema.now engine.tablet.core.work }

    // A load is of its table and its plan, and each of its writes has room.
    requires load { IfSome load (λ n. IsLoad schema.now plan.now n × (1024 ≤ engine.tablet.core.work.cells)) }

    // What was printed is that of a run of the plan from what opening found, in which the clock gave what it gave
    // in this call. By rules of the table that take each write of the plan, and by which its devices held what opening found, a crash now leaves what
    // the run made of that.
    ensures run { IfSome result.0 (λ out. RanOn (Grows (C.readings engine.tablet.clock) (C.readings result.1.clock)) engine schema.now plan.now
        (Both (CrashLeaves L.tells L.now L.leaves result.1.log) (CrashLeaves D.tells D.now D.leaves result.1.store)) result.1.trail load out.stopped (length result.1.meta.rowsets) out.text) }

    // Whatever became of its text, the lines that are handed back are a run, and a crash now leaves the first of its writes.
    ensures kept { KeptOn (Grows (C.readings engine.tablet.clock) (C.readings result.1.clock)) engine schema.now plan.now
        (Both (CrashLeaves L.tells L.now L.leaves result.1.log) (CrashLeaves D.tells D.now D.leaves result.1.store)) result.1.trail }

    // It leaves all files of the log's device but the log as they were handed in, and behind the records that opening found those whose COMMITs
    // name no number that is far above those that opening gave.
    ensures others { IsTrue L.tells → KeepsOthers L.now L.leaves engine.device result.1.log }
    ensures named { (files : Files) → CrashLeaves L.tells L.now L.leaves result.1.log files → (bound : ℕ) → 1 ≤ bound → engine.first_rowset ≤ bound + 1 → All (IsUpTo (bound + 1)) engine.found → HoldsRecords engine.records (IsBelow (bound + 2 ^ 45)) files }
    // No slot of the store spells a superblock that it did not spell as the run began, and whose numbers are far above those that opening gave.
    ensures spelled { (files : Files) → CrashLeaves D.tells D.now D.leaves result.1.store files → SpellNear engine.first_rowset engine.first_file engine.store.first.most (D.seen engine.store.first.device) files }

    // At each moment of the run a crash left of the log what was durable then, or that and the batch that was out, and of the store the superblock that was
    // published, or the one that went out to be, and the files that it names.
    ensures log_moments { IsTrue L.tells → LogGrew L.seen L.now L.leaves L.faults engine.device engine.log.first result.1.log }
    ensures store_moments { IsTrue D.tells → WasPublished D.seen D.now D.leaves engine.store.first.device result.1.store }

    // The devices may be opened again.
    ensures openable { IsTrue L.tells → CanOpen L.now L.leaves result.1.log }
    ensures stand { IsTrue D.tells → NamedStand D.seen D.now D.leaves result.1.store }

    ensures log_faults { L.faults engine.device ≤ L.faults result.1.log }
    ensures store_faults { D.faults engine.store_device ≤ D.faults result.1.store }
    ensures fault { IfSome result.0 (λ out. IsTrue out.stopped → OneRose (L.faults engine.device) (L.faults result.1.log) (D.faults engine.store_device) (D.faults result.1.store)) }
{
    engine.set_plan(plan);
    let (played, engine) = play(
        rt, alloc, schema, plan, lock, pass, engine, cells, workers, gate,
    );
    engine.standing();
    let (a, c) = engine.times();
    let left = load_now(alloc, schema, load, &engine);
    let parts = engine.take_apart();
    summary_law();
    match played {
        Ok(Played { stopped, replies }) => {
            let end = RunEnd {
                stopped,
                a,
                c,
                rowsets: parts.meta.rowsets.as_slice().len() as u64,
            };
            let output = printed(
                alloc,
                schema,
                plan.as_slice(),
                left,
                replies,
                &parts.trail,
                &end,
            );
            (output.ok(), parts)
        }
        Err(NoMemory) => (None, parts),
    }
}
