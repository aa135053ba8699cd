//! The top call: it reads a script, opens both devices, runs the commands and prints what came of them.

ghost use Rattle.std.specs.Prelude.{◌≡◌, ◌+◌, ◌^◌, ◌≢◌, ◌⊎◌, IsTrue, ◌≤◌, ◌<◌, ◌++◌, ◌∷◌, [], Bool, true, false, None, Ok, Err, IfOk, IfErr, IfSome, Some, IsErrOf, map, length, List, ℕ, All};
ghost use Rattle.std.specs.Fmt.{decimal};
ghost use Rattle.std.specs.Io.KnownBytes.{Appends};
ghost use Rattle.kt_base.specs.Causes.{Grows, Rose};
ghost use Rattle.kt_journal.specs.Log.{CanOpen};
ghost use Rattle.kt_script.specs.Fit.{PlanFits};
ghost use Rattle.kt_script.specs.Loads.{IsLoad};
ghost use Rattle.kt_script.specs.Scripts.{Said, Fault, script_of, workload};
ghost use Rattle.kt_words.specs.Words.{settings_in};
ghost use Rattle.kt_words.specs.declared.run.Settings.{Settings};
ghost use Rattle.kt_reopen.specs.Both.{Found, Answers};
ghost use Rattle.kt_storeside.specs.Supers.{NamedStand};
ghost use Rattle.kt_reopen.specs.Opened.{IsRefusal, OneRose};
ghost use Rattle.kt_app.specs.Headline.{IsNoScript};
ghost use Rattle.kt_app.specs.Images.{CrashLeaves, IsRead, Both, KeepsFiles, LeavesAsBefore, NumbersAreNear, SpellNear};
ghost use Rattle.kt_app.specs.Moments.{LogGrew, LogThroughout, StoreThroughout};
ghost use Rattle.kt_storeside.specs.Published.{WasPublished};
ghost use Rattle.kt_app.specs.Refusals.{IsSaid, IsLoadSaid, IsFaultOf, IsRefused, fault_text, refusal_text};
ghost use Rattle.kt_app.specs.Crash.{Refuses, RunsPlan, RunsScript, LeavesFirst};
ghost use Rattle.kt_disk.specs.Disk.{Files};
ghost use Rattle.kt_engine.specs.Engines.{KeepsOthers};
ghost use Rattle.kt_engine.specs.Logged.{HoldsRecords};
ghost use Rattle.kt_engine.specs.Near.{IsUpTo, IsBelow};
ghost use Rattle.kt_app.specs.Session.{IsCounted};
ghost use Rattle.kt_seatlock.specs.Passes.{number, given, passes_of, IsVacant, IsPassOf};
ghost use Rattle.kt_serve.specs.Scans.{IsOn};
ghost use Rattle.kt_app.specs.Played.{IsFresh, KeptOn, RanOn};
ghost use Rattle.kt_streams.specs.Outside.{WritesFront};

use crate::run::run_plan;
use crate::text::Output;
use kt_base::{Clock, NoMemory, Octets, Sink, Source};
use kt_boot::{Closed, open_tablet};
use kt_disk::{Disk, Gate};
use kt_engine::{Engine, Parts};
use kt_history::Plan;
use kt_reopen::Why;
use kt_schema::Schema;
use kt_script::number::print_number;
use kt_script::{Script, ScriptNo, read_script};
use kt_seatlock::{Pass, SeatLock};
use kt_streams::{ReadNo, read_all, write_all};
use kt_words::{WordsNo, read_words};
use std::alloc::Global;
use std::sync::Wait;
use std::thread::Threads;
use thiserror::Error;

/// What a call of the program ends with: its status, and its devices and its clock.
#[derive(Drop)]
pub struct Ended<L, D, C> {
    pub status: u8,
    pub log: L,
    pub store: D,
    pub clock: C,
}

/// Why no script was read.
#[derive(Clone, Copy, Debug, PartialEq, Eq, Error)]
pub enum SourceNo {
    #[error("line {number} of the script is refused for reason {reason}")]
    Line { number: u64, reason: u8 },
    #[error("the source failed")]
    Failed,
    #[error("out of memory")]
    Memory,
}

/// Reading stops after so many bytes, which is one more than a script may have.
const MANY: usize = 67_108_865;

// Reads a script.
fn take_script<S: Source>(alloc: Global, source: &mut S) -> Result<Script, SourceNo>
    ensures said { IfOk result (λ s. IsSaid (S.left source.old) (record { columns = s.schema; plan = s.plan })) }
    ensures load { IfOk result (λ s. IsLoadSaid (S.left source.old) s.load) }
    ensures loads { IfOk result (λ s. IfSome s.load (λ n. IsLoad s.schema s.plan n)) }
    ensures fits { IfOk result (λ s. PlanFits s.schema s.plan) }
    ensures table { IfOk result (λ s. IsCounted s.schema) }
    ensures not_taken { IfErr result (IsRefused (S.left source.old)) }
    ensures failed { IsErrOf result SourceNo.Failed → Rose (S.faults source.old) (S.faults source.new) }
{
    let bytes = match read_all(alloc, source, MANY) {
        Ok(bytes) => bytes,
        Err(ReadNo::Failed) => return Err(SourceNo::Failed),
        Err(ReadNo::Memory) => return Err(SourceNo::Memory),
    };
    match read_script(alloc, &bytes) {
        Ok(script) => Ok(script),
        Err(ScriptNo::Line { number, reason }) => Err(SourceNo::Line { number, reason }),
        Err(ScriptNo::Memory) => Err(SourceNo::Memory),
    }
}

// So many workers run at most.
const WORKERS_MOST: u32 = 4;

const USAGE: &[u8] = b"usage: run [--workers N] [--pool CELLS]\n";

// Writes the text of a status.
fn finish<K: Sink>(sink: &mut K, text: &[u8], status: u8) -> u8
    requires { status < 6 }
    ensures whole { result ≢ 6 → (result ≡ status) × Appends (K.written sink.old) (K.written sink.new) text.now }
    ensures cut { result ≡ 6 → Rose (K.faults sink.old) (K.faults sink.new) × WritesFront (K.written sink.old) (K.written sink.new) text.now }
{
    match write_all(sink, text) {
        Ok(()) => status,
        Err(_) => 6,
    }
}

const STOPPED_OPENING: &[u8] = b"stopped opening\n";

// The line of a refusal with one number.
fn refused_line(alloc: Global, word: &[u8], number: u64) -> Result<Octets, NoMemory>
    ensures { IfOk result (λ text. text ≡ word.now ++ decimal number ++ 10 ∷ []) }
{
    let mut text = Octets::from_slice(alloc, word)?;
    print_number(number, &mut text)?;
    text.push(b'\n')?;
    Ok(text)
}

// And with two.
fn refused_pair(alloc: Global, word: &[u8], first: u64, second: u64) -> Result<Octets, NoMemory>
    ensures { IfOk result (λ text. text ≡ word.now ++ decimal first ++ 32 ∷ decimal second ++ 10 ∷ []) }
{
    let mut text = Octets::from_slice(alloc, word)?;
    print_number(first, &mut text)?;
    text.push(b' ')?;
    print_number(second, &mut text)?;
    text.push(b'\n')?;
    Ok(text)
}

// The line of a first fault.
fn fault_line(alloc: Global, number: u64, reason: u8) -> Result<Octets, NoMemory>
    ensures { IfOk result (λ text. text ≡ fault_text (record { number = number; reason = reason })) }
{
    let mut text = Octets::from_slice(alloc, b"script line ")?;
    print_number(number, &mut text)?;
    text.extend(b" reason ")?;
    print_number(u64::from(reason), &mut text)?;
    text.push(b'\n')?;
    Ok(text)
}

// Writes the first fault of a script.
fn refuse_script<K: Sink>(alloc: Global, sink: &mut K, number: u64, reason: u8) -> u8
    ensures refused { result ≡ 2 → Appends (K.written sink.old) (K.written sink.new) (fault_text (record { number = number; reason = reason })) }
    ensures cut { result ≡ 6 → Rose (K.faults sink.old) (K.faults sink.new) × WritesFront (K.written sink.old) (K.written sink.new) (fault_text (record { number = number; reason = reason })) }
    ensures memory { result ≡ 7 → Appends (K.written sink.old) (K.written sink.new) [] }
    ensures statuses { (result ≡ 2) ⊎ (result ≡ 6) ⊎ (result ≡ 7) }
{
    match fault_line(alloc, number, reason) {
        Ok(text) => finish(sink, text.as_slice(), 2),
        Err(NoMemory) => 7,
    }
}

// The line of what both devices hold. A fault of a device and want of memory have none.
fn refusal_line(alloc: Global, no: Why) -> Result<Octets, NoMemory>
    requires { IsRefusal no }
    ensures { IfOk result (λ text. text ≡ refusal_text no) }
{
    match no {
        Why::B1 { slot, offset } => refused_pair(alloc, b"refused B1 ", slot, offset),
        Why::B2 { file, offset } => refused_pair(alloc, b"refused B2 ", file, offset),
        Why::B3 { offset } => refused_line(alloc, b"refused B3 ", offset),
        Why::B4 { need, found } => refused_pair(alloc, b"refused B4 ", need, found),
        Why::B5 { column } => refused_line(alloc, b"refused B5 ", u64::from(column)),
        Why::B6 { last } => refused_line(alloc, b"refused B6 ", last),
        Why::Fault | Why::Memory => unreachable!(),
    }
}

// Refuses devices that hold nothing else.
fn refuse_with<K: Sink>(alloc: Global, sink: &mut K, no: Why) -> u8
    requires { IsRefusal no }
    ensures refused { result ≡ 3 → Appends (K.written sink.old) (K.written sink.new) (refusal_text no) }
    ensures cut { result ≡ 6 → Rose (K.faults sink.old) (K.faults sink.new) × WritesFront (K.written sink.old) (K.written sink.new) (refusal_text no) }
    ensures memory { result ≡ 7 → Appends (K.written sink.old) (K.written sink.new) [] }
    ensures statuses { (result ≡ 3) ⊎ (result ≡ 6) ⊎ (result ≡ 7) }
{
    match refusal_line(alloc, no) {
        Ok(text) => finish(sink, text.as_slice(), 3),
        Err(NoMemory) => 7,
    }
}

// Writes why the devices were not opened.
fn refuse<K: Sink>(alloc: Global, sink: &mut K, no: Why) -> u8
    ensures refused { result ≡ 3 → IsRefusal no × Appends (K.written sink.old) (K.written sink.new) (refusal_text no) }
    ensures fault { result ≡ 4 → (no ≡ Why.Fault) × Appends (K.written sink.old) (K.written sink.new) STOPPED_OPENING.now }
    ensures cut { result ≡ 6 → Rose (K.faults sink.old) (K.faults sink.new) × WritesFront (K.written sink.old) (K.written sink.new) (refusal_text no) × (IsRefusal no ⊎ (no ≡ Why.Fault)) }
    ensures memory { result ≡ 7 → Appends (K.written sink.old) (K.written sink.new) [] }
    ensures statuses { (result ≡ 3) ⊎ (result ≡ 4) ⊎ (result ≡ 6) ⊎ (result ≡ 7) }
{
    match no {
        Why::Fault => finish(sink, STOPPED_OPENING, 4),
        Why::Memory => 7,
        _ => refuse_with(alloc, sink, no),
    }
}

// The status of a run, whose output is written.
fn write_output<K: Sink>(sink: &mut K, output: &Output) -> u8
    ensures printed { result ≡ 0 → (output.now.stopped ≡ false) × Appends (K.written sink.old) (K.written sink.new) output.now.text }
    ensures stopped { result ≡ 4 → (output.now.stopped ≡ true) × Appends (K.written sink.old) (K.written sink.new) output.now.text }
    ensures cut { result ≡ 6 → Rose (K.faults sink.old) (K.faults sink.new) × WritesFront (K.written sink.old) (K.written sink.new) output.now.text }
    ensures statuses { (result ≡ 0) ⊎ (result ≡ 4) ⊎ (result ≡ 6) }
{
    let status = if output.stopped { 4 } else { 0 };
    finish(sink, output.text.as_slice(), status)
}

// Runs a plan on an engine that was opened, and writes its output.
fn run_and_write<
    K: Sink,
    L: Disk + Send,
    D: Disk + Drop + Send,
    C: Clock + Send,
    G: Gate + Sync,
    R: Threads + Wait + Sync,
>(
    rt: &R,
    alloc: Global,
    schema: &Schema,
    plan: &Plan,
    lock: SeatLock<Engine<L, D, C>>,
    pass: Pass<Engine<L, D, C>>,
    engine: Engine<L, D, C>,
    load: Option<u32>,
    cells: u32,
    workers: u32,
    sink: &mut K,
    gate: &G,
) -> (u8, Parts<L, D, C>)
    requires counted { IsCounted schema.now }
    requires fits { PlanFits schema.now plan.now }
    requires own { IsPassOf lock pass × IsVacant pass × (given pass ≡ 1) × (number pass ≡ 0) }
    requires passes { length plan.now + workers < passes_of lock }
    requires fresh { IsFresh engine }
    requires work { IsOn schema.now engine.tablet.core.work }
    requires load { IfSome load (λ n. IsLoad schema.now plan.now n × (1024 ≤ engine.tablet.core.work.cells)) }
    ensures printed { result.0 ≡ 0 → (text : List ℕ) × Appends (K.written sink.old) (K.written sink.new) text × RanOn (Grows (C.readings engine.tablet.clock) (C.readings result.1.clock)) engine schema.now plan.now (Both (CrashLeaves L.tells L.now L.leaves result.1.log) (CrashLeaves D.tells D.now D.leaves result.1.store)) result.1.trail load false (length result.1.meta.rowsets) text }
    ensures stopped { result.0 ≡ 4 → (text : List ℕ) × Appends (K.written sink.old) (K.written sink.new) text × RanOn (Grows (C.readings engine.tablet.clock) (C.readings result.1.clock)) engine schema.now plan.now (Both (CrashLeaves L.tells L.now L.leaves result.1.log) (CrashLeaves D.tells D.now D.leaves result.1.store)) result.1.trail load true (length result.1.meta.rowsets) text }
    ensures fault { result.0 ≡ 4 → OneRose (L.faults engine.device) (L.faults result.1.log) (D.faults engine.store_device) (D.faults result.1.store) }
    ensures cut { result.0 ≡ 6 → (text : List ℕ) × (stopped : Bool) × WritesFront (K.written sink.old) (K.written sink.new) text × RanOn (Grows (C.readings engine.tablet.clock) (C.readings result.1.clock)) engine schema.now plan.now (Both (CrashLeaves L.tells L.now L.leaves result.1.log) (CrashLeaves D.tells D.now D.leaves result.1.store)) result.1.trail load stopped (length result.1.meta.rowsets) text × (stopped ≡ true → OneRose (L.faults engine.device) (L.faults result.1.log) (D.faults engine.store_device) (D.faults result.1.store)) }
    ensures sink_fault { result.0 ≡ 6 → Rose (K.faults sink.old) (K.faults sink.new) }
    ensures memory { result.0 ≡ 7 → Appends (K.written sink.old) (K.written sink.new) [] }
    ensures statuses { (result.0 ≡ 0) ⊎ (result.0 ≡ 4) ⊎ (result.0 ≡ 6) ⊎ (result.0 ≡ 7) }
    ensures kept { KeptOn (Grows (C.readings engine.tablet.clock) (C.readings result.1.clock)) engine schema.now plan.now (Both (CrashLeaves L.tells L.now L.leaves result.1.log) (CrashLeaves D.tells D.now D.leaves result.1.store)) result.1.trail }
    ensures others { IsTrue L.tells → KeepsOthers L.now L.leaves engine.device result.1.log }
    ensures named { (files : Files) → CrashLeaves L.tells L.now L.leaves result.1.log files → (bound : ℕ) → 1 ≤ bound → engine.first_rowset ≤ bound + 1 → All (IsUpTo (bound + 1)) engine.found → HoldsRecords engine.records (IsBelow (bound + 2 ^ 45)) files }
    ensures spelled { (files : Files) → CrashLeaves D.tells D.now D.leaves result.1.store files → SpellNear engine.first_rowset engine.first_file engine.store.first.most (D.seen engine.store.first.device) files }
    ensures log_moments { IsTrue L.tells → LogGrew L.seen L.now L.leaves L.faults engine.device engine.log.first result.1.log }
    ensures store_moments { IsTrue D.tells → WasPublished D.seen D.now D.leaves engine.store.first.device result.1.store }
    ensures openable { IsTrue L.tells → CanOpen L.now L.leaves result.1.log }
    ensures stand { IsTrue D.tells → NamedStand D.seen D.now D.leaves result.1.store }
{
    let (output, parts) = run_plan(
        rt, alloc, schema, plan, lock, pass, engine, load, cells, workers, gate,
    );
    match output {
        Some(output) => (write_output(sink, &output), parts),
        None => (7, parts),
    }
}

// A lock with room for the sessions of a plan and so many workers, which is made before there is a tablet to put in: so want of memory for it loses no device.
fn make_ready<L: Disk, D: Disk + Drop, C: Clock>(
    alloc: Global,
    plan: &Plan,
    workers: u32,
) -> Result<(SeatLock<Engine<L, D, C>>, Pass<Engine<L, D, C>>), NoMemory>
    requires few { length plan.now ≤ 64 }
    requires workers { workers ≤ 4 }
    ensures own { IfOk result (λ r. IsPassOf r.0 r.1 × IsVacant r.1 × (given r.1 ≡ 1) × (number r.1 ≡ 0)) }
    ensures passes { IfOk result (λ r. length plan.now + workers < passes_of r.0) }
{
    let passes = plan.as_slice().len() as u32 + workers + 1;
    match SeatLock::vacant(alloc, passes) {
        Ok(made) => Ok(made),
        Err(_) => Err(NoMemory),
    }
}

// Opens both devices, and runs a plan over them in which no write needs more cells than these, and so many workers beside it.
fn open_and_run<
    K: Sink,
    L: Disk + Send,
    D: Disk + Drop + Send,
    C: Clock + Send,
    G: Gate + Sync,
    R: Threads + Wait + Sync,
>(
    rt: &R,
    alloc: Global,
    schema: &Schema,
    plan: &Plan,
    load: Option<u32>,
    cells: u32,
    workers: u32,
    log: L,
    store: D,
    clock: C,
    sink: &mut K,
    gate: &G,
) -> Ended<L, D, C>
    requires counted { IsCounted schema.now }
    requires fits { PlanFits schema.now plan.now }
    requires workers { workers ≤ 4 }
    requires load { IfSome load (λ n. IsLoad schema.now plan.now n × (1024 ≤ cells)) }
    requires openable { IsTrue L.tells → CanOpen L.now L.leaves log }
    requires stand { IsTrue D.tells → NamedStand D.seen D.now D.leaves store }
    ensures printed { result.status ≡ 0 → (text : List ℕ) × RunsPlan (Grows (C.readings clock) (C.readings result.clock)) schema.now (Both (IsRead L.tells L.seen log) (IsRead D.tells D.seen store)) (Both (CrashLeaves L.tells L.now L.leaves result.log) (CrashLeaves D.tells D.now D.leaves result.store)) (workload cells (record { columns = schema.now; plan = plan.now })) load false text × Appends (K.written sink.old) (K.written sink.new) text }
    ensures refused { result.status ≡ 3 → (no : Why) × IsRefusal no × Refuses schema.now (Both (IsRead L.tells L.seen log) (IsRead D.tells D.seen store)) no × Appends (K.written sink.old) (K.written sink.new) (refusal_text no) }
    ensures refuses { (no : Why) → IsRefusal no → IsTrue L.tells → IsTrue D.tells → Answers schema.now (L.seen log) (D.seen store) (Err no) → (3 ≤ result.status) }
    ensures stopped { result.status ≡ 4 → OneRose (L.faults log) (L.faults result.log) (D.faults store) (D.faults result.store)
        × (Appends (K.written sink.old) (K.written sink.new) STOPPED_OPENING.now × (result.clock ≡ clock) × LeavesAsBefore schema.now (CrashLeaves L.tells L.now L.leaves log) (CrashLeaves L.tells L.now L.leaves result.log) (CrashLeaves D.tells D.now D.leaves store) (CrashLeaves D.tells D.now D.leaves result.store)
        ⊎ ((text : List ℕ) × RunsPlan (Grows (C.readings clock) (C.readings result.clock)) schema.now (Both (IsRead L.tells L.seen log) (IsRead D.tells D.seen store)) (Both (CrashLeaves L.tells L.now L.leaves result.log) (CrashLeaves D.tells D.now D.leaves result.store)) (workload cells (record { columns = schema.now; plan = plan.now })) load true text × Appends (K.written sink.old) (K.written sink.new) text)) }
    ensures untouched { result.status ≡ 3 → (result.clock ≡ clock) × LeavesAsBefore schema.now (CrashLeaves L.tells L.now L.leaves log) (CrashLeaves L.tells L.now L.leaves result.log) (CrashLeaves D.tells D.now D.leaves store) (CrashLeaves D.tells D.now D.leaves result.store) }
    ensures complete { (found : Found) → IsTrue L.tells → IsTrue D.tells → Answers schema.now (L.seen log) (D.seen store) (Ok found)
        → ¬ Rose (K.faults sink.old) (K.faults sink.new) → ¬ Rose (L.faults log) (L.faults result.log) → ¬ Rose (D.faults store) (D.faults result.store)
        → (result.status ≡ 0) ⊎ (result.status ≡ 7) }
    ensures sink_fault { result.status ≡ 6 → Rose (K.faults sink.old) (K.faults sink.new) }
    ensures cut { result.status ≡ 6 → (text : List ℕ) × WritesFront (K.written sink.old) (K.written sink.new) text
        × ((((no : Why) × IsRefusal no × Refuses schema.now (Both (IsRead L.tells L.seen log) (IsRead D.tells D.seen store)) no × (text ≡ refusal_text no)) ⊎ ((text ≡ STOPPED_OPENING.now) × OneRose (L.faults log) (L.faults result.log) (D.faults store) (D.faults result.store)))
        × (result.clock ≡ clock) × LeavesAsBefore schema.now (CrashLeaves L.tells L.now L.leaves log) (CrashLeaves L.tells L.now L.leaves result.log) (CrashLeaves D.tells D.now D.leaves store) (CrashLeaves D.tells D.now D.leaves result.store)
        ⊎ ((stopped : Bool) × RunsPlan (Grows (C.readings clock) (C.readings result.clock)) schema.now (Both (IsRead L.tells L.seen log) (IsRead D.tells D.seen store)) (Both (CrashLeaves L.tells L.now L.leaves result.log) (CrashLeaves D.tells D.now D.leaves result.store)) (workload cells (record { columns = schema.now; plan = plan.now })) load stopped text × (stopped ≡ true → OneRose (L.faults log) (L.faults result.log) (D.faults store) (D.faults result.store)))) }
    ensures memory { result.status ≡ 7 → Appends (K.written sink.old) (K.written sink.new) [] }
    ensures statuses { (result.status ≡ 0) ⊎ (result.status ≡ 3) ⊎ (result.status ≡ 4) ⊎ (result.status ≡ 6) ⊎ (result.status ≡ 7) }
    ensures crash { LeavesFirst (Grows (C.readings clock) (C.readings result.clock)) (Both (IsRead L.tells L.seen log) (IsRead D.tells D.seen store)) (CrashLeaves L.tells L.now L.leaves log) (CrashLeaves L.tells L.now L.leaves result.log) (CrashLeaves D.tells D.now D.leaves store) (CrashLeaves D.tells D.now D.leaves result.store) cells (record { columns = schema.now; plan = plan.now }) }
    ensures others { KeepsFiles (CrashLeaves L.tells L.now L.leaves log) (CrashLeaves L.tells L.now L.leaves result.log) }
    ensures near { NumbersAreNear (Both (CrashLeaves L.tells L.now L.leaves log) (CrashLeaves D.tells D.now D.leaves store)) (Both (CrashLeaves L.tells L.now L.leaves result.log) (CrashLeaves D.tells D.now D.leaves result.store)) }
    ensures log_moments { IsTrue L.tells → LogThroughout L.seen L.now L.leaves L.faults log result.log }
    ensures store_moments { IsTrue D.tells → StoreThroughout D.seen D.now D.leaves schema.now store result.store }
    ensures openable { IsTrue L.tells → CanOpen L.now L.leaves result.log }
    ensures stand { IsTrue D.tells → NamedStand D.seen D.now D.leaves result.store }
{
    let Ok((lock, pass)) = make_ready::<L, D, C>(alloc, plan, workers) else {
        return end_with(7, log, store, clock);
    };
    match open_tablet(alloc, log, store, clock, schema, cells, cells) {
        Ok(engine) => {
            let (status, parts) = run_and_write(
                rt, alloc, schema, plan, lock, pass, engine, load, cells, workers, sink, gate,
            );
            end_with(status, parts.log, parts.store, parts.clock)
        }
        Err(closed) => {
            lock.unmake(pass);
            let Closed {
                why,
                log,
                store,
                clock,
            } = closed;
            end_with(refuse(alloc, sink, why), log, store, clock)
        }
    }
}

/// The whole program: the words of its command line, what it reads and writes, its log, its store and its clock. It
/// answers the status, and hands the devices and the clock back.
pub fn tablet_main<
    S: Source,
    K: Sink,
    L: Disk + Send,
    D: Disk + Drop + Send,
    C: Clock + Send,
    G: Gate + Sync,
    R: Threads + Wait + Sync,
>(
    rt: &R,
    alloc: Global,
    words: &[&str],
    source: &mut S,
    sink: &mut K,
    log: L,
    store: D,
    clock: C,
    gate: &G,
) -> Ended<L, D, C>
    // Each image that a crash may leave of the log has it, or next to nothing, and nothing is pending of the data files that the superblock of one of the store
    // names.
    requires openable { IsTrue L.tells → CanOpen L.now L.leaves log }
    requires stand { IsTrue D.tells → NamedStand D.seen D.now D.leaves store }

    // On status 0 what was written is the output text of a run of the script that all bytes of the source spell, with as many cells as the words say, over
    // each past that both devices held: each printed reply is that run's, the readings in its history are those that the clock gave in this
    // call, and whatever a crash now leaves of both devices holds all its writes, by the rules of the script's table too where they held that past by these. It is
    // seen from the mark that the last line says, and the superblock says what that line says. Of a script that loads the summary is written in place of that
    // text: the outcomes of its sessions one after another on the rows that there were, and how many rows that leaves and what they sum up to. They are the
    // rows at the run's end.
    ensures printed { result.status ≡ 0 → IfSome (S.left source.old) (λ script. (settings : Settings) × (settings_in (map (λ w. w.now) words.now) ≡ Some settings) × (text : List ℕ)
        × RunsScript (Grows (C.readings clock) (C.readings result.clock)) (Both (IsRead L.tells L.seen log) (IsRead D.tells D.seen store)) (Both (CrashLeaves L.tells L.now L.leaves result.log) (CrashLeaves D.tells D.now D.leaves result.store)) settings.cells false script text × Appends (K.written sink.old) (K.written sink.new) text) }

    // Status 4 comes only where one of both devices has failed in this call. Either they were not opened, or the same holds of a run that
    // ends with `stop`, and whatever a crash leaves has the first of its writes, with every one that has an `end` line.
    ensures stopped { result.status ≡ 4 → OneRose (L.faults log) (L.faults result.log) (D.faults store) (D.faults result.store)
        × (Appends (K.written sink.old) (K.written sink.new) STOPPED_OPENING.now × (result.clock ≡ clock) × ((said : Said) × IsSaid (S.left source.old) said × LeavesAsBefore said.columns (CrashLeaves L.tells L.now L.leaves log) (CrashLeaves L.tells L.now L.leaves result.log) (CrashLeaves D.tells D.now D.leaves store) (CrashLeaves D.tells D.now D.leaves result.store))
        ⊎ IfSome (S.left source.old) (λ script. (settings : Settings) × (settings_in (map (λ w. w.now) words.now) ≡ Some settings) × (text : List ℕ)
        × RunsScript (Grows (C.readings clock) (C.readings result.clock)) (Both (IsRead L.tells L.seen log) (IsRead D.tells D.seen store)) (Both (CrashLeaves L.tells L.now L.leaves result.log) (CrashLeaves D.tells D.now D.leaves result.store)) settings.cells true script text × Appends (K.written sink.old) (K.written sink.new) text)) }

    // Status 1 comes exactly where the words are not in the form, unless the sink or memory fails.
    ensures usage { result.status ≡ 1 → (settings_in (map (λ w. w.now) words.now) ≡ None) × Appends (K.written sink.old) (K.written sink.new) USAGE.now }
    ensures words { settings_in (map (λ w. w.now) words.now) ≡ None → (result.status ≡ 1) ⊎ (result.status ≡ 6) ⊎ (result.status ≡ 7) }

    // Status 2 comes exactly where no script spells the text, unless source, sink or memory fail, and tells its first fault.
    ensures not_taken { result.status ≡ 2 → (fault : Fault) × IsFaultOf (S.left source.old) fault × Appends (K.written sink.old) (K.written sink.new) (fault_text fault) }
    ensures no_script { (script : List ℕ) (settings : Settings) → settings_in (map (λ w. w.now) words.now) ≡ Some settings → S.left source.old ≡ Some script → IsNoScript script → (result.status ≡ 2) ⊎ (5 ≤ result.status) }

    // Status 3 comes exactly where opening answers so to what both devices hold, unless source, sink, a device or memory fail, and tells why.
    ensures refused { result.status ≡ 3 → (said : Said) × IsSaid (S.left source.old) said × (no : Why) × IsRefusal no
        × Refuses said.columns (Both (IsRead L.tells L.seen log) (IsRead D.tells D.seen store)) no × Appends (K.written sink.old) (K.written sink.new) (refusal_text no) }
    ensures refuses { (script : List ℕ) (settings : Settings) (said : Said) (no : Why) → settings_in (map (λ w. w.now) words.now) ≡ Some settings → S.left source.old ≡ Some script → script_of script ≡ Some said
        → IsRefusal no → IsTrue L.tells → IsTrue D.tells → Answers said.columns (L.seen log) (D.seen store) (Err no) → (3 ≤ result.status) }

    // Words in the form, a script, devices that are not refused, and no count that rises: the run is whole, or memory ran out.
    ensures complete { (script : List ℕ) (settings : Settings) (said : Said) (found : Found) → settings_in (map (λ w. w.now) words.now) ≡ Some settings → S.left source.old ≡ Some script → script_of script ≡ Some said
        → IsTrue L.tells → IsTrue D.tells → Answers said.columns (L.seen log) (D.seen store) (Ok found)
        → ¬ Rose (S.faults source.old) (S.faults source.new) → ¬ Rose (K.faults sink.old) (K.faults sink.new) → ¬ Rose (L.faults log) (L.faults result.log) → ¬ Rose (D.faults store) (D.faults result.store)
        → (result.status ≡ 0) ⊎ (result.status ≡ 7) }
    ensures source_fault { result.status ≡ 5 → Rose (S.faults source.old) (S.faults source.new) × Appends (K.written sink.old) (K.written sink.new) [] }
    ensures sink_fault { result.status ≡ 6 → Rose (K.faults sink.old) (K.faults sink.new) }

    // There a front of one of the texts was written, and what the status of that text says of the words, the script and the devices holds.
    ensures cut { result.status ≡ 6 → (text : List ℕ) × WritesFront (K.written sink.old) (K.written sink.new) text
        × (((text ≡ USAGE.now) × (settings_in (map (λ w. w.now) words.now) ≡ None) ⊎ ((fault : Fault) × (settings : Settings) × (settings_in (map (λ w. w.now) words.now) ≡ Some settings) × IsFaultOf (S.left source.old) fault × (text ≡ fault_text fault))) × (result.log ≡ log) × (result.store ≡ store) × (result.clock ≡ clock)
        ⊎ (((said : Said) × (settings : Settings) × (settings_in (map (λ w. w.now) words.now) ≡ Some settings) × IsSaid (S.left source.old) said
        × (((no : Why) × IsRefusal no × Refuses said.columns (Both (IsRead L.tells L.seen log) (IsRead D.tells D.seen store)) no × (text ≡ refusal_text no)) ⊎ ((text ≡ STOPPED_OPENING.now) × OneRose (L.faults log) (L.faults result.log) (D.faults store) (D.faults result.store)))
        × (result.clock ≡ clock) × LeavesAsBefore said.columns (CrashLeaves L.tells L.now L.leaves log) (CrashLeaves L.tells L.now L.leaves result.log) (CrashLeaves D.tells D.now D.leaves store) (CrashLeaves D.tells D.now D.leaves result.store))
        ⊎ IfSome (S.left source.old) (λ script. (settings : Settings) × (settings_in (map (λ w. w.now) words.now) ≡ Some settings) × (stopped : Bool) × RunsScript (Grows (C.readings clock) (C.readings result.clock)) (Both (IsRead L.tells L.seen log) (IsRead D.tells D.seen store)) (Both (CrashLeaves L.tells L.now L.leaves result.log) (CrashLeaves D.tells D.now D.leaves result.store)) settings.cells stopped script text × (stopped ≡ true → OneRose (L.faults log) (L.faults result.log) (D.faults store) (D.faults result.store))))) }
    ensures memory { result.status ≡ 7 → Appends (K.written sink.old) (K.written sink.new) [] }

    // The devices and the clock are used only for words in the form and a script that was read, the clock only over devices that were opened. Devices that
    // are refused hold what they held.
    ensures unused { (result.status ≡ 1) ⊎ (result.status ≡ 2) ⊎ (result.status ≡ 5) → (result.log ≡ log) × (result.store ≡ store) × (result.clock ≡ clock) }
    ensures unformed { settings_in (map (λ w. w.now) words.now) ≡ None → (result.log ≡ log) × (result.store ≡ store) × (result.clock ≡ clock) }
    ensures untouched { result.status ≡ 3 → (result.clock ≡ clock) × ((said : Said) × IsSaid (S.left source.old) said × LeavesAsBefore said.columns (CrashLeaves L.tells L.now L.leaves log) (CrashLeaves L.tells L.now L.leaves result.log) (CrashLeaves D.tells D.now D.leaves store) (CrashLeaves D.tells D.now D.leaves result.store)) }

    // Whatever the status, a crash now leaves what both devices held before the call, or what they held with the first
    // writes of a run of the script, each one with an `end` line among them.
    ensures crash { (result.log ≡ log) × (result.store ≡ store) ⊎ ((said : Said) × (settings : Settings) × IsSaid (S.left source.old) said × (settings_in (map (λ w. w.now) words.now) ≡ Some settings)
        × LeavesFirst (Grows (C.readings clock) (C.readings result.clock)) (Both (IsRead L.tells L.seen log) (IsRead D.tells D.seen store)) (CrashLeaves L.tells L.now L.leaves log) (CrashLeaves L.tells L.now L.leaves result.log) (CrashLeaves D.tells D.now D.leaves store) (CrashLeaves D.tells D.now D.leaves result.store) settings.cells said) }

    // It leaves all files of the log's device but the log as one before the call might have, and the log names no number far above those that both devices
    // might have had before.
    ensures others { KeepsFiles (CrashLeaves L.tells L.now L.leaves log) (CrashLeaves L.tells L.now L.leaves result.log) }
    ensures near { NumbersAreNear (Both (CrashLeaves L.tells L.now L.leaves log) (CrashLeaves D.tells D.now D.leaves store)) (Both (CrashLeaves L.tells L.now L.leaves result.log) (CrashLeaves D.tells D.now D.leaves result.store)) }

    // Whatever the status, at each moment of the call a crash left the frames of the log of an image from before the call; or the log was opened, and behind
    // the records that it then had batches were appended one behind another, so that a crash left what was durable, or that and a batch. No batch has both a
    // write and its COMMIT: what a write has done is durable before that comes.
    ensures log_moments { IsTrue L.tells → LogThroughout L.seen L.now L.leaves L.faults log result.log }

    // It left the superblock of an image of the store from before, or the first one, with the files that it names; or the store was opened, and superblocks were
    // published one behind another, so that a crash left the one that was published, or the one that was to be, and the files that it names.
    ensures store_moments { IsTrue D.tells → (result.store ≡ store) ⊎ ((said : Said) × IsSaid (S.left source.old) said × StoreThroughout D.seen D.now D.leaves said.columns store result.store) }

    // The devices may be opened again, whatever the status.
    ensures openable { IsTrue L.tells → CanOpen L.now L.leaves result.log }
    ensures stand { IsTrue D.tells → NamedStand D.seen D.now D.leaves result.store }
    ensures statuses { result.status ≤ 7 }
{
    let settings = match read_words(alloc, words) {
        Ok(settings) => settings,
        Err(WordsNo::Form) => return end_with(finish(sink, USAGE, 1), log, store, clock),
        Err(WordsNo::Memory) => return end_with(7, log, store, clock),
    };
    match take_script(alloc, source) {
        Ok(Script { schema, plan, load }) => open_and_run(
            rt,
            alloc,
            &schema,
            &plan,
            load,
            settings.cells,
            settings.workers.min(WORKERS_MOST),
            log,
            store,
            clock,
            sink,
            gate,
        ),
        Err(SourceNo::Line { number, reason }) => {
            let status = refuse_script(alloc, sink, number, reason);
            end_with(status, log, store, clock)
        }
        Err(SourceNo::Failed) => end_with(5, log, store, clock),
        Err(SourceNo::Memory) => end_with(7, log, store, clock),
    }
}

fn end_with<L, D, C>(status: u8, log: L, store: D, clock: C) -> Ended<L, D, C>
    ensures { (result.status ≡ status) × (result.log ≡ log) × (result.store ≡ store) × (result.clock ≡ clock) }
{
    Ended {
        status,
        log,
        store,
        clock,
    }
}
