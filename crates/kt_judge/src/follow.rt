//! Which line may come next in a history.
ghost use Rattle.std.specs.Prelude.{◌≡◌, ◌++◌, ◌∷◌, [], List, ℕ, false, IfOk};
ghost use Rattle.std.specs.List.{list_any};
ghost use Rattle.std.specs.Option.{option_copied};
ghost use Rattle.std.specs.Ordering.{eq_by_cmp};
ghost use Rattle.kt_history.specs.declared.event.Event.{Event};
ghost use Rattle.kt_history.specs.declared.event.Event.TheVariants.{Begin, End, Look, Rows, Ancient, Busy, Mark, Chore as AChore, Large};
ghost use Rattle.kt_history.specs.Rows.{key_cmp};
ghost use Rattle.kt_history.specs.History.{Past};
ghost use Rattle.kt_history.specs.Operations.{share_key};
ghost use Rattle.kt_history.specs.Machine.{nth, command_of, IsChore};
ghost use Rattle.kt_judge.specs.Decided.{Decided};
ghost use Rattle.kt_judge.specs.Works.{work_of};
ghost use Rattle.kt_judge.specs.Machine.{write_in, ops_in, at_in, mark_in, TellsAllowed, TellsRead, Follows, IsFollowed};

use crate::lists::nth;
use crate::machine::{Flight, Machine, is_next_timestamp};
use kt_base::NoMemory;
use kt_history::{At, Command, Event, OpList, Plan, cells_needed};
use kt_script::Script;

pub(crate) fn command_at(plan: &Plan, s: u32, i: u32) -> Option<&Command>
    ensures { option_copied result ≡ command_of (nth plan.now s) i }
{
    match nth(plan.as_slice(), s) {
        Some(session) => nth(session.as_slice(), i),
        None => None,
    }
}

/// The operations of a command that is a write.
pub(crate) fn write_at(plan: &Plan, s: u32, i: u32) -> Option<&OpList>
    ensures { option_copied result ≡ write_in (command_of (nth plan.now s) i) }
{
    match command_at(plan, s, i) {
        Some(Command::Write(write)) => Some(&write.ops),
        _ => None,
    }
}

// When a command that is a scan reads.
fn time_at(plan: &Plan, s: u32, i: u32) -> Option<At>
    ensures { result ≡ at_in (command_of (nth plan.now s) i) }
{
    match command_at(plan, s, i) {
        Some(Command::Scan(scan)) => Some(scan.at),
        _ => None,
    }
}

// How far a command that is a mark asks to raise it.
fn mark_at(plan: &Plan, s: u32, i: u32) -> Option<u64>
    ensures { result ≡ mark_in (command_of (nth plan.now s) i) }
{
    match command_at(plan, s, i) {
        Some(Command::Mark(t)) => Some(*t),
        _ => None,
    }
}

fn is_chore(plan: &Plan, s: u32, i: u32) -> bool
    ensures { Decided result (IsChore (command_of (nth plan.now s) i)) }
{
    matches!(command_at(plan, s, i), Some(Command::Chore(_)))
}

fn has_key(ops: &OpList, key: &[u8]) -> bool
    ensures { result ≡ list_any (λ other. eq_by_cmp key_cmp key.now other.key) ops.now }
{
    'ops: for at in 0..ops.len() {
        let other = ops.at(at);
        if key.cmp(&other.key()).is_eq() {
            return true;
        }
    }
    false
}

// Whether two writes share a key.
fn share_key(ops: &OpList, others: &OpList) -> bool
    ensures { result ≡ share_key ops.now others.now }
{
    'ops: for at in 0..ops.len() {
        let op = ops.at(at);
        if has_key(others, op.key()) {
            return true;
        }
    }
    false
}

// Whether a flying write has a key of these operations.
fn flies_with(flight: Flight, plan: &Plan, ops: &OpList) -> bool
    ensures { result ≡ share_key ops.now (ops_in (write_in (command_of (nth plan.now flight.s) flight.i))) }
{
    match write_at(plan, flight.s, flight.i) {
        Some(others) => share_key(ops, others),
        None => false,
    }
}

// Whether any flying write has a key of these operations.
fn flies_key(flying: &[Flight], plan: &Plan, ops: &OpList) -> bool
    ensures { result ≡ list_any (λ f. share_key ops.now (ops_in (write_in (command_of (nth plan.now f.s) f.i)))) flying.now }
{
    for flight in flying {
        if flies_with(*flight, plan, ops) {
            return true;
        }
    }
    false
}

fn may_begin(
    m: &Machine,
    script: &Script,
    cells: u32,
    s: u32,
    i: u32,
    ts: u64,
    reading: u64,
) -> bool
    requires { m.now.stopped ≡ false }
    ensures { TellsAllowed (work_of cells script.now) m.now (Begin s i ts reading) result }
{
    let Some(ops) = write_at(&script.plan, s, i) else {
        return false;
    };
    m.is_next(s, i, None)
        & (cells_needed(ops) <= cells as u64)
        & !flies_key(&m.flying, &script.plan, ops)
        & is_next_timestamp(ts, m.c, reading)
}

fn may_look(m: &Machine, script: &Script, cells: u32, s: u32, i: u32, t: u64, reading: u64) -> bool
    requires { m.now.stopped ≡ false }
    ensures { TellsAllowed (work_of cells script.now) m.now (Look s i t reading) result }
{
    match time_at(&script.plan, s, i) {
        Some(At::Looked) => m.is_next(s, i, None) & is_next_timestamp(t, m.c, reading),
        _ => false,
    }
}

// Whether a scan whose time is this, drawn or given, may be answered.
fn may_read(m: &Machine, script: &Script, cells: u32, s: u32, i: u32, t: u64) -> bool
    ensures { TellsRead (work_of cells script.now) m.now s i t result }
{
    match time_at(&script.plan, s, i) {
        Some(At::Looked) => m.is_next(s, i, Some(t)),
        Some(At::Given(given)) => (t == given) & m.is_next(s, i, None),
        None => false,
    }
}

fn may_show(m: &Machine, script: &Script, cells: u32, s: u32, i: u32, t: u64) -> bool
    requires { m.now.stopped ≡ false }
    ensures { TellsAllowed (work_of cells script.now) m.now (Rows s i t) result }
{
    may_read(m, script, cells, s, i, t) & (m.a <= t) & m.none_flies(t)
}

fn is_ancient(m: &Machine, script: &Script, cells: u32, s: u32, i: u32, t: u64, a: u64) -> bool
    requires { m.now.stopped ≡ false }
    ensures { TellsAllowed (work_of cells script.now) m.now (Ancient s i t a) result }
{
    may_read(m, script, cells, s, i, t) & (t < a) & (a == m.a)
}

fn is_busy(m: &Machine, script: &Script, cells: u32, s: u32, i: u32, t: u64, f: u64) -> bool
    requires { m.now.stopped ≡ false }
    ensures { TellsAllowed (work_of cells script.now) m.now (Busy s i t f) result }
{
    let Some(least) = m.least_flying() else {
        return false;
    };
    match time_at(&script.plan, s, i) {
        Some(At::Given(given)) => {
            (given == t) & m.is_next(s, i, None) & (m.a <= t) & (least == f) & (f <= t)
        }
        _ => false,
    }
}

fn may_mark(m: &Machine, script: &Script, cells: u32, s: u32, i: u32, a: u64) -> bool
    requires { m.now.stopped ≡ false }
    ensures { TellsAllowed (work_of cells script.now) m.now (Mark s i a) result }
{
    match mark_at(&script.plan, s, i) {
        Some(t) => m.is_next(s, i, None) & (a == m.a.max(t.min(m.clean()))),
        None => false,
    }
}

fn is_done(m: &Machine, script: &Script, cells: u32, s: u32, i: u32) -> bool
    requires { m.now.stopped ≡ false }
    ensures { TellsAllowed (work_of cells script.now) m.now (AChore s i) result }
{
    m.is_next(s, i, None) & is_chore(&script.plan, s, i)
}

fn is_large(m: &Machine, script: &Script, cells: u32, s: u32, i: u32, n: u32) -> bool
    requires { m.now.stopped ≡ false }
    ensures { TellsAllowed (work_of cells script.now) m.now (Large s i n) result }
{
    match write_at(&script.plan, s, i) {
        Some(ops) => m.is_next(s, i, None) & (n as u64 == cells_needed(ops)) & (cells < n),
        None => false,
    }
}

/// Whether a line may come next.
pub(crate) fn is_allowed(m: &Machine, script: &Script, cells: u32, event: &Event) -> bool
    ensures { TellsAllowed (work_of cells script.now) m.now event.now result }
{
    if m.stopped {
        return false;
    }
    match *event {
        Event::Begin {
            s,
            i,
            ts,
            m: reading,
        } => may_begin(m, script, cells, s, i, ts, reading),
        Event::End { s, i, ts } => m.is_flying(s, i, ts),
        Event::Look {
            s,
            i,
            t,
            m: reading,
        } => may_look(m, script, cells, s, i, t, reading),
        Event::Rows { s, i, t } => may_show(m, script, cells, s, i, t),
        Event::Ancient { s, i, t, a } => is_ancient(m, script, cells, s, i, t, a),
        Event::Busy { s, i, t, f } => is_busy(m, script, cells, s, i, t, f),
        Event::Mark { s, i, a } => may_mark(m, script, cells, s, i, a),
        Event::Chore { s, i } => is_done(m, script, cells, s, i),
        Event::Large { s, i, n } => is_large(m, script, cells, s, i, n),
        Event::Stop => true,
    }
}

/// Follows a line, if it may come next.
pub(crate) fn follow(
    m: &mut Machine,
    script: &Script,
    cells: u32,
    event: &Event,
) -> Result<bool, NoMemory>
    ensures { IfOk result (λ ok. (past : Past) (c : ℕ) (before : List Event) → Follows (work_of cells script.now) past c before m.old → IsFollowed (work_of cells script.now) past c (before ++ event.now ∷ []) m.new ok) }
{
    if !is_allowed(m, script, cells, event) {
        return Ok(false);
    }
    m.take(*event)?;
    Ok(true)
}
