//! What is printed for a command against the answer of the run.
ghost use Rattle.std.specs.Prelude.{◌≡◌, ◌-◌, ℕ, map, IfOk};
ghost use Rattle.std.specs.Option.{option_copied};
ghost use Rattle.kt_history.specs.Rows.{Rows};
ghost use Rattle.kt_history.specs.History.{Past};
ghost use Rattle.kt_history.specs.Replies.{shown, shown_by, reply_at, reply_of};
ghost use Rattle.kt_scan.specs.Encoded.{keys_of};
ghost use Rattle.kt_script.specs.declared.replies.ReplyLine.TheVariants as reply;
ghost use Rattle.kt_script.specs.Texts.{row_text};
ghost use Rattle.kt_judge.specs.Decided.{Decided};
ghost use Rattle.kt_judge.specs.Works.{work_of};
ghost use Rattle.kt_judge.specs.Machine.{ops_in};
ghost use Rattle.kt_judge.specs.Verdicts.{kinds_shown, Prints, ReplyStands};
ghost use Rattle.kt_judge.specs.Replied.{ShowsAt, ShowsPast, outcomes_told};

use crate::follow::{command_at, write_at};
use crate::rows::rows_stand;
use crate::view::Table;
use kt_base::{Kind, NoMemory};
use kt_history::{Command, Event, OpList, Outcome, RowList, Scan, outcome};
use kt_scan::laws::table_law;
use kt_scan::run;
use kt_script::{ReplyLine, Script};
use std::alloc::Global;
use std::slice;

fn is_outcome(printed: Outcome, told: Outcome) -> bool
    ensures { Decided result (printed ≡ told) }
{
    printed == told
}

// Whether these are the outcomes of some operations on the rows at a time.
fn outcomes_stand(table: &Table, t: u64, ops: &OpList, printed: &[Outcome]) -> bool
    ensures { Decided result (printed.now ≡ outcomes_told table.now.entries.items t ops.now) }
{
    if ops.len() != printed.len() {
        return false;
    }
    'ops: for at in 0..ops.len() {
        let op = ops.at(at);
        let told = outcome(op.kind(), table.has_row_at(op.key(), t));
        if !is_outcome(printed[at], told) {
            return false;
        }
    }
    true
}

// Whether these are the outcomes of the operations of a write, or none are where there is no write.
fn are_outcomes(table: &Table, t: u64, ops: Option<&OpList>, printed: &[Outcome]) -> bool
    ensures { Decided result (printed.now ≡ outcomes_told table.now.entries.items t (ops_in (option_copied ops.entry))) }
{
    match ops {
        Some(ops) => outcomes_stand(table, t, ops, printed),
        None => printed.is_empty(),
    }
}

fn is_at(printed: &ReplyLine, table: &Table, ts: u64, ops: Option<&OpList>) -> bool
    ensures { Decided result (printed.now ≡ reply.At ts (outcomes_told table.now.entries.items (ts - 1) (ops_in (option_copied ops.entry)))) }
{
    match printed {
        ReplyLine::At {
            ts: shown,
            outcomes,
        } => {
            (*shown == ts) & are_outcomes(table, ts.saturating_sub(1), ops, outcomes.as_slice())
        }
        _ => false,
    }
}

fn is_ancient(printed: &ReplyLine, t: u64, a: u64) -> bool
    ensures { Decided result (printed.now ≡ reply.Ancient t a) }
{
    match printed {
        ReplyLine::Ancient { t: shown, a: mark } => (*shown == t) & (*mark == a),
        _ => false,
    }
}

fn is_busy(printed: &ReplyLine, t: u64, f: u64) -> bool
    ensures { Decided result (printed.now ≡ reply.Busy t f) }
{
    match printed {
        ReplyLine::Busy {
            t: shown,
            f: flying,
        } => (*shown == t) & (*flying == f),
        _ => false,
    }
}

fn is_ahm(printed: &ReplyLine, a: u64) -> bool
    ensures { Decided result (printed.now ≡ reply.Ahm a) }
{
    match printed {
        ReplyLine::Ahm { a: shown } => *shown == a,
        _ => false,
    }
}

fn is_done(printed: &ReplyLine) -> bool
    ensures { Decided result (printed.now ≡ reply.Done) }
{
    matches!(printed, ReplyLine::Done)
}

fn is_large(printed: &ReplyLine, n: u32) -> bool
    ensures { Decided result (printed.now ≡ reply.Large n) }
{
    match printed {
        ReplyLine::Large { n: shown } => *shown == n,
        _ => false,
    }
}

fn is_stopped(printed: &ReplyLine) -> bool
    ensures { Decided result (printed.now ≡ reply.Stopped) }
{
    matches!(printed, ReplyLine::Stopped)
}

// The rows that a scan shows of those at a time.
fn scan_rows(
    alloc: Global,
    script: &Script,
    table: &Table,
    scan: &Scan,
    t: u64,
) -> Result<RowList, NoMemory>
    ensures { IfOk result (λ found. (rows : Rows) → ShowsAt table.now.entries.items t rows → found ≡ shown (keys_of script.now.schema) scan.now rows) }
{
    table_law(table, t);
    let rows = run(alloc, slice::from_ref(table), t, scan, &script.schema, 0)?;
    Ok(rows)
}

// The rows that a command shows of those at a time.
fn shown_rows(
    alloc: Global,
    script: &Script,
    table: &Table,
    command: Option<&Command>,
    t: u64,
) -> Result<RowList, NoMemory>
    ensures { IfOk result (λ found. (rows : Rows) → ShowsAt table.now.entries.items t rows → found ≡ shown_by (keys_of script.now.schema) (option_copied command.entry) rows) }
{
    match command {
        Some(Command::Scan(scan)) => Ok(scan_rows(alloc, script, table, scan, t)?),
        _ => Ok(RowList::new(alloc)),
    }
}

// The kinds of the columns that the rows of a command's reply have.
fn kinds_shown(alloc: Global, script: &Script, command: &Command) -> Result<Vec<Kind>, NoMemory>
    ensures { IfOk result (λ kinds. (cells : ℕ) → kinds.items ≡ kinds_shown (work_of cells script.now) command.now) }
{
    match command {
        Command::Scan(scan) => Ok(kt_scan::kinds_shown(alloc, &script.schema, scan)?),
        _ => Ok(Vec::new(alloc)),
    }
}

fn is_rows(
    alloc: Global,
    printed: &ReplyLine,
    t: u64,
    kinds: &[Kind],
    rows: &RowList,
) -> Result<bool, NoMemory>
    ensures { IfOk result (λ is. Decided is (printed.now ≡ reply.Rows t (map (row_text kinds.now) rows.now))) }
{
    match printed {
        ReplyLine::Rows { t: shown, lines } => {
            let stand = rows_stand(alloc, kinds, rows, lines.as_slice())?;
            Ok((*shown == t) & stand)
        }
        _ => Ok(false),
    }
}

// Whether what is printed for a command is the rows at a time that the command of a line shows.
fn is_shown(
    alloc: Global,
    printed: &ReplyLine,
    script: &Script,
    table: &Table,
    command: &Command,
    named: Option<&Command>,
    t: u64,
) -> Result<bool, NoMemory>
    ensures { IfOk result (λ is. (cells : ℕ) (rows : Rows) → ShowsAt table.now.entries.items t rows
        → Decided is (printed.now ≡ reply.Rows t (map (row_text (kinds_shown (work_of cells script.now) command.now)) (shown_by (keys_of script.now.schema) (option_copied named.entry) rows)))) }
{
    let rows = shown_rows(alloc, script, table, named, t)?;
    let kinds = kinds_shown(alloc, script, command)?;
    let same = is_rows(alloc, printed, t, &kinds, &rows)?;
    Ok(same)
}

// Whether what is printed for a command is the reply that a line gives, and `stopped` where it gives none.
fn is_reply_of(
    alloc: Global,
    printed: &ReplyLine,
    script: &Script,
    table: &Table,
    stopped: bool,
    command: &Command,
    line: &Event,
) -> Result<bool, NoMemory>
    ensures { IfOk result (λ is. (cells : ℕ) (whole : Past) → ShowsPast table.now.entries.items whole
        → Decided is (Prints (kinds_shown (work_of cells script.now) command.now) stopped (reply_of (work_of cells script.now) whole line.now) printed.now)) }
{
    match *line {
        Event::End { s, i, ts } => Ok(is_at(printed, table, ts, write_at(&script.plan, s, i))),
        Event::Rows { s, i, t } => {
            let named = command_at(&script.plan, s, i);
            let same = is_shown(alloc, printed, script, table, command, named, t)?;
            Ok(same)
        }
        Event::Ancient { t, a, .. } => Ok(is_ancient(printed, t, a)),
        Event::Busy { t, f, .. } => Ok(is_busy(printed, t, f)),
        Event::Mark { a, .. } => Ok(is_ahm(printed, a)),
        Event::Chore { .. } => Ok(is_done(printed)),
        Event::Large { n, .. } => Ok(is_large(printed, n)),
        Event::Begin { .. } => Ok(stopped & is_stopped(printed)),
        Event::Look { .. } => Ok(stopped & is_stopped(printed)),
        Event::Stop => Ok(stopped & is_stopped(printed)),
    }
}

// Whether what is printed for a command is the answer of the run, and `stopped` where it has none.
fn is_answer(
    alloc: Global,
    printed: &ReplyLine,
    script: &Script,
    table: &Table,
    stopped: bool,
    command: &Command,
    line: Option<Event>,
) -> Result<bool, NoMemory>
    ensures { IfOk result (λ is. (cells : ℕ) (whole : Past) → ShowsPast table.now.entries.items whole
        → Decided is (Prints (kinds_shown (work_of cells script.now) command.now) stopped (reply_at (work_of cells script.now) whole line) printed.now)) }
{
    match line {
        Some(line) => {
            let same = is_reply_of(alloc, printed, script, table, stopped, command, &line)?;
            Ok(same)
        }
        None => Ok(stopped & is_stopped(printed)),
    }
}

/// Whether a command and its reply are both there, and that is what is printed for it, or neither is.
pub(crate) fn reply_stands(
    alloc: Global,
    script: &Script,
    table: &Table,
    stopped: bool,
    command: Option<&Command>,
    line: Option<Event>,
    printed: Option<&ReplyLine>,
) -> Result<bool, NoMemory>
    ensures { IfOk result (λ stands. (cells : ℕ) (whole : Past) → ShowsPast table.now.entries.items whole
        → Decided stands (ReplyStands (work_of cells script.now) stopped (option_copied command.entry) (reply_at (work_of cells script.now) whole line) (option_copied printed.entry))) }
{
    match (command, printed) {
        (Some(command), Some(printed)) => {
            is_answer(alloc, printed, script, table, stopped, command, line)
        }
        (None, None) => Ok(true),
        _ => Ok(false),
    }
}
