//! Whole scripts.

ghost use Rattle.std.specs.Prelude.{◌≡◌, ◌≤◌, ◌+◌, ◌∷◌, [], length, ℕ, List, Some, IfOk, IfErr, IfSome, true, false};
ghost use Rattle.std.specs.List.{list_any};
ghost use Rattle.kt_schema.specs.declared.column.Column.{Column};
ghost use Rattle.kt_history.specs.declared.command.Command.TheVariants as command;
ghost use Rattle.kt_script.specs.declared.leads.Lead.TheVariants as lead;
ghost use Rattle.kt_script.specs.declared.leads.Word.TheVariants as begins;
ghost use Rattle.kt_script.specs.Pieces.{cut, words_of, words_in};
ghost use Rattle.kt_script.specs.Reasons.{no_of};
ghost use Rattle.kt_script.specs.Columns.{begins_column, IsTable};
ghost use Rattle.kt_script.specs.Scripts.{full_no, is_begun, is_load, first_lead, begins_load, most_bytes, first_piece, script_of, load_of, command_no, command_of, ReadsLed, ReadsBody, IsPushed, IsFirstFault};
ghost use Rattle.kt_script.specs.declared.writes.SpelledOp.{SpelledOp};
ghost use Rattle.kt_script.specs.Buffers.{line_command, IsLine, ReadsLine};
ghost use Rattle.kt_script.specs.Loads.{IsLoad};
ghost use Rattle.kt_script.specs.Fit.{PlanFits, IsBodyRead, AreLinesRead};

use crate::columns::LineNo;
use crate::head::{Table, cut_line, located, read_table};
use crate::leads::{Lead, Word, lead_in};
use crate::least::least_of;
use crate::load::{cut_load, load_plan, read_load};
use crate::refusal::ScriptNo;
use crate::scans::read_scan;
use crate::sessions::Sessions;
use crate::times::read_mark;
use crate::word::{cut_word, next_word};
use crate::writes::{LineCommand, SpelledOp, read_write};
use kt_base::Chore;
use kt_base::limits::{COMMANDS, SCRIPT_BYTES, SESSIONS};
use kt_history::{Command, Plan};
use kt_schema::Schema;
use std::alloc::Global;

/// What a script says: its table, and the commands of each session. For a load these are those of the load, and how many writes
/// each of its sessions has is told.
#[derive(Drop)]
pub struct Script {
    pub schema: Schema,
    pub plan: Plan,
    pub load: Option<u32>,
}

// A session begins.
fn begin_session(alloc: Global, sessions: &mut Sessions, rest: Option<&[u8]>) -> Result<(), LineNo>
    ensures { (columns : List Column) (word : List ℕ) → ReadsLed columns sessions.old (Some lead.Session) (word ∷ words_in rest.entry) sessions.new result }
{
    if next_word(rest).is_some() {
        return Err(LineNo::Reason(12));
    }
    if sessions.len() >= SESSIONS {
        return Err(LineNo::Reason(20));
    }
    match sessions.begin(alloc) {
        Ok(()) => Ok(()),
        Err(_) => Err(LineNo::Memory),
    }
}

// Why there may be no command more.
fn full_no(sessions: &Sessions) -> Option<u8>
    ensures { no_of result ≡ full_no sessions.now }
{
    if sessions.commands() >= COMMANDS {
        Some(20)
    } else {
        None
    }
}

// Adds the command of a line, if there may be one more. The list of a write is left for its room.
fn push_command(
    sessions: &mut Sessions,
    command: LineCommand,
    op: &mut SpelledOp,
) -> Result<(), LineNo>
    requires begun { is_begun sessions.old ≡ true }
    requires spelled { IsLine op.old command }
    ensures { IsPushed sessions.old (line_command op.old command) sessions.new result }
{
    if sessions.commands() >= COMMANDS {
        return Err(LineNo::Reason(20));
    }
    let pushed = match command {
        LineCommand::Lone => sessions.push_lone(&op.read()),
        LineCommand::Held(command) => sessions.push(command, &mut op.ops),
    };
    match pushed {
        Ok(()) => Ok(()),
        Err(_) => Err(LineNo::Memory),
    }
}

fn read_chore(chore: Chore, rest: Option<&[u8]>) -> Result<LineCommand, LineNo>
    ensures { (columns : List Column) (first : List ℕ) (op : SpelledOp) → ReadsLine (command_no columns (begins.Chore chore) (first ∷ words_in rest.entry)) (command.Chore chore) op result }
{
    match next_word(rest) {
        Some(_) => Err(LineNo::Reason(12)),
        None => Ok(LineCommand::Held(Command::Chore(chore))),
    }
}

// The command of a line, by its first word and what is left behind it.
fn read_command(
    alloc: Global,
    schema: &Schema,
    word: Word,
    first: &[u8],
    rest: Option<&[u8]>,
    op: &mut SpelledOp,
) -> Result<LineCommand, LineNo>
    requires { IsTable schema.now }
    ensures { ReadsLine (command_no schema.now word (first.now ∷ words_in rest.entry)) (command_of schema.now word (first.now ∷ words_in rest.entry)) op.new result }
{
    match word {
        Word::Scan => Ok(LineCommand::Held(Command::Scan(read_scan(alloc, schema, rest)?))),
        Word::Mark => Ok(LineCommand::Held(Command::Mark(read_mark(rest)?))),
        Word::Chore(chore) => read_chore(chore, rest),
        Word::Op(_) => read_write(alloc, schema, Some((first, rest)), op),
    }
}

fn read_command_line(
    alloc: Global,
    schema: &Schema,
    sessions: &mut Sessions,
    word: Word,
    first: &[u8],
    rest: Option<&[u8]>,
    op: &mut SpelledOp,
) -> Result<(), LineNo>
    requires { IsTable schema.now }
    ensures { ReadsLed schema.now sessions.old (Some (lead.Command word)) (first.now ∷ words_in rest.entry) sessions.new result }
{
    if !sessions.is_begun() {
        return Err(LineNo::Reason(11));
    }
    match read_command(alloc, schema, word, first, rest, op) {
        Ok(command) => push_command(sessions, command, op),
        Err(LineNo::Reason(reason)) => { Err(LineNo::Reason(least_of(reason, full_no(sessions)))) }
        Err(LineNo::Memory) => Err(LineNo::Memory),
    }
}

// A line below the columns, which is no load line above all sessions.
fn read_line(
    alloc: Global,
    schema: &Schema,
    sessions: &mut Sessions,
    line: &[u8],
    op: &mut SpelledOp,
) -> Result<(), LineNo>
    requires table { IsTable schema.now }
    requires load { is_begun sessions.old ≡ false → is_load (first_lead (words_of line.now)) ≡ false }
    ensures { ReadsBody schema.now sessions.old (words_of line.now) sessions.new result }
{
    let (first, rest) = cut_word(line);
    match lead_in(first) {
        Some(Lead::Session) => begin_session(alloc, sessions, rest),
        Some(Lead::Load) => Err(LineNo::Reason(12)),
        Some(Lead::Command(word)) => {
            read_command_line(alloc, schema, sessions, word, first, rest, op)
        }
        None => Err(LineNo::Reason(11)),
    }
}

// Adds the commands of the lines below the columns. The buffers are for the operations of a line.
fn read_lines(
    alloc: Global,
    schema: &Schema,
    text: &[u8],
    sessions: &mut Sessions,
    op: &mut SpelledOp,
) -> Result<(), ScriptNo>
    requires short { length text.now ≤ most_bytes }
    requires table { IsTable schema.now }
    requires key { list_any (λ c. c.key) schema.now ≡ true }
    requires first { begins_column (first_piece (cut 10 text.now)) ≡ false }
    requires no_load { begins_load (cut 10 text.now) ≡ false }
    requires none { sessions.old ≡ [] }
    ensures { AreLinesRead schema.now (length schema.now + 2) text.now sessions.new result }
{
    let mut number = schema.columns().len() as u64 + 2;
    let mut rest = text;
    'lines: while let Some((line, behind)) = cut_line(rest) {
        if let Err(no) = read_line(alloc, schema, sessions, line, op) {
            return Err(located(number, no));
        }
        number += 1;
        rest = behind;
    }
    if rest.is_empty() {
        Ok(())
    } else {
        Err(ScriptNo::Line { number, reason: 2 })
    }
}

// The lines below the columns, the first of which is no load line. The buffers are for the operations of a line.
fn read_body(
    alloc: Global,
    schema: &Schema,
    text: &[u8],
    op: &mut SpelledOp,
) -> Result<Plan, ScriptNo>
    requires short { length text.now ≤ most_bytes }
    requires table { IsTable schema.now }
    requires key { list_any (λ c. c.key) schema.now ≡ true }
    requires first { begins_column (first_piece (cut 10 text.now)) ≡ false }
    requires no_load { begins_load (cut 10 text.now) ≡ false }
    ensures { IsBodyRead schema.now (length schema.now + 2) text.now result }
{
    let mut sessions = Sessions::none(alloc);
    read_lines(alloc, schema, text, &mut sessions, op)?;
    Ok(sessions.into_plan()?)
}

/// What a text says, if it is a script, or its first fault.
pub fn read_script(alloc: Global, text: &[u8]) -> Result<Script, ScriptNo>
    ensures script { IfOk result (λ s. script_of text.now ≡ Some (record { columns = s.schema; plan = s.plan })) }
    ensures fits { IfOk result (λ s. PlanFits s.schema s.plan) }
    ensures load { IfOk result (λ s. s.load ≡ load_of text.now) }
    ensures loads { IfOk result (λ s. IfSome s.load (λ n. IsLoad s.schema s.plan n)) }
    ensures line { IfErr result (λ no. IsFirstFault text.now no) }
{
    if text.len() > SCRIPT_BYTES {
        return Err(ScriptNo::Line {
            number: 0,
            reason: 1,
        });
    }
    let Table { schema, rest } = read_table(alloc, text)?;
    if let Some(line) = cut_load(rest) {
        let count = read_load(&schema, &line)?;
        let plan = load_plan(alloc, count)?;
        return Ok(Script {
            schema,
            plan,
            load: Some(count),
        });
    }
    let mut op = SpelledOp::new(alloc);
    let plan = read_body(alloc, &schema, rest, &mut op)?;
    Ok(Script {
        schema,
        plan,
        load: None,
    })
}
