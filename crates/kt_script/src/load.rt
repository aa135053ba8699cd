//! Loads: a line that stands for four sessions, and what they ask for.

ghost use Rattle.std.specs.Prelude.{◌≡◌, ◌≤◌, ◌<◌, ◌+◌, ◌*◌, ◌/◌, ◌%◌, ◌++◌, ◌∷◌, [], length, min, List, ℕ, suc, IfOk, OnOk, true, false};
ghost use Rattle.std.specs.List.{list_any};
ghost use Rattle.kt_cells.specs.Spelling.{cell_list};
ghost use Rattle.kt_schema.specs.declared.column.Column.{Column};
ghost use Rattle.kt_script.specs.Pieces.{cut, words_of, words_in};
ghost use Rattle.kt_script.specs.Columns.{begins_column, IsTable};
ghost use Rattle.kt_script.specs.Buffers.{Spells};
ghost use Rattle.kt_script.specs.Writes.{op_form};
ghost use Rattle.kt_script.specs.Loads.{is_number_column, is_load_table, IsLoadSize, IsLoadTaken, drawn, load_kind, load_op, load_cells, load_write, load_chore, load_step, load_session, load_plan};
ghost use Rattle.kt_script.specs.Scripts.{first_piece, body_no, IsLoadText, IsLoadCut, IsLoadEnd};
ghost use Rattle.kt_script.specs.Fit.{IsLoadRead};

use crate::draft::Draft;
use crate::forms::{OpForm, op_form};
use crate::head::cut_line;
use crate::leads::{Lead, lead_in};
use crate::refusal::ScriptNo;
use crate::times::read_mark;
use crate::word::{cut_word, is_word};
use crate::writes::SpelledOp;
use kt_base::{CellRef, Chore, Kind, NoMemory};
use kt_cells::Tail;
use kt_cells::writing::put_listed_cell;
use kt_history::{Command, OpKind, Plan, Session};
use kt_schema::{Column, Schema};
use std::alloc::Global;

// The most writes of a session.
const MOST: u64 = 64_000;

/// A text whose first line begins a load.
#[derive(Clone, Copy)]
pub struct LoadLine<'a> {
    /// What stands behind the word `load`.
    pub rest: Option<&'a [u8]>,
    /// The text below the line.
    pub below: &'a [u8],
}

/// The load line at the front of a text, if it is one.
pub fn cut_load(text: &[u8]) -> Option<LoadLine<'_>>
    ensures { IsLoadCut text.now result }
{
    let (line, below) = cut_line(text)?;
    let (first, rest) = cut_word(line);
    match lead_in(first) {
        Some(Lead::Load) => Some(LoadLine { rest, below }),
        Some(Lead::Session | Lead::Command(_)) => None,
        None => None,
    }
}

fn is_number_column(column: &Column, name: &[u8]) -> bool
    ensures { result ≡ is_number_column name.now column.now }
{
    is_word(column.name.as_slice(), name)
        && column.kind == Kind::Int64
        && !column.nullable
        && column.default.is_none()
}

// Whether the columns are those of a load.
fn is_load_table(columns: &[Column]) -> bool
    ensures { result ≡ is_load_table columns.now }
{
    match columns {
        [id, v] => { is_number_column(id, b"id") && id.key && is_number_column(v, b"v") && !v.key }
        _ => false,
    }
}

// The number behind the word `load`, unless no load may be so long.
fn load_size(rest: Option<&[u8]>) -> Option<u32>
    ensures { IsLoadSize (words_in rest.entry) result }
{
    match read_mark(rest) {
        Ok(count) => {
            if 1 <= count && count <= MOST {
                Some(count as u32)
            } else {
                None
            }
        }
        Err(_) => None,
    }
}

// How many writes each session of a load has, unless its line is refused.
fn taken_size(columns: &[Column], rest: Option<&[u8]>) -> Option<u32>
    ensures { IsLoadTaken columns.now (words_in rest.entry) result }
{
    if is_load_table(columns) {
        load_size(rest)
    } else {
        None
    }
}

// Why no line may stand below a load line.
fn below_no(line: &[u8]) -> u8
    ensures { (columns : List Column) → result ≡ min 12 (body_no columns [] (words_of line.now)) }
{
    let (first, _) = cut_word(line);
    match lead_in(first) {
        Some(Lead::Session) => 12,
        Some(Lead::Load) => 12,
        Some(Lead::Command(_)) => 11,
        None => 11,
    }
}

// Nothing may stand below a load line. The next line has this number.
fn check_end(text: &[u8], number: u64) -> Result<(), ScriptNo>
    ensures { IsLoadEnd number text.now result }
{
    match cut_line(text) {
        Some((line, _)) => Err(ScriptNo::Line {
            number,
            reason: below_no(line),
        }),
        None if text.is_empty() => Ok(()),
        None => Err(ScriptNo::Line { number, reason: 2 }),
    }
}

/// How many writes each session has where a load line stands below the columns and nothing below it, or the first fault.
pub fn read_load(schema: &Schema, line: &LoadLine<'_>) -> Result<u32, ScriptNo>
    requires table { IsTable schema.now }
    requires key { list_any (λ c. c.key) schema.now ≡ true }
    ensures { (text : List ℕ) → IsLoadText text line.now → begins_column (first_piece (cut 10 text)) ≡ false → IsLoadRead schema.now (length schema.now + 2) text result }
{
    let number = schema.columns().len() as u64 + 2;
    let Some(count) = taken_size(schema.columns(), line.rest) else {
        return Err(ScriptNo::Line { number, reason: 12 });
    };
    check_end(line.below, number + 1)?;
    Ok(count)
}

// The number that is drawn behind this one.
fn next_drawn(last: u64) -> u64
    ensures { (s k : ℕ) → last ≡ drawn s k → result ≡ drawn s (suc k) }
{
    last.wrapping_mul(6_364_136_223_846_793_005)
        .wrapping_add(1_442_695_040_888_963_407)
}

fn load_kind(y: u64) -> OpKind
    ensures { result ≡ load_kind y }
{
    match y % 4 {
        0 => OpKind::Insert,
        1 => OpKind::Upsert,
        2 => OpKind::Update,
        _ => OpKind::Delete,
    }
}

// Adds the cells of an operation that gives v this value, behind their count.
fn put_cells(form: OpForm, v: u64, out: &mut Tail) -> Result<(), NoMemory>
    requires { v < 1000 }
    ensures { OnOk result (out.new.added ≡ out.old.added ++ cell_list (load_cells form v)) }
{
    if let OpForm::Key = form {
        return out.extend(&[0, 0]);
    }
    out.extend(&[1, 0])?;
    put_listed_cell(out, 2, CellRef::Int(v as i64))
}

// An operation of a session in the buffers, by the upper bits of a drawn number.
fn spell_op(session: u64, y: u64, op: &mut SpelledOp) -> Result<(), NoMemory>
    requires first { 1 ≤ session }
    requires last { session ≤ 4 }
    ensures { OnOk result (Spells op.new (load_op session y)) }
{
    op.kind = load_kind(y);
    let id = 4 * (y / 4 % 256) + session - 1;
    op.key.clear();
    op.key.extend(&((1 << 63) + id).to_be_bytes())?;
    op.cells.clear();
    put_cells(op_form(op.kind), y / 1024 % 1000, &mut op.cells)
}

fn load_chore(session: u64, at: u64) -> Chore
    requires first { session ≤ 4 }
    requires last { at ≤ 1000 }
    ensures { result ≡ load_chore session at }
{
    match (at + session) % 5 {
        0 => Chore::Flush,
        1 => Chore::FlushDeltas,
        2 => Chore::Minor,
        3 => Chore::Major,
        _ => Chore::Compact,
    }
}

// Adds a write of a session, for the number that is drawn for it.
fn push_write(
    session: u64,
    number: u64,
    commands: &mut Draft,
    op: &mut SpelledOp,
) -> Result<(), NoMemory>
    requires first { 1 ≤ session }
    requires last { session ≤ 4 }
    ensures { OnOk result ((k : ℕ) → number ≡ drawn session k → commands.new ≡ commands.old ++ load_write session k ∷ []) }
{
    spell_op(session, number >> 33, op)?;
    commands.push_lone(&op.read())
}

// Adds the k-th write of a session, and behind each 64th a chore.
fn push_step(
    session: u64,
    k: u64,
    number: u64,
    commands: &mut Draft,
    op: &mut SpelledOp,
) -> Result<(), NoMemory>
    requires first { 1 ≤ session }
    requires last { session ≤ 4 }
    requires few { k ≤ 64000 }
    requires number { number ≡ drawn session k }
    ensures { OnOk result (commands.new ≡ commands.old ++ load_step session k) }
{
    push_write(session, number, commands, op)?;
    if k % 64 == 0 {
        let chore = load_chore(session, k / 64);
        commands.push(Command::Chore(chore), &mut op.ops)?;
    }
    Ok(())
}

// The commands of a session, from 1.
fn load_session(
    alloc: Global,
    session: u64,
    count: u32,
    op: &mut SpelledOp,
) -> Result<Session, NoMemory>
    requires first { 1 ≤ session }
    requires last { session ≤ 4 }
    requires few { count ≤ 64000 }
    ensures { IfOk result (λ commands. commands ≡ load_session count session) }
{
    let mut commands = Draft::with_room(alloc, count as usize)?;
    let mut number = session;
    'writes: for k in 0..count as u64 {
        number = next_drawn(number);
        push_step(session, k + 1, number, &mut commands, op)?;
    }
    commands.into_session()
}

/// The plan of a load: four sessions of so many writes, and their maintenance.
pub fn load_plan(alloc: Global, count: u32) -> Result<Plan, NoMemory>
    requires { count ≤ 64000 }
    ensures { IfOk result (λ plan. plan ≡ load_plan count) }
{
    let mut op = SpelledOp::new(alloc);
    let mut sessions = Vec::with_capacity(alloc, 4)?;
    'sessions: for session in 0..4 {
        sessions.push(load_session(alloc, session + 1, count, &mut op)?)?;
    }
    Ok(Plan::of(sessions))
}
