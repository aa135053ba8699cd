//! The first lines of a script: the word `table`, and the columns.

ghost use Rattle.std.specs.Prelude.{◌≡◌, ◌∷◌, ◌+◌, ◌++◌, [], OnOk, IfOk, true, None};
ghost use Rattle.std.specs.List.{list_any};
ghost use Rattle.kt_schema.specs.Columns.{told_no};
ghost use Rattle.kt_script.specs.Columns.{begins_column, IsTable};
ghost use Rattle.kt_script.specs.Scripts.{IsHead, IsColumns, IsLineCut, IsTableRead, IsNoKey, located};

use crate::columns::{LineNo, read_column};
use crate::refusal::ScriptNo;
use crate::split::cut_at;
use crate::vector::push;
use crate::word::is_word;
use kt_base::NoMemory;
use kt_schema::{Column, ColumnList, Schema, SchemaNo};
use std::alloc::Global;

/// The columns of a script, and the text below their lines. They stand from line 2 on.
#[derive(Drop)]
pub struct Head<'a> {
    pub columns: Vec<Column>,
    pub rest: &'a [u8],
}

/// The schema of a script, and the text below its columns. They stand from line 2 on.
#[derive(Drop)]
pub struct Table<'a> {
    pub schema: Schema,
    pub rest: &'a [u8],
}

/// The first line and the text behind its newline.
pub fn cut_line(text: &[u8]) -> Option<(&[u8], &[u8])>
    ensures { IsLineCut text.now result }
{
    cut_at(text, b'\n')
}

/// A refusal, in the line of this number.
pub fn located(number: u64, no: LineNo) -> ScriptNo
    ensures { result ≡ located number no }
{
    match no {
        LineNo::Reason(reason) => ScriptNo::Line { number, reason },
        LineNo::Memory => ScriptNo::Memory,
    }
}

fn begins_column(line: &[u8]) -> bool
    ensures { result ≡ begins_column line.now }
{
    line.len() >= 7 && is_word(&line[..7], b"column ")
}

// The columns below the first line.
fn read_columns(alloc: Global, text: &[u8]) -> Result<Head<'_>, ScriptNo>
    ensures { IsColumns text.now result }
{
    let mut columns = Vec::new(alloc);
    let mut rest = text;
    'lines: while let Some((line, behind)) = cut_line(rest) {
        if !begins_column(line) {
            return Ok(Head { columns, rest });
        }
        let number = columns.len() as u64 + 2;
        let column = match read_column(alloc, &columns, line) {
            Ok(column) => column,
            Err(no) => return Err(located(number, no)),
        };
        push(&mut columns, column)?;
        rest = behind;
    }
    Ok(Head { columns, rest })
}

/// The columns of a text, or the fault of one of its first lines.
pub fn read_head(alloc: Global, text: &[u8]) -> Result<Head<'_>, ScriptNo>
    ensures { IsHead text.now result }
{
    let Some((line, behind)) = cut_line(text) else {
        let reason = if text.is_empty() { 3 } else { 2 };
        return Err(ScriptNo::Line { number: 1, reason });
    };
    if is_word(line, b"table") {
        read_columns(alloc, behind)
    } else {
        Err(ScriptNo::Line {
            number: 1,
            reason: 3,
        })
    }
}

fn has_key(columns: &[Column]) -> bool
    ensures { result ≡ list_any (λ c. c.key) columns.now }
{
    columns.iter().any(|column| column.key)
}

// Why the line below columns without a key is refused.
fn no_key(rest: &[u8]) -> u8
    ensures { IsNoKey rest.now result }
{
    match cut_line(rest) {
        Some(_) => 5,
        None => { if rest.is_empty() { 5 } else { 2 } }
    }
}

// Columns that make a schema are refused for want of memory alone.
fn no_memory(no: SchemaNo) -> NoMemory
    requires { told_no no ≡ None }
{
    match no {
        SchemaNo::Memory => NoMemory,
        SchemaNo::S1 => unreachable!(),
        SchemaNo::S2 { .. } => unreachable!(),
        SchemaNo::S3 { .. } => unreachable!(),
        SchemaNo::S4 { .. } => unreachable!(),
        SchemaNo::S5 => unreachable!(),
    }
}

fn make_schema(alloc: Global, columns: Vec<Column>) -> Result<Schema, NoMemory>
    requires table { IsTable columns.items }
    requires key { list_any (λ c. c.key) columns.items ≡ true }
    ensures { IfOk result (λ schema. schema ≡ columns.items) }
{
    match Schema::new(alloc, ColumnList::of(columns)) {
        Ok(schema) => Ok(schema),
        Err(no) => Err(no_memory(no)),
    }
}

/// The schema of a text, or the fault of one of the lines up to the first one below the columns.
pub fn read_table(alloc: Global, text: &[u8]) -> Result<Table<'_>, ScriptNo>
    ensures { IsTableRead text.now result }
{
    let Head { columns, rest } = read_head(alloc, text)?;
    if !has_key(&columns) {
        let number = columns.len() as u64 + 2;
        let reason = no_key(rest);
        return Err(ScriptNo::Line { number, reason });
    }
    let schema = make_schema(alloc, columns)?;
    Ok(Table { schema, rest })
}
