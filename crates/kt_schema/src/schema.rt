//! A schema: columns that have passed the checks.
ghost use Rattle.std.specs.Prelude.{◌≡◌, ◌≤◌, ◌&&◌, length, take, drop, not, Option, Some, None, IfOk, OnOk, IfErr, unwrap_or};
ghost use Rattle.std.specs.List.{list_any};
ghost use Rattle.kt_schema.specs.Columns.{is_weak, same_name, late_column, weak_column, again_column, columns_no, told_no, key_columns, other_columns, key_kinds, fill_of};

use crate::{Column, ColumnList, SchemaNo};
use kt_base::limits::COLUMNS;
use kt_base::{Cell, Cells, Kind, NoMemory};
use std::alloc::Global;
use std::marker::Model;

/// The columns of a table. Contracts see them as a list, for which none of the refusals S1 to S5 holds.
#[derive(Drop)]
pub struct Schema {
    columns: Vec<Column>,
    // The kinds of the key columns, in order.
    key_kinds: Vec<Kind>,
}

impl Model for Schema {
    ghost use Rattle.std.specs.Prelude.{◌≡◌, List, None};
    ghost use Rattle.kt_schema.specs.declared.column.Column.{Column};

    ghost Value = { List Column };

    ghost use Rattle.kt_schema.specs.Columns.{columns_no, key_kinds as kinds_of_keys};

    ghost view = { λ s. s.columns.items };

    ghost invariant = { λ s. (columns_no s.columns.items ≡ None) × (s.key_kinds.items ≡ kinds_of_keys s.columns.items) };
}

fn has_key(columns: &[Column]) -> bool
    ensures { result ≡ list_any (λ c. c.key) columns.now }
{
    columns.iter().any(|column| column.key)
}

fn is_late(column: &Column, other: bool) -> bool
    ensures { result ≡ (column.now.key && other) }
{
    column.key && other
}

fn late_column(columns: &[Column]) -> Option<usize>
    ensures { result ≡ late_column columns.now }
{
    let mut other = false;
    for (at, column) in columns.iter().enumerate() {
        if is_late(column, other) {
            return Some(at);
        }
        other |= !column.key;
    }
    None
}

fn is_weak(column: &Column) -> bool
    ensures { result ≡ is_weak column.now }
{
    column.key && (column.nullable || column.kind == Kind::Bool)
}

fn weak_column(columns: &[Column]) -> Option<usize>
    ensures { result ≡ weak_column columns.now }
{
    for (at, column) in columns.iter().enumerate() {
        if is_weak(column) {
            return Some(at);
        }
    }
    None
}

fn has_name_of(columns: &[Column], column: &Column) -> bool
    ensures { result ≡ list_any (λ d. same_name column.now d) columns.now }
{
    let name = column.name.as_slice();
    columns
        .iter()
        .any(|other| name.cmp(&other.name.as_slice()).is_eq())
}

fn again_column(columns: &[Column]) -> Option<usize>
    ensures { result ≡ again_column columns.now }
{
    for (at, column) in columns.iter().enumerate() {
        if has_name_of(&columns[..at], column) {
            return Some(at);
        }
    }
    None
}

// Why columns make no schema, if they make none.
fn refusal(columns: &[Column]) -> Option<SchemaNo>
    ensures { result ≡ columns_no columns.now }
{
    if !has_key(columns) {
        return Some(SchemaNo::S1);
    }
    if let Some(at) = late_column(columns) {
        return Some(SchemaNo::S2 { at });
    }
    if let Some(at) = weak_column(columns) {
        return Some(SchemaNo::S3 { at });
    }
    if let Some(at) = again_column(columns) {
        return Some(SchemaNo::S4 { at });
    }
    if columns.len() > COLUMNS {
        Some(SchemaNo::S5)
    } else {
        None
    }
}

fn kinds_of(alloc: Global, columns: &[Column]) -> Result<Vec<Kind>, NoMemory>
    ensures { IfOk result (λ kinds. kinds.items ≡ key_kinds columns.now) }
{
    let mut kinds = Vec::new(alloc);
    for column in columns {
        if column.key {
            kinds.push(column.kind)?;
        }
    }
    Ok(kinds)
}

fn default_of(column: &Column) -> Result<Cell, NoMemory>
    ensures { IfOk result (λ cell. cell ≡ unwrap_or column.now.default Cell.Null) }
{
    match &column.default {
        Some(cell) => cell.copy(),
        None => Ok(Cell::Null),
    }
}

impl Schema {
    /// Without memory it takes the columns, and tells so only where they would make a schema.
    pub fn new(alloc: Global, columns: ColumnList) -> Result<Schema, SchemaNo>
        ensures ok { IfOk result (λ schema. schema ≡ columns) }
        ensures fits { OnOk result (columns_no columns ≡ None) }
        ensures refused { IfErr result (λ no. columns_no columns ≡ told_no no) }
    {
        let columns = columns.into_vec();
        if let Some(no) = refusal(&columns) {
            return Err(no);
        }
        match kinds_of(alloc, &columns) {
            Ok(key_kinds) => Ok(Schema { columns, key_kinds }),
            Err(NoMemory) => Err(SchemaNo::Memory),
        }
    }

    pub fn columns(&self) -> &[Column]
        ensures value { result.now ≡ self.now }
        ensures fit { columns_no self.now ≡ None }
    {
        &self.columns
    }

    /// The kinds of the key columns, which encoded keys are made by.
    pub fn key_kinds(&self) -> &[Kind]
        ensures { result.now ≡ key_kinds self.now }
    {
        &self.key_kinds
    }

    // The key columns stand first, and are so many.
    fn key_count(&self) -> usize
        ensures within { result ≤ length self.now }
        ensures keys { key_columns self.now ≡ take result self.now }
        ensures others { other_columns self.now ≡ drop result self.now }
    {
        self.key_kinds.len()
    }

    pub fn key_columns(&self) -> &[Column]
        ensures { result.now ≡ key_columns self.now }
    {
        &self.columns()[..self.key_count()]
    }

    /// The columns that are no key.
    pub fn other_columns(&self) -> &[Column]
        ensures { result.now ≡ other_columns self.now }
    {
        &self.columns()[self.key_count()..]
    }

    /// Each column that is no key with its default, or null: what an upsert gives to the columns that it does not name.
    pub fn fill(&self, alloc: Global) -> Result<Cells, NoMemory>
        ensures { IfOk result (λ cells. cells ≡ fill_of self.now) }
    {
        let others = self.other_columns();
        let mut cells = Vec::with_capacity(alloc, others.len())?;
        for column in others {
            cells.push((column.id, default_of(column)?))?;
        }
        Ok(Cells::of(cells))
    }
}
