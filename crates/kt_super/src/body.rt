//! Reading the body of a superblock.
ghost use Rattle.std.specs.Prelude.{◌≡◌, None};
ghost use Rattle.std.specs.Int.{w16, w64};
ghost use Rattle.kt_schema.specs.Columns.{told_no};
ghost use Rattle.kt_bytes.specs.Reading.{Gives, checked_at};
ghost use Rattle.kt_super.specs.Columns.{counted_columns_at};
ghost use Rattle.kt_super.specs.Body.{slot_for, is_number, is_next_file, is_next_column, is_format, head_at, body_at};

use crate::Meta;
use crate::columns::counted_columns_of;
use crate::rowsets::{Next, SMALL, counted_rowsets_of, small_at};
use kt_bytes::Stop;
use kt_bytes::fields::{fault_at, u16_at, u64_at};
use kt_schema::{ColumnList, Schema, SchemaNo};
use std::alloc::Global;

// The fields before the columns.
#[derive(Clone, Copy)]
struct Head {
    number: u64,
    a: u64,
    c: u64,
    need: u64,
    last_mem: u64,
    next_rowset: u64,
    next_file: u64,
    next_column: u16,
}

/// The slot in which the superblock of this number stands.
pub fn slot_for(number: u64) -> u64
    ensures { result ≡ slot_for number }
{
    if number % 2 == 1 { 1 } else { 2 }
}

fn format_at(bytes: &[u8]) -> Result<(u16, &[u8]), Stop>
    ensures { Gives (λ x. (x.0, x.1.now)) result (checked_at w16 is_format bytes.now) }
{
    let (format, rest) = tri!(u16_at(bytes));
    if format == 1 {
        Ok((format, rest))
    } else {
        fault_at(bytes)
    }
}

fn meta_number_at(slot: u64, bytes: &[u8]) -> Result<(u64, &[u8]), Stop>
    ensures { Gives (λ x. (x.0, x.1.now)) result (checked_at w64 (is_number slot) bytes.now) }
{
    let (number, rest) = tri!(u64_at(bytes));
    if 1 <= number && number < SMALL && slot_for(number) == slot {
        Ok((number, rest))
    } else {
        fault_at(bytes)
    }
}

fn next_file_at(bytes: &[u8]) -> Result<(u64, &[u8]), Stop>
    ensures { Gives (λ x. (x.0, x.1.now)) result (checked_at w64 is_next_file bytes.now) }
{
    let (number, rest) = tri!(u64_at(bytes));
    if 3 <= number && number < SMALL {
        Ok((number, rest))
    } else {
        fault_at(bytes)
    }
}

// A schema has a column with an id below this.
fn next_column_at(bytes: &[u8]) -> Result<(u16, &[u8]), Stop>
    ensures { Gives (λ x. (x.0, x.1.now)) result (checked_at w16 is_next_column bytes.now) }
{
    let (number, rest) = tri!(u16_at(bytes));
    if 1 <= number {
        Ok((number, rest))
    } else {
        fault_at(bytes)
    }
}

fn head_of(slot: u64, bytes: &[u8]) -> Result<(Head, &[u8]), Stop>
    ensures { Gives (λ x. (x.0, x.1.now)) result (head_at slot bytes.now) }
{
    let (_, rest) = tri!(format_at(bytes));
    let (number, rest) = tri!(meta_number_at(slot, rest));
    let (a, rest) = tri!(u64_at(rest));
    let (c, rest) = tri!(u64_at(rest));
    let (need, rest) = tri!(small_at(rest));
    let (last_mem, rest) = tri!(small_at(rest));
    let (next_rowset, rest) = tri!(small_at(rest));
    let (next_file, rest) = tri!(next_file_at(rest));
    let (next_column, rest) = tri!(next_column_at(rest));
    let head = Head {
        number,
        a,
        c,
        need,
        last_mem,
        next_rowset,
        next_file,
        next_column,
    };
    Ok((head, rest))
}

// Columns that make a schema are refused for want of memory alone.
fn no_memory(no: SchemaNo) -> Stop
    requires { told_no no ≡ None }
    ensures { result ≡ Stop.Memory }
{
    match no {
        SchemaNo::Memory => Stop::Memory,
        SchemaNo::S1 => unreachable!(),
        SchemaNo::S2 { .. } => unreachable!(),
        SchemaNo::S3 { .. } => unreachable!(),
        SchemaNo::S4 { .. } => unreachable!(),
        SchemaNo::S5 => unreachable!(),
    }
}

fn schema_of(alloc: Global, next: u16, bytes: &[u8]) -> Result<(Schema, &[u8]), Stop>
    ensures { Gives (λ x. (x.0, x.1.now)) result (counted_columns_at next bytes.now) }
{
    let (columns, rest) = tri!(counted_columns_of(alloc, next, bytes));
    match Schema::new(alloc, ColumnList::of(columns)) {
        Ok(schema) => Ok((schema, rest)),
        Err(no) => Err(no_memory(no)),
    }
}

/// The superblock that a body spells, and the bytes behind it.
#[tactic(auto, unfolding(crate::specs::Body::body_at))]
pub fn body_of(alloc: Global, slot: u64, bytes: &[u8]) -> Result<(Meta, &[u8]), Stop>
    ensures { Gives (λ x. (x.0, x.1.now)) result (body_at slot bytes.now) }
{
    let (head, rest) = tri!(head_of(slot, bytes));
    let (schema, rest) = tri!(schema_of(alloc, head.next_column, rest));
    let next = Next {
        rowset: head.next_rowset,
        file: head.next_file,
    };
    let (rowsets, rest) = match counted_rowsets_of(alloc, next, rest) {
        Ok(read) => read,
        Err(stop) => {
            drop(schema);
            return Err(stop);
        }
    };
    let meta = Meta {
        number: head.number,
        a: head.a,
        c: head.c,
        need: head.need,
        last_mem: head.last_mem,
        next_rowset: head.next_rowset,
        next_file: head.next_file,
        next_column: head.next_column,
        schema,
        rowsets,
    };
    Ok((meta, rest))
}
