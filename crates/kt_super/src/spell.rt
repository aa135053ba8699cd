//! Spelling a superblock.
ghost use Rattle.std.specs.Prelude.{◌≡◌, ◌++◌, ◌≤◌, ◌<◌, ◌^◌, length, OnOk, IfOk};
ghost use Rattle.std.specs.Int.{w8, w16, w32, w64, to_le_bytes};
ghost use Rattle.kt_super.specs.Columns.{bit, kind_number, flags_of, spelled_cell, spelled_default, spelled_name, spelled_column, spelled_columns};
ghost use Rattle.kt_super.specs.Rowsets.{spelled_file, spelled_files, spelled_rowset, spelled_rowsets};
ghost use Rattle.kt_super.specs.Body.{head_of, spelled_head, spelled_body};
ghost use Rattle.kt_super.specs.Slots.{spelled_slot};

use crate::{FileRef, Meta, MetaRowset};
use kt_base::{Cell, Kind, NoMemory, Octets};
use kt_schema::Column;
use std::alloc::Global;

fn put_u16(out: &mut Octets, number: u16) -> Result<(), NoMemory>
    ensures { OnOk result (out.new ≡ out.old ++ to_le_bytes w16 number) }
{
    out.extend(&number.to_le_bytes())
}

fn put_u64(out: &mut Octets, number: u64) -> Result<(), NoMemory>
    ensures { OnOk result (out.new ≡ out.old ++ to_le_bytes w64 number) }
{
    out.extend(&number.to_le_bytes())
}

fn put_u8(out: &mut Octets, number: u8) -> Result<(), NoMemory>
    ensures { OnOk result (out.new ≡ out.old ++ to_le_bytes w8 number) }
{
    out.extend(&number.to_le_bytes())
}

// A count or a length; more than fits its field is as good as no memory.
fn put_count(out: &mut Octets, count: usize) -> Result<(), NoMemory>
    ensures put { OnOk result (out.new ≡ out.old ++ to_le_bytes w32 count) }
    ensures fits { OnOk result (count < 2 ^ 32) }
{
    let Ok(count) = u32::try_from(count) else {
        return Err(NoMemory);
    };
    out.extend(&count.to_le_bytes())
}

fn put_file(out: &mut Octets, file: &FileRef) -> Result<(), NoMemory>
    ensures { OnOk result (out.new ≡ out.old ++ spelled_file file.now) }
{
    tri!(put_u64(out, file.file));
    put_u64(out, file.len)
}

fn put_files(out: &mut Octets, files: &[FileRef]) -> Result<(), NoMemory>
    ensures { OnOk result (out.new ≡ out.old ++ spelled_files files.now) }
{
    tri!(put_count(out, files.len()));
    for file in files {
        tri!(put_file(out, file));
    }
    Ok(())
}

fn put_rowset(out: &mut Octets, rowset: &MetaRowset) -> Result<(), NoMemory>
    ensures { OnOk result (out.new ≡ out.old ++ spelled_rowset rowset.now) }
{
    tri!(put_u64(out, rowset.rowset));
    tri!(put_u64(out, rowset.last_dms));
    tri!(put_file(out, &rowset.base));
    tri!(put_files(out, rowset.undo.as_slice()));
    put_files(out, rowset.redo.as_slice())
}

fn put_rowsets(out: &mut Octets, rowsets: &[MetaRowset]) -> Result<(), NoMemory>
    ensures { OnOk result (out.new ≡ out.old ++ spelled_rowsets rowsets.now) }
{
    tri!(put_count(out, rowsets.len()));
    for rowset in rowsets {
        tri!(put_rowset(out, rowset));
    }
    Ok(())
}

fn kind_number(kind: Kind) -> u8
    ensures { result ≡ kind_number kind }
{
    match kind {
        Kind::Bool => 1,
        Kind::Int8 => 2,
        Kind::Int16 => 3,
        Kind::Int32 => 4,
        Kind::Int64 => 5,
        Kind::String => 6,
        Kind::Binary => 7,
    }
}

fn bit(set: bool) -> u8
    ensures value { result ≡ bit set }
    ensures small { result ≤ 1 }
{
    if set { 1 } else { 0 }
}

fn flags_of(column: &Column) -> u8
    ensures { result ≡ flags_of column.now }
{
    bit(column.key) + 2 * bit(column.nullable) + 4 * bit(column.default.is_some())
}

fn put_cell(out: &mut Octets, cell: &Cell) -> Result<(), NoMemory>
    ensures { OnOk result (out.new ≡ out.old ++ spelled_cell cell.now) }
{
    match cell {
        Cell::Null => put_u8(out, 0),
        Cell::Bool(set) => {
            tri!(put_u8(out, 1));
            put_u8(out, bit(*set))
        }
        Cell::Int(number) => {
            tri!(put_u8(out, 2));
            put_u64(out, number.cast_unsigned())
        }
        Cell::Bytes(bytes) => {
            tri!(put_u8(out, 3));
            tri!(put_count(out, bytes.len()));
            out.extend(bytes.as_slice())
        }
    }
}

fn put_default(out: &mut Octets, default: &Option<Cell>) -> Result<(), NoMemory>
    ensures { OnOk result (out.new ≡ out.old ++ spelled_default default.now) }
{
    match default {
        Some(cell) => put_cell(out, cell),
        None => Ok(()),
    }
}

// A name that does not fit its field is as good as no memory.
fn put_name(out: &mut Octets, name: &[u8]) -> Result<(), NoMemory>
    ensures { OnOk result (out.new ≡ out.old ++ spelled_name name.now) }
{
    let Ok(len) = u8::try_from(name.len()) else {
        return Err(NoMemory);
    };
    tri!(put_u8(out, len));
    out.extend(name)
}

fn put_column(out: &mut Octets, column: &Column) -> Result<(), NoMemory>
    ensures { OnOk result (out.new ≡ out.old ++ spelled_column column.now) }
{
    tri!(put_u16(out, column.id));
    tri!(put_name(out, column.name.as_slice()));
    tri!(put_u8(out, kind_number(column.kind)));
    tri!(put_u8(out, flags_of(column)));
    put_default(out, &column.default)
}

fn put_columns(out: &mut Octets, columns: &[Column]) -> Result<(), NoMemory>
    ensures { OnOk result (out.new ≡ out.old ++ spelled_columns columns.now) }
{
    let Ok(count) = u16::try_from(columns.len()) else {
        return Err(NoMemory);
    };
    tri!(put_u16(out, count));
    for column in columns {
        tri!(put_column(out, column));
    }
    Ok(())
}

fn put_head(out: &mut Octets, meta: &Meta) -> Result<(), NoMemory>
    ensures { OnOk result (out.new ≡ out.old ++ spelled_head (head_of meta.now)) }
{
    tri!(put_u16(out, 1));
    tri!(put_u64(out, meta.number));
    tri!(put_u64(out, meta.a));
    tri!(put_u64(out, meta.c));
    tri!(put_u64(out, meta.need));
    tri!(put_u64(out, meta.last_mem));
    tri!(put_u64(out, meta.next_rowset));
    tri!(put_u64(out, meta.next_file));
    put_u16(out, meta.next_column)
}

fn put_body(out: &mut Octets, meta: &Meta) -> Result<(), NoMemory>
    ensures { OnOk result (out.new ≡ out.old ++ spelled_body meta.now) }
{
    tri!(put_head(out, meta));
    tri!(put_columns(out, meta.schema.columns()));
    put_rowsets(out, meta.rowsets.as_slice())
}

// Puts the length of a body, and the body.
fn put_framed(out: &mut Octets, body: &[u8]) -> Result<(), NoMemory>
    ensures put { OnOk result (out.new ≡ out.old ++ (to_le_bytes w32 (length body.now) ++ body.now)) }
    ensures fits { OnOk result (length body.now < 2 ^ 32) }
{
    tri!(out.reserve(body.len().saturating_add(4)));
    tri!(put_count(out, body.len()));
    out.extend(body)
}

// The length of a body, and the body.
fn framed(alloc: Global, body: &[u8]) -> Result<Octets, NoMemory>
    ensures bytes { IfOk result (λ bytes. bytes ≡ to_le_bytes w32 (length body.now) ++ body.now) }
    ensures fits { OnOk result (length body.now < 2 ^ 32) }
{
    let mut bytes = Octets::new(alloc);
    tri!(put_framed(&mut bytes, body));
    Ok(bytes)
}

/// What stands behind the gate of a slot with this superblock.
pub fn spelled(alloc: Global, meta: &Meta) -> Result<Octets, NoMemory>
    ensures spelled { IfOk result (λ bytes. bytes ≡ spelled_slot meta.now) }
    ensures fits { OnOk result (length (spelled_body meta.now) < 2 ^ 32) }
{
    let mut body = Octets::new(alloc);
    tri!(put_body(&mut body, meta));
    framed(alloc, body.as_slice())
}
