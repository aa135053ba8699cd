//! Copies of what a superblock names.
ghost use Rattle.std.specs.Prelude.{◌≡◌, IfOk};

use kt_base::{Cell, NoMemory};
use kt_schema::{Column, ColumnList, Schema};
use kt_super::{FileRef, FileRefs, MetaRowset, MetaRowsets};
use std::alloc::Global;

// The same default, or none.
fn default_of(column: &Column) -> Result<Option<Cell>, NoMemory>
    ensures { IfOk result (λ copy. copy ≡ column.now.default) }
{
    match &column.default {
        Some(cell) => Ok(Some(cell.copy()?)),
        None => Ok(None),
    }
}

// The same column.
fn column_of(column: &Column) -> Result<Column, NoMemory>
    ensures { IfOk result (λ copy. copy ≡ column.now) }
{
    let name = column.name.copy()?;
    let default = default_of(column)?;
    Ok(Column {
        id: column.id,
        name,
        kind: column.kind,
        key: column.key,
        nullable: column.nullable,
        default,
    })
}

/// The same columns. They have made a schema, and make one again.
pub fn schema_of(alloc: Global, schema: &Schema) -> Result<Schema, NoMemory>
    ensures { IfOk result (λ copy. copy ≡ schema.now) }
{
    let mut columns = Vec::with_capacity(alloc, schema.columns().len())?;
    'columns: for column in schema.columns() {
        columns.push(column_of(column)?)?;
    }
    match Schema::new(alloc, ColumnList::of(columns)) {
        Ok(copy) => Ok(copy),
        Err(_) => Err(NoMemory),
    }
}

// The same files.
fn files_of(alloc: Global, files: &FileRefs) -> Result<FileRefs, NoMemory>
    ensures { IfOk result (λ copy. copy ≡ files.now) }
{
    let mut copies: Vec<FileRef> = Vec::with_capacity(alloc, files.as_slice().len())?;
    copies.extend_from_slice(files.as_slice())?;
    Ok(FileRefs::of(copies))
}

// The same rowset with its files.
fn rowset_of(alloc: Global, rowset: &MetaRowset) -> Result<MetaRowset, NoMemory>
    ensures { IfOk result (λ copy. copy ≡ rowset.now) }
{
    Ok(MetaRowset {
        rowset: rowset.rowset,
        last_dms: rowset.last_dms,
        base: rowset.base,
        undo: files_of(alloc, &rowset.undo)?,
        redo: files_of(alloc, &rowset.redo)?,
    })
}

/// The same rowsets.
pub fn rowsets_of(alloc: Global, rowsets: &MetaRowsets) -> Result<MetaRowsets, NoMemory>
    ensures { IfOk result (λ copy. copy ≡ rowsets.now) }
{
    let mut copies = Vec::with_capacity(alloc, rowsets.as_slice().len())?;
    'rowsets: for rowset in rowsets.as_slice() {
        copies.push(rowset_of(alloc, rowset)?)?;
    }
    Ok(MetaRowsets::of(copies))
}
