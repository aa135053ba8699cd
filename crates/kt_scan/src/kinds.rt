//! The kinds of the columns that a scan shows.
ghost use Rattle.std.specs.Prelude.{◌≡◌, ◌++◌, map, unwrap_or, IfOk, OnOk};
ghost use Rattle.std.specs.Ordering.{nat_cmp};
ghost use Rattle.std.specs.FinMap.Entries.{find};
ghost use Rattle.kt_schema.specs.Columns.{key_columns, other_columns};
ghost use Rattle.kt_history.specs.Machine.{Workload};
ghost use Rattle.kt_history.specs.Replies.{kinds_of};
ghost use Rattle.kt_scan.specs.Encoded.{keys_of, others_of};

use kt_base::{Kind, NoMemory};
use kt_history::Scan;
use kt_schema::{Column, Schema};
use std::alloc::Global;

// The kind of a column of this id, if there is one.
fn kind_in(columns: &[Column], id: u16) -> Option<Kind>
    ensures { result ≡ find nat_cmp id (map (λ c. (c.id, c.kind)) columns.now) }
{
    for column in columns {
        if column.id == id {
            return Some(column.kind);
        }
    }
    None
}

// The kind of a column of this id, and that of wide numbers where there is none.
fn kind_of(schema: &Schema, id: u16) -> Kind
    ensures { result ≡ unwrap_or (find nat_cmp id (keys_of schema.now ++ others_of schema.now)) Kind.Int64 }
{
    match kind_in(schema.key_columns(), id) {
        Some(kind) => kind,
        None => kind_in(schema.other_columns(), id).unwrap_or(Kind::Int64),
    }
}

fn add_kinds(columns: &[Column], kinds: &mut Vec<Kind>) -> Result<(), NoMemory>
    ensures { OnOk result (kinds.new.items ≡ kinds.old.items ++ map (λ c. c.kind) columns.now) }
{
    for column in columns {
        kinds.push(column.kind)?;
    }
    Ok(())
}

fn all_kinds(alloc: Global, schema: &Schema) -> Result<Vec<Kind>, NoMemory>
    ensures { IfOk result (λ kinds. kinds.items ≡ map (λ c. c.kind) (key_columns schema.now) ++ map (λ c. c.kind) (other_columns schema.now)) }
{
    let mut kinds = Vec::with_capacity(alloc, schema.columns().len())?;
    add_kinds(schema.key_columns(), &mut kinds)?;
    add_kinds(schema.other_columns(), &mut kinds)?;
    Ok(kinds)
}

fn kinds_at(alloc: Global, schema: &Schema, ids: &[u16]) -> Result<Vec<Kind>, NoMemory>
    ensures { IfOk result (λ kinds. kinds.items ≡ map (λ id. unwrap_or (find nat_cmp id (keys_of schema.now ++ others_of schema.now)) Kind.Int64) ids.now) }
{
    let mut kinds = Vec::with_capacity(alloc, ids.len())?;
    for id in ids {
        kinds.push(kind_of(schema, *id))?;
    }
    Ok(kinds)
}

/// The kinds of the columns that a scan shows, in a workload with the columns of the schema.
pub fn kinds_shown(alloc: Global, schema: &Schema, scan: &Scan) -> Result<Vec<Kind>, NoMemory>
    ensures { IfOk result (λ kinds. (work : Workload) → work.keys ≡ keys_of schema.now → work.others ≡ others_of schema.now → kinds.items ≡ kinds_of work scan.now.columns) }
{
    match &scan.columns {
        None => Ok(all_kinds(alloc, schema)?),
        Some(ids) => Ok(kinds_at(alloc, schema, ids.as_slice())?),
    }
}
