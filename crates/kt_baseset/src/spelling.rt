//! The bytes of a base file's parts.
ghost use Rattle.std.specs.Prelude.{◌≡◌, ◌++◌, ◌<◌, ◌^◌, OnOk, IfOk, length};
ghost use Rattle.kt_lookup.specs.Tail as tail;
ghost use Rattle.kt_baseset.specs.Tables.{AreTexts, keys_of};
ghost use Rattle.kt_baseset.specs.Spelling.{AddsOne, AddsEach, AddsColumns, SpellsKeys, shape_bytes};

use crate::fields::number_of;
use crate::held::HeldColumn;
use crate::schema::ColumnShape;
use kt_base::{NoMemory, Octets};
use kt_column::ColumnData;
use kt_lookup::Lookup;
use std::alloc::Global;

/// The letters, the number of rows and the blocks of the keys.
pub fn spell_keys(alloc: Global, keys: &ColumnData) -> Result<Octets, NoMemory>
    requires { AreTexts keys.now }
    ensures { IfOk result (SpellsKeys (keys_of keys.now.cells)) }
{
    let mut out = Octets::new(alloc);
    out.extend(b"KTB1")?;
    out.extend(&keys.len().to_le_bytes())?;
    let blocks = keys.spell(alloc)?;
    out.extend(blocks.as_slice())?;
    Ok(out)
}

/// Adds what a column is.
fn put_shape(out: &mut Octets, shape: ColumnShape) -> Result<(), NoMemory>
    ensures { OnOk result (out.new ≡ out.old ++ shape_bytes shape) }
{
    out.extend(&shape.id.to_le_bytes())?;
    out.extend(&[number_of(shape.kind), u8::from(shape.nullable)])
}

/// Adds a column: what it is, and its blocks.
fn put_one(alloc: Global, out: &mut Octets, column: &HeldColumn) -> Result<(), NoMemory>
    ensures { OnOk result (AddsOne out.old column.now out.new) }
{
    put_shape(out, column.shape)?;
    let blocks = column.column.spell(alloc)?;
    out.extend(blocks.as_slice())
}

/// Adds columns, one after another.
fn put_each(alloc: Global, out: &mut Octets, columns: &[HeldColumn]) -> Result<(), NoMemory>
    ensures { OnOk result (AddsEach out.old columns.now out.new) }
{
    'columns: for column in columns {
        put_one(alloc, out, column)?;
    }
    Ok(())
}

/// Adds the columns behind their count.
pub fn put_columns(alloc: Global, out: &mut Octets, columns: &[HeldColumn]) -> Result<(), NoMemory>
    requires { length columns.now < 2 ^ 16 }
    ensures { OnOk result (AddsColumns out.old columns.now out.new) }
{
    out.extend(&(columns.len() as u16).to_le_bytes())?;
    put_each(alloc, out, columns)
}

/// Adds the filter and the index.
pub fn put_lookup(alloc: Global, out: &mut Octets, lookup: &Lookup) -> Result<(), NoMemory>
    ensures { OnOk result (out.new ≡ out.old ++ tail.spelling lookup.now.filter lookup.now.index) }
{
    match lookup.spell(alloc) {
        Ok(bytes) => out.extend(bytes.as_slice()),
        Err(_) => Err(NoMemory),
    }
}
