//! From the bytes of a base file to its base set.
ghost use Rattle.std.specs.Prelude.{◌≡◌, List, IfOk, IfErr, MatchResult};
ghost use Rattle.kt_bytes.specs.declared.fault.Stop.TheVariants as stops;
ghost use Rattle.kt_baseset.specs.declared.errors.CodecNo.TheVariants as answers;
ghost use Rattle.kt_baseset.specs.declared.schema.ColumnShape.{ColumnShape};
ghost use Rattle.kt_baseset.specs.declared.rows.KeyedRow.{KeyedRow};
ghost use Rattle.kt_baseset.specs.Rows.{AreKeys};
ghost use Rattle.kt_baseset.specs.Tables.{IsLookup};
ghost use Rattle.kt_baseset.specs.Spelling.{SpellsBase, lookup_bytes};
ghost use Rattle.kt_baseset.specs.Reading.{IsLookupFault, IsFault, IsRefusal, Stops};
ghost use Rattle.kt_baseset.specs.Fields.{TellsFront};

use crate::baseset::{BaseSet, lookup_of};
use crate::columns::read_columns;
use crate::errors::CodecNo;
use crate::keys::front_of;
use kt_bytes::Stop;
use kt_lookup::{KeyList, Lookup};
use std::alloc::Global;

/// The filter and the index of the keys, which are all that the bytes are.
fn read_lookup(alloc: Global, list: &KeyList, bytes: &[u8]) -> Result<Lookup, Stop>
    requires { AreKeys list.now }
    ensures own { IfOk result (IsLookup list.now) }
    ensures found { IfOk result (λ _. bytes.now ≡ lookup_bytes list.now) }
    ensures only { bytes.now ≡ lookup_bytes list.now → IfErr result (λ e. e ≡ stops.Memory) }
    ensures stop { IfErr result (Stops (IsLookupFault list.now bytes.now)) }
{
    let Ok(lookup) = lookup_of(alloc, list) else {
        return Err(Stop::Memory);
    };
    match lookup.check(bytes) {
        Ok(used) if used < bytes.len() => Err(Stop::Left(bytes.len() - used)),
        Ok(_) => Ok(lookup),
        Err(differs) => Err(Stop::Left(bytes.len().saturating_sub(differs.offset as usize))),
    }
}

/// The base set that all of the bytes spell.
fn read_set(alloc: Global, bytes: &[u8]) -> Result<BaseSet, Stop>
    ensures found { IfOk result (λ set. SpellsBase set.schema set.rows bytes.now) }
    ensures only { (schema : List ColumnShape) (rows : List KeyedRow) → SpellsBase schema rows bytes.now → MatchResult result (λ set. set ≡ record { schema = schema; rows = rows }) (λ e. e ≡ stops.Memory) }
    ensures stop { IfErr result (Stops (IsFault bytes.now)) }
{
    let front = match front_of(alloc, bytes) {
        Ok(front) => front,
        Err(stop) => return Err(stop),
    };
    let (columns, last) = match read_columns(alloc, front.column.len(), front.rest) {
        Ok(read) => read,
        Err(stop) => return Err(stop),
    };
    match read_lookup(alloc, &front.list, last) {
        Ok(lookup) => Ok(BaseSet::of(front.column, columns, lookup)),
        Err(stop) => Err(stop),
    }
}

/// The base set that the bytes spell, all of the bytes.
pub fn decode(alloc: Global, bytes: &[u8]) -> Result<BaseSet, CodecNo>
    // What is read is spelled so.
    ensures found { IfOk result (λ set. SpellsBase set.schema set.rows bytes.now) }
    // What is spelled so is read, unless memory runs out.
    ensures only { (schema : List ColumnShape) (rows : List KeyedRow) → SpellsBase schema rows bytes.now → MatchResult result (λ set. set ≡ record { schema = schema; rows = rows }) (λ e. e ≡ answers.Memory) }
    // Where the first fault is.
    ensures place { IfErr result (IsRefusal bytes.now) }
    // In front of the blocks the fields alone tell it.
    ensures front { IfErr result (TellsFront bytes.now) }
{
    match read_set(alloc, bytes) {
        Ok(set) => Ok(set),
        Err(Stop::Memory) => Err(CodecNo::Memory),
        Err(Stop::Left(left)) => {
            let offset = bytes.len().saturating_sub(left) as u64;
            Err(CodecNo::Place { offset })
        }
    }
}
