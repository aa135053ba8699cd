//! From a list to its block.

ghost use Rattle.std.specs.Prelude.{◌≡◌, ◌<◌, ◌≤◌, ◌^◌, ◌++◌, [], length, map, sum_by, OnOk, IfOk, IfErr, MatchOption};
ghost use Rattle.std.specs.Bool.{OnTrue, OnFalse};
ghost use Rattle.std.specs.List.{All, AllByRecursion, concat, flat_map};
ghost use Rattle.kt_dict.specs.Spelling.{block, code, entries_after, short, spelling, Fits};
ghost use Rattle.kt_dict.specs.Writing.{text, IsRefusal};

use crate::error::{CodecNo, Width};
use crate::reading::MOST;
use crate::table::{place_of, use_item};
use indexmap::IndexSet;
use kt_bytes::{NoMemory, Octets, Texts};
use std::alloc::{AllocError, Global};

/// Uses the items, one after the other.
fn use_items<'a>(table: &mut IndexSet<&'a [u8]>, cells: &'a Texts) -> Result<(), NoMemory>
    ensures { OnOk result (map (λ k. k.now) table.new.keys ≡ entries_after (map (λ k. k.now) table.old.keys) cells.now) }
{
    for i in 0..cells.len() {
        tri!(use_item(table, cells.get(i)));
    }
    Ok(())
}

#[tactic(auto, unfolding(crate::specs::Writing::text, crate::specs::Spelling::number))]
fn put_entry(out: &mut Vec<u8>, bytes: &[u8]) -> Result<(), AllocError>
    requires { length bytes.now < 2 ^ 32 }
    ensures { OnOk result (out.new.items ≡ out.old.items ++ text bytes.now) }
{
    tri!(out.extend_from_slice(&(bytes.len() as u32).to_le_bytes()));
    out.extend_from_slice(bytes)
}

#[tactic(auto, unfolding(crate::specs::Spelling::short))]
pub(crate) fn put_short(out: &mut Vec<u8>, n: usize) -> Result<(), AllocError>
    requires { n < 2 ^ 16 }
    ensures { OnOk result (out.new.items ≡ out.old.items ++ short n) }
{
    out.extend_from_slice(&(n as u16).to_le_bytes())
}

fn put_entries(out: &mut Vec<u8>, entries: &[&[u8]]) -> Result<(), AllocError>
    requires { All (λ x. length x.now < 2 ^ 32) entries.now }
    ensures { OnOk result (out.new.items ≡ out.old.items ++ flat_map text (map (λ k. k.now) entries.now)) }
{
    for bytes in entries {
        tri!(put_entry(out, bytes));
    }
    Ok(())
}

/// The entries of a list that is held.
pub(crate) fn put_texts(out: &mut Vec<u8>, entries: &Texts) -> Result<(), AllocError>
    requires { AllByRecursion (λ x. length x < 2 ^ 32) entries.now }
    ensures { OnOk result (out.new.items ≡ out.old.items ++ flat_map text entries.now) }
{
    for i in 0..entries.len() {
        tri!(put_entry(out, entries.get(i)));
    }
    Ok(())
}

/// The codes of a list that is held.
pub(crate) fn put_places(out: &mut Vec<u8>, codes: &[u16]) -> Result<(), AllocError>
    ensures { OnOk result (out.new.items ≡ out.old.items ++ flat_map short codes.now) }
{
    for code in codes {
        tri!(put_short(out, *code as usize));
    }
    Ok(())
}

fn put_codes(out: &mut Vec<u8>, table: &IndexSet<&[u8]>, cells: &Texts) -> Result<(), AllocError>
    requires { length (map (λ k. k.now) table.now.keys) ≤ 4096 }
    ensures { OnOk result (out.new.items ≡ out.old.items ++ flat_map (code (map (λ k. k.now) table.now.keys)) cells.now) }
{
    for i in 0..cells.len() {
        tri!(put_short(out, place_of(table, cells.get(i))));
    }
    Ok(())
}

/// The bytes of a dictionary, and of the codes of cells.
fn written(alloc: Global, table: &IndexSet<&[u8]>, cells: &Texts) -> Result<Vec<u8>, AllocError>
    requires few { length (map (λ k. k.now) table.now.keys) ≤ 4096 }
    requires small { All (λ k. length k.now < 2 ^ 32) table.now.keys }
    ensures { IfOk result (λ bytes. bytes.items ≡ concat (block (map (λ k. k.now) table.now.keys) cells.now)) }
{
    let mut out = Vec::new(alloc);
    tri!(put_short(&mut out, table.len()));
    tri!(put_entries(&mut out, table.as_slice()));
    tri!(put_codes(&mut out, table, cells));
    Ok(out)
}

/// How many bytes the entries take.
fn entries_len(entries: &[&[u8]]) -> usize
    requires few { length entries.now ≤ 4096 }
    requires small { All (λ x. length x.now < 2 ^ 32) entries.now }
    ensures value { result ≡ length (flat_map text (map (λ k. k.now) entries.now)) }
    ensures most { result < 2 ^ 45 }
{
    let mut len = 0;
    for bytes in entries {
        len += 4 + bytes.len();
    }
    len
}

/// Uses the items, one after the other, and says whether there were not too many different ones for all of them.
fn use_few<'a>(table: &mut IndexSet<&'a [u8]>, cells: &'a Texts) -> Result<bool, NoMemory>
    requires { length (map (λ k. k.now) table.old.keys) ≤ 4096 }
    ensures all { IfOk result (λ all. OnTrue all ((map (λ k. k.now) table.new.keys ≡ entries_after (map (λ k. k.now) table.old.keys) cells.now) × (length (map (λ k. k.now) table.new.keys) ≤ 4096))) }
    ensures over { IfOk result (λ all. OnFalse all (4096 < length (entries_after (map (λ k. k.now) table.old.keys) cells.now))) }
{
    for i in 0..cells.len() {
        tri!(use_item(table, cells.get(i)));
        if table.len() > MOST {
            return Ok(false);
        }
    }
    Ok(true)
}

/// How many bytes the spelling of the list takes, whose different items come into the table, or none where there are too
/// many of them.
fn len_by<'a>(table: &mut IndexSet<&'a [u8]>, cells: &'a Texts) -> Result<Option<usize>, NoMemory>
    requires none { table.old.keys ≡ [] }
    requires few { length cells.now < 2 ^ 32 }
    requires small { sum_by length cells.now < 2 ^ 32 }
    ensures { IfOk result (λ len. MatchOption len (¬ Fits cells.now) (λ n. Fits cells.now × (n ≡ length (spelling cells.now)))) }
{
    if !use_few(table, cells)? {
        return Ok(None);
    }
    Ok(Some(2 + entries_len(table.as_slice()) + 2 * cells.len()))
}

/// How many bytes the spelling of the list takes, or none where there are too many different items.
pub fn encoded_len(alloc: Global, cells: &Texts) -> Result<Option<usize>, NoMemory>
    requires few { length cells.now < 2 ^ 32 }
    requires small { sum_by length cells.now < 2 ^ 32 }
    ensures { IfOk result (λ len. MatchOption len (¬ Fits cells.now) (λ n. Fits cells.now × (n ≡ length (spelling cells.now)))) }
{
    let mut table = IndexSet::new(alloc);
    len_by(&mut table, cells)
}

/// The one spelling of the list, whose different items come into the table.
fn encode_by<'a>(
    alloc: Global,
    table: &mut IndexSet<&'a [u8]>,
    cells: &'a Texts,
) -> Result<Octets, CodecNo>
    requires none { table.old.keys ≡ [] }
    requires few { length cells.now < 2 ^ 32 }
    requires small { sum_by length cells.now < 2 ^ 32 }
    ensures ok { IfOk result (λ bytes. (bytes ≡ spelling cells.now) × Fits cells.now) }
    ensures refused { IfErr result (λ e. IsRefusal cells.now e) }
{
    use_items(table, cells)?;
    let count = table.len();
    if count > MOST {
        return Err(CodecNo::TooMany {
            count: count as u32,
        });
    }
    Ok(Octets::of(written(alloc, table, cells)?))
}

/// The one spelling of the list.
pub fn encode(alloc: Global, cells: &Texts, width: Width) -> Result<Octets, CodecNo>
    requires few { length cells.now < 2 ^ 32 }
    requires small { sum_by length cells.now < 2 ^ 32 }
    ensures ok { IfOk result (λ bytes. (bytes ≡ spelling cells.now) × Fits cells.now) }
    // Too many different items, or no memory.
    ensures refused { IfErr result (λ e. IsRefusal cells.now e) }
{
    let Width::Bytes = width;
    let mut table = IndexSet::new(alloc);
    encode_by(alloc, &mut table, cells)
}
