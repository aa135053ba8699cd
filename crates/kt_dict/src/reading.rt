//! From a block to its list.

ghost use Rattle.std.specs.Prelude.{◌≡◌, ◌≤◌, ◌<◌, ◌^◌, [], List, ℕ, map, IfOk, IfErr, IsTrue};
ghost use Rattle.kt_bytes.specs.Reading.{Gives};
ghost use Rattle.kt_dict.specs.Reading.{Spells, SpellsWithin, IsCause, IsCauseWithin, IsItems};
ghost use Rattle.kt_dict.specs.Walk as spec;
ghost use Rattle.kt_dict.specs.Walk.{is_code, count_at, text_at, entries_at, code_at, used_with, codes_at, block_at};

use crate::error::{CodecNo, Width};
use crate::items::Items;
use crate::table::{can_stand, texts_of, use_item};
use indexmap::IndexSet;
use kt_bytes::fields::{front_of, u16_at, u32_at};
use kt_bytes::{Stop, Texts};
use std::alloc::Global;

/// The most entries that a dictionary has.
pub const MOST: usize = 4096;

/// So many cells can have so many entries.
fn is_count(cells: usize, count: usize) -> bool
    ensures value { result ≡ spec.is_count cells count }
    ensures few { IsTrue result → count ≤ 4096 }
{
    count <= MOST && count <= cells && (0 < count || cells == 0)
}

#[tactic(auto, unfolding(crate::specs::Walk::count_at))]
fn count_of(n: u32, bytes: &[u8]) -> Result<(usize, &[u8]), Stop>
    ensures read { Gives (λ x. (x.0, x.1.now)) result (count_at n bytes.now) }
    ensures few { IfOk result (λ x. x.0 ≤ 4096) }
{
    let (count, rest) = tri!(u16_at(bytes));
    let count = count as usize;
    if !is_count(n as usize, count) {
        return Err(Stop::Left(bytes.len()));
    }
    Ok((count, rest))
}

/// The bytes of an entry behind these.
#[tactic(auto, unfolding(crate::specs::Walk::text_at))]
fn text_of<'a>(
    entries: &IndexSet<&[u8]>,
    most: u32,
    bytes: &'a [u8],
) -> Result<(&'a [u8], &'a [u8]), Stop>
    ensures { Gives (λ x. (x.0.now, x.1.now)) result (text_at most (map (λ k. k.now) entries.now.keys) bytes.now) }
{
    let (len, rest) = tri!(u32_at(bytes));
    if len > most || !can_stand(entries, len as usize) {
        return Err(Stop::Left(bytes.len()));
    }
    front_of(rest, len as usize)
}

/// Adds the entry that stands here to those before it, and gives the bytes behind it.
fn add_entry<'a>(
    entries: &mut IndexSet<&'a [u8]>,
    most: u32,
    bytes: &'a [u8],
) -> Result<&'a [u8], Stop>
    ensures { Gives (λ rest. (map (λ k. k.now) entries.new.keys, rest.now)) result (entries_at most 1 (map (λ k. k.now) entries.old.keys) bytes.now) }
{
    let (text, rest) = tri!(text_of(entries, most, bytes));
    if !use_item(entries, text)? {
        return Err(Stop::Left(text.len() + rest.len()));
    }
    Ok(rest)
}

/// Adds so many entries, and gives the bytes behind them.
fn add_entries<'a>(
    entries: &mut IndexSet<&'a [u8]>,
    count: usize,
    most: u32,
    bytes: &'a [u8],
) -> Result<&'a [u8], Stop>
    ensures { Gives (λ rest. (map (λ k. k.now) entries.new.keys, rest.now)) result (entries_at most count (map (λ k. k.now) entries.old.keys) bytes.now) }
{
    let mut rest = bytes;
    for _ in 0..count {
        rest = tri!(add_entry(entries, most, rest));
    }
    Ok(rest)
}

/// A copy of the entries, which come into the table, and the bytes behind them.
fn entries_by<'a>(
    alloc: Global,
    table: &mut IndexSet<&'a [u8]>,
    count: usize,
    most: u32,
    bytes: &'a [u8],
) -> Result<(Texts, &'a [u8]), Stop>
    requires { table.old.keys ≡ [] }
    ensures { Gives (λ x. (x.0, x.1.now)) result (entries_at most count [] bytes.now) }
{
    let rest = tri!(add_entries(table, count, most, bytes));
    Ok((texts_of(alloc, table.as_slice())?, rest))
}

/// The entries, and the bytes behind them.
fn entries_of(alloc: Global, count: usize, most: u32, bytes: &[u8]) -> Result<(Texts, &[u8]), Stop>
    ensures { Gives (λ x. (x.0, x.1.now)) result (entries_at most count [] bytes.now) }
{
    let mut table = IndexSet::new(alloc);
    entries_by(alloc, &mut table, count, most, bytes)
}

#[tactic(auto, unfolding(crate::specs::Walk::code_at))]
fn code_of(after: usize, count: usize, used: usize, bytes: &[u8]) -> Result<(u16, &[u8]), Stop>
    requires { used ≤ count }
    ensures read { Gives (λ x. (x.0, x.1.now)) result (code_at after count used bytes.now) }
    ensures within { IfOk result (λ x. x.0 < count) }
{
    let (code, rest) = tri!(u16_at(bytes));
    if !stands(after, count, used, code as usize) {
        return Err(Stop::Left(bytes.len()));
    }
    Ok((code, rest))
}

/// A code can stand here, where the first `used` of `count` entries were used before and so many
/// cells come after it.
fn stands(after: usize, count: usize, used: usize, code: usize) -> bool
    requires { used ≤ count }
    ensures value { result ≡ is_code after count used code }
    ensures within { IsTrue result → code < count }
{
    if code < used {
        count - used <= after
    } else {
        code == used && code < count
    }
}

fn next_used(used: usize, code: usize) -> usize
    requires { used < 2 ^ 63 }
    ensures { result ≡ used_with used code }
{
    if code < used { used } else { used + 1 }
}

fn codes_of(alloc: Global, n: u32, count: usize, bytes: &[u8]) -> Result<(Vec<u16>, &[u8]), Stop>
    requires { count < 2 ^ 63 }
    ensures { Gives (λ x. (x.0.items, x.1.now)) result (codes_at n count 0 [] bytes.now) }
{
    let mut codes = Vec::new(alloc);
    let mut rest = bytes;
    let mut used = 0;
    for i in 0..n {
        let (code, after) = tri!(code_of((n - i - 1) as usize, count, used, rest));
        codes.push(code)?;
        used = next_used(used, code as usize);
        rest = after;
    }
    Ok((codes, rest))
}

/// The entries and codes of a block.
#[derive(Drop)]
struct Parts {
    entries: Texts,
    codes: Vec<u16>,
}

fn block_of(alloc: Global, n: u32, most: u32, bytes: &[u8]) -> Result<Parts, Stop>
    ensures { Gives (λ x. (x.entries, x.codes.items)) result (block_at most n bytes.now) }
{
    let (count, rest) = tri!(count_of(n, bytes));
    let (entries, rest) = tri!(entries_of(alloc, count, most, rest));
    let (codes, rest) = tri!(codes_of(alloc, n, entries.len(), rest));
    if !rest.is_empty() {
        return Err(Stop::Left(rest.len()));
    }
    Ok(Parts { entries, codes })
}

/// The `n` items that the bytes spell, all of the bytes.
pub fn decode(alloc: Global, bytes: &[u8], n: u32, width: Width) -> Result<Items, CodecNo>
    // What is read is spelled so.
    ensures found { IfOk result (λ items. Spells bytes.now n items) }
    // What is spelled so is read, unless memory runs out.
    ensures only { (items : List (List ℕ)) → Spells bytes.now n items → IsItems result items }
    // Where the first fault is.
    ensures place { IfErr result (IsCause bytes.now n) }
{
    decode_within(alloc, bytes, n, width, u32::MAX)
}

/// The same of items of which none has more than so many bytes: a longer one is at fault at its length.
pub fn decode_within(
    alloc: Global,
    bytes: &[u8],
    n: u32,
    width: Width,
    most: u32,
) -> Result<Items, CodecNo>
    requires { 2 ≤ most }
    ensures found { IfOk result (λ items. SpellsWithin most bytes.now n items) }
    ensures only { (items : List (List ℕ)) → SpellsWithin most bytes.now n items → IsItems result items }
    ensures place { IfErr result (IsCauseWithin most bytes.now n) }
{
    let Width::Bytes = width;
    match block_of(alloc, n, most, bytes) {
        Ok(parts) => Ok(Items::of(parts.entries, parts.codes)),
        Err(Stop::Memory) => Err(CodecNo::Memory),
        Err(Stop::Left(left)) => Err(CodecNo::Place {
            offset: bytes.len().saturating_sub(left) as u64,
        }),
    }
}
