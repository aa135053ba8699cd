//! From a block to its list.

ghost use Rattle.std.specs.Prelude.{◌≡◌, ◌<◌, ◌≤◌, ◌^◌, ◌++◌, [], List, ℕ, length, take, IfOk, IfErr};
ghost use Rattle.std.specs.Int.{w32};
ghost use Rattle.kt_bytes.specs.Reading.{checked_at, Gives};
ghost use Rattle.kt_front.specs.Reading.{Spells, SpellsWithin, IsCause, IsCauseWithin, IsItems};
ghost use Rattle.kt_front.specs.Walk.{behind_of, cell_at, ended_of, is_more, is_shared, items_at};

use crate::items::Items;
use crate::prefix::{base_of, begin_alike};
use crate::starts::Starts;
use crate::walking::Cell;
use crate::width::Width;
use kt_bytes::fields::{front_of, u32_at};
use kt_bytes::{CodecNo, Octets, Stop};
use std::alloc::Global;

/// How many bytes an item shares with this one, which has as many.
fn shared_of<'a>(with: &[u8], bytes: &'a [u8]) -> Result<(usize, &'a [u8]), Stop>
    ensures read { Gives (λ x. (x.0, x.1.now)) result (checked_at w32 (is_shared with.now) bytes.now) }
    ensures within { IfOk result (λ x. x.0 ≤ length with.now) }
{
    let (shared, rest) = u32_at(bytes)?;
    let shared = shared as usize;
    if shared > with.len() {
        return Err(Stop::Left(bytes.len()));
    }
    Ok((shared, rest))
}

/// How many bytes more an item has, at most so many together.
fn more_of(most: u32, shared: usize, bytes: &[u8]) -> Result<(usize, &[u8]), Stop>
    requires { shared < 2 ^ 63 }
    ensures { Gives (λ x. (x.0, x.1.now)) result (checked_at w32 (is_more most shared) bytes.now) }
{
    let (len, rest) = u32_at(bytes)?;
    let len = len as usize;
    if shared + len > most as usize {
        return Err(Stop::Left(bytes.len()));
    }
    Ok((len, rest))
}

/// The cell of an item of at most so many bytes, which may share bytes with this one.
pub(crate) fn cell_of<'a>(with: &[u8], most: u32, bytes: &'a [u8]) -> Result<Cell<'a>, Stop>
    ensures read { Gives (λ x. (take x.shared with.now ++ x.rest.now, x.after.now)) result (cell_at most with.now bytes.now) }
    ensures there { IfOk result (λ x. x.shared ≤ length with.now) }
{
    let (shared, behind) = shared_of(with, bytes)?;
    let (len, behind) = more_of(most, shared, behind)?;
    let (rest, after) = front_of(behind, len)?;
    if begin_alike(&with[shared..], rest) {
        return Err(Stop::Left(bytes.len()));
    }
    Ok(Cell {
        shared,
        rest,
        after,
    })
}

/// The bytes behind `n` items, each of which is written over the one before it.
fn pass_items<'a>(item: &mut Octets, n: u32, most: u32, bytes: &'a [u8]) -> Result<&'a [u8], Stop>
    requires { item.old ≡ [] }
    ensures { Gives (λ rest. rest.now) result (behind_of (items_at most n 0 [] bytes.now)) }
{
    let mut rest = bytes;
    for i in 0..n {
        let cell = cell_of(base_of(i as usize, item.as_slice()), most, rest)?;
        item.truncate(cell.shared);
        item.extend(cell.rest)?;
        rest = cell.after;
    }
    Ok(rest)
}

/// The bytes behind `n` items. No more than one item is written out at a time.
fn behind_items(alloc: Global, n: u32, most: u32, bytes: &[u8]) -> Result<&[u8], Stop>
    ensures { Gives (λ rest. rest.now) result (behind_of (items_at most n 0 [] bytes.now)) }
{
    let mut item = Octets::new(alloc);
    pass_items(&mut item, n, most, bytes)
}

/// All of the bytes are `n` items.
fn check(alloc: Global, n: u32, most: u32, bytes: &[u8]) -> Result<(), Stop>
    ensures { Gives (λ _. 0) result (ended_of (behind_of (items_at most n 0 [] bytes.now))) }
{
    let rest = behind_items(alloc, n, most, bytes)?;
    if !rest.is_empty() {
        return Err(Stop::Left(rest.len()));
    }
    Ok(())
}

/// The `n` items that the bytes spell, all of the bytes.
pub fn decode(alloc: Global, bytes: &[u8], n: u32, width: Width) -> Result<Items, CodecNo>
    // What is read is spelled so.
    ensures found { IfOk result (λ items. Spells bytes.now n items) }
    // What is spelled so is read, unless memory runs out.
    ensures only { (items : List (List ℕ)) → Spells bytes.now n items → IsItems result items }
    // Where the first fault is.
    ensures place { IfErr result (IsCause bytes.now n) }
{
    decode_within(alloc, bytes, n, width, u32::MAX)
}

/// The same of items of which none has more than so many bytes: where one has more, the number of those that it
/// doesn't share is at fault.
pub fn decode_within(
    alloc: Global,
    bytes: &[u8],
    n: u32,
    width: Width,
    most: u32,
) -> Result<Items, CodecNo>
    ensures found { IfOk result (λ items. SpellsWithin most bytes.now n items) }
    ensures only { (items : List (List ℕ)) → SpellsWithin most bytes.now n items → IsItems result items }
    ensures place { IfErr result (IsCauseWithin most bytes.now n) }
{
    let Width::Bytes = width;
    match check(alloc, n, most, bytes) {
        Ok(()) => {
            let starts = Starts::of(alloc, bytes, n)?;
            let held = Octets::from_slice(alloc, bytes)?;
            Ok(Items::of(held, starts, n))
        }
        Err(stop) => Err(stop.among(bytes.len())),
    }
}
