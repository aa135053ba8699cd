//! Where the items of a block stop rising.

ghost use Rattle.std.specs.Prelude.{◌≡◌, ◌<◌, ◌≤◌, ◌++◌, ℕ, Ok, Err, Bool, length, IfOk, MatchOption, OnOk};
ghost use Rattle.std.specs.Bool.{OnTrue, OnFalse};
ghost use Rattle.std.specs.Option.{option_map};
ghost use Rattle.kt_front.specs.Walk.{cell_at};
ghost use Rattle.kt_front.specs.Order.{bound, IsAbove, IsFall, NoneFalls};

use crate::prefix::base_of;
use crate::reading::cell_of;
use kt_bytes::{NoMemory, Octets, Stop};
use std::alloc::Global;

/// Whether the item is above the last one, where there is one.
fn is_above(some: bool, last: &[u8], item: &[u8]) -> bool
    ensures yes { OnTrue result (IsAbove (bound some last.now) item.now) }
    ensures no { OnFalse result (¬ IsAbove (bound some last.now) item.now) }
{
    if some { last.cmp(item).is_lt() } else { true }
}

/// Puts these bytes in place of those that are there.
fn put(out: &mut Octets, front: &[u8], rest: &[u8]) -> Result<(), NoMemory>
    ensures { OnOk result (out.new ≡ front.now ++ rest.now) }
{
    out.clear();
    out.extend(front)?;
    out.extend(rest)
}

/// Puts the next item in place of the bytes that are there, and gives the bytes behind it, or none where no item can
/// be read.
fn next_item<'a>(
    base: &[u8],
    most: u32,
    bytes: &'a [u8],
    out: &mut Octets,
) -> Result<Option<&'a [u8]>, NoMemory>
    ensures { IfOk result (λ after. MatchOption after ((left : ℕ) × (cell_at most base.now bytes.now ≡ Err left)) (λ rest. cell_at most base.now bytes.now ≡ Ok (out.new, rest.now))) }
{
    match cell_of(base, most, bytes) {
        Ok(cell) => {
            put(out, &base[..cell.shared], cell.rest)?;
            Ok(Some(cell.after))
        }
        Err(Stop::Left(_)) => Ok(None),
        Err(Stop::Memory) => Err(NoMemory),
    }
}

/// Where the cell of the first item begins that is not above the one before it, among `n` items as far as they can be
/// read. The first item is to be above `before`.
pub fn first_fall(
    alloc: Global,
    bytes: &[u8],
    n: u32,
    most: u32,
    before: Option<&[u8]>,
) -> Result<Option<usize>, NoMemory>
    ensures { IfOk result (λ found. MatchOption found (NoneFalls most n (option_map (λ b. b.now) before.entry) bytes.now) (IsFall most n (option_map (λ b. b.now) before.entry) bytes.now)) }
{
    match before {
        Some(before) => fall_behind(alloc, bytes, n, most, true, before),
        None => fall_behind(alloc, bytes, n, most, false, &[]),
    }
}

/// The same behind the last item, if it is known, with room for the next one.
fn fall_among(
    bytes: &[u8],
    n: u32,
    most: u32,
    some: bool,
    last: &mut Octets,
    item: &mut Octets,
) -> Result<Option<usize>, NoMemory>
    ensures { IfOk result (λ found. MatchOption found (NoneFalls most n (bound some last.old) bytes.now) (IsFall most n (bound some last.old) bytes.now)) }
{
    let mut known = some;
    let mut rest = bytes;
    'items: for i in 0..n {
        let base = base_of(i as usize, last.as_slice());
        let Some(after) = next_item(base, most, rest, item)? else {
            return Ok(None);
        };
        if !is_above(known, last.as_slice(), item.as_slice()) {
            return Ok(Some(bytes.len() - rest.len()));
        }
        std::mem::swap(last, item);
        known = true;
        rest = after;
    }
    Ok(None)
}

fn fall_behind(
    alloc: Global,
    bytes: &[u8],
    n: u32,
    most: u32,
    some: bool,
    before: &[u8],
) -> Result<Option<usize>, NoMemory>
    ensures { IfOk result (λ found. MatchOption found (NoneFalls most n (bound some before.now) bytes.now) (IsFall most n (bound some before.now) bytes.now)) }
{
    let mut last = Octets::from_slice(alloc, before)?;
    let mut item = Octets::new(alloc);
    fall_among(bytes, n, most, some, &mut last, &mut item)
}
