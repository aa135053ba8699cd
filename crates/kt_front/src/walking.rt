//! Ordering an item against a key on the encoded bytes.

ghost use Rattle.std.specs.Prelude.{◌≡◌, ◌≤◌, ◌<◌, ◌+◌, ◌^◌, ◌++◌, ℕ, List, [], Ok, Err, length, take, drop, get_or, IfSome, MatchOption, OnOk};
ghost use Rattle.std.specs.Int.{w32};
ghost use Rattle.kt_bytes.specs.Reading.{number_at};
ghost use Rattle.kt_front.specs.Spelling.{shared};
ghost use Rattle.kt_front.specs.Walking as spec;
ghost use Rattle.kt_front.specs.Walking.{fields_at, IsBlock, order};

use crate::prefix::{STRETCH, common_prefix};
use kt_bytes::{NoMemory, Octets, Texts};
use std::cmp::Ordering;

/// A cell as it stands: how many bytes it shares, the rest of its item, and the bytes behind it.
#[derive(Clone, Copy)]
pub struct Cell<'a> {
    pub shared: usize,
    pub rest: &'a [u8],
    pub after: &'a [u8],
}

/// The number at the front, and the bytes behind it.
fn number_of(bytes: &[u8]) -> Option<(usize, &[u8])>
    ensures read { MatchOption result (number_at w32 bytes.now ≡ Err 0) (λ x. number_at w32 bytes.now ≡ Ok (x.0, x.1.now)) }
    ensures within { IfSome result (λ x. length x.1.now ≤ length bytes.now) }
    ensures small { IfSome result (λ x. x.0 < 2 ^ 32) }
{
    if bytes.len() < 4 {
        return None;
    }
    let (front, rest) = bytes.split_at(4);
    let number = u32::from_le_bytes([front[0], front[1], front[2], front[3]]);
    Some((number as usize, rest))
}

/// The cell at the front, as far as its lengths tell.
#[tactic(auto, unfolding(crate::specs::Walking::fields_at))]
pub fn next_cell(bytes: &[u8]) -> Option<Cell<'_>>
    ensures read { MatchOption result (fields_at bytes.now ≡ Err 0) (λ c. fields_at bytes.now ≡ Ok (record { shared = c.shared; rest = c.rest.now; after = c.after.now })) }
    ensures within { IfSome result (λ c. length c.after.now ≤ length bytes.now) }
    ensures small { IfSome result (λ c. c.shared < 2 ^ 32) }
{
    let (shared, rest) = number_of(bytes)?;
    let (len, rest) = number_of(rest)?;
    if rest.len() < len {
        return None;
    }
    let (rest, after) = rest.split_at(len);
    Some(Cell {
        shared,
        rest,
        after,
    })
}

/// The bytes behind the first `n` cells of a block.
pub fn behind(bytes: &[u8], n: u32) -> &[u8]
    ensures there { (items : List (List ℕ)) → IsBlock bytes.now items → n ≤ length items → result.now ≡ spec.behind n 0 [] items }
    ensures within { length result.now ≤ length bytes.now }
{
    let mut rest = bytes;
    for _ in 0..n {
        let Some(cell) = next_cell(rest) else {
            return rest;
        };
        rest = cell.after;
    }
    rest
}

/// How far an item goes with a key, and how the two are ordered.
#[derive(Clone, Copy)]
struct Meeting {
    matched: usize,
    way: Ordering,
}

/// How an item meets a key, where both are these bytes behind a front that they have in common.
fn meet(rest: &[u8], tail: &[u8]) -> Meeting
    ensures alike { result.matched ≡ shared rest.now tail.now }
    ensures way { result.way ≡ order rest.now tail.now }
    ensures within { result.matched ≤ length tail.now }
{
    let matched = common_prefix(rest, tail);
    let way = rest[matched..].cmp(&tail[matched..]);
    Meeting { matched, way }
}

impl Meeting {
    /// How the next item meets the key. Where it shares more with the one before than that one does
    /// with the key, it meets the key as that one did.
    fn next(self, cell: Cell<'_>, key: &[u8]) -> Meeting
        requires { self.matched ≤ length key.now }
        ensures near_alike { cell.entry.shared ≤ self.matched → result.matched ≡ cell.entry.shared + shared cell.entry.rest.now (drop cell.entry.shared key.now) }
        ensures near_way { cell.entry.shared ≤ self.matched → result.way ≡ order cell.entry.rest.now (drop cell.entry.shared key.now) }
        ensures far_alike { self.matched < cell.entry.shared → result.matched ≡ self.matched }
        ensures far_way { self.matched < cell.entry.shared → result.way ≡ self.way }
        ensures within { result.matched ≤ length key.now }
    {
        if cell.shared <= self.matched {
            let met = meet(cell.rest, &key[cell.shared..]);
            Meeting {
                matched: cell.shared + met.matched,
                way: met.way,
            }
        } else {
            self
        }
    }
}

/// The order of item `k` and the key, in a block that begins with a stretch.
pub fn order_in(bytes: &[u8], k: u32, key: &[u8]) -> Ordering
    ensures { (items : List (List ℕ)) → IsBlock bytes.now items → k < length items → result ≡ order (get_or items k []) key.now }
{
    let mut rest = bytes;
    let mut meeting = meet(&[], key);
    for _ in 0..k as usize + 1 {
        let Some(cell) = next_cell(rest) else {
            return meeting.way;
        };
        meeting = meeting.next(cell, key);
        rest = cell.after;
    }
    meeting.way
}

/// Puts the bytes of item `k` in place of those that are there, in a block that begins with a stretch.
pub fn copy_in(bytes: &[u8], k: u32, out: &mut Octets) -> Result<(), NoMemory>
    ensures { OnOk result ((items : List (List ℕ)) → IsBlock bytes.now items → k < length items → out.new ≡ get_or items k []) }
{
    out.clear();
    let mut rest = bytes;
    for _ in 0..k as usize + 1 {
        let Some(cell) = next_cell(rest) else {
            return Ok(());
        };
        out.truncate(cell.shared);
        out.extend(cell.rest)?;
        rest = cell.after;
    }
    Ok(())
}

/// Adds the first `n` items of a block to others, one behind the other.
pub fn push_items(bytes: &[u8], n: u32, out: &mut Texts) -> Result<(), NoMemory>
    ensures { OnOk result ((items : List (List ℕ)) → IsBlock bytes.now items → n ≤ length items → out.new ≡ out.old ++ take n items) }
{
    let mut rest = bytes;
    for _ in 0..n {
        let Some(cell) = next_cell(rest) else {
            return Ok(());
        };
        if cell.shared > out.last().len() {
            return Ok(());
        }
        out.push_behind(cell.shared, cell.rest)?;
        rest = cell.after;
    }
    Ok(())
}

/// The order of item `i` and the key. It goes over the lengths of the cells before the item's
/// stretch; `compare_at` does not.
pub fn compare(bytes: &[u8], i: u32, key: &[u8]) -> Ordering
    ensures { (items : List (List ℕ)) → IsBlock bytes.now items → i < length items → result ≡ order (get_or items i []) key.now }
{
    let place = i % STRETCH;
    order_in(behind(bytes, i - place), place, key)
}
