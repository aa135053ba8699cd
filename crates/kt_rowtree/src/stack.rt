//! The deepest stack of ranges that stand by their least keys.
ghost use Rattle.std.specs.Prelude.{◌≡◌, ◌<◌, ◌≤◌, ℕ, length, get_or, map, not};
ghost use Rattle.std.specs.List.{count_by};
ghost use Rattle.std.specs.Vec.{vec_capacity};
ghost use Rattle.kt_rowtree.specs.Ranges.{is_upto, holders_of, end_at, AreEnds, IsDeepest, IsOrderly, IsByLeast, AreLinks};

use crate::links::Link;
use crate::lists::Range;
use crate::search::{gather, reach};

/// The greatest key of the range at this place; there is none past the last.
fn end_of(ranges: &[Range], place: u64) -> &[u8]
    ensures { result.now ≡ end_at ranges.now place }
{
    match ranges.get(place as usize) {
        Some(range) => range.greatest.as_slice(),
        None => &[],
    }
}

/// Appends the place of each range.
fn list_places(ranges: &[Range], places: &mut Vec<u64>)
    requires { length ranges.now ≤ vec_capacity places.old }
    ensures all { map (end_at ranges.now) places.new.items ≡ map (λ r. r.greatest) ranges.now }
    ensures room { vec_capacity places.old ≤ vec_capacity places.new }
{
    places.clear();
    for place in 0..ranges.len() {
        let _ = places.push(place as u64);
    }
}

/// Lists the places of the ranges by their greatest keys, in place of what is there.
fn list_ends(ranges: &[Range], ends: &mut Vec<u64>)
    requires { length ranges.now ≤ vec_capacity ends.old }
    ensures ends { AreEnds ranges.now ends.new.items }
    ensures room { vec_capacity ends.old ≤ vec_capacity ends.new }
{
    list_places(ranges, ends);
    ends.sort_unstable_by(|a, b| end_of(ranges, *a).cmp(end_of(ranges, *b)));
}

/// How many ranges end before the key.
fn ended(ranges: &[Range], ends: &[u64], key: &[u8]) -> usize
    requires { AreEnds ranges.now ends.now }
    ensures { result ≡ count_by (λ r. not (is_upto key.now r.greatest)) ranges.now }
{
    let mut low = 0;
    let mut high = ends.len();
    while low < high {
        let mid = low + (high - low) / 2;
        if end_of(ranges, ends[mid]).cmp(key).is_lt() {
            low = mid + 1;
        } else {
            high = mid;
        }
    }
    low
}

/// How many ranges hold the key at which the range at `at` begins: those that begin by it, without those that end before.
fn depth(ranges: &[Range], ends: &[u64], at: usize) -> usize
    requires by_least { IsByLeast ranges.now }
    requires orderly { IsOrderly ranges.now }
    requires ends { AreEnds ranges.now ends.now }
    requires inside { at < length ranges.now }
    ensures { (d : Range) → result ≡ length (holders_of (get_or ranges.now at d).least ranges.now) }
{
    let least = ranges[at].least.as_slice();
    reach(ranges, least) - ended(ranges, ends, least)
}

/// The range whose least key is the least of those that lie in the most ranges.
fn deepest(ranges: &[Range], ends: &[u64]) -> usize
    requires by_least { IsByLeast ranges.now }
    requires orderly { IsOrderly ranges.now }
    requires ends { AreEnds ranges.now ends.now }
    requires some { 0 < length ranges.now }
    ensures inside { result < length ranges.now }
    ensures most { (j : ℕ) (d : Range) → j < length ranges.now → length (holders_of (get_or ranges.now j d).least ranges.now) ≤ length (holders_of (get_or ranges.now result d).least ranges.now) }
    ensures first { (j : ℕ) (d : Range) → j < result → length (holders_of (get_or ranges.now j d).least ranges.now) < length (holders_of (get_or ranges.now result d).least ranges.now) }
{
    let mut best = 0;
    let mut most = depth(ranges, ends, 0);
    for at in 1..ranges.len() {
        let here = depth(ranges, ends, at);
        if here > most {
            best = at;
            most = here;
        }
    }
    best
}

/// Puts the rowsets of the deepest stack into `out`, by number, in place of what is there; of no range, none.
pub fn gather_deepest(ranges: &[Range], links: &[Link], out: &mut Vec<u64>)
    requires by_least { IsByLeast ranges.now }
    requires links { AreLinks ranges.now links.now }
    requires all { length links.now ≡ length ranges.now }
    requires orderly { IsOrderly ranges.now }
    requires room { length ranges.now ≤ vec_capacity out.old }
    ensures deepest { 0 < length ranges.now → IsDeepest ranges.now out.new.items }
    ensures room { vec_capacity out.old ≤ vec_capacity out.new }
{
    if ranges.is_empty() {
        out.clear();
        return;
    }
    list_ends(ranges, out);
    let best = deepest(ranges, out);
    gather(ranges, links, ranges[best].least.as_slice(), out);
}
