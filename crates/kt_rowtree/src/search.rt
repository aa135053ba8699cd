//! The searches over ranges that stand by their least keys.
ghost use Rattle.std.specs.Prelude.{◌≡◌, ◌<◌, ◌≤◌, ◌+◌, ◌-◌, [], ℕ, length, get_or, true, false, reverse};
ghost use Rattle.std.specs.Vec.{vec_capacity};
ghost use Rattle.kt_rowtree.specs.Ranges.{is_upto, holders_of, AreHolders, IsByLeast, AreLinks, EndEarly};

use crate::links::Link;
use crate::lists::Range;

/// Whether the range begins at the key or before it.
fn begins_by(range: &Range, key: &[u8]) -> bool
    ensures { result ≡ is_upto range.now.least key.now }
{
    range.least.as_slice().cmp(key).is_le()
}

/// Whether the range ends at the key or after it.
fn ends_from(range: &Range, key: &[u8]) -> bool
    ensures { result ≡ is_upto key.now range.now.greatest }
{
    range.greatest.as_slice().cmp(key).is_ge()
}

/// How many ranges begin at the key or before it.
pub fn reach(ranges: &[Range], key: &[u8]) -> usize
    requires { IsByLeast ranges.now }
    ensures bound { result ≤ length ranges.now }
    ensures below { (k : ℕ) (d : Range) → k < result → is_upto (get_or ranges.now k d).least key.now ≡ true }
    ensures above { (k : ℕ) (d : Range) → result ≤ k → k < length ranges.now → is_upto (get_or ranges.now k d).least key.now ≡ false }
{
    let mut low = 0;
    let mut high = ranges.len();
    while low < high {
        let mid = low + (high - low) / 2;
        if begins_by(&ranges[mid], key) {
            low = mid + 1;
        } else {
            high = mid;
        }
    }
    low
}

/// How many ranges stand in front of those that end before the key, the last of which is the last of the first `at`.
fn past(ranges: &[Range], links: &[Link], at: usize, key: &[u8]) -> usize
    requires some { 0 < at }
    requires inside { at ≤ length ranges.now }
    requires links { AreLinks ranges.now links.now }
    requires all { length links.now ≡ length ranges.now }
    requires early { EndEarly key.now ranges.now (at - 1) at }
    ensures back { result < at }
    ensures early { EndEarly key.now ranges.now result at }
{
    let link = links[at - 1];
    if link.far > 0 && !ends_from(&ranges[link.far - 1], key) {
        return link.far;
    }
    link.near
}

/// Appends the rowsets whose range holds the key, in the reverse order of the ranges.
pub fn collect(ranges: &[Range], links: &[Link], key: &[u8], out: &mut Vec<u64>)
    requires by_least { IsByLeast ranges.now }
    requires links { AreLinks ranges.now links.now }
    requires all { length links.now ≡ length ranges.now }
    requires empty { out.old.items ≡ [] }
    requires room { length (holders_of key.now ranges.now) ≤ vec_capacity out.old }
    ensures ids { out.new.items ≡ reverse (holders_of key.now ranges.now) }
    ensures room { vec_capacity out.old ≤ vec_capacity out.new }
{
    let mut at = reach(ranges, key);
    while at > 0 {
        let range = &ranges[at - 1];
        if ends_from(range, key) {
            let _ = out.push(range.rowset);
            at -= 1;
        } else {
            at = past(ranges, links, at, key);
        }
    }
}

/// Puts the rowsets whose range holds the key into `out`, by number, in place of what is there.
pub fn gather(ranges: &[Range], links: &[Link], key: &[u8], out: &mut Vec<u64>)
    requires by_least { IsByLeast ranges.now }
    requires links { AreLinks ranges.now links.now }
    requires all { length links.now ≡ length ranges.now }
    requires room { length (holders_of key.now ranges.now) ≤ vec_capacity out.old }
    ensures holders { AreHolders key.now ranges.now out.new.items }
    ensures room { vec_capacity out.old ≤ vec_capacity out.new }
{
    out.clear();
    collect(ranges, links, key, out);
    out.sort_unstable();
}
