//! Steps back over ranges that end too early. Each range has a near step, to the nearest range in front that ends later, so
//! that these steps make a tree, and a far step over some near ones. The far steps are of lengths 1, 3, 7 and so on, as the
//! digits of a skew binary number, so a search from range to range in the tree takes steps as the logarithm of its depth.
ghost use Rattle.std.specs.Prelude.{◌≡◌, ◌<◌, ◌≤◌, ◌+◌, ◌-◌, length, get_or};
ghost use Rattle.std.specs.Vec.{vec_capacity};
ghost use Rattle.kt_rowtree.specs.declared.links.Link.{Link};
ghost use Rattle.kt_rowtree.specs.Ranges.{is_upto, EndsLast, Outlasts, IsLink, AreLinks};

use crate::lists::Range;

/// The steps of a range.
#[derive(Clone, Copy)]
pub struct Link {
    /// From here on, up to the range, none ends after it.
    pub near: usize,
    /// From here on, up to the range and with it, none ends after the range in front of here.
    pub far: usize,
    /// How many near steps the far step stands for.
    pub hops: usize,
}

/// Whether the range ends at the key or before it.
fn ends_by(range: &Range, key: &[u8]) -> bool
    ensures { result ≡ is_upto range.now.greatest key.now }
{
    range.greatest.as_slice().cmp(key).is_le()
}

/// From where on, up to the range at `at`, none ends after it, as the range in front of there does.
fn near_of(ranges: &[Range], links: &[Link], at: usize) -> usize
    requires inside { at < length ranges.now }
    requires links { AreLinks ranges.now links.now }
    requires here { length links.now ≡ at }
    ensures back { result ≤ at }
    ensures last { EndsLast ranges.now result at }
    ensures front { Outlasts ranges.now result (at + 1) }
{
    let mut low = at;
    let end = ranges[at].greatest.as_slice();
    while low > 0 && ends_by(&ranges[low - 1], end) {
        low = links[low - 1].near;
    }
    low
}

/// The steps of the last of so many ranges; of none, steps that stay.
fn link_before(links: &[Link], at: usize) -> Link
    requires { at ≤ length links.now }
    ensures none { at ≡ 0 → result ≡ record { near = 0; far = 0; hops = 0 } }
    ensures last { (d : Link) → 0 < at → result ≡ get_or links.now (at - 1) d }
{
    if at == 0 {
        return Link {
            near: 0,
            far: 0,
            hops: 0,
        };
    }
    links[at - 1]
}

/// The steps of the range at `at`, where those of the ranges in front are known.
fn link_of(ranges: &[Range], links: &[Link], at: usize) -> Link
    requires inside { at < length ranges.now }
    requires links { AreLinks ranges.now links.now }
    requires here { length links.now ≡ at }
    ensures { IsLink ranges.now at result }
{
    let near = near_of(ranges, links, at);
    let next = link_before(links, near);
    let over = link_before(links, next.far);
    if next.hops == over.hops {
        return Link {
            near,
            far: over.far,
            hops: next.hops + over.hops + 1,
        };
    }
    Link {
        near,
        far: near,
        hops: 1,
    }
}

/// Lists the steps of each range, in place of what is there.
pub fn list_links(ranges: &[Range], links: &mut Vec<Link>)
    requires room { length ranges.now ≤ vec_capacity links.old }
    ensures links { AreLinks ranges.now links.new.items }
    ensures all { length links.new.items ≡ length ranges.now }
    ensures room { vec_capacity links.old ≤ vec_capacity links.new }
{
    links.clear();
    for at in 0..ranges.len() {
        let link = link_of(ranges, links, at);
        let _ = links.push(link);
    }
}
