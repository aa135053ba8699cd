//! Which rowsets hold a key, where their ranges overlap.
ghost use Rattle.std.specs.Prelude.{◌≡◌, IfOk, length, true};
ghost use Rattle.kt_rowtree.specs.Ranges.{is_upto, IsOrderly};

use kt_base::Octets;
use kt_rowtree::{NoMemory, Range, RangeList, RowTree};
use std::alloc::Global;
use std::test::Fail;

/// A range between two keys.
#[tactic(auto, using(kt_rowtree::proofs::Upto::upto_other))]
fn between(alloc: Global, rowset: u64, a: &[u8], b: &[u8]) -> Result<Range, NoMemory>
    ensures { IfOk result (λ r. is_upto r.least r.greatest ≡ true) }
{
    let a = Octets::from_slice(alloc, a)?;
    let b = Octets::from_slice(alloc, b)?;
    if a.as_slice().cmp(b.as_slice()).is_le() {
        Ok(Range {
            rowset,
            least: a,
            greatest: b,
        })
    } else {
        Ok(Range {
            rowset,
            least: b,
            greatest: a,
        })
    }
}

/// Three ranges, of which all hold one key.
fn overlapping(alloc: Global) -> Result<RangeList, NoMemory>
    ensures { IfOk result IsOrderly }
{
    let mut ranges = Vec::new(alloc);
    ranges.push(between(alloc, 9, b"a", b"m")?)?;
    ranges.push(between(alloc, 4, b"m", b"z")?)?;
    ranges.push(between(alloc, 7, b"k", b"p")?)?;
    Ok(RangeList::from_vec(ranges))
}

/// Whether the deepest stack is of these rowsets, or there is none.
fn is_stack(tree: &RowTree, ids: &[u64]) -> bool {
    match tree.stack() {
        Some(found) => found.as_slice() == ids,
        None => ids.is_empty(),
    }
}

#[test]
fn the_deepest_stack(rt: HostRuntime) -> Result<(), Fail> {
    let tree = RowTree::build(rt.alloc(), &overlapping(rt.alloc())?)?;
    assert!(rt; is_stack(&tree, &[4, 7, 9]));
    Ok(())
}

#[test]
fn no_range_has_no_stack(rt: HostRuntime) -> Result<(), Fail> {
    let alloc = rt.alloc();
    let tree = RowTree::build(alloc, &RangeList::from_vec(Vec::new(alloc)))?;
    assert!(rt; tree.stack().is_none());
    Ok(())
}

/// Two ranges that overlap.
fn two(alloc: Global) -> Result<RangeList, NoMemory>
    ensures { IfOk result IsOrderly }
{
    let mut ranges = Vec::new(alloc);
    ranges.push(between(alloc, 9, b"a", b"m")?)?;
    ranges.push(between(alloc, 4, b"k", b"z")?)?;
    Ok(RangeList::from_vec(ranges))
}

/// The range that takes the place of one of them.
fn flushed(alloc: Global) -> Result<RangeList, NoMemory>
    ensures orderly { IfOk result IsOrderly }
    ensures one { IfOk result (λ ranges. length ranges ≡ 1) }
{
    let mut ranges = Vec::new(alloc);
    ranges.push(between(alloc, 7, b"a", b"c")?)?;
    Ok(RangeList::from_vec(ranges))
}

#[test]
#[tactic(auto, using(kt_rowtree::proofs::Changing::fits_beside))]
fn rowsets_take_the_place_of_others(rt: HostRuntime) -> Result<(), Fail> {
    let alloc = rt.alloc();
    let mut tree = RowTree::build(alloc, &two(alloc)?)?;
    assert!(rt; is_stack(&tree, &[4, 9]));
    tree.reserve(1)?;
    let flushed = flushed(alloc)?;
    tree.replace(&[9], flushed);
    assert!(rt; is_stack(&tree, &[7]));
    Ok(())
}
