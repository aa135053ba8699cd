//! Sets of rowsets that are worth being compacted.
ghost use Rattle.std.specs.Prelude.{◌≡◌, IsTrue};
ghost use Rattle.kt_policy.specs.Gain.{AreCandidates, is_known};

use kt_base::NoMemory;
use kt_policy::{Candidate, CandidateList, IdList, Part, Picked, Sums, Table, accepts, best};
use std::alloc::Global;

fn is_known(list: &[Candidate], rowset: u64) -> bool
    ensures { result ≡ is_known list.now rowset }
{
    list.iter().any(|candidate| candidate.rowset == rowset)
}

// Whether these may be handed to the two calls.
fn are_candidates(list: &[Candidate]) -> bool
    ensures { IsTrue result → AreCandidates list.now }
{
    if list.len() > 64 {
        return false;
    }
    for (k, candidate) in list.iter().enumerate() {
        if candidate.greatest < candidate.least || 128 <= candidate.greatest {
            return false;
        }
        if is_known(&list[..k], candidate.rowset) {
            return false;
        }
    }
    true
}

// Rowsets by their number from 1 on: the least and the greatest rank of each, and its cost.
fn list_of(alloc: Global, ranks: &[(u32, u32, u32)]) -> Result<CandidateList, NoMemory> {
    let mut list = Vec::new(alloc);
    let mut rowset = 0;
    for (least, greatest, units) in ranks {
        rowset = u64::wrapping_add(rowset, 1);
        list.push(Candidate {
            rowset,
            least: *least,
            greatest: *greatest,
            units: *units,
        })?;
    }
    Ok(CandidateList::of(list))
}

const FOUR: [(u32, u32, u32); 4] = [(0, 3, 40), (1, 4, 60), (2, 5, 50), (6, 7, 1)];

// Whether a set that was picked is the first two, which share three ranks, and stands by its own table alone.
fn is_pair(list: &CandidateList, picked: Picked) -> bool
    requires { AreCandidates list.now }
{
    let is_it = picked.set.as_slice() == [1, 2].as_slice() && picked.gain == 3;
    let stands = accepts(list, 100, &picked);
    let Some(table) = lowered(picked.table) else {
        return false;
    };
    let lower = Picked {
        set: IdList::of(picked.set.into_vec()),
        gain: picked.gain,
        table,
    };
    is_it && stands && !accepts(list, 100, &lower)
}

// Whether that is so of the best set of some.
fn picks_pair(alloc: Global) -> bool {
    let Ok(list) = list_of(alloc, &FOUR) else {
        return false;
    };
    if !are_candidates(list.as_slice()) {
        return false;
    }
    match best(alloc, &list, 100) {
        Ok(Some(picked)) => is_pair(&list, picked),
        _ => false,
    }
}

#[test]
fn a_pair_within_the_budget_is_picked(rt: HostRuntime) {
    assert!(rt; picks_pair(rt.alloc()));
}

// The table with its last sum lowered by one.
fn lowered(table: Table) -> Option<Table> {
    let mut parts = table.into_vec();
    let mut rows = parts.pop()?.into_vec();
    let mut sums = rows.pop()?.into_vec();
    let sum = sums.pop()?;
    sums.push(sum.saturating_sub(1)).ok()?;
    rows.push(Sums::of(sums)).ok()?;
    parts.push(Part::of(rows)).ok()?;
    Some(Table::of(parts))
}

// What a best set of some gains, and 0 where there is none.
fn gain_of(alloc: Global, ranks: &[(u32, u32, u32)]) -> Option<u64> {
    let list = list_of(alloc, ranks).ok()?;
    if !are_candidates(list.as_slice()) {
        return None;
    }
    match best(alloc, &list, 128).ok()? {
        Some(picked) => Some(picked.gain),
        None => Some(0),
    }
}

#[test]
fn a_best_set_gains_the_ranks_that_its_members_share(rt: HostRuntime) {
    // One of two pairs, rowsets apart, and none.
    assert!(rt; gain_of(rt.alloc(), &FOUR[..3]) == Some(3));
    assert!(rt; gain_of(rt.alloc(), &[(0, 1, 1), (2, 3, 1)]) == Some(0));
    assert!(rt; gain_of(rt.alloc(), &[]) == Some(0));
}
