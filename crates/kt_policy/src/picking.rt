//! Picking a best set, and checking one.
ghost use Rattle.std.specs.Prelude.{◌≡◌, ◌↔◌, IfOk, IsTrue, MatchOption};
ghost use Rattle.kt_policy.specs.Gain.{AreCandidates, NothingGains};
ghost use Rattle.kt_policy.specs.Sums.{IsTable, in_order};
ghost use Rattle.kt_policy.specs.Choice.{IsPicked};

use crate::checking::{are_known, is_rising, measure_of};
use crate::choosing::{set_behind, top_of};
use crate::filling::{is_table, table_of};
use crate::order::{Few, from_bound, in_order};
use crate::{Candidate, CandidateList, IdList, Table};
use kt_base::NoMemory;
use std::alloc::Global;

/// A best set by rising rowset number, what it gains, and the table of sums that shows that none gains more.
#[derive(Drop)]
pub struct Picked {
    pub set: IdList,
    pub gain: u64,
    pub table: Table,
}

/// A best set under the budget, or none where no set within it gains anything.
pub fn best(alloc: Global, list: &CandidateList, budget: u32) -> Result<Option<Picked>, NoMemory>
    requires { AreCandidates list.now }
    ensures { IfOk result (λ answer. MatchOption answer (NothingGains list.now budget) (λ picked. IsPicked list.now budget picked)) }
{
    let candidates = list.as_slice();
    let order = in_order(candidates);
    let table = table_of(alloc, candidates, &order, budget)?;
    let top = top_of(candidates, &order, budget, table.as_slice());
    if top.gain == 0 {
        return Ok(None);
    }
    let part = from_bound(&candidates[top.bound], &order);
    let rows = table.as_slice()[top.bound].as_slice();
    let set = set_behind(alloc, &part, budget, rows, top.last + 1)?;
    Ok(Some(Picked {
        set,
        gain: u64::from(top.gain),
        table,
    }))
}

/// Whether the set is a best one by rising rowset number, the gain is its gain and above 0, and the table is that of
/// these candidates, whoever made it. It takes no memory.
pub fn accepts(list: &CandidateList, budget: u32, picked: &Picked) -> bool
    requires { AreCandidates list.now }
    ensures { IsTrue result ↔ IsPicked list.now budget picked.now }
{
    let candidates = list.as_slice();
    let order = in_order(candidates);
    is_table(candidates, &order, budget, picked.table.as_slice())
        && gains_most(candidates, &order, budget, picked)
}

// Whether the set is a best one, where the table is right.
fn gains_most(list: &[Candidate], order: &Few, budget: u32, picked: &Picked) -> bool
    requires are { AreCandidates list.now }
    requires order { order.now.items ≡ in_order list.now }
    requires table { IsTable list.now budget picked.now.table }
    ensures { IsTrue result ↔ IsPicked list.now budget picked.now }
{
    if picked.gain == 0 {
        return false;
    }
    let top = top_of(list, order, budget, picked.table.as_slice());
    let set = picked.set.as_slice();
    let measure = measure_of(list, set);
    if picked.gain != u64::from(top.gain) {
        return false;
    }
    if measure.gain != top.gain {
        return false;
    }
    if u64::from(budget) < measure.cost {
        return false;
    }
    if !is_rising(set) {
        return false;
    }
    are_known(list, set)
}
