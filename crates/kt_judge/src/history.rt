//! The history of an output against the machine of its script.
ghost use Rattle.std.specs.Prelude.{◌≡◌, ℕ, List, IfOk};
ghost use Rattle.kt_history.specs.History.{Past};
ghost use Rattle.kt_history.specs.declared.event.Event.{Event};
ghost use Rattle.kt_history.specs.Machine.{Workload};
ghost use Rattle.kt_judge.specs.Works.{work_of};
ghost use Rattle.kt_judge.specs.Faults.{IsFaultOf};
ghost use Rattle.kt_judge.specs.Walks.{IsWalk};

use crate::walk::{Walk, walk_lines};
use kt_base::NoMemory;
use kt_history::Event;
use kt_script::Script;
use std::alloc::Global;

// The line at which a walk ended, if it ended at one.
fn fault_of(walk: &Walk) -> Option<u64>
    ensures { (work : Workload) (past : Past) (c : ℕ) (events : List Event) → IsWalk work past c events walk.now → IsFaultOf work past c events result }
{
    match walk {
        Walk::Run(_) => None,
        Walk::Fault(number) => Some(*number),
    }
}

/// The number of the first line of a history that is not allowed, counted from 1, or none where the history is a run
/// of the script, in a pool of so many cells. The run begins at an opening with the ancient history mark `a` and the
/// last timestamp `c`: which lines are allowed depends on nothing else of it.
pub fn first_fault(
    alloc: Global,
    script: &Script,
    cells: u32,
    a: u64,
    c: u64,
    events: &[Event],
) -> Result<Option<u64>, NoMemory>
    ensures { IfOk result (λ fault. (past : Past) → past.mark ≡ a → IsFaultOf (work_of cells script.now) past c events.now fault) }
{
    let walk = walk_lines(alloc, script, cells, a, c, events)?;
    Ok(fault_of(&walk))
}
