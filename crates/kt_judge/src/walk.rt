//! A walk through a history, line by line.
ghost use Rattle.std.specs.Prelude.{◌≡◌, [], ℕ, IfOk, map};
ghost use Rattle.kt_history.specs.History.{Past};
ghost use Rattle.kt_history.specs.Machine.{first_turns};
ghost use Rattle.kt_judge.specs.Turns.{turn_of};
ghost use Rattle.kt_judge.specs.Works.{work_of};
ghost use Rattle.kt_judge.specs.Machine.{Follows};
ghost use Rattle.kt_judge.specs.Walks.{IsWalk, AreFirst};

use crate::follow::follow;
use crate::machine::Machine;
use crate::turn::Turn;
use kt_base::NoMemory;
use kt_history::{Event, Session};
use kt_script::Script;
use std::alloc::Global;

/// What came of a walk.
#[derive(Drop)]
pub(crate) enum Walk {
    /// The history is a run, and this is the machine behind it.
    Run(Machine),
    /// The number of the first line that is not allowed, from 1.
    Fault(u64),
}

// Each session is at its first command.
fn first_turns(alloc: Global, sessions: &[Session]) -> Result<Vec<Turn>, NoMemory>
    ensures { IfOk result (λ turns. AreFirst turns.items sessions.now) }
{
    let mut turns = Vec::with_capacity(alloc, sessions.len())?;
    for _session in sessions {
        turns.push(Turn::first(alloc))?;
    }
    Ok(turns)
}

// The machine before the first line, from an opening with this mark and last timestamp.
fn start(alloc: Global, script: &Script, a: u64, c: u64) -> Result<Machine, NoMemory>
    ensures { IfOk result (λ m. (cells : ℕ) (past : Past) → past.mark ≡ a → Follows (work_of cells script.now) past c [] m) }
{
    Ok(Machine {
        a,
        c,
        flying: Vec::new(alloc),
        turns: first_turns(alloc, script.plan.as_slice())?,
        stopped: false,
    })
}

/// Walks through a history from an opening with this mark and last timestamp.
pub(crate) fn walk_lines(
    alloc: Global,
    script: &Script,
    cells: u32,
    a: u64,
    c: u64,
    events: &[Event],
) -> Result<Walk, NoMemory>
    ensures { IfOk result (λ walk. (past : Past) → past.mark ≡ a → IsWalk (work_of cells script.now) past c events.now walk) }
{
    let mut m = start(alloc, script, a, c)?;
    for (at, event) in events.iter().enumerate() {
        if !follow(&mut m, script, cells, event)? {
            return Ok(Walk::Fault(at as u64 + 1));
        }
    }
    Ok(Walk::Run(m))
}
