//! The last line of an output.
ghost use Rattle.kt_history.specs.declared.event.Event.{Event};
ghost use Rattle.std.specs.Prelude.{◌≡◌, ℕ, List};
ghost use Rattle.kt_history.specs.History.{Past};
ghost use Rattle.kt_history.specs.Machine.{Workload, State};
ghost use Rattle.kt_judge.specs.Decided.{Decided};
ghost use Rattle.kt_judge.specs.Machine.{state_of};
ghost use Rattle.kt_judge.specs.Verdicts.{EndStands};

use crate::machine::Machine;
use kt_script::LastLine;

/// Whether the last line is that of a run whose machine this is. Any run may end with `tablet stopped`: a device may fail after
/// the last line of the history.
pub(crate) fn end_stands(m: &Machine, last: &LastLine) -> bool
    ensures { (work : Workload) (past : Past) → Decided result (EndStands (state_of work past m.now) last.now) }
{
    match *last {
        LastLine::Numbers { a, c, .. } => !m.stopped & (a == m.a) & (c == m.c),
        LastLine::Stopped => true,
    }
}
