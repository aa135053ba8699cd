//! The verdict on an output.
ghost use Rattle.std.specs.Prelude.{IfOk};
ghost use Rattle.kt_judge.specs.Works.{work_of};
ghost use Rattle.kt_judge.specs.Openings.{past_of, IsOpening};
ghost use Rattle.kt_judge.specs.Verdicts.{IsVerdict};

use crate::end::end_stands;
use crate::grown::run_table;
use crate::opening::Opening;
use crate::verdict::Verdict;
use crate::view::Table;
use crate::walk::{Walk, walk_lines};
use crate::wrong::{Place, first_wrong};
use kt_base::NoMemory;
use kt_script::{Output, Script};
use std::alloc::Global;

/// Whether an output is that of a run of a script from an opening, in a pool of so many cells, and else the first of what it
/// is not: first the lines of its history, then its replies, then its last line.
pub fn judge(
    alloc: Global,
    opening: &Opening,
    script: &Script,
    cells: u32,
    output: &Output,
) -> Result<Verdict, NoMemory>
    requires { IsOpening opening.now }
    ensures { IfOk result (λ verdict. IsVerdict (work_of cells script.now) (past_of opening.now) opening.now.c output.now verdict) }
{
    let events = output.events.as_slice();
    let m = match walk_lines(alloc, script, cells, opening.a, opening.c, events)? {
        Walk::Run(m) => m,
        Walk::Fault(number) => return Ok(Verdict::NoEvent { number }),
    };
    let table = Table::of(run_table(alloc, opening, script, cells, events)?);
    match first_wrong(alloc, script, &table, &m, output)? {
        Some(Place { session, index }) => return Ok(Verdict::NoReply { session, index }),
        None => {}
    }
    if end_stands(&m, &output.last) {
        Ok(Verdict::Yes)
    } else {
        Ok(Verdict::NoEnd)
    }
}
