//! What a flush hands out as it comes back from outside the lock.
ghost use Rattle.std.specs.Prelude.{◌≡◌, ◌≤◌, ◌-◌, length, take, drop, IfOk};

use crate::job::JobInput;
use kt_base::NoMemory;
use kt_diskrowset::{ChangeLists, Inputs};

/// What the MemRowSets have that a flush takes.
#[derive(Drop)]
pub struct MemsNow {
    /// All that those have that it took with it.
    pub now: ChangeLists,
    /// What the others have, as of the last timestamp and with the mark then.
    pub since: JobInput,
}

// Of all that the MemRowSets have, the lists of this many last ones and those of the others.
pub(crate) fn split(input: JobInput, frozen: usize) -> Result<MemsNow, NoMemory>
    requires inside { frozen ≤ length input.inputs.mems }
    ensures now { IfOk result (λ m. m.now ≡ drop (length input.inputs.mems - frozen) input.inputs.mems) }
    ensures since { IfOk result (λ m. m.since ≡ record input { inputs = record input.inputs { mems = take (length input.inputs.mems - frozen) input.inputs.mems } }) }
{
    let JobInput {
        bound,
        mark,
        inputs,
    } = input;
    let Inputs {
        columns,
        mems,
        rowsets,
    } = inputs;
    let mut since = mems.into_vec();
    let front = since.len() - frozen;
    let now = since.split_off(front)?;
    Ok(MemsNow {
        now: ChangeLists::of(now),
        since: JobInput {
            bound,
            mark,
            inputs: Inputs {
                columns,
                mems: ChangeLists::of(since),
                rowsets,
            },
        },
    })
}
