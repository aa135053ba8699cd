//! A disk rowset as a compaction reads it.
ghost use Rattle.std.specs.Prelude.{◌≡◌, [], IfOk};
ghost use Rattle.kt_merge.specs.Rewriting.{IsRewritten, TellsInOrder};

use crate::refold::with_folded;
use crate::rewrite::with_deltas;
use kt_base::NoMemory;
use kt_diskrowset::RowSetData;
use std::alloc::Global;

/// The rowset with all its changes folded into its base rows, so that the changes of each row stand in the order of their times. Where they do not, or files cannot
/// hold a row, which is so of none that a tablet took, it is as for want of memory.
pub fn folded_whole(alloc: Global, rowset: RowSetData) -> Result<RowSetData, NoMemory>
    ensures same { IfOk result (IsRewritten rowset) }
    ensures order { IfOk result TellsInOrder }
{
    let rowset = with_deltas(alloc, rowset)?;
    with_folded(alloc, rowset)
}
