//! A write that is to begin, made ready before the tablet is visited.
ghost use Rattle.std.specs.Prelude.{◌≡◌, ◌≤◌, ◌^◌, [], length, map, min, IfOk, vec_len, vec_capacity};
ghost use Rattle.kt_history.specs.Operations.{need};

use kt_base::NoMemory;
use kt_history::{OpList, Outcome, cells_needed};
use kt_mvcc::KeyList;
use kt_records::CommitRow;
use std::alloc::Global;

/// A write that is to begin: its operations with their keys, room for what becomes of them, and how many cells it needs.
/// All of this is made before the tablet is visited, so that the visit copies nothing and a second one neither.
#[derive(Drop)]
pub struct NewWrite {
    pub ops: OpList,
    pub keys: KeyList,
    pub outcomes: Vec<Outcome>,
    pub rows: Vec<CommitRow>,
    /// How many cells of the pool it needs, and no more than 2^32.
    pub cells: u64,
    pub ghost keyed: { keys ≡ map (λ op. op.key) ops },
    pub ghost empty: { (outcomes.items ≡ []) × (rows.items ≡ []) },
    pub ghost bare: { (vec_len outcomes ≡ 0) × (vec_len rows ≡ 0) },
    pub ghost room: { (length ops ≤ vec_capacity outcomes) × (length ops ≤ vec_capacity rows) },
    pub ghost needs: { cells ≡ min (need ops) (2 ^ 32) },
}

impl NewWrite {
    /// A write of these operations.
    pub fn of(alloc: Global, ops: OpList) -> Result<NewWrite, NoMemory>
        ensures { IfOk result (λ write. write.ops ≡ ops) }
    {
        let keys = KeyList::of_ops(ops.copy()?);
        let outcomes = Vec::with_capacity(alloc, ops.len())?;
        let rows = Vec::with_capacity(alloc, ops.len())?;
        let cells = cells_needed(&ops);
        Ok(NewWrite {
            ops,
            keys,
            outcomes,
            rows,
            cells,
        })
    }

    /// A write of no operation, which takes no memory.
    pub fn none(alloc: Global) -> NewWrite
        ensures { result.ops ≡ [] }
    {
        NewWrite {
            ops: OpList::new(alloc),
            keys: KeyList::of_ops(OpList::new(alloc)),
            outcomes: Vec::new(alloc),
            rows: Vec::new(alloc),
            cells: 0,
        }
    }
}
