//! A walk through a tree in the order of its keys.
ghost use Rattle.std.specs.Prelude.{◌≡◌, [], IfOk, IfSome, OnOk, OnErr};
ghost use Rattle.kt_pool.specs.Contents.{Stands};
ghost use Rattle.kt_tree.specs.Shapes.{nothing};
ghost use Rattle.kt_tree.specs.InOrder.{IsWalk, IsFirst, to_come};

use crate::node::{NOTHING, node_in};
use crate::tree::Pair;
use kt_pool::{NoMemory, Place, Pool};

/// Where a walk through a tree that does not change stands. Read with its pool, it is the list of the entries still to come:
/// those of the tree at its cell, and then, for each of the nodes above, the nearest first, its own and those to its right.
#[derive(Drop)]
pub struct Walk {
    pub(crate) cell: u32,
    pub(crate) above: Vec<u32>,
}

impl Walk {
    // Goes down to the node of the first entry.
    fn descend(&mut self, pool: &Pool) -> Result<(), NoMemory>
        requires { IsWalk self.old pool.now }
        ensures walk { IsWalk self.new pool.now }
        ensures same { to_come self.new pool.now ≡ to_come self.old pool.now }
        ensures down { OnOk result (self.new.cell ≡ nothing) }
    {
        while self.cell != NOTHING {
            self.above.push(self.cell)?;
            self.cell = node_in(pool, self.cell).left;
        }
        Ok(())
    }

    /// Where the first of the entries to come is placed. It is behind then; with no memory for the walk, all are still to come.
    pub fn next(&mut self, pool: &Pool) -> Result<Option<Pair>, NoMemory>
        requires { IsWalk self.old pool.now }
        ensures walk { IsWalk self.new pool.now }
        ensures first { IfOk result (λ pair. IsFirst pool.now pair (to_come self.old pool.now) (to_come self.new pool.now)) }
        ensures stands { IfOk result (λ pair. IfSome pair (λ pair. Stands pool.now pair.key.cell)) }
        ensures same { OnErr result (to_come self.new pool.now ≡ to_come self.old pool.now) }
    {
        self.descend(pool)?;
        let Some(cell) = self.above.pop() else {
            return Ok(None);
        };
        let node = node_in(pool, cell);
        self.cell = node.right;
        Ok(Some(Pair {
            key: Place { cell: node.key },
            value: Place { cell: node.value },
        }))
    }
}
