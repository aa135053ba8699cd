//! Where a key belongs in a tree.
ghost use Rattle.std.specs.Prelude.{◌≡◌, ◌≢◌, ◌+◌, ◌<◌, ◌≤◌, ◌%◌, ℕ, slice_index, IfSome};

use crate::node::{Head, NOTHING};
use kt_pool::Place;

/// How many nodes of a way are kept.
const KEPT: u32 = 8;

/// The way of a key down a tree: how many nodes it has, and the cells of the last of them, in a ring.
#[derive(Clone, Copy)]
pub struct Way {
    pub(crate) cells: [u32; 8],
    pub(crate) steps: u32,
}

impl Way {
    /// A way with no node.
    pub(crate) fn new() -> Way
        ensures { result.steps ≡ 0 }
    {
        Way {
            cells: [NOTHING; 8],
            steps: 0,
        }
    }

    /// Goes on to the node in this cell.
    pub(crate) fn note(&mut self, cell: u32)
        requires { self.old.steps < 0xffff_ffff }
        ensures steps { self.new.steps ≡ self.old.steps + 1 }
        ensures here { slice_index self.new.cells (self.old.steps % 8) ≡ cell }
        ensures others { (i : ℕ) → i ≢ self.old.steps % 8 → slice_index self.new.cells i ≡ slice_index self.old.cells i }
    {
        self.cells[(self.steps % KEPT) as usize] = cell;
        self.steps += 1;
    }

    /// The cell of the node after so many steps, if it is still kept.
    pub(crate) fn node(&self, at: u32) -> Option<u32>
        requires { at < self.now.steps }
        ensures { IfSome result (λ cell. (self.now.steps ≤ at + 8) × (cell ≡ slice_index self.now.cells (at % 8))) }
    {
        if self.steps - at > KEPT {
            return None;
        }
        Some(self.cells[(at % KEPT) as usize])
    }
}

/// What a tree has at a key, and where the key belongs in it, as long as the tree stays as it is.
#[derive(Clone, Copy)]
pub struct Seat {
    /// The place of the key's value, if the key is there.
    pub value: Option<Place>,
    pub(crate) head: Head,
    pub(crate) way: Way,
}
