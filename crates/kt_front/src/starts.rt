//! Where the stretches of a block begin, so that an item is found by reading its stretch alone.

ghost use Rattle.std.specs.Prelude.{◌≡◌, ◌<◌, ◌-◌, ◌%◌, ℕ, List, [], length, get_or, IfOk};
ghost use Rattle.kt_front.specs.Reading.{Spells};
ghost use Rattle.kt_front.specs.Walking as spec;
ghost use Rattle.kt_front.specs.Walking.{IsBlock, order};

use crate::prefix::STRETCH;
use crate::walking::{behind, order_in};
use kt_bytes::NoMemory;
use std::alloc::Global;
use std::cmp::Ordering;
use std::marker::Model;

/// The offset of each stretch of a block, made once for the block.
#[derive(Drop)]
pub struct Starts {
    offsets: Vec<usize>,
}

impl Model for Starts {
    ghost use Rattle.std.specs.Prelude.{List, ℕ};

    ghost Value = { List ℕ };

    ghost view = { λ s. s.offsets.items };
}

impl Starts {
    ghost use Rattle.kt_front.specs.Walking.{AreStarts};

    /// The starts of a block of `n` items.
    pub fn of(alloc: Global, bytes: &[u8], n: u32) -> Result<Starts, NoMemory>
        ensures { IfOk result (λ starts. (items : List (List ℕ)) → Spells bytes.now n items → AreStarts starts items) }
    {
        let mut offsets = Vec::new(alloc);
        let mut rest = bytes;
        for _ in 0..n.div_ceil(STRETCH) {
            offsets.push(bytes.len() - rest.len())?;
            rest = behind(rest, STRETCH);
        }
        Ok(Starts { offsets })
    }

    /// Where this stretch begins, or 0 where there is none.
    fn start(&self, stretch: u32) -> usize
        ensures { result ≡ get_or self.now stretch 0 }
    {
        self.offsets.get(stretch as usize).copied().unwrap_or(0)
    }

    /// The block from the stretch of item `i` on.
    pub(crate) fn stretch_of<'a>(&self, bytes: &'a [u8], i: u32) -> &'a [u8]
        ensures { (items : List (List ℕ)) → IsBlock bytes.now items → AreStarts self.now items → i < length items → result.now ≡ spec.behind (i - i % 16) 0 [] items }
    {
        let start = self.start(i / STRETCH);
        if start > bytes.len() {
            return &[];
        }
        &bytes[start..]
    }
}

/// The order of item `i` and the key, by reading the item's stretch.
pub fn compare_at(bytes: &[u8], starts: &Starts, i: u32, key: &[u8]) -> Ordering
    ensures { (items : List (List ℕ)) → IsBlock bytes.now items → spec.AreStarts starts.now items → i < length items → result ≡ order (get_or items i []) key.now }
{
    order_in(starts.stretch_of(bytes, i), i % STRETCH, key)
}
