//! The cells of a block as it stands on disk, and one of them as it stands in its stretch.

ghost use Rattle.std.specs.Prelude.{◌≡◌, ◌<◌, ◌^◌, ◌==◌, ◌++◌, [], length, get_or, sum_by, OnOk, IfOk};
ghost use Rattle.kt_front.specs.Items.{IsHeld, StandsIn, items_in, item_in};
ghost use Rattle.kt_front.specs.Spelling.{Fits, spelling};
ghost use Rattle.kt_front.specs.Walking.{order};

use crate::prefix::STRETCH;
use crate::starts::Starts;
use crate::walking::{behind, copy_in, next_cell, order_in, push_items};
use kt_bytes::{NoMemory, Octets, Texts};
use std::alloc::Global;
use std::cmp::Ordering;
use std::marker::Model;

/// The list of a block that was read. Contracts see the items.
#[derive(Drop)]
pub struct Items {
    bytes: Octets,
    starts: Starts,
    count: u32,
}

impl Model for Items {
    ghost use Rattle.std.specs.Prelude.{List, ℕ};
    ghost use Rattle.kt_front.specs.Items.{IsHeld, items_in};

    ghost Value = { List (List ℕ) };

    ghost view = { λ s. items_in s.count s.bytes };

    ghost invariant = { λ s. IsHeld s.count s.bytes s.starts };
}

/// An item where it stands: the block from its stretch on, and its place in the stretch. Contracts
/// see its bytes.
#[derive(Drop)]
pub struct Item<'a> {
    stretch: &'a [u8],
    place: u32,
}

impl<'a> Model for Item<'a> {
    ghost use Rattle.std.specs.Prelude.{List, ℕ};
    ghost use Rattle.kt_front.specs.Items.{StandsIn, item_in};

    ghost Value = { List ℕ };

    ghost view = { λ s. item_in s.place s.stretch.now };

    ghost invariant = { λ s. StandsIn s.place s.stretch.now };
}

impl Items {
    /// The list of a block, which takes no memory.
    pub(crate) fn of(bytes: Octets, starts: Starts, count: u32) -> Items
        requires { IsHeld count bytes starts }
        ensures { result ≡ items_in count bytes }
    {
        Items {
            bytes,
            starts,
            count,
        }
    }

    pub fn len(&self) -> usize
        ensures { result ≡ length self.now }
    {
        self.count as usize
    }

    pub fn is_empty(&self) -> bool
        ensures { result ≡ (length self.now == 0) }
    {
        self.len() == 0
    }

    /// The block as it stands: the one spelling of the list.
    pub fn as_bytes(&self) -> &[u8]
        ensures spelled { result.now ≡ spelling self.now }
        ensures fits { Fits self.now }
    {
        self.bytes.as_slice()
    }

    /// Adds all items to others, in one go over the block.
    pub fn push_to(&self, out: &mut Texts) -> Result<(), NoMemory>
        ensures { OnOk result (out.new ≡ out.old ++ self.now) }
    {
        push_items(self.bytes.as_slice(), self.count, out)?;
        Ok(())
    }

    /// The item at this place.
    pub fn item(&self, i: u32) -> Item<'_>
        requires { i < length self.now }
        ensures { result ≡ get_or self.now i [] }
    {
        Item {
            stretch: self.starts.stretch_of(self.bytes.as_slice(), i),
            place: i % STRETCH,
        }
    }
}

impl Item<'_> {
    /// How many bytes the item has.
    pub fn len(&self) -> usize
        ensures { result ≡ length self.now }
    {
        match next_cell(behind(self.stretch, self.place)) {
            Some(cell) => cell.shared + cell.rest.len(),
            None => unreachable!(),
        }
    }

    pub fn is_empty(&self) -> bool
        ensures { result ≡ (length self.now == 0) }
    {
        self.len() == 0
    }

    /// Puts the item's bytes in place of those that are there.
    pub fn copy_into(&self, out: &mut Octets) -> Result<(), NoMemory>
        ensures { OnOk result (out.new ≡ self.now) }
    {
        copy_in(self.stretch, self.place, out)?;
        Ok(())
    }

    /// A copy of the item's bytes.
    pub fn to_octets(&self, alloc: Global) -> Result<Octets, NoMemory>
        ensures { IfOk result (λ octets. octets ≡ self.now) }
    {
        let mut out = Octets::new(alloc);
        self.copy_into(&mut out)?;
        Ok(out)
    }

    /// The order of the item's bytes and the key.
    pub fn compare(&self, key: &[u8]) -> Ordering
        ensures { result ≡ order self.now key.now }
    {
        order_in(self.stretch, self.place, key)
    }
}

/// Item `i` of a block, which takes no memory.
pub fn get(block: &Items, i: u32) -> Item<'_>
    requires { i < length block.now }
    ensures { result ≡ get_or block.now i [] }
{
    block.item(i)
}
