//! The cells of a block as it stands on disk: its entries, each once, and a code for each cell.

ghost use Rattle.std.specs.Prelude.{◌≡◌, ◌<◌, ◌==◌, [], length, get_or, sum_by, IfOk};
ghost use Rattle.kt_dict.specs.Items.{IsHeld, items_of};
ghost use Rattle.kt_dict.specs.Spelling.{Fits, spelling};

use crate::writing::{put_places, put_short, put_texts};
use kt_bytes::{NoMemory, Octets, Texts};
use std::alloc::Global;
use std::marker::Model;

/// An item of a list, where it lies.
pub type Item<'a> = &'a [u8];

/// The list of a block that was read. Contracts see the items, each the entry of its code.
#[derive(Drop)]
pub struct Items {
    entries: Texts,
    codes: Vec<u16>,
}

impl Model for Items {
    ghost use Rattle.std.specs.Prelude.{List, ℕ};
    ghost use Rattle.kt_dict.specs.Items.{IsHeld, items_of};

    ghost Value = { List (List ℕ) };

    ghost view = { λ s. items_of s.entries s.codes.items };

    ghost invariant = { λ s. IsHeld s.entries s.codes.items };
}

impl Items {
    /// The list of these entries and codes, which takes no memory.
    pub(crate) fn of(entries: Texts, codes: Vec<u16>) -> Items
        requires { IsHeld entries codes.items }
        ensures { result ≡ items_of entries codes.items }
    {
        Items { entries, codes }
    }

    pub fn len(&self) -> usize
        ensures { result ≡ length self.now }
    {
        self.codes.len()
    }

    pub fn is_empty(&self) -> bool
        ensures { result ≡ (length self.now == 0) }
    {
        self.len() == 0
    }

    /// The item at this place, where its entry lies.
    pub fn item(&self, i: usize) -> Item<'_>
        requires { i < length self.now }
        ensures { result.now ≡ get_or self.now i [] }
    {
        self.entries.get(self.codes[i] as usize)
    }

    /// How many bytes all items have together.
    pub fn byte_len(&self) -> usize
        ensures { result ≡ sum_by length self.now }
    {
        let mut sum = 0;
        for code in &self.codes {
            sum += self.entries.get(*code as usize).len();
        }
        sum
    }

    /// How many bytes the spelling of the list takes.
    pub fn spelled_len(&self) -> usize
        ensures { result ≡ length (spelling self.now) }
    {
        2 + (4 * self.entries.len() + self.entries.byte_len()) + 2 * self.codes.len()
    }

    /// The one spelling of the list.
    pub fn spell(&self, alloc: Global) -> Result<Octets, NoMemory>
        ensures { IfOk result (λ bytes. (bytes ≡ spelling self.now) × Fits self.now) }
    {
        let mut out = Vec::with_capacity(alloc, self.spelled_len())?;
        put_short(&mut out, self.entries.len())?;
        put_texts(&mut out, &self.entries)?;
        put_places(&mut out, &self.codes)?;
        Ok(Octets::of(out))
    }
}

/// Item `i` of a block, with no copy.
pub fn get(block: &Items, i: u32) -> Item<'_>
    requires { i < length block.now }
    ensures { result.now ≡ get_or block.now i [] }
{
    block.item(i as usize)
}
