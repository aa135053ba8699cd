//! The different items of a list that is gone over once.

ghost use Rattle.std.specs.Prelude.{◌≡◌, ◌==◌, ◌<◌, ◌+◌, ◌*◌, ◌^◌, [], length, OnOk};
ghost use Rattle.std.specs.List.{flat_map};
ghost use Rattle.kt_dict.specs.Spelling.{with_entry};
ghost use Rattle.kt_dict.specs.Writing.{text};

use indexmap::IndexSet;
use kt_bytes::NoMemory;
use std::alloc::Global;
use std::marker::Model;

/// A copy of each different item so far, in the order of their first use, for a list whose items do not lie in one
/// piece. Contracts see the list of the different ones.
#[derive(Drop)]
pub struct Entries {
    table: IndexSet<Vec<u8>>,
    len: usize,
}

impl Model for Entries {
    ghost use Rattle.std.specs.Prelude.{◌≡◌, List, ℕ, length, map};
    ghost use Rattle.std.specs.List.{flat_map};
    ghost use Rattle.kt_dict.specs.Writing.{text};

    ghost Value = { List (List ℕ) };

    ghost view = { λ e. map (λ k. k.items) e.table.keys };

    ghost invariant = { λ e. e.len ≡ length (flat_map text (map (λ k. k.items) e.table.keys)) };
}

impl Entries {
    /// No item.
    pub fn new(alloc: Global) -> Entries
        ensures { result ≡ [] }
    {
        Entries {
            table: IndexSet::new(alloc),
            len: 0,
        }
    }

    /// Uses an item: it goes last where it is new.
    pub fn add(&mut self, alloc: Global, item: &[u8]) -> Result<(), NoMemory>
        requires { length (flat_map text self.old) + (4 + length item.now) < 2 ^ 64 }
        ensures { OnOk result (self.new ≡ with_entry self.old item.now) }
    {
        if self.table.contains(item) {
            return Ok(());
        }
        self.table.insert(Vec::from_slice(alloc, item)?)?;
        self.len += 4 + item.len();
        Ok(())
    }

    /// How many different items there are.
    pub fn len(&self) -> usize
        ensures { result ≡ length self.now }
    {
        self.table.len()
    }

    /// Whether there is no item.
    pub fn is_empty(&self) -> bool
        ensures { result ≡ (length self.now == 0) }
    {
        self.len() == 0
    }

    /// How many bytes a dictionary of these entries takes, with so many cells.
    pub fn spelled_len(&self, cells: usize) -> usize
        requires { 2 + length (flat_map text self.now) + 2 * cells < 2 ^ 64 }
        ensures { result ≡ 2 + length (flat_map text self.now) + 2 * cells }
    {
        2 + self.len + 2 * cells
    }
}
