//! The numbers of the files that a superblock has named so far.
ghost use Rattle.std.specs.Prelude.{◌≡◌, ◌++◌, ◌∷◌, [], length, OnOk};
ghost use Rattle.kt_super.specs.Rowsets as spec;

use kt_base::NoMemory;
use std::alloc::Global;
use std::collections::BTreeSet;
use std::marker::Model;

/// Numbers in the order in which they came, and a set of the same, so that one more is looked up at once. Contracts see
/// the list.
#[derive(Drop)]
pub struct Taken {
    numbers: Vec<u64>,
    sorted: BTreeSet<u64>,
}

impl Model for Taken {
    ghost use Rattle.std.specs.Prelude.{List, ℕ};
    ghost use Rattle.kt_super.specs.Rowsets.{HaveTheSame};

    ghost Value = { List ℕ };

    ghost view = { λ t. t.numbers.items };

    ghost invariant = { λ t. HaveTheSame t.sorted.keys t.numbers.items };
}

impl Taken {
    /// No number yet.
    pub fn new(alloc: Global) -> Taken
        ensures { result ≡ [] }
    {
        Taken {
            numbers: Vec::new(alloc),
            sorted: BTreeSet::new(alloc),
        }
    }

    pub fn len(&self) -> usize
        ensures { result ≡ length self.now }
    {
        self.numbers.len()
    }

    /// Whether this number is among them.
    pub fn has(&self, number: u64) -> bool
        ensures { result ≡ spec.has self.now number }
    {
        self.sorted.contains(&number)
    }

    /// Adds a number. Without memory it is not added.
    pub fn push(&mut self, number: u64) -> Result<(), NoMemory>
        ensures { OnOk result (self.new ≡ self.old ++ number ∷ []) }
    {
        self.numbers.reserve(1)?;
        self.sorted.insert(number)?;
        self.numbers.push(number)?;
        Ok(())
    }
}
