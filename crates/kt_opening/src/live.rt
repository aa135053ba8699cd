//! Which keys have rows.

ghost use Rattle.std.specs.Prelude.{◌≡◌, ℕ, List, true, false, IfOk, OnOk, if◌then◌else◌};
ghost use Rattle.std.specs.Ordering.{eq_by_cmp};
ghost use Rattle.std.specs.FinMap.Entries.{find};
ghost use Rattle.kt_history.specs.Rows.{Rows, fits, apply, set_row, changed, key_cmp};
ghost use Rattle.kt_opening.specs.Live.{has, IsLive};

use kt_base::{Cells, NoMemory, Octets};
use kt_history::Change;
use std::alloc::Global;
use std::collections::BTreeSet;

/// The keys that have rows. Contracts say by `IsLive` of which rows they are.
#[derive(Drop)]
pub(crate) struct Live {
    keys: BTreeSet<Vec<u8>>,
}

impl Live {
    fn new(alloc: Global) -> Live
        ensures { (key : List ℕ) → has result key ≡ false }
    {
        Live {
            keys: BTreeSet::new(alloc),
        }
    }

    /// The keys of some rows.
    pub(crate) fn of(alloc: Global, rows: &[(Octets, Cells)]) -> Result<Live, NoMemory>
        ensures { IfOk result (λ live. IsLive live rows.now) }
    {
        let mut live = Live::new(alloc);
        for (key, _) in rows {
            live.add(alloc, key.as_slice())?;
        }
        Ok(live)
    }

    fn has(&self, key: &[u8]) -> bool
        ensures { result ≡ has self.now key.now }
    {
        self.keys.contains(key)
    }

    fn add(&mut self, alloc: Global, key: &[u8]) -> Result<(), NoMemory>
        ensures { OnOk result ((other : List ℕ) → has self.new other ≡ (if eq_by_cmp key_cmp other key.now then true else has self.old other)) }
    {
        self.keys.insert(key.to_vec(alloc)?)?;
        Ok(())
    }

    fn remove(&mut self, key: &[u8])
        ensures { (other : List ℕ) → has self.new other ≡ (if eq_by_cmp key_cmp other key.now then false else has self.old other) }
    {
        self.keys.remove(key);
    }

    /// Whether a change fits the row that its key has.
    pub(crate) fn fits(&self, key: &[u8], change: &Change) -> bool
        ensures { (rows : Rows) → IsLive self.now rows → result ≡ fits change.now (find key_cmp key.now rows) }
    {
        match change {
            Change::Ins(_) => !self.has(key),
            Change::Upd(_) | Change::Del => self.has(key),
        }
    }

    // What a change does to the row of its key.
    fn apply(&mut self, alloc: Global, key: &[u8], change: &Change) -> Result<(), NoMemory>
        ensures { OnOk result ((rows : Rows) → IsLive self.old rows → IsLive self.new (set_row key.now (apply change.now (find key_cmp key.now rows)) rows)) }
    {
        match change {
            Change::Ins(_) => self.add(alloc, key),
            Change::Upd(_) => Ok(()),
            Change::Del => {
                self.remove(key);
                Ok(())
            }
        }
    }

    /// What some changes do to the rows of their keys.
    pub(crate) fn apply_all(
        &mut self,
        alloc: Global,
        changes: &[(Octets, Change)],
    ) -> Result<(), NoMemory>
        ensures { OnOk result ((rows : Rows) → IsLive self.old rows → IsLive self.new (changed changes.now rows)) }
    {
        for (key, change) in changes {
            self.apply(alloc, key.as_slice(), change)?;
        }
        Ok(())
    }
}
