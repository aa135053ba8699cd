//! When a row changed first above a time, told by the changes in memory.
ghost use Rattle.std.specs.Prelude.{◌≡◌};
ghost use Rattle.std.specs.Option.{option_or};
ghost use Rattle.kt_history.specs.Stores.{hist_in};
ghost use Rattle.kt_dms.specs.Stores as dms_specs;
ghost use Rattle.kt_dms.specs.Stores.{deltas_of, steps_for};
ghost use Rattle.kt_diskrowset.specs.First.{first_above, FilesAreUpTo, changes_are_in_memory};
ghost use Rattle.kt_diskrowset.specs.Mems.{AllStand, steps_in_mems};

use super::DiskRowSet;
use kt_dms::DeltaMem;
use kt_pool::Pool;

// The time that was found, or else that of the first change of a row above a time in a store.
fn or_first(
    pool: &Pool,
    mem: &DeltaMem,
    ordinal: u32,
    above: u64,
    found: Option<u64>,
) -> Option<u64>
    requires { dms_specs.IsStore mem.now pool.now }
    ensures { result ≡ option_or found (first_above above (steps_for ordinal (deltas_of mem.now pool.now))) }
{
    match found {
        Some(ts) => Some(ts),
        None => mem.first_above(pool, ordinal, above),
    }
}

// When a row changed first above a time in these stores, those of the first store first.
fn first_in_mems(pool: &Pool, mems: &[DeltaMem], ordinal: u32, above: u64) -> Option<u64>
    requires { AllStand pool.now mems.now }
    ensures { result ≡ first_above above (steps_in_mems pool.now ordinal mems.now) }
{
    let mut found = None;
    'mems: for mem in mems {
        found = or_first(pool, mem, ordinal, above, found);
    }
    found
}

/// Where no record of the files lies above a time, the changes above it are those in memory.
pub fn memory_law()
    ensures { changes_are_in_memory }
{}

impl DiskRowSet {
    ghost use Rattle.kt_diskrowset.specs.Rowset.{fresh_of, store_of, IsStore};

    // When a row changed first above a time in memory.
    fn first_fresh(&self, pool: &Pool, ordinal: u32, above: u64) -> Option<u64>
        requires { IsStore self.now pool.now }
        ensures { result ≡ first_above above (fresh_of self.now pool.now ordinal) }
    {
        let found = first_in_mems(pool, &self.frozen, ordinal, above);
        or_first(pool, &self.active, ordinal, above, found)
    }

    /// When a key changed first above a time, of its changes in their order. No record of the files lies above that time.
    pub fn first_above(&self, pool: &Pool, key: &[u8], above: u64) -> Option<u64>
        requires stands { IsStore self.now pool.now }
        requires files { FilesAreUpTo self.now above }
        ensures { result ≡ first_above above (hist_in key.now (store_of self.now pool.now)).steps }
    {
        match self.base.ordinal(key) {
            Some(ordinal) => self.first_fresh(pool, ordinal, above),
            None => None,
        }
    }
}
