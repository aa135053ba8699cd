//! The changes in memory above a time, which a job asks for that has not seen them.
ghost use Rattle.std.specs.Prelude.{◌≡◌, ◌<◌, ◌≤◌, ◌++◌, ◌↔◌, [], ℕ, map, length, IfOk, OnOk};
ghost use Rattle.kt_baseset.specs.Tables.{key_at};
ghost use Rattle.kt_history.specs.Stores.{key_change};
ghost use Rattle.kt_dms.specs.Stores as dms_specs;
ghost use Rattle.kt_dms.specs.Stores.{deltas_of, steps_for, steps_above};
ghost use Rattle.kt_diskrowset.specs.Mems.{AllStand, steps_in_mems};
ghost use Rattle.kt_diskrowset.specs.Missed.{Precedes, changes_above};

use super::DiskRowSet;
use kt_base::NoMemory;
use kt_dms::{DeltaMem, laws};
use kt_history::ChangeList;
use kt_pool::Pool;
use std::alloc::Global;

// The first of two rows, as far as they are there.
fn first_of(row: Option<u32>, other: Option<u32>) -> Option<u32>
    ensures { (n : ℕ) → Precedes n result ↔ (Precedes n row × Precedes n other) }
{
    match (row, other) {
        (Some(row), Some(other)) => Some(row.min(other)),
        (row, None) => row,
        (None, other) => other,
    }
}

// The first row, from one on, that has a change in a store.
fn next_in(pool: &Pool, mem: &DeltaMem, from: u32) -> Option<u32>
    requires { dms_specs.IsStore mem.now pool.now }
    ensures behind { (n : ℕ) → n < from → Precedes n result }
    ensures none { (n : ℕ) → from ≤ n → Precedes n result → steps_for n (deltas_of mem.now pool.now) ≡ [] }
{
    laws::order_law();
    mem.next_row(pool, from)
}

// The first row, from one on, that has a change in one of these stores.
fn next_in_mems(pool: &Pool, mems: &[DeltaMem], from: u32) -> Option<u32>
    requires { AllStand pool.now mems.now }
    ensures behind { (n : ℕ) → n < from → Precedes n result }
    ensures none { (n : ℕ) → from ≤ n → Precedes n result → steps_in_mems pool.now n mems.now ≡ [] }
{
    let mut next = None;
    'mems: for mem in mems {
        next = first_of(next, next_in(pool, mem, from));
    }
    next
}

// Adds the changes of a row above a time in these stores to a list under a key, those of the first store first.
fn push_mems(
    pool: &Pool,
    mems: &[DeltaMem],
    ordinal: u32,
    above: u64,
    key: &[u8],
    list: &mut ChangeList,
    buffer: &mut Vec<u8>,
) -> Result<(), NoMemory>
    requires { AllStand pool.now mems.now }
    ensures { OnOk result (list.new ≡ list.old ++ map (key_change key.now) (steps_above above (steps_in_mems pool.now ordinal mems.now))) }
{
    'mems: for mem in mems {
        mem.push_above(pool, ordinal, above, key, list, buffer)?;
    }
    Ok(())
}

impl DiskRowSet {
    ghost use Rattle.kt_diskrowset.specs.Rowset.{fresh_of, IsStore};

    // The first row, from one on, that has a change in memory.
    fn next_changed(&self, pool: &Pool, from: u32) -> Option<u32>
        requires { IsStore self.now pool.now }
        ensures behind { (n : ℕ) → n < from → Precedes n result }
        ensures none { (n : ℕ) → from ≤ n → Precedes n result → fresh_of self.now pool.now n ≡ [] }
    {
        let in_frozen = next_in_mems(pool, &self.frozen, from);
        first_of(in_frozen, next_in(pool, &self.active, from))
    }

    // Adds the changes in memory of a row above a time to a list, under its key.
    fn push_row(
        &self,
        alloc: Global,
        pool: &Pool,
        ordinal: u32,
        above: u64,
        list: &mut ChangeList,
        buffer: &mut Vec<u8>,
    ) -> Result<(), NoMemory>
        requires stands { IsStore self.now pool.now }
        requires inside { ordinal < length self.now.base.set.value.rows }
        ensures { OnOk result (list.new ≡ list.old ++ map (key_change (key_at self.now.base.set.value.rows ordinal)) (steps_above above (fresh_of self.now pool.now ordinal))) }
    {
        let key = self.base.key(alloc, ordinal)?;
        push_mems(
            pool,
            &self.frozen,
            ordinal,
            above,
            key.as_slice(),
            list,
            buffer,
        )?;
        self.active
            .push_above(pool, ordinal, above, key.as_slice(), list, buffer)
    }

    /// The changes in memory above a time, by rising key, and those of one key as they were made. It goes over the rows that have a
    /// change in memory, and over no others.
    pub fn changes_above(
        &self,
        alloc: Global,
        pool: &Pool,
        above: u64,
    ) -> Result<ChangeList, NoMemory>
        requires { IsStore self.now pool.now }
        ensures { IfOk result (λ list. list ≡ changes_above above self.now pool.now) }
    {
        let mut list = ChangeList::new(alloc);
        let mut buffer = Vec::new(alloc);
        let rows = self.base.rows();
        let mut from = 0;
        'rows: while let Some(ordinal) = self.next_changed(pool, from) {
            if ordinal >= rows {
                break;
            }
            self.push_row(alloc, pool, ordinal, above, &mut list, &mut buffer)?;
            from = ordinal + 1;
        }
        Ok(list)
    }
}
