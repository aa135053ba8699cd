//! All rows of a disk rowset at a time.
ghost use Rattle.std.specs.Prelude.{◌≡◌, ◌<◌, ◌++◌, ◌∷◌, [], length, IfOk, OnOk};
ghost use Rattle.std.specs.List.Sorted.{IsNonDecreasingBy};
ghost use Rattle.kt_history.specs.Views.{AreRising};
ghost use Rattle.kt_views.specs.Tables.{HasRowsOf};
ghost use Rattle.kt_baseset.specs.Tables.{key_at};
ghost use Rattle.kt_diskrowset.specs.Page.{told_at, rows_under};
ghost use Rattle.kt_diskrowset.specs.Rows.{UndosLeadBack};

use crate::data::RowSetData;
use kt_base::{Cells, NoMemory, Octets};
use kt_views::Table;
use std::alloc::Global;

impl RowSetData {
    ghost use Rattle.kt_diskrowset.specs.Data.{files_in, keys_of};

    // Adds the row at a place at a time under its key, if it is there.
    fn push_whole(
        &self,
        alloc: Global,
        ordinal: u32,
        key: &[u8],
        t: u64,
        rows: &mut Vec<(Octets, Cells)>,
    ) -> Result<(), NoMemory>
        requires lead { UndosLeadBack (files_in self.now) }
        requires order { IsNonDecreasingBy (λ d. d.ordinal) self.now.fresh }
        requires rise { AreRising (keys_of self.now) }
        requires inside { ordinal < length self.now.base.set.value.rows }
        requires named { key.now ≡ key_at self.now.base.set.value.rows ordinal }
        ensures { OnOk result (rows.new.items ≡ rows.old.items ++ rows_under (told_at t self.now) (key_at self.now.base.set.value.rows ordinal ∷ [])) }
    {
        match self.row(alloc, ordinal, t)? {
            Some(row) => {
                let own = Octets::from_slice(alloc, key)?;
                rows.push((own, row))?;
                Ok(())
            }
            None => Ok(()),
        }
    }

    // All rows at a time under their keys.
    fn all_rows(&self, alloc: Global, t: u64) -> Result<Vec<(Octets, Cells)>, NoMemory>
        requires lead { UndosLeadBack (files_in self.now) }
        requires order { IsNonDecreasingBy (λ d. d.ordinal) self.now.fresh }
        requires rise { AreRising (keys_of self.now) }
        ensures { IfOk result (λ rows. rows.items ≡ rows_under (told_at t self.now) (keys_of self.now)) }
    {
        let keys = self.base.keys(alloc)?;
        let mut rows = Vec::with_capacity(alloc, keys.len())?;
        let count = self.base.rows();
        'ordinals: for ordinal in 0..count {
            self.push_whole(alloc, ordinal, keys.get(ordinal as usize), t, &mut rows)?;
        }
        Ok(rows)
    }

    /// All rows at a time. It decodes every column of each.
    pub fn table(&self, alloc: Global, t: u64) -> Result<Table, NoMemory>
        requires lead { UndosLeadBack (files_in self.now) }
        requires order { IsNonDecreasingBy (λ d. d.ordinal) self.now.fresh }
        ensures { IfOk result (HasRowsOf (told_at t self.now)) }
    {
        self.base.standing();
        let rows = self.all_rows(alloc, t)?;
        Ok(Table::of(rows))
    }
}
