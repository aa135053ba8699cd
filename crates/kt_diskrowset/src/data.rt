//! A disk rowset as plain data, which tells its rows at a time.
ghost use Rattle.std.specs.Prelude.{◌≡◌, ◌<◌, ◌∷◌, length, IfOk, IsSome, ℕ, List};
ghost use Rattle.std.specs.List.Sorted.{IsNonDecreasingBy};
ghost use Rattle.std.specs.Option.{option_copied};
ghost use Rattle.kt_history.specs.Stores.{hist_in, row_of, after_steps};
ghost use Rattle.kt_history.specs.Views.{key_above, AreRising};
ghost use Rattle.kt_histlaws.specs.Disks.{disk_row_at};
ghost use Rattle.kt_baseset.specs.Tables.{cells_in};
ghost use Rattle.kt_diskrowset.specs.Files.{row_with_files};
ghost use Rattle.kt_diskrowset.specs.Rows.{UndosLeadBack};

use crate::base::BaseHeld;
use crate::files::FileLists;
use crate::fresh::{changes_of, go_on};
use crate::rows::row_at;
use kt_base::{Cells, NoMemory, Octets};
use kt_history::DeltaList;
use std::alloc::Global;

/// A disk rowset: its number, its base file, its UNDO and REDO files, and its changes in memory, in the order of their rows.
#[derive(Drop)]
pub struct RowSetData {
    pub number: u64,
    pub base: BaseHeld,
    pub undo: FileLists,
    pub redo: FileLists,
    pub fresh: DeltaList,
}

impl RowSetData {
    ghost use Rattle.kt_diskrowset.specs.Data.{files_in, fresh_in, store_in, keys_of};

    /// The row at a place at a time.
    pub(crate) fn row(&self, alloc: Global, ordinal: u32, t: u64) -> Result<Option<Cells>, NoMemory>
        requires order { IsNonDecreasingBy (λ d. d.ordinal) self.now.fresh }
        requires inside { ordinal < length self.now.base.set.value.rows }
        ensures { IfOk result (λ row. row ≡ after_steps t (fresh_in self.now ordinal) (disk_row_at t (row_with_files self.now.undo self.now.redo ordinal (cells_in self.now.base.set.value.rows ordinal)))) }
    {
        let base = self.base.row(alloc, ordinal)?;
        let mut row = row_at(alloc, &self.undo, &self.redo, ordinal, base, t)?;
        go_on(changes_of(self.fresh.as_slice(), ordinal), t, &mut row)?;
        Ok(row)
    }

    /// The row of a key at a time.
    pub fn row_at(&self, alloc: Global, key: &[u8], t: u64) -> Result<Option<Cells>, NoMemory>
        requires lead { UndosLeadBack (files_in self.now) }
        requires order { IsNonDecreasingBy (λ d. d.ordinal) self.now.fresh }
        ensures { IfOk result (λ row. row ≡ row_of t (hist_in key.now (store_in self.now))) }
    {
        match self.base.ordinal(key) {
            Some(ordinal) => self.row(alloc, ordinal, t),
            None => Ok(None),
        }
    }

    /// The least key above another, or the least of all, those of deleted rows too.
    pub fn key_after(&self, alloc: Global, after: Option<&[u8]>) -> Result<Option<Octets>, NoMemory>
        ensures rise { AreRising (keys_of self.now) }
        ensures found { IfOk result (λ found. found ≡ key_above (option_copied after.entry) (keys_of self.now)) }
    {
        self.base.key_after(alloc, after)
    }
}
