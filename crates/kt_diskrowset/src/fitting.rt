//! Whether the UNDO records of a rowset lead back.
ghost use Rattle.std.specs.Prelude.{◌≡◌, ◌<◌, ◌^◌, length, Some, IfOk, true};
ghost use Rattle.kt_baseset.specs.Tables.{cells_in};
ghost use Rattle.kt_rowfiles.specs.Files.{records_in, falling};
ghost use Rattle.kt_rowfiles.specs.Fitting.{steps_fit, undos_fit, readable};
ghost use Rattle.kt_diskrowset.specs.Files.{lists_of};
ghost use Rattle.kt_diskrowset.specs.Rows.{UndosLeadBack};

use crate::data::RowSetData;
use crate::files::FileLists;
use crate::rows::undos_of;
use kt_base::NoMemory;
use std::alloc::Global;

impl RowSetData {
    ghost use Rattle.kt_diskrowset.specs.Data.{files_in, held_in};
    ghost use Rattle.kt_diskrowset.specs.Held.{IsReadOf};

    // Whether the UNDO records of the row at a place fit.
    fn row_fits(&self, alloc: Global, ordinal: u32) -> Result<bool, NoMemory>
        requires inside { ordinal < length self.now.base.set.value.rows }
        ensures { IfOk result (λ fit. fit ≡ steps_fit (2 ^ 64) (falling (records_in ordinal (lists_of self.now.undo))) (Some (cells_in self.now.base.set.value.rows ordinal))) }
    {
        let records = undos_of(alloc, self.undo.as_slice(), ordinal)?;
        let base = self.base.row(alloc, ordinal)?;
        records.fit(base)
    }

    /// Whether each UNDO record fits the row from which it leads back. Then it does.
    pub fn undos_fit(&self, alloc: Global) -> Result<bool, NoMemory>
        ensures fit { IfOk result (λ fit. fit ≡ undos_fit (files_in self.now)) }
        ensures lead { IfOk result (λ fit. fit ≡ true → UndosLeadBack (files_in self.now)) }
    {
        'rows: for ordinal in 0..self.base.rows() {
            if !self.row_fits(alloc, ordinal)? {
                return Ok(false);
            }
        }
        Ok(true)
    }

    /// The rowset as it is opened: without its UNDO files where one of their records does not fit.
    pub fn readable(self, alloc: Global) -> Result<RowSetData, NoMemory>
        ensures files { IfOk result (λ d. files_in d ≡ readable (files_in self)) }
        ensures lead { IfOk result (λ d. UndosLeadBack (files_in d)) }
        ensures fresh { IfOk result (λ d. d.fresh ≡ self.fresh) }
        ensures number { IfOk result (λ d. d.number ≡ self.number) }
        ensures held { IfOk result (λ d. undos_fit (files_in self) ≡ true → held_in d ≡ held_in self) }
        ensures read { IfOk result (λ d. IsReadOf (held_in self) (held_in d)) }
    {
        if self.undos_fit(alloc)? {
            return Ok(self);
        }
        Ok(RowSetData {
            number: self.number,
            base: self.base,
            undo: FileLists::of(Vec::new(alloc)),
            redo: self.redo,
            fresh: self.fresh,
        })
    }
}
