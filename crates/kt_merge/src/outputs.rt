//! The disk rowsets that a merge writes, one behind the other.
ghost use Rattle.std.specs.Prelude.{◌≡◌, ◌≤◌, ◌<◌, ◌+◌, ◌++◌, ◌∷◌, ◌⊎◌, ◌^◌, [], List, true, map, length, IfOk, OnOk};
ghost use Rattle.std.specs.List.{All, AllByRecursion};
ghost use Rattle.std.specs.declared.cmp.Ordering.TheVariants.{Less};
ghost use Rattle.kt_baseset.specs.declared.schema.ColumnShape.{ColumnShape};
ghost use Rattle.kt_baseset.specs.Rows.{IdsRise};
ghost use Rattle.kt_history.specs.Rows.{key_cmp};
ghost use Rattle.kt_history.specs.Views.{AreRising};
ghost use Rattle.kt_merge.specs.Fitting.{FitsFiles};
ghost use Rattle.kt_merge.specs.Merge.{told_of, Writes};
ghost use Rattle.kt_merge.specs.Rows.{disk_row_of};
ghost use Rattle.kt_merge.specs.Told.{is_full, rows_in, told_by_all, AreOutputs, Grown, IsTaken};

use crate::output::Growing;
use crate::row::RowWritten;
use kt_base::{NoMemory, Octets};
use kt_baseset::Schema1;
use kt_diskrowset::{Outputs, RowSetData, RowSetList};
use std::alloc::Global;

/// The disk rowsets that are full, and the one that takes rows.
#[derive(Drop)]
pub struct Writing {
    pub(crate) done: Vec<RowSetData>,
    pub(crate) growing: Growing,
}

impl Writing {
    /// No rows.
    pub fn new(alloc: Global) -> Writing
        ensures writes { (columns : List ColumnShape) → Writes columns result }
        ensures told { told_of result ≡ [] }
        ensures none { result.growing.undos.items ≡ [] }
    {
        Writing {
            done: Vec::new(alloc),
            growing: Growing::new(alloc),
        }
    }

    /// The place of the next row in its disk rowset.
    pub fn next(&self, columns: &Schema1) -> u32
        requires { Writes columns.now self.now }
        ensures { result ≡ length self.now.growing.rows.items }
    {
        self.growing.next()
    }

    // The disk rowset that takes rows is cut, if it is full.
    fn cut_full(&mut self, alloc: Global, columns: &Schema1) -> Result<(), NoMemory>
        requires ids { IdsRise 0 columns.now }
        requires few { length columns.now < 2 ^ 16 }
        requires done { AreOutputs columns.now self.old.done.items }
        requires full { AllByRecursion (λ d. is_full (rows_in d) ≡ true) self.old.done.items }
        requires rise { AreRising (map (λ r. r.0) (told_of self.old)) }
        requires grown { Grown columns.now self.old.growing }
        requires taken { IsTaken self.old.growing.rows.items }
        ensures writes { OnOk result (Writes columns.now self.new) }
        ensures told { OnOk result (told_of self.new ≡ told_of self.old) }
        ensures few { OnOk result (length self.new.growing.undos.items ≤ length self.old.growing.undos.items) }
    {
        if !self.growing.is_full() {
            return Ok(());
        }
        let full = self.growing.cut(alloc, columns)?;
        self.done.push(full)?;
        Ok(())
    }

    /// Adds a row under a key above all others, if files can hold it. Its UNDO records name its place.
    pub fn put(
        &mut self,
        alloc: Global,
        columns: &Schema1,
        key: Octets,
        row: RowWritten,
    ) -> Result<(), NoMemory>
        requires ids { IdsRise 0 columns.now }
        requires few { length columns.now < 2 ^ 16 }
        requires writes { Writes columns.now self.old }
        requires above { AllByRecursion (λ r. key_cmp r.0 key ≡ Less) (told_of self.old) }
        requires ordinals { All (λ d. d.ordinal ≡ length self.old.growing.rows.items) row.undos.items }
        ensures writes { OnOk result (Writes columns.now self.new) }
        ensures put { FitsFiles columns.now key row → length self.old.growing.undos.items + length row.undos.items < 2 ^ 32 → OnOk result (told_of self.new ≡ told_of self.old ++ (key, disk_row_of row) ∷ []) }
        ensures few { OnOk result (length self.new.growing.undos.items ≤ length self.old.growing.undos.items + length row.undos.items) }
        ensures either { OnOk result ((told_of self.new ≡ told_of self.old) ⊎ (told_of self.new ≡ told_of self.old ++ (key, disk_row_of row) ∷ [])) }
    {
        if !self.growing.can_hold(columns, key.as_slice(), &row) {
            return Ok(());
        }
        self.growing.push(columns, key, row)?;
        self.cut_full(alloc, columns)?;
        Ok(())
    }

    // The disk rowset that takes rows is cut, if it has one.
    fn cut_last(&mut self, alloc: Global, columns: &Schema1) -> Result<(), NoMemory>
        requires ids { IdsRise 0 columns.now }
        requires few { length columns.now < 2 ^ 16 }
        requires writes { Writes columns.now self.old }
        ensures outputs { OnOk result (AreOutputs columns.now self.new.done.items) }
        ensures told { OnOk result (told_by_all self.new.done.items ≡ told_of self.old) }
    {
        if self.next(columns) == 0 {
            return Ok(());
        }
        let last = self.growing.cut(alloc, columns)?;
        self.done.push(last)?;
        Ok(())
    }

    /// All disk rowsets. The last one is cut, if it has a row.
    pub fn end(mut self, alloc: Global, columns: &Schema1) -> Result<Outputs, NoMemory>
        requires ids { IdsRise 0 columns.now }
        requires few { length columns.now < 2 ^ 16 }
        requires writes { Writes columns.now self }
        ensures outputs { IfOk result (λ outputs. AreOutputs columns.now outputs.rowsets) }
        ensures told { IfOk result (λ outputs. told_by_all outputs.rowsets ≡ told_of self) }
    {
        self.cut_last(alloc, columns)?;
        let Writing { done, .. } = self;
        Ok(Outputs {
            rowsets: RowSetList::of(done),
        })
    }
}
