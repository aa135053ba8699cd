//! What a job takes of a disk rowset, key by key.
ghost use Rattle.std.specs.Prelude.{◌≡◌, ◌<◌, ◌≤◌, ◌++◌, ℕ, List, length, Some, IfOk, OnOk};
ghost use Rattle.std.specs.List.{AllByRecursion};
ghost use Rattle.std.specs.List.Sorted.{IsNonDecreasingBy};
ghost use Rattle.kt_history.specs.Stores.{hist_in, row_of, after_steps};
ghost use Rattle.kt_histlaws.specs.Disks.{back};
ghost use Rattle.kt_history.specs.Views.{AreRising};
ghost use Rattle.kt_baseset.specs.Rows.{keys_in};
ghost use Rattle.kt_baseset.specs.Tables.{cells_in};
ghost use Rattle.kt_rowfiles.specs.Files.{row_under, records_in, falling, rising};
ghost use Rattle.kt_rowfiles.specs.Reading.{steps_in};
ghost use Rattle.kt_rowfiles.specs.Taking.{spanned, led_in};
ghost use Rattle.kt_diskrowset.specs.Files.{lists_of};
ghost use Rattle.kt_diskrowset.specs.Rows.{hist_at, UndosLeadBack};

use crate::data::RowSetData;
use crate::files::{FileHeld, FileLists};
use crate::fresh::changes_of;
use crate::rows::{redos_of, undos_of};
use kt_base::{Cells, NoMemory};
use kt_baseset::BaseSet;
use kt_history::Delta;
use kt_rowfiles::{Span, take_records};
use std::alloc::Global;

// Takes a row back over its UNDO records to the mark, and adds the changes that lie in the span to others, from the oldest.
fn take_undos(
    alloc: Global,
    files: &[FileHeld],
    ordinal: u32,
    span: Span,
    row: &mut Option<Cells>,
    steps: &mut Vec<Delta>,
) -> Result<(), NoMemory>
    ensures row { OnOk result (row.new ≡ back span.mark (falling (records_in ordinal (lists_of files.now))) row.old) }
    ensures steps { OnOk result (steps_in steps.new.items ≡ steps_in steps.old.items ++ led_in span (falling (records_in ordinal (lists_of files.now))) row.old) }
{
    let mut led = Vec::new(alloc);
    undos_of(alloc, files, ordinal)?.take_back(alloc, span, row, &mut led)?;
    led.reverse();
    steps.append(&mut led)?;
    Ok(())
}

// Takes a row on over its REDO records to the mark, and adds those in the span to others.
fn take_redos(
    alloc: Global,
    files: &[FileHeld],
    ordinal: u32,
    span: Span,
    row: &mut Option<Cells>,
    steps: &mut Vec<Delta>,
) -> Result<(), NoMemory>
    ensures row { OnOk result (row.new ≡ after_steps span.mark (rising (records_in ordinal (lists_of files.now))) row.old) }
    ensures steps { OnOk result (steps_in steps.new.items ≡ steps_in steps.old.items ++ spanned span (rising (records_in ordinal (lists_of files.now)))) }
{
    redos_of(alloc, files, ordinal)?.take(span, row, steps)?;
    Ok(())
}

// How many keys a base file has.
fn count_of(set: &BaseSet) -> u32
    ensures count { result ≡ length (keys_in set.now.rows) }
    ensures rise { AreRising (keys_in set.now.rows) }
    ensures short { AllByRecursion (λ key. length key ≤ 16384) (keys_in set.now.rows) }
{
    set.rows()
}

impl FileLists {
    /// Adds copies of the REDO records of a row in these files to others, from the oldest.
    pub fn push_redos(
        &self,
        alloc: Global,
        ordinal: u32,
        steps: &mut Vec<Delta>,
    ) -> Result<(), NoMemory>
        ensures { OnOk result (steps_in steps.new.items ≡ steps_in steps.old.items ++ rising (records_in ordinal (lists_of self.now))) }
    {
        redos_of(alloc, self.as_slice(), ordinal)?.copy_to(steps)?;
        Ok(())
    }
}

impl RowSetData {
    ghost use Rattle.kt_diskrowset.specs.Data.{files_in, fresh_in, store_in, keys_of};

    /// How many keys it has, those of deleted rows too. They rise, and none is above 16,384 bytes.
    pub fn keys(&self) -> u32
        ensures count { result ≡ length (keys_of self.now) }
        ensures rise { AreRising (keys_of self.now) }
        ensures short { AllByRecursion (λ key. length key ≤ 16384) (keys_of self.now) }
    {
        count_of(&self.base.set)
    }

    // Takes the row at a place.
    fn take_row(
        &self,
        alloc: Global,
        ordinal: u32,
        span: Span,
        steps: &mut Vec<Delta>,
    ) -> Result<Option<Cells>, NoMemory>
        requires lead { UndosLeadBack (files_in self.now) }
        requires order { IsNonDecreasingBy (λ d. d.ordinal) self.now.fresh }
        requires inside { ordinal < length self.now.base.set.value.rows }
        ensures row { IfOk result (λ row. (q : List ℕ) → row_under q 0 (files_in self.now).base ≡ Some (ordinal, cells_in self.now.base.set.value.rows ordinal) → row ≡ row_of span.mark (hist_at (files_in self.now) (fresh_in self.now) (ordinal, cells_in self.now.base.set.value.rows ordinal))) }
        ensures steps { IfOk result (λ _. (q : List ℕ) → row_under q 0 (files_in self.now).base ≡ Some (ordinal, cells_in self.now.base.set.value.rows ordinal) → steps_in steps.new.items ≡ steps_in steps.old.items ++ spanned span (hist_at (files_in self.now) (fresh_in self.now) (ordinal, cells_in self.now.base.set.value.rows ordinal)).steps) }
    {
        let mut row = Some(self.base.row(alloc, ordinal)?);
        take_undos(alloc, self.undo.as_slice(), ordinal, span, &mut row, steps)?;
        take_redos(alloc, self.redo.as_slice(), ordinal, span, &mut row, steps)?;
        take_records(
            span,
            changes_of(self.fresh.as_slice(), ordinal),
            &mut row,
            steps,
        )?;
        Ok(row)
    }

    /// The row of a key at the mark, where it has one then. Copies of the changes of the key in the span are added to others, from
    /// the oldest.
    pub fn take_key(
        &self,
        alloc: Global,
        key: &[u8],
        span: Span,
        steps: &mut Vec<Delta>,
    ) -> Result<Option<Cells>, NoMemory>
        requires lead { UndosLeadBack (files_in self.now) }
        requires order { IsNonDecreasingBy (λ d. d.ordinal) self.now.fresh }
        ensures row { IfOk result (λ row. row ≡ row_of span.mark (hist_in key.now (store_in self.now))) }
        ensures steps { IfOk result (λ _. steps_in steps.new.items ≡ steps_in steps.old.items ++ spanned span (hist_in key.now (store_in self.now)).steps) }
    {
        match self.base.ordinal(key) {
            Some(ordinal) => self.take_row(alloc, ordinal, span, steps),
            None => Ok(None),
        }
    }
}
