//! What a job takes of the changes of a row.
ghost use Rattle.std.specs.Prelude.{◌≡◌, ◌∷◌, ◌++◌, [], OnOk, IfOk, reverse};
ghost use Rattle.kt_history.specs.Rows.{fits, undo};
ghost use Rattle.kt_history.specs.Stores.{after_steps};
ghost use Rattle.kt_histlaws.specs.Disks.{back};
ghost use Rattle.kt_rowfiles.specs.Reading.{step_in, steps_in};
ghost use Rattle.kt_rowfiles.specs.Taking.{lies_in, spanned, led_in};

use kt_base::{Cells, NoMemory};
use kt_history::{Change, Delta, apply, undo_of};
use std::alloc::Global;

/// The time of a job: above its mark, and up to its bound.
#[derive(Clone, Copy)]
pub struct Span {
    pub mark: u64,
    pub bound: u64,
}

impl Span {
    /// Whether a timestamp lies there.
    pub fn has(self, ts: u64) -> bool
        ensures { result ≡ lies_in self ts }
    {
        self.mark < ts && ts <= self.bound
    }
}

/// A copy of a change.
pub fn copy_of(change: &Change) -> Result<Change, NoMemory>
    ensures { IfOk result (λ copy. copy ≡ change.now) }
{
    match change {
        Change::Ins(cells) => Ok(Change::Ins(cells.copy()?)),
        Change::Upd(cells) => Ok(Change::Upd(cells.copy()?)),
        Change::Del => Ok(Change::Del),
    }
}

// Whether a change fits the row before it.
fn is_fit(change: &Change, row: &Option<Cells>) -> bool
    ensures { result ≡ fits change.now row.now }
{
    match change {
        Change::Ins(_) => row.is_none(),
        Change::Upd(_) | Change::Del => row.is_some(),
    }
}

/// The change that leads back over another one. One that fits no row is led back over by a delete.
pub fn back_over(alloc: Global, change: &Change, row: &Option<Cells>) -> Result<Change, NoMemory>
    ensures { IfOk result (λ back. back ≡ undo change.now row.now) }
{
    if is_fit(change, row) {
        undo_of(alloc, change, row)
    } else {
        Ok(Change::Del)
    }
}

/// Takes a change: up to the mark it is done to the row, and one that lies in the span is added to others.
pub fn take_change(
    span: Span,
    change: Delta,
    row: &mut Option<Cells>,
    steps: &mut Vec<Delta>,
) -> Result<(), NoMemory>
    ensures row { OnOk result (row.new ≡ after_steps span.mark (step_in change ∷ []) row.old) }
    ensures steps { OnOk result (steps_in steps.new.items ≡ steps_in steps.old.items ++ spanned span (step_in change ∷ [])) }
{
    if change.ts <= span.mark {
        return apply(&change.change, row);
    }
    if span.has(change.ts) {
        steps.push(change)?;
    }
    Ok(())
}

/// Takes a record that stays where it lies, as `take_change` does.
pub fn take_record(
    span: Span,
    record: &Delta,
    row: &mut Option<Cells>,
    steps: &mut Vec<Delta>,
) -> Result<(), NoMemory>
    ensures row { OnOk result (row.new ≡ after_steps span.mark (step_in record.now ∷ []) row.old) }
    ensures steps { OnOk result (steps_in steps.new.items ≡ steps_in steps.old.items ++ spanned span (step_in record.now ∷ [])) }
{
    if record.ts <= span.mark {
        return apply(&record.change, row);
    }
    if span.has(record.ts) {
        steps.push(Delta {
            ordinal: record.ordinal,
            ts: record.ts,
            change: copy_of(&record.change)?,
        })?;
    }
    Ok(())
}

/// Takes records in their order.
pub fn take_records(
    span: Span,
    records: &[Delta],
    row: &mut Option<Cells>,
    steps: &mut Vec<Delta>,
) -> Result<(), NoMemory>
    ensures row { OnOk result (row.new ≡ after_steps span.mark (steps_in records.now) row.old) }
    ensures steps { OnOk result (steps_in steps.new.items ≡ steps_in steps.old.items ++ spanned span (steps_in records.now)) }
{
    'records: for record in records {
        take_record(span, record, row, steps)?;
    }
    Ok(())
}

/// Takes an UNDO record back, if it lies above the mark, and adds the change that it leads back over to others, if that lies in
/// the span.
pub(crate) fn take_back(
    alloc: Global,
    span: Span,
    record: &Delta,
    row: &mut Option<Cells>,
    led: &mut Vec<Delta>,
) -> Result<(), NoMemory>
    ensures row { OnOk result (row.new ≡ back span.mark (step_in record.now ∷ []) row.old) }
    ensures led { OnOk result (reverse (steps_in led.new.items) ≡ led_in span (step_in record.now ∷ []) row.old ++ reverse (steps_in led.old.items)) }
{
    if record.ts <= span.mark {
        return Ok(());
    }
    if record.ts <= span.bound {
        led.push(Delta {
            ordinal: record.ordinal,
            ts: record.ts,
            change: back_over(alloc, &record.change, row)?,
        })?;
    }
    apply(&record.change, row)
}
