//! A row that is inserted, updated, deleted and inserted anew, each life in a disk rowset of its own: what is merged of these tells
//! what a plain list of the changes tells, from the mark on.
ghost use Rattle.std.specs.Prelude.{◌≡◌, [], IfOk};
ghost use Rattle.std.specs.List.{AllByRecursion};
ghost use Rattle.kt_diskrowset.specs.Data.{files_in};
ghost use Rattle.kt_diskrowset.specs.Rows.{UndosLeadBack};
ghost use Rattle.kt_merge.specs.Merge.{IsReadable};

use crate::dice::Dice;
use crate::inputs::{Step, inputs_of, list_of, opened, written};
use kt_base::{Cell, Cells, NoMemory};
use kt_diskrowset::{RowSetData, RowSetView};
use kt_history::Kindly;
use std::alloc::Global;
use std::test::Fail;

/// The key of the row.
const KEY: &[u8] = b"k";

/// Above all times of a history.
const END: u64 = 64;

/// Makes up changes whose times rise.
#[derive(Drop)]
struct Author {
    dice: Dice,
    now: u64,
}

impl Author {
    fn change(&mut self, kind: Kindly) -> Step {
        let wait = u64::from(self.dice.below(3)) + 1;
        self.now = self.now.saturating_add(wait);
        Step {
            ts: self.now,
            kind,
            letter: self.dice.below(26) as u8,
        }
    }

    /// An insert, up to three updates, and a delete, if the row is to end.
    fn life(&mut self, alloc: Global, ends: bool) -> Result<Vec<Step>, NoMemory> {
        let mut steps = Vec::new(alloc);
        steps.push(self.change(Kindly::Ins))?;
        for _ in 0..self.dice.below(4) {
            steps.push(self.change(Kindly::Upd))?;
        }
        if ends {
            steps.push(self.change(Kindly::Del))?;
        }
        Ok(steps)
    }
}

/// The disk rowset that a flush of all changes writes.
fn flushed(alloc: Global, steps: &[Step]) -> Result<RowSetData, Fail>
    ensures lead { IfOk result (λ d. UndosLeadBack (files_in d)) }
    ensures none { IfOk result (λ d. d.fresh ≡ []) }
{
    let mut mems = Vec::new(alloc);
    mems.push(list_of(alloc, KEY, steps)?)?;
    let inputs = inputs_of(alloc, mems, Vec::new(alloc))?;
    let outputs = written(alloc, &inputs, u64::MAX, 0)?;
    match opened(alloc, outputs)? {
        Some(rowset) => Ok(rowset),
        None => Err("no rowset".into()),
    }
}

/// The disk rowset of a life that is made up, whose changes go behind others.
fn rowset_of(
    alloc: Global,
    author: &mut Author,
    ends: bool,
    steps: &mut Vec<Step>,
) -> Result<RowSetData, Fail>
    ensures lead { IfOk result (λ d. UndosLeadBack (files_in d)) }
    ensures none { IfOk result (λ d. d.fresh ≡ []) }
{
    let life = author.life(alloc, ends)?;
    steps.extend_from_slice(&life)?;
    flushed(alloc, &life)
}

/// Three lives, of which the last one may go on.
fn rowsets_of(
    alloc: Global,
    author: &mut Author,
    steps: &mut Vec<Step>,
) -> Result<Vec<RowSetData>, Fail>
    ensures { IfOk result (λ rowsets. AllByRecursion IsReadable rowsets.items) }
{
    let mut rowsets = Vec::new(alloc);
    rowsets.push(rowset_of(alloc, author, true, steps)?)?;
    rowsets.push(rowset_of(alloc, author, true, steps)?)?;
    let ends = author.dice.below(2) == 0;
    rowsets.push(rowset_of(alloc, author, ends, steps)?)?;
    Ok(rowsets)
}

/// What a compaction of these writes as of a mark, if anything is left.
fn merged(alloc: Global, rowsets: Vec<RowSetData>, mark: u64) -> Result<Option<RowSetView>, Fail>
    requires { AllByRecursion IsReadable rowsets.items }
{
    let inputs = inputs_of(alloc, Vec::new(alloc), rowsets)?;
    let outputs = written(alloc, &inputs, u64::MAX, mark)?;
    match opened(alloc, outputs)? {
        Some(rowset) => Ok(Some(RowSetView::of(rowset))),
        None => Ok(None),
    }
}

/// The letter of the row at a time, as a plain list of changes tells it.
fn letter_at(steps: &[Step], t: u64) -> Option<u8> {
    let mut letter = None;
    for step in steps {
        if step.ts <= t {
            letter = match step.kind {
                Kindly::Ins | Kindly::Upd => Some(step.letter),
                Kindly::Del => None,
            };
        }
    }
    letter
}

fn letter_in(row: Option<&Cells>) -> Option<u8> {
    match row?.as_slice() {
        [(_, Cell::Bytes(text))] => text.as_slice().first().copied(),
        _ => None,
    }
}

/// And as a disk rowset tells it.
fn letter_of(alloc: Global, view: Option<&RowSetView>, t: u64) -> Result<Option<u8>, NoMemory> {
    match view {
        Some(view) => {
            let row = view.row_at(alloc, KEY, t)?;
            Ok(letter_in(row.as_ref()))
        }
        None => Ok(None),
    }
}

/// Whether both tell the same at each time from the mark on.
fn are_alike(
    alloc: Global,
    view: Option<&RowSetView>,
    steps: &[Step],
    mark: u64,
) -> Result<bool, NoMemory> {
    for t in mark..END {
        if letter_of(alloc, view, t)? != letter_at(steps, t) {
            return Ok(false);
        }
    }
    Ok(true)
}

/// Whether what is merged of a history that is made up tells it.
fn holds(alloc: Global, seed: u64) -> Result<bool, Fail> {
    let mut author = Author {
        dice: Dice::of(seed),
        now: 0,
    };
    let mut steps = Vec::new(alloc);
    let rowsets = rowsets_of(alloc, &mut author, &mut steps)?;
    let mark = u64::from(author.dice.below(50));
    let view = merged(alloc, rowsets, mark)?;
    Ok(are_alike(alloc, view.as_ref(), &steps, mark)?)
}

// Whether it holds of 2,000 histories.
fn all_hold(alloc: Global) -> Result<bool, Fail> {
    for seed in 0..2000u64 {
        if !holds(alloc, seed)? {
            return Ok(false);
        }
    }
    Ok(true)
}

#[test]
fn merged_lives_tell_what_their_changes_tell(rt: HostRuntime) -> Result<(), Fail> {
    let hold = all_hold(rt.alloc())?;
    assert!(rt; hold);
    Ok(())
}
