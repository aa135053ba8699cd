//! The changes in memory of a disk rowset: another owner of them, and whether they are those of another list.
ghost use Rattle.std.specs.Prelude.{◌≡◌, ◌↔◌, IsTrue, IfOk};
ghost use Rattle.std.specs.Bool.{OnTrue};

use kt_base::{Cell, NoMemory};
use kt_history::{Change, Delta, DeltaList};
use std::alloc::Global;

// Whether two cells are the same.
fn same_cell(one: &Cell, other: &Cell) -> bool
    ensures { IsTrue result ↔ (one.now ≡ other.now) }
{
    match (one, other) {
        (Cell::Null, Cell::Null) => true,
        (Cell::Int(one), Cell::Int(other)) => one == other,
        (Cell::Bool(one), Cell::Bool(other)) => one == other,
        (Cell::Bytes(one), Cell::Bytes(other)) => one.as_slice() == other.as_slice(),
        _ => false,
    }
}

// Whether two columns of a row are.
fn same_part(one: &(u16, Cell), other: &(u16, Cell)) -> bool
    ensures { IsTrue result → one.now ≡ other.now }
{
    one.0 == other.0 && same_cell(&one.1, &other.1)
}

// Whether the cells of two changes are.
#[tactic(auto, using(kt_engine::proofs::Entries::take_same))]
fn same_parts(one: &[(u16, Cell)], other: &[(u16, Cell)]) -> bool
    ensures { OnTrue result (one.now ≡ other.now) }
{
    if one.len() != other.len() {
        return false;
    }
    'parts: for at in 0..one.len() {
        if !same_part(&one[at], &other[at]) {
            return false;
        }
    }
    true
}

// Whether two changes are.
fn same_change(one: &Change, other: &Change) -> bool
    ensures { IsTrue result → one.now ≡ other.now }
{
    match (one, other) {
        (Change::Ins(one), Change::Ins(other)) | (Change::Upd(one), Change::Upd(other)) => {
            same_parts(one.as_slice(), other.as_slice())
        }
        (Change::Del, Change::Del) => true,
        _ => false,
    }
}

// Whether two changes of rows are.
fn same_delta(one: &Delta, other: &Delta) -> bool
    ensures { IsTrue result → one.now ≡ other.now }
{
    one.ts == other.ts && one.ordinal == other.ordinal && same_change(&one.change, &other.change)
}

// Whether the changes of two lists are.
#[tactic(auto, using(kt_engine::proofs::Entries::take_same))]
fn are_same(one: &[Delta], other: &[Delta]) -> bool
    ensures { OnTrue result (one.now ≡ other.now) }
{
    if one.len() != other.len() {
        return false;
    }
    'deltas: for at in 0..one.len() {
        if !same_delta(&one[at], &other[at]) {
            return false;
        }
    }
    true
}

/// Whether two lists have the same changes.
pub fn same_deltas(one: &DeltaList, other: &DeltaList) -> bool
    ensures { IsTrue result → one.now ≡ other.now }
{
    are_same(one.as_slice(), other.as_slice())
}

// Another owner of a change.
fn copy_change(change: &Change) -> Result<Change, NoMemory>
    ensures { IfOk result (λ copy. copy ≡ change.now) }
{
    match change {
        Change::Ins(cells) => Ok(Change::Ins(cells.copy()?)),
        Change::Upd(cells) => Ok(Change::Upd(cells.copy()?)),
        Change::Del => Ok(Change::Del),
    }
}

// Another owner of a change of a row.
fn copy_delta(delta: &Delta) -> Result<Delta, NoMemory>
    ensures { IfOk result (λ copy. copy ≡ delta.now) }
{
    Ok(Delta {
        ordinal: delta.ordinal,
        ts: delta.ts,
        change: copy_change(&delta.change)?,
    })
}

/// Another owner of a list of changes.
pub fn copy_deltas(alloc: Global, list: &DeltaList) -> Result<DeltaList, NoMemory>
    ensures { IfOk result (λ copy. copy ≡ list.now) }
{
    let mut copy = Vec::with_capacity(alloc, list.len())?;
    'deltas: for delta in list.as_slice() {
        copy.push(copy_delta(delta)?)?;
    }
    Ok(DeltaList::of(copy))
}
