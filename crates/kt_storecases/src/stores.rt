//! Which of several MemRowSets takes a change, and what is left once the frozen ones have gone.
ghost use Rattle.std.specs.Prelude.{IfOk};
ghost use Rattle.kt_cells.specs.Spelled.{SpellsCells};

use kt_base::{Cells, NoMemory, Octets};
use kt_cells::Tail;
use kt_cells::laws::spelled_law;
use kt_cells::writing::put_cell_list;
use kt_diskrowset::DiskRowSet;
use kt_history::{OpKind, OpRef, Taken, Target};
use kt_pool::Pool;
use kt_stores::{RangedRowSets, Stores};
use std::alloc::Global;

/// One operation of a test: the number of the MemRowSet that is to take inserts from then on, if another does; its kind and key; whether
/// the row is there before it; and the MemRowSet that takes it.
type Step = (Option<u64>, OpKind, &'static [u8], bool, u64);

/// No cells, spelled behind their count.
fn no_cells(alloc: Global) -> Result<Octets, NoMemory>
    ensures { IfOk result (λ bytes. SpellsCells bytes) }
{
    let mut out = Tail::of(Octets::new(alloc));
    put_cell_list(&mut out, &Cells::of(Vec::new(alloc)))?;
    spelled_law();
    Ok(out.whole())
}

/// Makes the change of an operation on a key, if there is room.
fn take(
    alloc: Global,
    stores: &mut Stores<DiskRowSet>,
    ts: u64,
    kind: OpKind,
    key: &[u8],
) -> Option<Taken> {
    let cells = no_cells(alloc).ok()?;
    if key.len() >= 100 {
        return None;
    }
    let op = OpRef::of(kind, key, cells.as_slice());
    if op.len() > 616 || stores.reserved() < 15 {
        return None;
    }
    Some(stores.take(ts, &op))
}

/// Takes an operation, whose time is its place. Tells whether it came out as it is to.
fn comes_out(alloc: Global, stores: &mut Stores<DiskRowSet>, ts: u64, step: &Step) -> bool {
    let (number, kind, key, there, id) = step;
    if let Some(number) = number {
        if stores.freeze(*number).is_err() {
            return false;
        }
    }
    match take(alloc, stores, ts, *kind, *key) {
        Some(taken) => taken.there == *there && taken.target == Some(Target::Mem(*id)),
        None => false,
    }
}

/// Takes the operations in turn. Tells whether each came out as it is to.
fn plays(alloc: Global, stores: &mut Stores<DiskRowSet>) -> bool {
    let mut ts: u64 = 0;
    for step in &STEPS {
        ts = ts.saturating_add(1);
        if !comes_out(alloc, stores, ts, step) {
            return false;
        }
    }
    true
}

const STEPS: [Step; 7] = [
    (None, OpKind::Insert, b"ant", false, 1),
    (Some(2), OpKind::Insert, b"bee", false, 2),
    (Some(3), OpKind::Update, b"ant", true, 1),
    (None, OpKind::Upsert, b"bee", true, 2),
    (None, OpKind::Insert, b"cat", false, 3),
    (None, OpKind::Delete, b"ant", true, 1),
    (None, OpKind::Insert, b"dog", false, 3),
];

/// Stores of one empty MemRowSet, number 1, with promised cells.
fn first_stores(alloc: Global) -> Option<Stores<DiskRowSet>> {
    let pool = Pool::new(alloc, 200).ok()?;
    if pool.free() != pool.size() {
        return None;
    }
    let mut stores = Stores::new(alloc, pool, 1);
    stores.reserve(150).ok()?;
    Some(stores)
}

/// Whether three stores have the rows, and once a flush that leaves no rowset has ended the last alone.
fn are_as_told(alloc: Global, stores: &mut Stores<DiskRowSet>) -> bool {
    if stores.len() != 3 || stores.rowsets() != 0 {
        return false;
    }
    let three = !stores.live(b"ant") && stores.live(b"bee");
    let free = stores.free();
    stores.change_over(2, RangedRowSets::empty(alloc), RangedRowSets::empty(alloc));
    let one = stores.len() == 1 && !stores.live(b"bee") && stores.live(b"cat");
    three && one && free < stores.free()
}

fn holds(alloc: Global) -> bool {
    match first_stores(alloc) {
        Some(mut stores) => plays(alloc, &mut stores) && are_as_told(alloc, &mut stores),
        None => false,
    }
}

#[test]
fn changes_go_to_the_store_that_has_the_row(rt: HostRuntime) {
    assert!(rt; holds(rt.alloc()));
}
