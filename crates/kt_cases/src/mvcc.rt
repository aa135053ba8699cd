ghost use Rattle.std.specs.Prelude.{◌-◌, ◌^◌, ◌<◌, IfOk};
ghost use Rattle.kt_cells.specs.Spelled.{SpellsCells};

use kt_base::{Cells, NoMemory, Octets};
use kt_cells::Tail;
use kt_cells::laws::spelled_law;
use kt_cells::writing::put_cell_list;
use kt_history::{OpKind, OpList, OpRef};
use kt_mvcc::{Flight, KeyList};
use std::alloc::Global;

fn drawn(alloc: Global, c: u64, m: u64) -> u64
    requires { c < 2 ^ 64 - 1 }
{
    let mut flight = Flight::new(alloc, c, 0);
    flight.draw(m)
}

// The last timestamp, the reading of the clock, and the timestamp that is drawn.
const DRAWN: [(u64, u64, u64); 7] = [
    (0, 0, 1),
    (0, 5, 20_480),
    (20_480, 3, 20_481),
    (0, (1 << 50) - 1, 4_611_686_018_427_383_808),
    (0, 1 << 63, 4_611_686_018_427_383_808),
    (0, u64::MAX, 4_611_686_018_427_383_808),
    (u64::MAX - 1, 1, u64::MAX),
];

fn all_are_drawn(alloc: Global) -> bool {
    for (last, reading, wanted) in DRAWN {
        if last >= u64::MAX || drawn(alloc, last, reading) != wanted {
            return false;
        }
    }
    true
}

#[test]
fn readings_of_the_clock(rt: HostRuntime) {
    assert!(rt; all_are_drawn(rt.alloc()));
}

// No cells, spelled behind their count.
fn no_cells(alloc: Global) -> Result<Octets, NoMemory>
    ensures { IfOk result (λ bytes. SpellsCells bytes) }
{
    let mut out = Tail::of(Octets::new(alloc));
    put_cell_list(&mut out, &Cells::of(Vec::new(alloc)))?;
    spelled_law();
    Ok(out.whole())
}

// The key of a write of one delete.
fn key(alloc: Global) -> Result<KeyList, NoMemory> {
    let cells = no_cells(alloc)?;
    let mut ops = OpList::new(alloc);
    ops.push(&OpRef::of(OpKind::Delete, b"k", cells.as_slice()))?;
    Ok(KeyList::of_ops(ops))
}

// The timestamp of the write that holds a key, the least of a flying write, 0 where there is none, and the greatest below all of these.
fn told(flight: &Flight, keys: &KeyList) -> [u64; 3] {
    let held = flight.try_keys(keys).err().unwrap_or(0);
    let least = flight.least().unwrap_or(0);
    [held, least, flight.clean()]
}

// What is told while a write flies, and once it has ended.
fn before_and_after(alloc: Global) -> Option<[[u64; 3]; 2]> {
    let keys = key(alloc).ok()?;
    let held = key(alloc).ok()?;
    let mut flight = Flight::new(alloc, 0, 0);
    flight.reserve(alloc, 1).ok()?;
    flight.begin(alloc, 1, held, 1).ok()?;
    let flying = told(&flight, &keys);
    flight.end(1);
    Some([flying, told(&flight, &keys)])
}

#[test]
fn a_key_is_held_while_its_write_flies(rt: HostRuntime) {
    let wanted = [[4096, 4096, 4095], [0, 0, 4096]];
    assert!(rt; before_and_after(rt.alloc()) == Some(wanted));
}
