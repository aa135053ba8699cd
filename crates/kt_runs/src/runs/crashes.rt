//! What a crash leaves of maintenance: either device at each of its calls, opened again and read.
ghost use Rattle.std.specs.Prelude.{◌≡◌, ◌≤◌, [], IfOk};
ghost use Rattle.kt_disk.specs.Memory.{mem_now};

use super::run;
use kt_base::{MemSink, NoMemory};
use kt_disk::{MemDisk, PassGate};
use std::alloc::Global;
use std::sync::Wait;
use std::test::Fail;
use std::thread::Threads;

// What the reads print of one disk rowset, or of rows in memory that became one.
const ONE_ROWSET: &[u8] =
    b"session 1\nrows 20481 2\n1 \"a\"\n2 \"b\"\nrows 20483 1\n1 \"c\"\nrows 20484 1\n1 \"c\"\nhistory\nrows 1 1 20481\nrows 1 2 20483\nrows 1 3 20484\ntablet ahm 0 last 20484 rowsets 1\n";

// What is written, the maintenance that follows in a run of its own, and what the reads print until it is published, and from then on.
struct Upkeep {
    writes: &'static [u8],
    chore: &'static [u8],
    before: &'static [u8],
    after: &'static [u8],
}

const READS: &[u8] = b"session\nscan at 20481\nscan at 20483\nscan at 20484\n";

const FLUSH: Upkeep = Upkeep {
    writes: b"session\ninsert 1 \"a\"\ninsert 2 \"b\"\nupdate 1 v=\"c\"\ndelete 2\n",
    chore: b"session\nflush\n",
    before: b"session 1\nrows 20481 2\n1 \"a\"\n2 \"b\"\nrows 20483 1\n1 \"c\"\nrows 20484 1\n1 \"c\"\nhistory\nrows 1 1 20481\nrows 1 2 20483\nrows 1 3 20484\ntablet ahm 0 last 20484 rowsets 0\n",
    after: ONE_ROWSET,
};

// Changes of rows that are in files then. Nothing that is read tells whether they went to a file.
const FLUSH_CHANGES: Upkeep = Upkeep {
    writes: b"session\ninsert 1 \"a\"\ninsert 2 \"b\"\nflush\nupdate 1 v=\"c\"\ndelete 2\n",
    chore: b"session\nflush-deltas\n",
    before: ONE_ROWSET,
    after: ONE_ROWSET,
};

// Two disk rowsets. One key is in both, and changes of the first are in memory.
const COMPACT: Upkeep = Upkeep {
    writes: b"session\ninsert 1 \"a\"\ninsert 2 \"b\"\nflush\nupdate 1 v=\"c\"\ndelete 2\ninsert 2 \"d\"\nflush\n",
    chore: b"session\ncompact\n",
    before: b"session 1\nrows 20481 2\n1 \"a\"\n2 \"b\"\nrows 20483 1\n1 \"c\"\nrows 20484 2\n1 \"c\"\n2 \"d\"\nhistory\nrows 1 1 20481\nrows 1 2 20483\nrows 1 3 20484\ntablet ahm 0 last 20484 rowsets 2\n",
    after: b"session 1\nrows 20481 2\n1 \"a\"\n2 \"b\"\nrows 20483 1\n1 \"c\"\nrows 20484 2\n1 \"c\"\n2 \"d\"\nhistory\nrows 1 1 20481\nrows 1 2 20483\nrows 1 3 20484\ntablet ahm 0 last 20484 rowsets 1\n",
};

// What becomes of the writes that are not stable: all are left out, all are there, half of each is, or each has ones in its place.
pub(super) const PICKS: [[u8; 64]; 4] = [[0; 64], [1; 64], [2; 64], [3; 64]];

// Both devices of a run.
#[derive(Drop)]
pub(super) struct Devices {
    pub(super) log: MemDisk,
    pub(super) store: MemDisk,
}

// New ones.
pub(super) fn empty(alloc: Global) -> Devices
    ensures { (result.log.calls ≡ []) × (result.store.calls ≡ []) }
{
    Devices {
        log: MemDisk::new(alloc),
        store: MemDisk::new(alloc),
    }
}

// The devices once these lines were run over others to which nothing was done yet.
fn after<R: Threads + Wait + Sync>(
    rt: &R,
    alloc: Global,
    lines: &[u8],
    devices: Devices,
) -> Result<Devices, NoMemory>
    requires { (devices.log.calls ≡ []) × (devices.store.calls ≡ []) }
{
    let Devices { log, store } = devices;
    let (_, _, log, store) = run(rt, alloc, lines, log, store, &PassGate)?;
    Ok(Devices { log, store })
}

// What a crash at these moments leaves of both.
pub(super) fn left(
    alloc: Global,
    devices: &Devices,
    log: u64,
    store: u64,
    pick: &[u8],
) -> Result<Devices, NoMemory>
    requires log { log ≤ mem_now devices.now.log }
    requires store { store ≤ mem_now devices.now.store }
    ensures { IfOk result (λ left. (left.log.calls ≡ []) × (left.store.calls ≡ [])) }
{
    Ok(Devices {
        log: devices.log.crash(alloc, log, pick)?,
        store: devices.store.crash(alloc, store, pick)?,
    })
}

// What these lines print over devices to which nothing was done yet.
pub(super) fn reads<R: Threads + Wait + Sync>(
    rt: &R,
    alloc: Global,
    lines: &[u8],
    devices: Devices,
) -> Result<MemSink, NoMemory>
    requires { (devices.log.calls ≡ []) × (devices.store.calls ≡ []) }
{
    let Devices { log, store } = devices;
    let (_, sink, ..) = run(rt, alloc, lines, log, store, &PassGate)?;
    Ok(sink)
}

// Whether each moment of the log, before the store was changed, leaves the rows as they were.
fn log_keeps<R: Threads + Wait + Sync>(
    rt: &R,
    alloc: Global,
    devices: &Devices,
    pick: &[u8],
    before: &[u8],
) -> Result<bool, NoMemory> {
    'moments: for at in 0..devices.log.moment() {
        let sink = reads(rt, alloc, READS, left(alloc, devices, at, 0, pick)?)?;
        if sink.bytes() != before {
            return Ok(false);
        }
    }
    Ok(true)
}

// Whether each moment of the store leaves the rows, from some moment on as they are after the maintenance.
fn store_keeps<R: Threads + Wait + Sync>(
    rt: &R,
    alloc: Global,
    devices: &Devices,
    pick: &[u8],
    it: &Upkeep,
) -> Result<bool, NoMemory> {
    let end = devices.log.moment();
    let mut is_done = false;
    'moments: for at in 0..devices.store.moment() {
        let sink = reads(rt, alloc, READS, left(alloc, devices, end, at, pick)?)?;
        if sink.bytes() == it.after {
            is_done = true;
        } else if is_done || sink.bytes() != it.before {
            return Ok(false);
        }
    }
    Ok(is_done)
}

// What a run of these lines over new devices leaves at its end.
pub(super) fn written<R: Threads + Wait + Sync>(
    rt: &R,
    alloc: Global,
    lines: &[u8],
) -> Result<Devices, NoMemory>
    ensures { IfOk result (λ left. (left.log.calls ≡ []) × (left.store.calls ≡ [])) }
{
    let devices = after(rt, alloc, lines, empty(alloc))?;
    let (log, store) = (devices.log.moment(), devices.store.moment());
    left(alloc, &devices, log, store, &[])
}

// The devices of a run of these lines over what a run of others wrote.
fn kept_up<R: Threads + Wait + Sync>(
    rt: &R,
    alloc: Global,
    writes: &[u8],
    chore: &[u8],
) -> Result<Devices, NoMemory> {
    let kept = written(rt, alloc, writes)?;
    after(rt, alloc, chore, kept)
}

// Whether a crash at any moment of maintenance leaves the rows that were written.
fn is_kept<R: Threads + Wait + Sync>(rt: &R, alloc: Global, it: &Upkeep) -> Result<bool, NoMemory> {
    let devices = kept_up(rt, alloc, it.writes, it.chore)?;
    'picks: for pick in &PICKS {
        if !log_keeps(rt, alloc, &devices, pick, it.before)? {
            return Ok(false);
        }
        if !store_keeps(rt, alloc, &devices, pick, it)? {
            return Ok(false);
        }
    }
    Ok(true)
}

#[test]
fn a_crash_in_a_flush_leaves_the_rows(rt: HostRuntime) -> Result<(), Fail> {
    let keeps = is_kept(&rt, rt.alloc(), &FLUSH)?;
    assert!(rt; keeps);
    Ok(())
}

#[test]
fn a_crash_in_a_flush_of_changes_leaves_the_rows(rt: HostRuntime) -> Result<(), Fail> {
    let keeps = is_kept(&rt, rt.alloc(), &FLUSH_CHANGES)?;
    assert!(rt; keeps);
    Ok(())
}

#[test]
fn a_crash_in_a_compaction_leaves_the_rows(rt: HostRuntime) -> Result<(), Fail> {
    let keeps = is_kept(&rt, rt.alloc(), &COMPACT)?;
    assert!(rt; keeps);
    Ok(())
}
