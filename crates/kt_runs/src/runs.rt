//! Whole runs over the outside in memory.
ghost use Rattle.std.specs.Prelude.{◌≡◌, [], IsTrue, IfOk};
ghost use Rattle.kt_journal.specs.Log.{CanOpen};
ghost use Rattle.kt_storeside.specs.Supers.{NamedStand};

use kt_app::tablet_main;
use kt_base::{CallList, MemClock, MemSink, MemSource, NoMemory, Octets, ReadingList};
use kt_disk::{Disk, Fail as DiskFail, FailList, FaultDisk, Gate, MemDisk, PassGate};
use std::alloc::Global;
use std::sync::Wait;
use std::test::Fail;
use std::thread::Threads;

mod beside;
mod crashes;
mod points;
mod schedules;
mod stops;
mod workers;

const HEAD: &[u8] = b"table\ncolumn id int64 key\ncolumn v string\n";

// The head and these lines.
fn script(alloc: Global, lines: &[u8]) -> Result<Octets, NoMemory> {
    let mut text = Octets::from_slice(alloc, HEAD)?;
    text.extend(lines)?;
    Ok(text)
}

fn no_calls(alloc: Global) -> CallList {
    CallList::of(Vec::new(alloc))
}

// Room for so many bytes.
fn room(alloc: Global, bytes: usize) -> Result<MemSink, NoMemory> {
    let mut sink = MemSink::new(alloc, no_calls(alloc));
    sink.reserve(bytes)?;
    Ok(sink)
}

// The status, what was written, and both devices, where a script of these lines is run at the readings 5 and 3 and comes to
// the points of this gate.
fn run<R: Threads + Wait + Sync, L: Disk + Send + Drop, D: Disk + Send + Drop, G: Gate + Sync>(
    rt: &R,
    alloc: Global,
    lines: &[u8],
    log: L,
    store: D,
    gate: &G,
) -> Result<(u8, MemSink, L, D), NoMemory>
    requires openable { IsTrue L.tells → CanOpen L.now L.leaves log }
    requires stand { IsTrue D.tells → NamedStand D.seen D.now D.leaves store }
{
    let readings = vec![in alloc; 5, 3]?;
    let sink = room(alloc, 4096)?;
    run_into(rt, alloc, &["run"], lines, readings, sink, log, store, gate)
}

// The same with these words, at these readings, into a sink.
fn run_into<R: Threads + Wait + Sync, L: Disk + Send + Drop, D: Disk + Send + Drop, G: Gate + Sync>(
    rt: &R,
    alloc: Global,
    words: &[&str],
    lines: &[u8],
    readings: Vec<u64>,
    sink: MemSink,
    log: L,
    store: D,
    gate: &G,
) -> Result<(u8, MemSink, L, D), NoMemory>
    requires openable { IsTrue L.tells → CanOpen L.now L.leaves log }
    requires stand { IsTrue D.tells → NamedStand D.seen D.now D.leaves store }
{
    let clock = MemClock::of(ReadingList::of(readings));
    let mut source = MemSource::of(script(alloc, lines)?, no_calls(alloc));
    let mut sink = sink;
    let ended = tablet_main(
        rt,
        alloc,
        words,
        &mut source,
        &mut sink,
        log,
        store,
        clock,
        gate,
    );
    Ok((ended.status, sink, ended.log, ended.store))
}

// An empty device of which a change fails. They are counted from 1.
fn failing(alloc: Global, change: u64) -> Result<FaultDisk<MemDisk>, Fail>
    ensures { IfOk result (λ disk. disk.inner.calls ≡ []) }
{
    failing_over(alloc, MemDisk::new(alloc), change)
}

// A device to which nothing was done yet, of which a change fails.
fn failing_over(alloc: Global, disk: MemDisk, change: u64) -> Result<FaultDisk<MemDisk>, Fail>
    requires { disk.calls ≡ [] }
    ensures { IfOk result (λ disk. disk.inner.calls ≡ []) }
{
    let fails = FailList::of(vec![in alloc; DiskFail::Change(change)]?);
    match FaultDisk::of(alloc, disk, fails) {
        Ok(disk) => Ok(disk),
        Err(_) => Err("no memory".into()),
    }
}

#[test]
fn a_device_that_fails_stops_the_run(rt: HostRuntime) -> Result<(), Fail> {
    let alloc = rt.alloc();
    let lines = b"session\ninsert 1 \"a\"\ninsert 2 \"b\"\nscan now\n";
    let (status, sink, log, store) = run(
        &rt,
        alloc,
        lines,
        failing(alloc, 7)?,
        MemDisk::new(alloc),
        &PassGate,
    )?;
    assert_eq!(rt; status, 4);
    // The clock goes back, and the timestamp goes on.
    let printed =
        b"session 1\nat 20480 ok\nstopped\nstopped\nhistory\nbegin 1 1 20480 5\nend 1 1 20480\nbegin 1 2 20481 3\nstop\ntablet stopped\n";
    assert_eq!(rt; sink.bytes(), printed.as_slice());
    let log = log.into_inner();
    let left = log.crash(alloc, log.moment(), &[])?;
    let kept = store.crash(alloc, store.moment(), &[])?;
    let lines = b"session\nscan at 20481\n";
    let (again, sink, ..) = run(&rt, alloc, lines, left, kept, &PassGate)?;
    assert_eq!(rt; again, 0);
    let printed =
        b"session 1\nrows 20481 1\n1 \"a\"\nhistory\nrows 1 1 20481\ntablet ahm 0 last 20481 rowsets 0\n";
    assert_eq!(rt; sink.bytes(), printed.as_slice());
    Ok(())
}
