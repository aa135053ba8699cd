//! Runs of which one device fails at a change, at each in turn. Whatever a crash then leaves of both opens with the first writes of the run, each one that was
//! answered among them.

ghost use Rattle.std.specs.Prelude.{◌≡◌, [], IfOk};

use super::crashes::{Devices, PICKS, empty, left, reads, written};
use super::schedules::NONE;
use super::{failing_over, run};
use crate::hold::{HoldGate, Moment, Rule};
use kt_base::{MemSink, NoMemory};
use kt_disk::Point;
use std::alloc::Global;
use std::sync::Wait;
use std::test::Fail;
use std::thread::Threads;
use std::time::Clock;

// A run ends after fewer changes of a device than these.
const MOST: u64 = 256;

// What is run before, where something is, what is run over devices that fail, how it is held, and what the reads then print, where none of its writes is there,
// the first alone, the first two, and three.
struct Stopped {
    before: &'static [u8],
    lines: &'static [u8],
    hold: Rule,
    left: [&'static [u8]; 4],
}

// The rows at the time of each write.
const READS: &[u8] = b"session\nscan at 20480\nscan at 20481\nscan at 20482\n";

const NOTHING: &[u8] = b"session 1\nrows 20480 0\nrows 20481 0\nrows 20482 0\nhistory\n";

const INSERTED: &[u8] =
    b"session 1\nrows 20480 1\n1 \"a\"\nrows 20481 1\n1 \"a\"\nrows 20482 1\n1 \"a\"\nhistory\n";

const DELETED: &[u8] = b"session 1\nrows 20480 1\n1 \"a\"\nrows 20481 0\nrows 20482 0\nhistory\n";

const INSERTED_ANEW: &[u8] =
    b"session 1\nrows 20480 1\n1 \"a\"\nrows 20481 0\nrows 20482 1\n1 \"b\"\nhistory\n";

const UPDATED: &[u8] =
    b"session 1\nrows 20480 1\n1 \"a\"\nrows 20481 1\n1 \"b\"\nrows 20482 1\n1 \"b\"\nhistory\n";

const UPDATED_AGAIN: &[u8] =
    b"session 1\nrows 20480 1\n1 \"a\"\nrows 20481 1\n1 \"b\"\nrows 20482 1\n1 \"c\"\nhistory\n";

const TABLE: [Stopped; 4] = [
    // A row is deleted and inserted anew, and both its rowsets are merged.
    Stopped {
        before: b"",
        lines: b"session\ninsert 1 \"a\"\nflush\ndelete 1\ninsert 1 \"b\"\nflush\ncompact\nscan at 20480\nscan at 20481\nscan at 20482\n",
        hold: NONE,
        left: [NOTHING, INSERTED, DELETED, INSERTED_ANEW],
    },
    // Changes of a row go to files, and these are put together and into its base.
    Stopped {
        before: b"",
        lines: b"session\ninsert 1 \"a\"\nflush\nupdate 1 v=\"b\"\nflush-deltas\nupdate 1 v=\"c\"\nflush-deltas\nminor\nmajor\nscan at 20480\nscan at 20481\nscan now\n",
        hold: NONE,
        left: [NOTHING, INSERTED, UPDATED, UPDATED_AGAIN],
    },
    // A row is updated beside the maintenance of its rowset, once its insert is answered.
    Stopped {
        before: b"",
        lines: b"session\ninsert 1 \"a\"\nflush\ncompact\nsession\nupdate 1 v=\"b\"\n",
        hold: Rule {
            hold: Moment::At(Point::Before {
                session: 2,
                index: 1,
            }),
            until: Moment::At(Point::After {
                session: 1,
                index: 1,
            }),
        },
        left: [NOTHING, INSERTED, UPDATED, UPDATED],
    },
    // A row is deleted and inserted anew beside the compaction of its rowset.
    Stopped {
        before: b"session\ninsert 1 \"a\"\nflush\n",
        lines: b"session\ncompact\nsession\ndelete 1\ninsert 1 \"b\"\n",
        hold: NONE,
        left: [INSERTED, DELETED, INSERTED_ANEW, INSERTED_ANEW],
    },
];

// The device that fails.
#[derive(Clone, Copy)]
enum Device {
    Log,
    Store,
}

// The changes at which the log and the store fail, where that device fails at this one. No change has the number 0.
fn changes(device: Device, change: u64) -> (u64, u64) {
    match device {
        Device::Log => (change, 0),
        Device::Store => (0, change),
    }
}

// How many writes an output answers.
fn answered(printed: &[u8]) -> usize {
    let mut count: usize = 0;
    'bytes: for at in 0..printed.len() {
        if printed[at..].starts_with(b"\nat ") {
            count = count.saturating_add(1);
        }
    }
    count
}

// Whether reads have shown the first writes of a run, so many at least.
fn shows(it: &Stopped, least: usize, printed: &[u8]) -> bool {
    'fronts: for front in least..it.left.len() {
        if printed.starts_with(it.left[front]) {
            return true;
        }
    }
    false
}

// Whether a crash now leaves them of both devices, whatever becomes of what is not stable.
fn keeps<R: Threads + Wait + Sync>(
    rt: &R,
    alloc: Global,
    it: &Stopped,
    least: usize,
    devices: &Devices,
) -> Result<bool, NoMemory> {
    let (log, store) = (devices.log.moment(), devices.store.moment());
    'picks: for pick in &PICKS {
        let sink = reads(rt, alloc, READS, left(alloc, devices, log, store, pick)?)?;
        if !shows(it, least, sink.bytes()) {
            return Ok(false);
        }
    }
    Ok(true)
}

// The devices before a run.
fn begun<R: Threads + Wait + Sync>(rt: &R, alloc: Global, it: &Stopped) -> Result<Devices, NoMemory>
    ensures { IfOk result (λ left. (left.log.calls ≡ []) × (left.store.calls ≡ [])) }
{
    if it.before.is_empty() {
        Ok(empty(alloc))
    } else {
        written(rt, alloc, it.before)
    }
}

// The status and the output of a run whose devices fail at these changes, and what became of both.
fn run_failing<R: Threads + Wait + Clock + Sync>(
    rt: &R,
    alloc: Global,
    it: &Stopped,
    log_fails: u64,
    store_fails: u64,
) -> Result<(u8, MemSink, Devices), Fail> {
    let gate = HoldGate::of(rt, it.hold, NONE);
    let found = begun(rt, alloc, it)?;
    let log = failing_over(alloc, found.log, log_fails)?;
    let store = failing_over(alloc, found.store, store_fails)?;
    let (status, sink, log, store) = run(rt, alloc, it.lines, log, store, &gate)?;
    let devices = Devices {
        log: log.into_inner(),
        store: store.into_inner(),
    };
    Ok((status, sink, devices))
}

// Whether the answered writes are kept at each change at which this device may fail, until a run comes to its end.
fn each_keeps<R: Threads + Wait + Clock + Sync>(
    rt: &R,
    alloc: Global,
    it: &Stopped,
    device: Device,
) -> Result<bool, Fail> {
    'changes: for change in 1..MOST {
        let (log_fails, store_fails) = changes(device, change);
        let (status, sink, devices) = run_failing(rt, alloc, it, log_fails, store_fails)?;
        if !keeps(rt, alloc, it, answered(sink.bytes()), &devices)? {
            return Ok(false);
        }
        if status == 0 {
            return Ok(true);
        }
    }
    Ok(false)
}

#[test]
fn a_log_that_fails_at_any_change_keeps_what_was_answered(rt: HostRuntime) -> Result<(), Fail> {
    for it in &TABLE {
        let keeps = each_keeps(&rt, rt.alloc(), it, Device::Log)?;
        assert!(rt; keeps);
    }
    Ok(())
}

#[test]
fn a_store_that_fails_at_any_change_keeps_what_was_answered(rt: HostRuntime) -> Result<(), Fail> {
    for it in &TABLE {
        let keeps = each_keeps(&rt, rt.alloc(), it, Device::Store)?;
        assert!(rt; keeps);
    }
    Ok(())
}
