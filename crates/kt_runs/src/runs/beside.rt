//! Changes beside a job that is held at one of its points, and what a crash leaves of both.

use super::crashes::{Devices, PICKS, left, reads};
use super::schedules::{ANSWERED, SECOND, Schedule, play};
use crate::hold::{Moment, Rule};
use kt_base::NoMemory;
use kt_disk::Point;
use std::alloc::Global;
use std::sync::Wait;
use std::test::Fail;
use std::thread::Threads;

const LINES: &[u8] = b"session\ninsert 1 \"a\"\nflush\ncompact\nsession\nupdate 1 v=\"b\"\n";

const PRINTED: &[u8] =
    b"session 1\nat 20480 ok\ndone\ndone\nsession 2\nat 20481 ok\nhistory\nbegin 1 1 20480 5\nend 1 1 20480\nchore 1 2\nbegin 2 1 20481 3\nend 2 1 20481\nchore 1 3\ntablet ahm 0 last 20481 rowsets 1\n";

// The compaction is held at a point until the change is answered.
fn held_at(point: Moment) -> Schedule {
    Schedule {
        lines: LINES,
        first: Rule {
            hold: SECOND,
            until: point,
        },
        second: Rule {
            hold: point,
            until: ANSWERED,
        },
        printed: PRINTED,
    }
}

const SCAN: &[u8] = b"session\nscan at 20481\n";

// The row as it was changed.
const SHOWN: &[u8] = b"session 1\nrows 20481 1\n1 \"b\"\n";

// A point at which the compaction is held, the third job, since the flush counts twice, and how the texts of those images of the store end that no crash leaves once the change is answered.
const HELD: [(Moment, &[u8]); 2] = [
    // Before the flush there is no rowset that it could be of, and before the first superblock the log is refused.
    (Moment::At(Point::PhaseOne { job: 3 }), b" 0\n"),
    // It is of a rowset that the compaction has published.
    (Moment::At(Point::Swapped { job: 3 }), b"\n"),
];

// Whether each moment of the store, but for the first ones that end so, leaves what begins with this text, with the log at its end.
fn shows<R: Threads + Wait + Sync>(
    rt: &R,
    alloc: Global,
    devices: &Devices,
    pick: &[u8],
    scan: &[u8],
    shown: &[u8],
    first: &[u8],
) -> Result<bool, NoMemory> {
    let end = devices.log.moment();
    let mut is_shown = false;
    'moments: for at in 0..=devices.store.moment() {
        let sink = reads(rt, alloc, scan, left(alloc, devices, end, at, pick)?)?;
        if sink.bytes().starts_with(shown) {
            is_shown = true;
        } else if is_shown || !sink.bytes().ends_with(first) {
            return Ok(false);
        }
    }
    Ok(is_shown)
}

#[test]
fn a_change_beside_a_compaction_outlives_it(rt: HostRuntime) -> Result<(), Fail> {
    let alloc = rt.alloc();
    for (point, first) in HELD {
        let played = play(&rt, alloc, &held_at(point))?;
        assert!(rt; played.is(PRINTED));
        for pick in &PICKS {
            let shows = shows(&rt, alloc, &played.devices, pick, SCAN, SHOWN, first)?;
            assert!(rt; shows);
        }
    }
    Ok(())
}

const FLUSHED: &[u8] =
    b"session\ninsert 1 \"a\"\nflush\nsession\nupdate 1 v=\"b\" ; insert 2 \"c\"\n";

const PRINTED_BESIDE: &[u8] =
    b"session 1\nat 20480 ok\ndone\nsession 2\nat 20481 ok ok\nhistory\nbegin 1 1 20480 5\nend 1 1 20480\nbegin 2 1 20481 3\nend 2 1 20481\nchore 1 2\ntablet ahm 0 last 20481 rowsets 2\n";

// The row as it was changed, and the one that came.
const SHOWN_BESIDE: &[u8] = b"session 1\nrows 20481 2\n1 \"b\"\n2 \"c\"\n";

// A row of the MemRowSet that freezes is changed, and another comes.
#[test]
fn changes_beside_a_flush_outlive_it(rt: HostRuntime) -> Result<(), Fail> {
    let alloc = rt.alloc();
    let outside = Moment::At(Point::PhaseOne { job: 1 });
    let schedule = Schedule {
        lines: FLUSHED,
        first: Rule {
            hold: SECOND,
            until: outside,
        },
        second: Rule {
            hold: outside,
            until: ANSWERED,
        },
        printed: PRINTED_BESIDE,
    };
    let played = play(&rt, alloc, &schedule)?;
    assert!(rt; played.is(PRINTED_BESIDE));
    for pick in &PICKS {
        // Before the first superblock the log is refused.
        let shows = shows(&rt, alloc, &played.devices, pick, SCAN, SHOWN_BESIDE, b"\n")?;
        assert!(rt; shows);
    }
    Ok(())
}

// A change of a disk rowset beside a job on its files, which is held once it has written outside the lock.
#[derive(Clone, Copy)]
struct Beside {
    lines: &'static [u8],
    job: u32,
    printed: &'static [u8],
    scan: &'static [u8],
    shown: &'static [u8],
}

const BESIDE: [Beside; 3] = [
    Beside {
        lines: b"session\ninsert 1 \"a\"\nflush\nupdate 1 v=\"b\"\nflush-deltas\nsession\nupdate 1 v=\"c\"\n",
        job: 3,
        printed: b"session 1\nat 20480 ok\ndone\nat 20481 ok\ndone\nsession 2\nat 20482 ok\nhistory\nbegin 1 1 20480 5\nend 1 1 20480\nchore 1 2\nbegin 1 3 20481 3\nend 1 3 20481\nbegin 2 1 20482 3\nend 2 1 20482\nchore 1 4\ntablet ahm 0 last 20482 rowsets 1\n",
        scan: b"session\nscan at 20482\n",
        shown: b"session 1\nrows 20482 1\n1 \"c\"\n",
    },
    Beside {
        lines: b"session\ninsert 1 \"a\"\nflush\nupdate 1 v=\"b\"\nflush-deltas\nmajor\nsession\nupdate 1 v=\"c\"\n",
        job: 4,
        printed: b"session 1\nat 20480 ok\ndone\nat 20481 ok\ndone\ndone\nsession 2\nat 20482 ok\nhistory\nbegin 1 1 20480 5\nend 1 1 20480\nchore 1 2\nbegin 1 3 20481 3\nend 1 3 20481\nchore 1 4\nbegin 2 1 20482 3\nend 2 1 20482\nchore 1 5\ntablet ahm 0 last 20482 rowsets 1\n",
        scan: b"session\nscan at 20482\n",
        shown: b"session 1\nrows 20482 1\n1 \"c\"\n",
    },
    Beside {
        lines: b"session\ninsert 1 \"a\"\nflush\nupdate 1 v=\"b\"\nflush-deltas\nupdate 1 v=\"c\"\nflush-deltas\nminor\nsession\ndelete 1\n",
        job: 5,
        printed: b"session 1\nat 20480 ok\ndone\nat 20481 ok\ndone\nat 20482 ok\ndone\ndone\nsession 2\nat 20483 ok\nhistory\nbegin 1 1 20480 5\nend 1 1 20480\nchore 1 2\nbegin 1 3 20481 3\nend 1 3 20481\nchore 1 4\nbegin 1 5 20482 3\nend 1 5 20482\nchore 1 6\nbegin 2 1 20483 3\nend 2 1 20483\nchore 1 7\ntablet ahm 0 last 20483 rowsets 1\n",
        scan: b"session\nscan at 20483\n",
        shown: b"session 1\nrows 20483 0\n",
    },
];

// The change is answered while the job is held, and is there after it and in what a crash leaves.
#[test]
fn a_change_beside_a_job_on_its_rowset_outlives_it(rt: HostRuntime) -> Result<(), Fail> {
    let alloc = rt.alloc();
    for it in BESIDE {
        let outside = Moment::At(Point::PhaseOne { job: it.job });
        let schedule = Schedule {
            lines: it.lines,
            first: Rule {
                hold: SECOND,
                until: outside,
            },
            second: Rule {
                hold: outside,
                until: ANSWERED,
            },
            printed: it.printed,
        };
        let played = play(&rt, alloc, &schedule)?;
        assert!(rt; played.is(it.printed));
        for pick in &PICKS {
            // Before the first superblock the log is refused.
            let shows = shows(&rt, alloc, &played.devices, pick, it.scan, it.shown, b"\n")?;
            assert!(rt; shows);
        }
    }
    Ok(())
}
