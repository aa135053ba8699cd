//! Runs of two sessions, whose schedule a gate decides where it matters.

use super::crashes::Devices;
use super::run;
use crate::hold::{HoldGate, Moment, Rule};
use kt_base::{MemSink, NoMemory};
use kt_disk::{HeldDisk, MemDisk, Point};
use std::alloc::Global;
use std::sync::Wait;
use std::test::Fail;
use std::thread::Threads;
use std::time::Clock;

// What is run, how it is held, and what it prints.
#[derive(Clone, Copy)]
pub(super) struct Schedule {
    pub(super) lines: &'static [u8],
    pub(super) first: Rule,
    pub(super) second: Rule,
    pub(super) printed: &'static [u8],
}

// What a schedule came to.
#[derive(Drop)]
pub(super) struct Played {
    status: u8,
    sink: MemSink,
    // It was held in vain.
    gave_up: bool,
    pub(super) devices: Devices,
}

impl Played {
    // Whether it ended well with this text, and was held for what came.
    pub(super) fn is(&self, printed: &[u8]) -> bool {
        self.status == 0 && !self.gave_up && self.sink.bytes() == printed
    }
}

const BEGUN: Moment = Moment::At(Point::Begun {
    session: 1,
    index: 1,
});

// The first change of the log once the first session's write has begun.
const APPENDS: Moment = Moment::ChangeAfter {
    mark: 1,
    point: Point::Begun {
        session: 1,
        index: 1,
    },
};

// The first change of the store once the first session comes to its third command.
const COMPACTS: Moment = Moment::ChangeAfter {
    mark: 2,
    point: Point::Before {
        session: 1,
        index: 3,
    },
};

// The first change of the store once it comes to its second one.
const FLUSHES: Moment = Moment::ChangeAfter {
    mark: 2,
    point: Point::Before {
        session: 1,
        index: 2,
    },
};

// The second session comes to its first command.
pub(super) const SECOND: Moment = Moment::At(Point::Before {
    session: 2,
    index: 1,
});

// The second session is answered its first command, and its second one.
pub(super) const ANSWERED: Moment = Moment::At(Point::After {
    session: 2,
    index: 1,
});

const ANSWERED_AGAIN: Moment = Moment::At(Point::After {
    session: 2,
    index: 2,
});

// The first session is answered its second command.
const FIRST_ENDED: Moment = Moment::At(Point::After {
    session: 1,
    index: 2,
});

// A rule that holds nothing.
pub(super) const NONE: Rule = Rule {
    hold: Moment::At(Point::After {
        session: 0,
        index: 0,
    }),
    until: Moment::At(Point::After {
        session: 0,
        index: 0,
    }),
};

const SCHEDULES: [Schedule; 6] = [
    // A write flies beside another.
    Schedule {
        lines: b"session\ninsert 1 \"a\"\nsession\ninsert 2 \"b\"\n",
        first: Rule {
            hold: SECOND,
            until: BEGUN,
        },
        second: Rule {
            hold: BEGUN,
            until: ANSWERED,
        },
        printed: b"session 1\nat 20480 ok\nsession 2\nat 20481 ok\nhistory\nbegin 1 1 20480 5\nbegin 2 1 20481 3\nend 2 1 20481\nend 1 1 20480\ntablet ahm 0 last 20481 rowsets 0\n",
    },
    // A scan is busy at a flying write, and reads below it.
    Schedule {
        lines: b"session\ninsert 1 \"a\"\nsession\nscan at 20480\nscan at 20479\n",
        first: Rule {
            hold: SECOND,
            until: BEGUN,
        },
        second: Rule {
            hold: BEGUN,
            until: ANSWERED_AGAIN,
        },
        printed: b"session 1\nat 20480 ok\nsession 2\nbusy 20480 20480\nrows 20479 0\nhistory\nbegin 1 1 20480 5\nbusy 2 1 20480 20480\nrows 2 2 20479\nend 1 1 20480\ntablet ahm 0 last 20480 rowsets 0\n",
    },
    // A scan is answered while the log is appended to.
    Schedule {
        lines: b"session\ninsert 1 \"a\"\nsession\nscan at 20479\n",
        first: Rule {
            hold: SECOND,
            until: APPENDS,
        },
        second: Rule {
            hold: APPENDS,
            until: ANSWERED,
        },
        printed: b"session 1\nat 20480 ok\nsession 2\nrows 20479 0\nhistory\nbegin 1 1 20480 5\nrows 2 1 20479\nend 1 1 20480\ntablet ahm 0 last 20480 rowsets 0\n",
    },
    // A session goes on from what another wrote.
    Schedule {
        lines: b"session\ninsert 1 \"a\"\nscan at 20480\nsession\ninsert 2 \"b\"\nmark 20481\nscan at 20480\n",
        first: Rule {
            hold: SECOND,
            until: FIRST_ENDED,
        },
        second: NONE,
        printed: b"session 1\nat 20480 ok\nrows 20480 1\n1 \"a\"\nsession 2\nat 20481 ok\nahm 20481\nancient 20480 20481\nhistory\nbegin 1 1 20480 5\nend 1 1 20480\nrows 1 2 20480\nbegin 2 1 20481 3\nend 2 1 20481\nmark 2 2 20481\nancient 2 3 20480 20481\ntablet ahm 20481 last 20481 rowsets 0\n",
    },
    // A row is changed, and read as it was, and another comes, while the MemRowSet is flushed.
    Schedule {
        lines: b"session\ninsert 1 \"a\"\nflush\nsession\nupdate 1 v=\"b\" ; insert 2 \"c\"\nscan at 20480\n",
        first: Rule {
            hold: SECOND,
            until: FLUSHES,
        },
        second: Rule {
            hold: FLUSHES,
            until: ANSWERED_AGAIN,
        },
        printed: b"session 1\nat 20480 ok\ndone\nsession 2\nat 20481 ok ok\nrows 20480 1\n1 \"a\"\nhistory\nbegin 1 1 20480 5\nend 1 1 20480\nbegin 2 1 20481 3\nend 2 1 20481\nrows 2 2 20480\nchore 1 2\ntablet ahm 0 last 20481 rowsets 2\n",
    },
    // A row is changed, and read as it was, while its rowset is merged.
    Schedule {
        lines: b"session\ninsert 1 \"a\"\nflush\ncompact\nsession\nupdate 1 v=\"b\"\nscan at 20480\n",
        first: Rule {
            hold: SECOND,
            until: COMPACTS,
        },
        second: Rule {
            hold: COMPACTS,
            until: ANSWERED_AGAIN,
        },
        printed: b"session 1\nat 20480 ok\ndone\ndone\nsession 2\nat 20481 ok\nrows 20480 1\n1 \"a\"\nhistory\nbegin 1 1 20480 5\nend 1 1 20480\nchore 1 2\nbegin 2 1 20481 3\nend 2 1 20481\nrows 2 2 20480\nchore 1 3\ntablet ahm 0 last 20481 rowsets 1\n",
    },
];

// A schedule over an empty log and store.
pub(super) fn play<R: Threads + Wait + Clock + Sync>(
    rt: &R,
    alloc: Global,
    it: &Schedule,
) -> Result<Played, NoMemory> {
    let gate = HoldGate::of(rt, it.first, it.second);
    let log = HeldDisk::of(MemDisk::new(alloc), &gate, 1);
    let store = HeldDisk::of(MemDisk::new(alloc), &gate, 2);
    let (status, sink, log, store) = run(rt, alloc, it.lines, log, store, &gate)?;
    let devices = Devices {
        log: log.into_inner(),
        store: store.into_inner(),
    };
    Ok(Played {
        status,
        sink,
        gave_up: gate.gave_up(),
        devices,
    })
}

#[test]
fn each_schedule_prints_its_text(rt: HostRuntime) -> Result<(), Fail> {
    for it in &SCHEDULES {
        let played = play(&rt, rt.alloc(), it)?;
        assert!(rt; played.is(it.printed));
    }
    Ok(())
}
