//! A worker beside a session that writes much.

ghost use Rattle.std.specs.Prelude.{◌≡◌, []};

use super::crashes::{Devices, empty};
use super::schedules::NONE;
use super::{room, run_into};
use crate::hold::{HoldGate, Moment, Rule};
use kt_base::{MemSink, NoMemory, Octets};
use kt_disk::{Gate, Point};
use memchr::memmem;
use std::alloc::Global;
use std::sync::Wait;
use std::test::Fail;
use std::thread::Threads;

// The rows that are written, 64 by a write, and the command that reads them then.
const ROWS: u64 = 8_192;

const LAST: u32 = 129;

// The lines of the writes and of a scan.
fn lines(alloc: Global) -> Result<Octets, NoMemory> {
    let mut lines = Octets::from_slice(alloc, b"session\n")?;
    for id in 1..=ROWS {
        let end = if id % 64 == 0 { "\n" } else { " ; " };
        lines.extend(format!(in alloc; "insert {id} \"a\"{end}")?.as_bytes())?;
    }
    lines.extend(b"scan now\n")?;
    Ok(lines)
}

// The status and the output of these lines beside a worker, over devices to which nothing was done yet. The clock rises at each command.
fn run_beside<R: Threads + Wait + Sync, G: Gate + Sync>(
    rt: &R,
    alloc: Global,
    lines: &[u8],
    devices: Devices,
    gate: &G,
) -> Result<(u8, MemSink), NoMemory>
    requires { (devices.log.calls ≡ []) × (devices.store.calls ≡ []) }
{
    let words = ["run", "--workers", "1"];
    let mut readings = Vec::new(alloc);
    for reading in 1..=u64::from(LAST) {
        readings.push(reading)?;
    }
    let sink = room(alloc, 262_144)?;
    let Devices { log, store } = devices;
    let (status, sink, ..) = run_into(rt, alloc, &words, lines, readings, sink, log, store, gate)?;
    Ok((status, sink))
}

#[test]
fn a_worker_flushes_what_a_session_writes(rt: HostRuntime) -> Result<(), Fail> {
    let alloc = rt.alloc();
    let read_last = Moment::At(Point::Before {
        session: 1,
        index: LAST,
    });
    let until_published = Rule {
        hold: read_last,
        until: Moment::AnyPublished,
    };
    let gate = HoldGate::of(&rt, until_published, NONE);
    let lines = lines(alloc)?;
    let (status, sink) = run_beside(&rt, alloc, lines.as_slice(), empty(alloc), &gate)?;
    assert_eq!(rt; (status, gate.gave_up()), (0, false));
    assert!(rt; memmem::find(sink.bytes(), b"\nrows 528384 8192\n").is_some());
    assert!(rt;
        sink.bytes()
            .ends_with(b"\ntablet ahm 0 last 528384 rowsets 1\n")
    );
    Ok(())
}
