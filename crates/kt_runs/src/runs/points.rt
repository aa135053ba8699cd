//! The points that a run comes to.

use super::run;
use kt_base::NoMemory;
use kt_disk::{Gate, MemDisk, Point};
use std::alloc::Global;
use std::sync::Wait;
use std::sync::atomic::{AtomicU64, Ordering};
use std::test::Fail;
use std::thread::Threads;

// Notes each point as a digit: 1 before a command, 2 once its write has begun, 3 once its reply is known; of a job 4 once its outputs are written, 5 once they have
// taken the place of its inputs, 6 once its superblock is published.
#[derive(Drop)]
struct Notes {
    digits: AtomicU64,
}

impl Gate for Notes {
    ghost came = { λ gate point. Unit {0} };

    fn at(&self, point: Point) {
        let digit = match point {
            Point::Before { session: 1, .. } => 1,
            Point::Begun { session: 1, .. } => 2,
            Point::After { session: 1, .. } => 3,
            Point::PhaseOne { .. } => 4,
            Point::Swapped { .. } => 5,
            Point::Published { .. } => 6,
            _ => 9,
        };
        let digits = self.digits.load(Ordering::SeqCst);
        self.digits.store(
            digits.saturating_mul(10).saturating_add(digit),
            Ordering::SeqCst,
        );
    }
}

// The digits of a run of these lines.
fn noted<R: Threads + Wait + Sync>(rt: &R, alloc: Global, lines: &[u8]) -> Result<u64, NoMemory> {
    let gate = Notes {
        digits: AtomicU64::new(0),
    };
    let _ended = run(
        rt,
        alloc,
        lines,
        MemDisk::new(alloc),
        MemDisk::new(alloc),
        &gate,
    )?;
    Ok(gate.digits.load(Ordering::SeqCst))
}

#[test]
fn each_command_comes_to_its_points_in_order(rt: HostRuntime) -> Result<(), Fail> {
    let alloc = rt.alloc();
    let lines = b"session\ninsert 1 \"a\"\nscan now\nmark 1\nscan at 0\n";
    assert_eq!(rt; noted(&rt, alloc, lines)?, 123_131_313);
    assert_eq!(rt; noted(&rt, alloc, b"session\n")?, 0);
    Ok(())
}

#[test]
fn each_job_comes_to_its_points_in_order(rt: HostRuntime) -> Result<(), Fail> {
    let alloc = rt.alloc();
    let lines = b"session\ninsert 1 \"a\"\nflush\ncompact\nflush\n";
    assert_eq!(rt; noted(&rt, alloc, lines)?, 123_145_631_456_313);
    Ok(())
}
