//! The program: a script on standard input, its output on standard output; or a run on standard input, and what is said of it.
//!
//! The first word `check` asks for the checker of a run, which takes all words. Else the first words say where the tablet
//! lives; the others go to the top call. With `memory` nothing outlives the
//! program, and the clock counts 1, 2, 3 and so on, so that each run of a script prints the same. With `dirs LOG DATA`
//! the devices are two folders that exist, and the clock is the machine's. The status of the top call or the checker is the
//! program's; where there is no memory for the words or the devices it is 7. Nothing is written to standard error.
#![tactic(auto)]

ghost use Rattle.std.specs.Prelude.{IsTrue};
ghost use Rattle.kt_journal.specs.Log.{CanOpen};
ghost use Rattle.kt_storeside.specs.Supers.{NamedStand};

use kt_app::tablet_main;
use kt_base::Clock;
use kt_disk::{Disk, PassGate};
use kt_host::{BoxedDisk, DirDisk, MachineClock, RamDisk, Stdin, Stdout, Taken, Ticks};
use kt_run_check::check_main;
use std::alloc::AllocError;
use std::io::ErrorKind;
use std::process::ExitCode;
use std::sync::Wait;
use std::thread::Threads;
use std::{env, io};

// Runs the top call between the standard streams, its sessions by these threads, and gives the status.
fn run<
    R: Threads + Wait + Sync,
    L: Disk + Send + Drop,
    D: Disk + Send + Drop,
    C: Clock + Send + Drop,
>(rt: &HostRuntime, threads: &R, words: &[&str], log: L, store: D, clock: C) -> u8
    requires openable { IsTrue L.tells → CanOpen L.now L.leaves log }
    requires stand { IsTrue D.tells → NamedStand D.seen D.now D.leaves store }
{
    let mut source = Stdin::new(rt.reader());
    let mut sink = Stdout::new(io::writer(rt));
    let ended = tablet_main(
        threads,
        rt.alloc(),
        words,
        &mut source,
        &mut sink,
        log,
        store,
        clock,
        &PassGate,
    );
    ended.status
}

// As `run`, of a store that is put on the heap, since each visit moves it.
fn run_stored<
    R: Threads + Wait + Sync,
    L: Disk + Send + Drop,
    D: Disk + Send + Drop,
    C: Clock + Send + Drop,
>(rt: &HostRuntime, threads: &R, words: &[&str], log: L, store: D, clock: C) -> u8
    requires openable { IsTrue L.tells → CanOpen L.now L.leaves log }
    requires stand { IsTrue D.tells → NamedStand D.seen D.now D.leaves store }
{
    let Ok(store) = BoxedDisk::of(rt.alloc(), store) else {
        return 7;
    };
    run(rt, threads, words, log, store, clock)
}

// The same, of a log that is put there too.
fn run_boxed<
    R: Threads + Wait + Sync,
    L: Disk + Send + Drop,
    D: Disk + Send + Drop,
    C: Clock + Send + Drop,
>(rt: &HostRuntime, threads: &R, words: &[&str], log: L, store: D, clock: C) -> u8
    requires openable { IsTrue L.tells → CanOpen L.now L.leaves log }
    requires stand { IsTrue D.tells → NamedStand D.seen D.now D.leaves store }
{
    let Ok(log) = BoxedDisk::of(rt.alloc(), log) else {
        return 7;
    };
    run_stored(rt, threads, words, log, store, clock)
}

fn run_in_memory<R: Threads + Wait + Sync>(rt: &HostRuntime, threads: &R, words: &[&str]) -> u8 {
    let alloc = rt.alloc();
    run_boxed(
        rt,
        threads,
        words,
        RamDisk::new(alloc),
        RamDisk::new(alloc),
        Ticks::new(),
    )
}

// Takes both folders. An error where one of them is not there, or taken already.
fn take_both(rt: &HostRuntime, log: &str, data: &str) -> io::Result<(Taken, Taken)> {
    let alloc = rt.alloc();
    Ok((Taken::of(rt, alloc, log)?, Taken::of(rt, alloc, data)?))
}

fn run_in_folders<R: Threads + Wait + Sync>(
    rt: &HostRuntime,
    threads: &R,
    log: &str,
    data: &str,
    words: &[&str],
) -> u8 {
    let alloc = rt.alloc();
    let (log, store) = match take_both(rt, log, data) {
        Ok((log, store)) => (Some(log), Some(store)),
        Err(e) if e.kind() == ErrorKind::OutOfMemory => return 7,
        Err(_) => (None, None),
    };
    run_boxed(
        rt,
        threads,
        words,
        DirDisk::new(alloc, rt, log),
        DirDisk::new(alloc, rt, store),
        MachineClock::new(rt),
    )
}

// Checks the run on standard input.
fn check(rt: &HostRuntime, words: &[&str]) -> u8 {
    let mut source = Stdin::new(rt.reader());
    let mut sink = Stdout::new(io::writer(rt));
    check_main(rt.alloc(), words, &mut source, &mut sink)
}

// The words behind the program's name, and none where one is no text.
fn words_of(rt: &HostRuntime) -> Result<Vec<String>, AllocError> {
    let alloc = rt.alloc();
    match env::args(rt) {
        Ok(args) => args.skip(1).collect(alloc),
        Err(e) if e.kind() == ErrorKind::OutOfMemory => Err(AllocError),
        Err(_) => Ok(Vec::new(alloc)),
    }
}

fn run_with_words<R: Threads + Wait + Sync>(
    rt: &HostRuntime,
    threads: &R,
) -> Result<u8, AllocError> {
    let held = words_of(rt)?;
    let words: Vec<&str> = held.iter().map(|word| word.as_str()).collect(rt.alloc())?;
    Ok(match words.as_slice() {
        ["memory", rest @ ..] => run_in_memory(rt, threads, rest),
        ["dirs", log, data, rest @ ..] => run_in_folders(rt, threads, log, data, rest),
        ["check", ..] => check(rt, &words),
        _ => run_in_memory(rt, threads, &[]),
    })
}

fn main(rt: HostRuntime) -> ExitCode {
    ExitCode::from(run_with_words(&rt, &rt).unwrap_or(7))
}
