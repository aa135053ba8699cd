//! Threads that write one journal, one that rests until another's visit, and the life of a lock.
ghost use Rattle.std.specs.Prelude.{◌≡◌, ◌+◌, ◌<◌, ◌≤◌, [], IfOk, length};
ghost use Rattle.kt_seatlock.specs.Passes.{joined, given, passes_of, IsOutside, IsSamePass, MayEnter, IsBack};

use kt_seatlock::{Journal, Line, NoMemory, Pass, SeatLock, count_lines, write_all};
use std::alloc::{AllocError, Global};
use std::sync::Wait;
use std::test::Fail;
use std::thread;
use std::thread::{Threads, join};
use std::time::{Clock, Duration};

const VISITS: u64 = 10_000;

fn empty(alloc: Global, writers: u32) -> Result<Journal, AllocError>
    ensures { IfOk result (λ j. j.lines.items ≡ []) }
{
    let mut counts = Vec::new(alloc);
    counts.resize(writers as usize, 0)?;
    Ok(Journal {
        lines: Vec::new(alloc),
        counts,
    })
}

fn filled(
    alloc: Global,
    journal: Journal,
    passes: u32,
) -> Result<(SeatLock<Journal>, Pass<Journal>), NoMemory>
    requires { (1 ≤ passes) × (journal.lines.items ≡ []) }
    ensures { IfOk result (λ r. MayEnter r.0 r.1 × (joined r.1 ≡ []) × (given r.1 ≡ 1) × (passes_of r.0 ≡ passes)) }
{
    let (lock, mut pass) = SeatLock::vacant(alloc, passes)?;
    lock.fill(&mut pass, journal);
    Ok((lock, pass))
}

// One thread writes all texts.
fn alone<R: Wait>(
    rt: &R,
    lock: &SeatLock<Journal>,
    mut pass: Pass<Journal>,
    texts: &[u64],
) -> Pass<Journal>
    requires { MayEnter lock.now pass }
    ensures { IsBack pass result }
{
    let _written = write_all(rt, lock, &mut pass, texts);
    pass
}

// Two threads write all texts each.
fn pair<R: Threads + Wait + Sync>(
    rt: &R,
    lock: &SeatLock<Journal>,
    a: Pass<Journal>,
    b: Pass<Journal>,
    texts: &[u64],
) -> (Pass<Journal>, Pass<Journal>)
    requires { MayEnter lock.now a × MayEnter lock.now b }
    ensures { IsBack a result.0 × IsBack b result.1 }
{
    join(
        rt,
        || -> Pass<Journal>
            requires { MayEnter lock.now a }
            ensures { IsBack a result }
        { alone(rt, lock, a, texts) },
        || -> Pass<Journal>
            requires { MayEnter lock.now b }
            ensures { IsBack b result }
        { alone(rt, lock, b, texts) },
    )
}

// Two pairs of threads write all texts each.
fn quad<R: Threads + Wait + Sync>(
    rt: &R,
    lock: &SeatLock<Journal>,
    a: Pass<Journal>,
    b: Pass<Journal>,
    c: Pass<Journal>,
    d: Pass<Journal>,
    texts: &[u64],
) -> (
    (Pass<Journal>, Pass<Journal>),
    (Pass<Journal>, Pass<Journal>),
)
    requires { MayEnter lock.now a × MayEnter lock.now b × MayEnter lock.now c × MayEnter lock.now d }
    ensures { IsBack a result.0.0 × IsBack b result.0.1 × IsBack c result.1.0 × IsBack d result.1.1 }
{
    join(
        rt,
        || -> (Pass<Journal>, Pass<Journal>)
            requires { MayEnter lock.now a × MayEnter lock.now b }
            ensures { IsBack a result.0 × IsBack b result.1 }
        { pair(rt, lock, a, b, texts) },
        || -> (Pass<Journal>, Pass<Journal>)
            requires { MayEnter lock.now c × MayEnter lock.now d }
            ensures { IsBack c result.0 × IsBack d result.1 }
        { pair(rt, lock, c, d, texts) },
    )
}

// Eight threads write with new passes, which are joined in.
fn eight<R: Threads + Wait + Sync>(
    rt: &R,
    lock: &SeatLock<Journal>,
    pass: &mut Pass<Journal>,
    texts: &[u64],
)
    requires { MayEnter lock.now pass.old × (0 < given pass.old) × (given pass.old + 8 ≤ passes_of lock.now) × (joined pass.old ≡ []) }
    ensures { IsSamePass pass.old pass.new × IsOutside pass.new × (given pass.new ≡ given pass.old + 8) × (length (joined pass.new) ≡ 8) }
{
    let a = lock.split(pass);
    let b = lock.split(pass);
    let c = lock.split(pass);
    let d = lock.split(pass);
    let ((a, b), (c, d)) = with_four(rt, lock, pass, a, b, c, d, texts);
    lock.join(pass, a);
    lock.join(pass, b);
    lock.join(pass, c);
    lock.join(pass, d);
}

// Four threads write with these passes, and four more with new ones, which are joined in.
fn with_four<R: Threads + Wait + Sync>(
    rt: &R,
    lock: &SeatLock<Journal>,
    pass: &mut Pass<Journal>,
    a: Pass<Journal>,
    b: Pass<Journal>,
    c: Pass<Journal>,
    d: Pass<Journal>,
    texts: &[u64],
) -> (
    (Pass<Journal>, Pass<Journal>),
    (Pass<Journal>, Pass<Journal>),
)
    requires passes { MayEnter lock.now a × MayEnter lock.now b × MayEnter lock.now c × MayEnter lock.now d }
    requires pass { MayEnter lock.now pass.old × (0 < given pass.old) × (given pass.old + 4 ≤ passes_of lock.now) }
    ensures passes { IsBack a result.0.0 × IsBack b result.0.1 × IsBack c result.1.0 × IsBack d result.1.1 }
    ensures pass { IsSamePass pass.old pass.new × IsOutside pass.new × (given pass.new ≡ given pass.old + 4) × (length (joined pass.new) ≡ length (joined pass.old) + 4) }
{
    let e = lock.split(pass);
    let f = lock.split(pass);
    let g = lock.split(pass);
    let h = lock.split(pass);
    let (back, ((e, f), (g, h))) = join(
        rt,
        || -> (
            (Pass<Journal>, Pass<Journal>),
            (Pass<Journal>, Pass<Journal>),
        )
            requires { MayEnter lock.now a × MayEnter lock.now b × MayEnter lock.now c × MayEnter lock.now d }
            ensures { IsBack a result.0.0 × IsBack b result.0.1 × IsBack c result.1.0 × IsBack d result.1.1 }
        { quad(rt, lock, a, b, c, d, texts) },
        || -> (
            (Pass<Journal>, Pass<Journal>),
            (Pass<Journal>, Pass<Journal>),
        )
            requires { MayEnter lock.now e × MayEnter lock.now f × MayEnter lock.now g × MayEnter lock.now h }
            ensures { IsBack e result.0.0 × IsBack f result.0.1 × IsBack g result.1.0 × IsBack h result.1.1 }
        { quad(rt, lock, e, f, g, h, texts) },
    );
    lock.join(pass, e);
    lock.join(pass, f);
    lock.join(pass, g);
    lock.join(pass, h);
    back
}

// Rests until another's visit has changed something, and says how many lines there are then.
fn rested<R: Wait>(rt: &R, lock: &SeatLock<Journal>, mut pass: Pass<Journal>) -> usize
    requires { MayEnter lock.now pass }
{
    lock.rest(rt, &mut pass);
    let journal = lock.enter(rt, &mut pass);
    let found = journal.lines.len();
    lock.leave(&mut pass, journal);
    found
}

// Counts the lines after a while, by which nobody's rest ends, and writes one after another while.
fn late<R: Wait + Clock>(rt: &R, lock: &SeatLock<Journal>, mut pass: Pass<Journal>) -> bool
    requires { MayEnter lock.now pass }
{
    thread::sleep(rt, Duration::from_millis(200));
    let none = count_lines(rt, lock, &mut pass) == 0;
    thread::sleep(rt, Duration::from_millis(200));
    none && write_all(rt, lock, &mut pass, &[7]).is_ok()
}

fn resting<R: Threads + Wait + Clock + Sync>(
    rt: &R,
    lock: &SeatLock<Journal>,
    a: Pass<Journal>,
    b: Pass<Journal>,
) -> (usize, bool)
    requires { MayEnter lock.now a × MayEnter lock.now b }
{
    join(
        rt,
        || -> usize
            requires { MayEnter lock.now a }
        { rested(rt, lock, a) },
        || -> bool
            requires { MayEnter lock.now b }
        { late(rt, lock, b) },
    )
}

// How many of the writer's lines come in the order of their texts, from 0 on.
fn in_order(lines: &[Line], by: u32) -> u64 {
    let mut next = 0u64;
    for line in lines {
        if line.by == by && line.text == next {
            next = next.wrapping_add(1);
        }
    }
    next
}

fn texts(alloc: Global) -> Result<Vec<u64>, AllocError> {
    let mut texts = Vec::new(alloc);
    for text in 0..VISITS {
        texts.push(text)?;
    }
    Ok(texts)
}

#[test]
fn eight_threads_write_each_line_once(rt: HostRuntime) -> Result<(), Fail> {
    let texts = texts(rt.alloc())?;
    let journal = empty(rt.alloc(), 9)?;
    let (lock, mut pass) = filled(rt.alloc(), journal, 9).expect(&rt, "memory");
    eight(&rt, &lock, &mut pass, &texts);
    let journal = lock.close(pass);
    assert_eq!(rt; journal.lines.len(), 80_000);
    for by in 1..9 {
        assert_eq!(rt; in_order(&journal.lines, by), VISITS);
    }
    Ok(())
}

#[test]
fn a_thread_rests_until_another_changes_something(rt: HostRuntime) -> Result<(), Fail> {
    let journal = empty(rt.alloc(), 2)?;
    let (lock, mut pass) = filled(rt.alloc(), journal, 2).expect(&rt, "memory");
    let other = lock.split(&mut pass);
    assert_eq!(rt; resting(&rt, &lock, pass, other), (1, true));
    Ok(())
}

#[test]
fn a_lock_is_filled_and_closed_or_given_up(rt: HostRuntime) -> Result<(), Fail> {
    let journal = empty(rt.alloc(), 1)?;
    let (lock, mut pass) = filled(rt.alloc(), journal, 1).expect(&rt, "memory");
    let _written = write_all(&rt, &lock, &mut pass, &[5, 6]);
    assert_eq!(rt; pass.number(), 0);
    let journal = lock.close(pass);
    assert_eq!(rt;
        journal.lines.as_slice(),
        [Line { by: 0, text: 5 }, Line { by: 0, text: 6 }].as_slice()
    );
    assert_eq!(rt; journal.counts.as_slice(), [2].as_slice());
    let (vacant, pass) = SeatLock::<Journal>::vacant(rt.alloc(), 4).expect(&rt, "memory");
    vacant.unmake(pass);
    Ok(())
}
