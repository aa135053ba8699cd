//! A journal in a lock, as an example of a shared value and of a visit.
ghost use Rattle.std.specs.Prelude.{◌≡◌, ◌∷◌, ◌++◌, [], length, MatchResult, OnOk};
ghost use Rattle.kt_seatlock.specs.Trails.{own, Adds, KeepsParts};
ghost use Rattle.kt_seatlock.specs.Passes.{number, seen, MayEnter, IsBack};
ghost use Rattle.kt_seatlock.specs.Journal.{line, all_lines, writer, lines_of, count_of};

use crate::lock::{NoMemory, SeatLock};
use crate::pass::Pass;
use crate::shared::Shared;
use std::sync::Wait;

/// A line, and who wrote it.
#[derive(Clone, Copy, Debug, PartialEq, Eq)]
pub struct Line {
    pub by: u32,
    pub text: u64,
}

/// Lines that only grow in number, and how many of them each writer wrote.
#[derive(Drop)]
pub struct Journal {
    pub lines: Vec<Line>,
    pub counts: Vec<u64>,
}

impl Shared for Journal {
    ghost use Rattle.kt_seatlock.specs.Journal.{writer, lines_of, count_of};

    type Entry = Line;

    type Part = u64;

    ghost trail = { lines_of };

    ghost part = { count_of };

    ghost owner = { writer };

    fn entries(&self) -> u64 {
        self.lines.len() as u64
    }
}

impl Journal {
    /// Adds a line and counts it.
    pub fn write(&mut self, by: u32, text: u64) -> Result<(), NoMemory>
        ensures lines { MatchResult result (λ _. lines_of self.new ≡ lines_of self.old ++ line by text ∷ []) (λ _. lines_of self.new ≡ lines_of self.old) }
        ensures trail { Adds writer by (lines_of self.old) (lines_of self.new) }
        ensures parts { KeepsParts count_of by self.old self.new }
    {
        if self.lines.push(Line { by, text }).is_err() {
            return Err(NoMemory);
        }
        let at = by as usize;
        if at < self.counts.len() {
            let count = self.counts[at];
            self.counts[at] = count.wrapping_add(1);
        }
        Ok(())
    }
}

/// A visit that writes a line, or none where memory runs out.
#[tactic(auto, using(crate::proofs::Trails::own_visit))]
pub fn note<R: Wait>(
    rt: &R,
    lock: &SeatLock<Journal>,
    pass: &mut Pass<Journal>,
    text: u64,
) -> Result<(), NoMemory>
    requires { MayEnter lock.now pass.old }
    ensures pass { IsBack pass.old pass.new }
    ensures lines { MatchResult result (λ _. own writer (number pass.old) (seen pass.new) ≡ own writer (number pass.old) (seen pass.old) ++ line (number pass.old) text ∷ []) (λ _. own writer (number pass.old) (seen pass.new) ≡ own writer (number pass.old) (seen pass.old)) }
{
    let mut journal = lock.enter(rt, pass);
    let done = journal.write(pass.number(), text);
    lock.leave(pass, journal);
    done
}

/// A visit that counts the lines, and leaves the journal as it was.
pub fn count_lines<R: Wait>(rt: &R, lock: &SeatLock<Journal>, pass: &mut Pass<Journal>) -> usize
    requires { MayEnter lock.now pass.old }
    ensures pass { IsBack pass.old pass.new }
    ensures lines { own writer (number pass.old) (seen pass.new) ≡ own writer (number pass.old) (seen pass.old) }
    ensures count { result ≡ length (seen pass.new) }
{
    let journal = lock.enter(rt, pass);
    let count = journal.lines.len();
    lock.leave_same(pass, journal);
    count
}

/// A visit for each text, in order, as far as there is memory.
pub fn write_all<R: Wait>(
    rt: &R,
    lock: &SeatLock<Journal>,
    pass: &mut Pass<Journal>,
    texts: &[u64],
) -> Result<(), NoMemory>
    requires { MayEnter lock.now pass.old }
    ensures pass { IsBack pass.old pass.new }
    ensures lines { OnOk result (own writer (number pass.old) (seen pass.new) ≡ own writer (number pass.old) (seen pass.old) ++ all_lines (number pass.old) texts.now) }
{
    for text in texts {
        note(rt, lock, pass, *text)?;
    }
    Ok(())
}
