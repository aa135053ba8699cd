//! The writes of a log that wait for their COMMIT.
ghost use Rattle.std.specs.Prelude.{◌≡◌, ◌<◌, ◌-◌, ℕ, true, None, Some, length, if◌then◌else◌, ◌==◌, Option, OnOk, OnErr, IfSome, IfNone};
ghost use Rattle.std.specs.List.{AllPairs, HoldsAt};
ghost use Rattle.kt_journal.specs.Order.{is_above};
ghost use Rattle.kt_journal.specs.Waiting.{number_in, number_of, IsRising, Keeps};

use kt_base::NoMemory;
use std::alloc::Global;
use std::collections::VecDeque;
use std::marker::Model;

// A write, and its number while it waits.
#[derive(Drop)]
struct Held {
    ts: u64,
    number: Option<usize>,
}

/// Writes that wait for their COMMIT, each with a number. They are added in the order of their timestamps, so one is found
/// by halves, and where COMMITs come nearly in that order few are kept. Contracts see the timestamp of the newest write and
/// the number of each that waits.
#[derive(Drop)]
pub struct Waiting {
    last: Option<u64>,
    // by timestamp; the first and the last have a number
    held: VecDeque<Held>,
}

impl Model for Waiting {
    ghost use Rattle.kt_journal.specs.Waiting.{WaitingView, IsRising};

    ghost Value = { WaitingView };

    ghost view = { λ w. record { last = w.last; held = w.held.items } };

    ghost invariant = { λ w. IsRising w.last w.held.items };
}

// Where the write of this timestamp stands, looked for by halves.
fn place_by_halves(held: &VecDeque<Held>, ts: u64) -> Option<usize>
    requires { AllPairs (λ a b. a.ts < b.ts) held.now.items }
    ensures found { IfSome result (λ at. (at < length held.now.items) × HoldsAt (λ a. a.ts ≡ ts) held.now.items at) }
    ensures none { IfNone result (number_in held.now.items ts ≡ None) }
{
    let at = held.partition_point(|held| held.ts < ts);
    let here = held.get(at)?;
    if here.ts == ts { Some(at) } else { None }
}

fn is_first(held: &VecDeque<Held>, ts: u64) -> bool
    ensures { result ≡ true → (0 < length held.now.items) × HoldsAt (λ a. a.ts ≡ ts) held.now.items 0 }
{
    match held.front() {
        Some(first) => first.ts == ts,
        None => false,
    }
}

// Where the write of this timestamp stands: at the front where COMMITs come in the order of their writes.
fn place_of(held: &VecDeque<Held>, ts: u64) -> Option<usize>
    requires { AllPairs (λ a b. a.ts < b.ts) held.now.items }
    ensures found { IfSome result (λ at. (at < length held.now.items) × HoldsAt (λ a. a.ts ≡ ts) held.now.items at) }
    ensures none { IfNone result (number_in held.now.items ts ≡ None) }
{
    if is_first(held, ts) {
        return Some(0);
    }
    place_by_halves(held, ts)
}

fn first_was_taken(held: &VecDeque<Held>) -> bool
    ensures { result ≡ true → 0 < length held.now.items × HoldsAt (λ a. a.number ≡ None) held.now.items 0 }
{
    match held.front() {
        Some(first) => first.number.is_none(),
        None => false,
    }
}

fn last_was_taken(held: &VecDeque<Held>) -> bool
    ensures { result ≡ true → 0 < length held.now.items × HoldsAt (λ a. a.number ≡ None) held.now.items (length held.now.items - 1) }
{
    match held.back() {
        Some(last) => last.number.is_none(),
        None => false,
    }
}

// Lets go of those in front that were taken.
fn drop_first(held: &mut VecDeque<Held>)
    ensures { (last : Option ℕ) → IsRising last held.old.items → Keeps last held.old.items held.new.items }
{
    'taken: while first_was_taken(held) {
        held.pop_front();
    }
}

// Lets go of those at the end that were taken.
fn drop_last(held: &mut VecDeque<Held>)
    ensures { (last : Option ℕ) → IsRising last held.old.items → Keeps last held.old.items held.new.items }
{
    'taken: while last_was_taken(held) {
        held.pop_back();
    }
}

impl Waiting {
    /// No write.
    pub fn new(alloc: Global) -> Waiting
        ensures last { result.last ≡ None }
        ensures numbers { (ts : ℕ) → number_of ts result ≡ None }
    {
        Waiting {
            last: None,
            held: VecDeque::new(alloc),
        }
    }

    /// The timestamp of the newest write that was added.
    pub fn last(&self) -> Option<u64>
        ensures { result ≡ self.now.last }
    {
        self.last
    }

    /// Adds a write with its number. It is newer than all before it. Without memory nothing changes.
    pub fn add(&mut self, ts: u64, number: usize) -> Result<(), NoMemory>
        requires { is_above self.old.last ts ≡ true }
        ensures last { OnOk result (self.new.last ≡ Some ts) }
        ensures numbers { OnOk result ((t : ℕ) → number_of t self.new ≡ (if ts == t then Some number else number_of t self.old)) }
        ensures err { OnErr result (self.new ≡ self.old) }
    {
        let number = Some(number);
        self.held.push_back(Held { ts, number })?;
        self.last = Some(ts);
        Ok(())
    }

    /// The number of the write of this timestamp, which waits no more. It takes no memory.
    pub fn take(&mut self, ts: u64) -> Option<usize>
        ensures value { result ≡ number_of ts self.old }
        ensures last { self.new.last ≡ self.old.last }
        ensures numbers { (t : ℕ) → number_of t self.new ≡ (if ts == t then None else number_of t self.old) }
    {
        let at = place_of(&self.held, ts)?;
        let number = self.held[at].number.take();
        drop_first(&mut self.held);
        drop_last(&mut self.held);
        number
    }
}
