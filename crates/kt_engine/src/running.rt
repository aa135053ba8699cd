//! The sessions of a run that have not left it.
ghost use Rattle.std.specs.Prelude.{◌≡◌, ◌≤◌, ◌↔◌, ◌==◌, [], not, length, IfOk, IsTrue, vec_capacity};
ghost use Rattle.std.specs.List.{filter};
ghost use Rattle.kt_engine.specs.Sessions.{numbers_of};

use kt_base::NoMemory;
use kt_history::Plan;
use std::alloc::Global;
use std::marker::Model;

/// The most sessions of a run.
const MOST_SESSIONS: usize = 64;

/// The numbers of the sessions that run, with room for 64 of them. Contracts see them as a list.
#[derive(Drop)]
pub struct Running {
    numbers: Vec<u32>,
}

impl Model for Running {
    ghost use Rattle.std.specs.Prelude.{◌≤◌, ℕ, List, vec_capacity};

    ghost Value = { List ℕ };

    ghost view = { λ r. r.numbers.items };

    ghost invariant = { λ r. 64 ≤ vec_capacity r.numbers };
}

// Writes down the number of each session of a plan.
fn number_all(numbers: &mut Vec<u32>, plan: &Plan)
    requires few { length plan.now ≤ 64 }
    requires room { length plan.now ≤ vec_capacity numbers.old }
    ensures numbers { numbers.new.items ≡ numbers_of plan.now }
    ensures room { vec_capacity numbers.new ≡ vec_capacity numbers.old }
{
    numbers.clear();
    for at in 0..plan.len() {
        numbers.push_reserved(at as u32 + 1);
    }
}

impl Running {
    /// No session, and room for them.
    pub fn new(alloc: Global) -> Result<Running, NoMemory>
        ensures { IfOk result (λ running. running ≡ []) }
    {
        Ok(Running {
            numbers: Vec::with_capacity(alloc, MOST_SESSIONS)?,
        })
    }

    /// All sessions of a plan run. It takes no memory.
    pub fn begin(&mut self, plan: &Plan)
        requires { length plan.now ≤ 64 }
        ensures { self.new ≡ numbers_of plan.now }
    {
        number_all(&mut self.numbers, plan);
    }

    /// A session does not run any more.
    pub fn leave(&mut self, number: u32)
        ensures { self.new ≡ filter (λ k. not (k == number)) self.old }
    {
        self.numbers.retain(|other| *other != number);
    }

    /// Whether none runs.
    pub fn is_empty(&self) -> bool
        ensures { IsTrue result ↔ self.now ≡ [] }
    {
        self.numbers.is_empty()
    }
}
