//! Where each session stands.
ghost use Rattle.std.specs.Prelude.{◌≡◌, ◌≤◌, [], length, map, IfOk, IsSome, Some, None, vec_capacity};
ghost use Rattle.kt_history.specs.Machine.{Turn, nth, set_nth, first_turns};

use kt_base::NoMemory;
use kt_history::Plan;
use std::alloc::Global;
use std::marker::Model;

/// The most sessions of a run.
pub const MOST_SESSIONS: usize = 64;

/// The number of a session's next command, and the time that a scan of the present has drawn.
#[derive(Clone, Copy, Debug, Drop)]
pub struct Place {
    pub next: u32,
    pub look: Option<u64>,
}

/// Where each session stands, with room for 64 of them. Contracts see them as the turns of the tablet machine.
#[derive(Drop)]
pub struct Turns {
    places: Vec<Place>,
}

impl Model for Turns {
    ghost use Rattle.std.specs.Prelude.{◌≤◌, List, map, vec_capacity};
    ghost use Rattle.kt_history.specs.Machine.{Turn};
    ghost use Rattle.kt_tablet.specs.Places.{turn_of};

    ghost Value = { List Turn };

    ghost view = { λ t. map turn_of t.places.items };

    ghost invariant = { λ t. 64 ≤ vec_capacity t.places };
}

// Each session of the plan is at its first command.
fn place_all(places: &mut Vec<Place>, plan: &Plan)
    requires { length plan.now ≤ vec_capacity places.old }
    ensures places { places.new.items ≡ map (λ _. record { next = 1; look = None }) plan.now }
    ensures room { vec_capacity places.new ≡ vec_capacity places.old }
{
    places.clear();
    for _ in plan.as_slice() {
        places.push_reserved(Place {
            next: 1,
            look: None,
        });
    }
}

impl Turns {
    /// No session yet, and room for them.
    pub fn new(alloc: Global) -> Result<Turns, NoMemory>
        ensures { IfOk result (λ turns. turns ≡ []) }
    {
        Ok(Turns {
            places: Vec::with_capacity(alloc, MOST_SESSIONS)?,
        })
    }

    /// Each session of a plan is at its first command. It takes no memory.
    pub fn begin(&mut self, plan: &Plan)
        requires { length plan.now ≤ 64 }
        ensures { self.new ≡ first_turns plan.now }
    {
        place_all(&mut self.places, plan);
    }

    /// The time that a scan of a session has drawn.
    pub fn look(&self, number: u32) -> Option<u64>
        requires { IsSome (nth self.now number) }
        ensures { (turn : Turn) → nth self.now number ≡ Some turn → result ≡ turn.look }
    {
        self.places[number as usize - 1].look
    }

    /// Sets where a session stands.
    pub fn set(&mut self, number: u32, next: u32, look: Option<u64>)
        requires { IsSome (nth self.old number) }
        ensures { self.new ≡ set_nth self.old number (record { next = next; look = look }) }
    {
        self.places[number as usize - 1] = Place { next, look };
    }
}
