//! The passes of many sessions, split off before they run and taken in after.
ghost use Rattle.std.specs.Prelude.{◌≡◌, ◌+◌, ◌<◌, ◌≤◌, [], ℕ, map, length, vec_len, vec_capacity, slice_get, Some};
ghost use Rattle.kt_seatlock.specs.Passes.{seen, part, joined, given, filled, passes_of, IsOutside, IsSamePass, MayEnter};
ghost use Rattle.kt_serve.specs.Places.{IsNew, AreBack, taken};

use crate::replies::SessionReplies;
use crate::session::SessionEnd;
use kt_seatlock::{Pass, SeatLock, Shared};
use std::alloc::Global;

/// A session's pass, and what the session ends with.
#[derive(Drop)]
pub struct Place<T: Shared> {
    pub pass: Pass<T>,
    pub end: SessionEnd,
}

/// Splits off a pass for each of so many sessions, in the order of their numbers.
pub fn split_all<T: Shared>(
    alloc: Global,
    lock: &SeatLock<T>,
    pass: &mut Pass<T>,
    count: usize,
    places: &mut Vec<Place<T>>,
)
    requires pass { MayEnter lock.now pass.old }
    requires passes { (0 < given pass.old) × (given pass.old + count ≤ passes_of lock.now) }
    requires room { (places.old.items ≡ []) × (count ≤ vec_capacity places.old) }
    ensures pass { IsSamePass pass.old pass.new × IsOutside pass.new × (given pass.new ≡ given pass.old + count) }
    ensures told { (seen pass.new ≡ seen pass.old) × (part pass.new ≡ part pass.old) × (joined pass.new ≡ joined pass.old) × (filled pass.new ≡ filled pass.old) }
    ensures count { vec_len places.new ≡ count }
    ensures each { (j : ℕ) (p : _) → slice_get places.new.items j ≡ Some p → IsNew lock.now (given pass.old + j) (seen pass.old) (filled pass.old) p.pass }
{
    for _ in 0..count {
        let place = Place {
            pass: lock.split(pass),
            end: SessionEnd {
                replies: SessionReplies::none(alloc),
                halt: None,
            },
        };
        places.push_reserved(place);
    }
}

/// Takes in the passes of all sessions, and gives what these ended with.
pub fn join_all<T: Shared>(
    lock: &SeatLock<T>,
    pass: &mut Pass<T>,
    places: Vec<Place<T>>,
    mut ends: Vec<SessionEnd>,
) -> Vec<SessionEnd>
    requires pass { MayEnter lock.now pass.old }
    requires gives { 0 < given pass.old }
    requires back { AreBack lock.now places.items }
    requires room { (ends.items ≡ []) × (vec_len places ≤ vec_capacity ends) }
    ensures pass { IsSamePass pass.old pass.new × IsOutside pass.new × (part pass.new ≡ part pass.old) }
    ensures joined { joined pass.new ≡ taken places.items (joined pass.old) }
    ensures count { length (joined pass.new) ≡ length (joined pass.old) + vec_len places }
    ensures gives { (given pass.new ≡ given pass.old) × (filled pass.new ≡ filled pass.old) }
    ensures ends { result.items ≡ map (λ p. p.end) places.items }
{
    for place in places {
        let Place { pass: other, end } = place;
        lock.join(pass, other);
        ends.push_reserved(end);
    }
    ends
}
