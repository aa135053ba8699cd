//! New passes, and passes that are done.
ghost use Rattle.std.specs.Prelude.{◌≡◌, ◌+◌, ◌<◌, [], ◌∷◌, ◌++◌, length, max};
ghost use Rattle.kt_seatlock.specs.Trails.{longer};
ghost use Rattle.kt_seatlock.specs.Views.{told, pick};
ghost use Rattle.kt_seatlock.specs.Passes.{number, seen, part, joined, given, filled, passes_of, IsOutside, IsPassOf, IsSamePass};

use crate::lock::SeatLock;
use crate::pass::Pass;
use crate::plays::{Cut, Glue};
use crate::shared::Shared;

impl<T: Shared> SeatLock<T> {
    /// A new pass, with the least number that is left. It has seen as much.
    pub fn split(&self, pass: &mut Pass<T>) -> Pass<T>
        requires own { IsPassOf self.now pass.old }
        requires outside { IsOutside pass.old }
        requires left { (0 < given pass.old) × (given pass.old < passes_of self.now) }
        ensures pass { IsSamePass pass.old pass.new × IsOutside pass.new × (seen pass.new ≡ seen pass.old) × (part pass.new ≡ part pass.old) × (joined pass.new ≡ joined pass.old) }
        ensures gives { (given pass.new ≡ given pass.old + 1) × (filled pass.new ≡ filled pass.old) }
        ensures new { IsPassOf self.now result × IsOutside result × (number result ≡ given pass.old) × (seen result ≡ seen pass.old) × (joined result ≡ []) × (given result ≡ 0) }
        ensures part { part result ≡ told T.part (filled pass.old) (number result) }
    {
        let _passes = self.passes;
        let seat = self.table.shared.split_seat::<Cut<T>>(&mut pass.seat);
        let number = pass.given;
        pass.given += 1;
        Pass {
            seat,
            number,
            given: 0,
            entries: pass.entries,
            last: pass.last,
        }
    }

    /// Takes in what another pass knows.
    pub fn join(&self, into: &mut Pass<T>, other: Pass<T>)
        requires own { IsPassOf self.now into.old × IsPassOf self.now other }
        requires outside { IsOutside into.old × IsOutside other }
        ensures pass { IsSamePass into.old into.new × IsOutside into.new × (part into.new ≡ part into.old) }
        ensures seen { seen into.new ≡ longer (seen into.old) (seen other) }
        ensures joined { joined into.new ≡ record { number = number other; part = part other; seen = seen other } ∷ (joined other ++ joined into.old) }
        ensures count { length (joined into.new) ≡ length (joined into.old) + length (joined other) + 1 }
        ensures gives { (given into.new ≡ max (given into.old) (given other)) × (filled into.new ≡ pick (given into.old) (filled into.old) (filled other)) }
    {
        let Pass {
            seat,
            number: _,
            given,
            entries,
            last: _,
        } = other;
        self.table.shared.join_seat::<Glue<T>>(&mut into.seat, seat);
        into.given = into.given.max(given);
        into.entries = into.entries.max(entries);
    }
}
