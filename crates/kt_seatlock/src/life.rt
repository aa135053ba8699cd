//! The life of a lock: made vacant, filled once, and closed by its last pass.
ghost use Rattle.std.specs.Prelude.{◌≡◌, ◌≢◌, ◌≤◌, ℕ, [], Some, IfOk};
ghost use Rattle.kt_seatlock.specs.Trails.{Each, own, Follows};
ghost use Rattle.kt_seatlock.specs.Views.{told};
ghost use Rattle.kt_seatlock.specs.Rule.{AreKept, HasJustTheirs};
ghost use Rattle.kt_seatlock.specs.Passes.{number, seen, part, joined, given, filled, passes_of, IsVacant, IsOutside, IsPassOf, IsSamePass, IsLastPass};

use crate::lock::{NoMemory, SeatLock, TURN};
use crate::pass::Pass;
use crate::plays::{Begin, Fill};
use crate::shared::Shared;
use atomic_table::Table;
use std::alloc::Global;

impl<T: Shared> SeatLock<T> {
    /// A lock with no value yet, and its only pass.
    pub fn vacant(alloc: Global, passes: u32) -> Result<(SeatLock<T>, Pass<T>), NoMemory>
        requires { 1 ≤ passes }
        ensures lock { IfOk result (λ r. passes_of r.0 ≡ passes) }
        ensures pass { IfOk result (λ r. IsPassOf r.0 r.1 × IsVacant r.1 × (number r.1 ≡ 0) × (given r.1 ≡ 1)) }
    {
        let Ok((table, seat)) = Table::vacant(alloc, &[0, 1, 0], 1, &()) else {
            return Err(NoMemory);
        };
        let lock = SeatLock { table, passes };
        let pass = Pass {
            seat,
            number: 0,
            given: 1,
            entries: 0,
            last: 1,
        };
        Ok((lock, pass))
    }

    /// Puts the value in.
    pub fn fill(&self, pass: &mut Pass<T>, value: T)
        requires own { IsPassOf self.now pass.old }
        requires vacant { IsVacant pass.old }
        requires empty { T.trail value ≡ [] }
        ensures pass { IsSamePass pass.old pass.new × IsOutside pass.new × (joined pass.new ≡ []) × (given pass.new ≡ given pass.old) }
        ensures told { (seen pass.new ≡ []) × (part pass.new ≡ Some (T.part value (number pass.new))) × (filled pass.new ≡ Some value) }
    {
        let shared = &self.table.shared;
        shared.load::<Begin>(&mut pass.seat, TURN);
        match shared.exchange(&mut pass.seat, 0, Some(value)) {
            None => {}
            Some(_) => unreachable!(),
        }
        let turn = shared.fetch_add::<Fill<T>>(&mut pass.seat, TURN, 1);
        pass.entries = 0;
        pass.last = turn.wrapping_add(1);
    }

    /// Ends the lock. Its value has all that was seen, and the part of each pass. No entry bears a number that was not given,
    /// and the part of such a number is as the value had it that filled the lock.
    pub fn close(self, pass: Pass<T>) -> T
        requires own { IsPassOf self pass }
        requires outside { IsOutside pass }
        requires last { IsLastPass pass }
        ensures trail { Follows T.owner (number pass) (seen pass) (T.trail result) }
        ensures part { part pass ≡ Some (T.part result (number pass)) }
        ensures joined { AreKept T.trail T.part T.owner result (joined pass) }
        ensures visits { own T.owner (number pass) (T.trail result) ≡ own T.owner (number pass) (seen pass) }
        ensures visits_of_joined { HasJustTheirs T.owner (T.trail result) (joined pass) }
        ensures fresh { (k : ℕ) → given pass ≤ k → Each (λ e. T.owner e ≢ Some k) (T.trail result) }
        ensures untouched { (k : ℕ) → given pass ≤ k → Some (T.part result k) ≡ told T.part (filled pass) k }
    {
        let SeatLock { table, passes: _ } = self;
        let Pass {
            seat,
            number: _,
            given: _,
            entries: _,
            last: _,
        } = pass;
        let mut closed = table.close_with(seat);
        let value = match closed.take(0) {
            Some(value) => value,
            None => unreachable!(),
        };
        closed.free();
        value
    }

    /// Gives a vacant lock up.
    pub fn unmake(self, pass: Pass<T>)
        requires own { IsPassOf self pass }
        requires vacant { IsVacant pass }
    {
        let SeatLock { table, passes: _ } = self;
        let Pass {
            seat,
            number: _,
            given: _,
            entries: _,
            last: _,
        } = pass;
        let mut closed = table.close_with(seat);
        match closed.take(0) {
            Some(_) => unreachable!(),
            None => {}
        }
        closed.free();
    }
}
