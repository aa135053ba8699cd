//! Visits, and waiting for those of others.
ghost use Rattle.std.specs.Prelude.{◌≡◌, ◌+◌, ◌≤◌, ◌≢◌, ℕ, Some, None, IfSome, false, length};
ghost use Rattle.kt_seatlock.specs.Trails.{own, Follows, Adds, KeepsParts};
ghost use Rattle.kt_seatlock.specs.Views.{got_in, ahead_view};
ghost use Rattle.kt_seatlock.specs.Passes.{number, seen, part, got, IsOutside, IsInside, IsPassOf, IsSame, IsSamePass, IsAsFull};

use crate::lock::{ENTRIES, SLEEPERS, SeatLock, TURN};
use crate::pass::Pass;
use crate::plays::{Count, Leave, Stay, Take};
use crate::shared::Shared;
use crate::view::View;
use atomic_table::Seat;
use std::sync::Wait;

// How often a caller tries before it sleeps.
const TRIES: u32 = 64;

impl<T: Shared> SeatLock<T> {
    /// Waits for the turn, and takes the value out.
    pub fn enter<R: Wait>(&self, rt: &R, pass: &mut Pass<T>) -> T
        requires own { IsPassOf self.now pass.old }
        requires outside { IsOutside pass.old }
        ensures pass { IsSamePass pass.old pass.new × IsAsFull pass.old pass.new }
        ensures got { (got pass.new ≡ Some result) × (seen pass.new ≡ T.trail result) }
        ensures trail { Follows T.owner (number pass.old) (seen pass.old) (T.trail result) }
        ensures visits { own T.owner (number pass.old) (T.trail result) ≡ own T.owner (number pass.old) (seen pass.old) }
        ensures part { (part pass.old ≡ Some (T.part result (number pass.old))) × (part pass.new ≡ part pass.old) }
    {
        let shared = &self.table.shared;
        let mut tries = 0;
        for _ in rt.forever() {
            let turn = shared.peek(TURN);
            if turn % 2 == 0 {
                let found = shared.compare_exchange::<Take<T>>(
                    &mut pass.seat,
                    TURN,
                    turn,
                    turn + 1,
                );
                if found == turn {
                    let value = match shared.exchange(&mut pass.seat, 0, None) {
                        Some(value) => value,
                        None => unreachable!(),
                    };
                    pass.entries = value.entries();
                    return value;
                }
            } else if tries < TRIES {
                tries += 1;
                std::hint::spin_loop();
            } else {
                self.sleep(rt, pass, turn);
            }
        }
        unreachable!()
    }

    /// Puts the value back.
    pub fn leave(&self, pass: &mut Pass<T>, value: T)
        requires own { IsPassOf self.now pass.old }
        requires inside { IsInside pass.old }
        requires trail { Adds T.owner (number pass.old) (seen pass.old) (T.trail value) }
        requires parts { IfSome (got pass.old) (λ x. KeepsParts T.part (number pass.old) x value) }
        ensures pass { IsSamePass pass.old pass.new × IsAsFull pass.old pass.new × IsOutside pass.new }
        ensures told { (seen pass.new ≡ T.trail value) × (part pass.new ≡ Some (T.part value (number pass.new))) }
    {
        let shared = &self.table.shared;
        let entries = value.entries();
        match shared.exchange(&mut pass.seat, 0, Some(value)) {
            None => {}
            Some(_) => unreachable!(),
        }
        self.count(&mut pass.seat, pass.entries, entries);
        let turn = shared.fetch_add::<Leave<T>>(&mut pass.seat, TURN, 1);
        pass.entries = entries;
        pass.last = turn.wrapping_add(1);
        self.wake();
    }

    /// Puts the value back as it was got, and takes the turn back: who rests finds nothing new, and goes on resting.
    pub fn leave_same(&self, pass: &mut Pass<T>, value: T)
        requires own { IsPassOf self.now pass.old }
        requires same { got pass.old ≡ Some value }
        ensures pass { IsSamePass pass.old pass.new × IsAsFull pass.old pass.new × IsOutside pass.new }
        ensures told { (seen pass.new ≡ T.trail value) × (part pass.new ≡ Some (T.part value (number pass.new))) }
    {
        let shared = &self.table.shared;
        let entries = value.entries();
        match shared.exchange(&mut pass.seat, 0, Some(value)) {
            None => {}
            Some(_) => unreachable!(),
        }
        let turn = shared.fetch_sub::<Leave<T>>(&mut pass.seat, TURN, 1);
        pass.entries = entries;
        pass.last = turn.wrapping_sub(1);
        self.wake();
    }

    /// Puts the value back by `leave` where the visit says that it may have changed it, and else by `leave_same`.
    pub fn leave_as(&self, pass: &mut Pass<T>, value: T, changed: bool)
        requires own { IsPassOf self.now pass.old }
        requires inside { IsInside pass.old }
        requires trail { Adds T.owner (number pass.old) (seen pass.old) (T.trail value) }
        requires parts { IfSome (got pass.old) (λ x. KeepsParts T.part (number pass.old) x value) }
        requires same { changed ≡ false → got pass.old ≡ Some value }
        ensures pass { IsSamePass pass.old pass.new × IsAsFull pass.old pass.new × IsOutside pass.new }
        ensures told { (seen pass.new ≡ T.trail value) × (part pass.new ≡ Some (T.part value (number pass.new))) }
    {
        if changed {
            self.leave(pass, value);
        } else {
            self.leave_same(pass, value);
        }
    }

    // Counts the entry that a visit added, where it added one.
    fn count(&self, seat: &mut Seat<Option<T>, View<T, T::Entry, T::Part>>, before: u64, after: u64)
        requires own { seat.old.table_id ≡ self.now.table.shared.table_id }
        requires inside { (got_in seat.old.me.0.stage ≢ None) × (before ≡ length seat.old.me.0.seen) }
        requires level { seat.old.me.0.ahead ≡ 0 }
        requires one { (before ≤ after) × (after ≤ before + 1) }
        ensures own { (seat.new.table_id ≡ seat.old.table_id) × (seat.new.id ≡ seat.old.id) }
        ensures counted { (k : ℕ) × (before + k ≡ after) × (seat.new.me ≡ (ahead_view seat.old.me.0 k, seat.old.me.1)) }
    {
        if after != before {
            self.table.shared.fetch_add::<Count>(seat, ENTRIES, 1);
        }
    }

    // Sleeps while the turn is this one. A sleeper counts itself before it compares the turn, and who ends a visit changes the turn before it looks at the
    // count: so it is seen and woken, or does not sleep. Where a turn that was taken back has come again, another visitor has it, and wakes at its own end.
    fn sleep<R: Wait>(&self, rt: &R, pass: &mut Pass<T>, turn: u64)
        requires { IsPassOf self.now pass.old }
        ensures { IsSame pass.old pass.new }
    {
        let shared = &self.table.shared;
        shared.fetch_add::<Stay>(&mut pass.seat, SLEEPERS, 1);
        shared.park(rt, TURN, (turn % 0x1_0000_0000) as u32);
        shared.fetch_sub::<Stay>(&mut pass.seat, SLEEPERS, 1);
    }

    // Wakes who sleeps. Who rests looks at the turn alone, and sleeps again unless a visit has raised it.
    fn wake(&self) {
        let shared = &self.table.shared;
        if shared.peek(SLEEPERS) > 0 {
            shared.wake_all(TURN);
        }
    }

    /// Waits until a visit has ended by `leave` since this pass's last one: one that changed nothing is not waited for.
    pub fn rest<R: Wait>(&self, rt: &R, pass: &mut Pass<T>)
        requires own { IsPassOf self.now pass.old }
        requires outside { IsOutside pass.old }
        ensures { IsSame pass.old pass.new }
    {
        let free = pass.last;
        let held = free.wrapping_add(1);
        let mut tries = 0;
        for _ in rt.forever() {
            let turn = self.table.shared.peek(TURN);
            if turn != free && turn != held {
                return;
            }
            if tries < TRIES {
                tries += 1;
                std::hint::spin_loop();
            } else {
                self.sleep(rt, pass, turn);
            }
        }
    }
}
