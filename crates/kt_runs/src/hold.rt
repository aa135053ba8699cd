//! A gate that holds a run at one point until the run has come to another.

use kt_disk::{Gate, Point};
use std::sync::{Condvar, Mutex, Wait};
use std::time::{Clock, Duration};

// How long a run is held at most, in seconds. Then the gate has given up.
const PATIENCE: u64 = 30;

/// A moment of a run.
#[derive(Clone, Copy)]
pub enum Moment {
    At(Point),
    /// The first change of the device of this mark behind the point.
    ChangeAfter { mark: u32, point: Point },
    /// What a job made is published.
    AnyPublished,
}

/// Holds a run at the first of two moments until it has come to the second.
#[derive(Clone, Copy)]
pub struct Rule {
    pub hold: Moment,
    pub until: Moment,
}

// A moment, and whether the run has come to it.
#[derive(Drop)]
struct Watch {
    moment: Moment,
    is_near: bool,
    has_come: bool,
}

impl Watch {
    fn of(moment: Moment) -> Watch {
        Watch {
            moment,
            is_near: false,
            has_come: false,
        }
    }

    // Whether the run comes to the moment with this point.
    fn comes(&mut self, point: Point) -> bool {
        if self.has_come {
            return false;
        }
        let comes = match self.moment {
            Moment::At(wanted) => wanted == point,
            Moment::AnyPublished => matches!(point, Point::Published { .. }),
            Moment::ChangeAfter {
                mark: wanted,
                point: before,
            } => match point {
                Point::Device { mark, .. } => self.is_near && mark == wanted,
                _ => {
                    self.is_near |= before == point;
                    false
                }
            },
        };
        self.has_come = comes;
        comes
    }
}

// A rule as it stands.
#[derive(Drop)]
struct Standing {
    hold: Watch,
    until: Watch,
}

impl Standing {
    fn of(rule: Rule) -> Standing {
        Standing {
            hold: Watch::of(rule.hold),
            until: Watch::of(rule.until),
        }
    }

    // Whether the run is to be held at this point.
    fn holds(&mut self, point: Point) -> bool {
        self.until.comes(point);
        self.hold.comes(point) && !self.until.has_come
    }
}

#[derive(Drop)]
struct Table {
    first: Standing,
    second: Standing,
    gave_up: bool,
}

/// Holds a run by two rules.
#[derive(Drop)]
pub struct HoldGate<'r, R> {
    rt: &'r R,
    table: Mutex<Table>,
    changed: Condvar,
}

impl<'r, R: Wait + Clock> HoldGate<'r, R> {
    pub fn of(rt: &'r R, first: Rule, second: Rule) -> HoldGate<'r, R> {
        let table = Table {
            first: Standing::of(first),
            second: Standing::of(second),
            gave_up: false,
        };
        HoldGate {
            rt,
            table: Mutex::new(table),
            changed: Condvar::new(),
        }
    }

    /// Whether a run was held in vain.
    pub fn gave_up(&self) -> bool {
        self.table.lock(self.rt).gave_up
    }
}

impl<'r, R: Wait + Clock> Gate for HoldGate<'r, R> {
    ghost came = { λ gate point. Unit {0} };

    fn at(&self, point: Point) {
        let patience = Duration::from_secs(PATIENCE);
        let mut table = self.table.lock(self.rt);
        let by_first = table.first.holds(point);
        let by_second = table.second.holds(point);
        self.changed.notify_all();
        if by_first {
            let (guard, waited) = self
                .changed
                .wait_timeout_while(self.rt, table, patience, |it| !it.first.until.has_come);
            table = guard;
            table.gave_up |= waited.timed_out();
        }
        if by_second {
            let (guard, waited) = self
                .changed
                .wait_timeout_while(self.rt, table, patience, |it| !it.second.until.has_come);
            table = guard;
            table.gave_up |= waited.timed_out();
        }
    }
}
