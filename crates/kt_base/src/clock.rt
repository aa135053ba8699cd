//! A clock in memory.
ghost use Rattle.std.specs.Prelude.{◌≡◌, ◌∷◌, []};
ghost use Rattle.kt_base.specs.Readings.{reading};

use crate::{Clock, ReadingList};

/// Gives the readings of a list in turn, and then the last one again and again. Without one it reads 0.
///
/// It tells its readings until the count of them ends.
#[derive(Drop)]
pub struct MemClock {
    readings: ReadingList,
    given: u64,
}

impl MemClock {
    ghost use Rattle.kt_base.specs.Told.{list_of, given_of, told_readings};
    ghost use Rattle.std.specs.Prelude.{Some};

    pub fn of(readings: ReadingList) -> MemClock
        ensures told { told_readings result ≡ Some [] }
        ensures list { list_of result ≡ readings }
        ensures given { given_of result ≡ 0 }
    {
        MemClock { readings, given: 0 }
    }
}

// The reading of this number, counted from 0.
fn reading_of(readings: &[u64], at: u64) -> u64
    ensures { result ≡ reading readings.now at }
{
    if at < readings.len() as u64 {
        readings[at as usize]
    } else {
        match readings.last() {
            Some(last) => *last,
            None => 0,
        }
    }
}

impl Clock for MemClock {
    ghost use Rattle.kt_base.specs.Told.{list_of, given_of, told_readings};
    ghost use Rattle.kt_base.specs.Causes.{Grows};
    ghost use Rattle.kt_base.specs.Listed.{next};

    ghost readings = { told_readings };

    fn now(&mut self) -> u64
        ensures told { Grows (told_readings self.old) (told_readings self.new) (result ∷ []) }
        ensures reading { result ≡ reading (list_of self.old) (given_of self.old) }
        ensures list { list_of self.new ≡ list_of self.old }
        ensures given { given_of self.new ≡ next (given_of self.old) }
    {
        let reading = reading_of(self.readings.as_slice(), self.given);
        self.given = self.given.saturating_add(1);
        reading
    }
}
