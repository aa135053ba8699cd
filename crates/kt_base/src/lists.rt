//! The lists that the outside in memory is made of.
ghost use Rattle.std.specs.Prelude.{◌≡◌};

use std::marker::Model;

/// The numbers of calls, counted from 1. Contracts see it as a list.
#[derive(Drop)]
pub struct CallList {
    calls: Vec<u64>,
}

impl Model for CallList {
    ghost use Rattle.std.specs.Prelude.{List, ℕ};

    ghost Value = { List ℕ };

    ghost view = { λ l. l.calls.items };
}

impl CallList {
    /// The numbers of a vector, which takes no memory.
    pub fn of(calls: Vec<u64>) -> CallList
        ensures { result ≡ calls.items }
    {
        CallList { calls }
    }

    pub fn as_slice(&self) -> &[u64]
        ensures { result.now ≡ self.now }
    {
        &self.calls
    }
}

/// Readings of a clock. Contracts see it as a list.
#[derive(Drop)]
pub struct ReadingList {
    readings: Vec<u64>,
}

impl Model for ReadingList {
    ghost use Rattle.std.specs.Prelude.{List, ℕ};

    ghost Value = { List ℕ };

    ghost view = { λ l. l.readings.items };
}

impl ReadingList {
    /// The readings of a vector, which takes no memory.
    pub fn of(readings: Vec<u64>) -> ReadingList
        ensures { result ≡ readings.items }
    {
        ReadingList { readings }
    }

    pub fn as_slice(&self) -> &[u64]
        ensures { result.now ≡ self.now }
    {
        &self.readings
    }
}
