//! The engine as the value of a seat lock, and what its lock tells of each pass.
ghost use Rattle.std.specs.Prelude.{◌≡◌, length};

use crate::engine::Engine;
use kt_base::Clock;
use kt_disk::Disk;
use kt_history::Event;
use kt_seatlock::Shared;
use std::marker::Model;
use std::snapshot::Snapshot;

/// What an engine has of a pass. No value of it is made.
#[derive(Drop)]
pub struct Part<L: Disk, D: Disk, C: Clock> {
    engine: Snapshot<Engine<L, D, C>>,
    number: u32,
}

impl<L: Disk, D: Disk, C: Clock> Model for Part<L, D, C> {
    ghost use Rattle.kt_engine.specs.Visits.{PartView, part_in};

    ghost Value = { PartView L D C };

    ghost view = { λ p. part_in p.engine.value p.number };
}

impl<L: Disk, D: Disk, C: Clock> Shared for Engine<L, D, C> {
    ghost use Rattle.kt_engine.specs.Visits.{session_of, part_in};

    type Entry = Event;

    type Part = Part<L, D, C>;

    ghost trail = { λ e. e.tablet.core.trail };

    ghost part = { part_in };

    ghost owner = { session_of };

    fn entries(&self) -> u64 {
        self.tablet.lines()
    }
}
