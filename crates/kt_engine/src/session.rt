//! Sessions of the run that are over.
ghost use Rattle.std.specs.Prelude.{◌≡◌, ◌↔◌, ◌==◌, [], not, IsTrue};
ghost use Rattle.std.specs.List.{filter};
ghost use Rattle.kt_engine.specs.Visits.{IsVisit};

use crate::engine::Engine;
use kt_base::Clock;
use kt_disk::Disk;

impl<L: Disk, D: Disk + Drop, C: Clock> Engine<L, D, C> {
    /// A session is over: it does not run any more. Where it ran, one fewer runs.
    pub fn session_over(&mut self, number: u32)
        ensures visit { IsVisit number self.old self.new }
        ensures running { self.new ≡ record self.old { running = filter (λ k. not (k == number)) self.old.running } }
    {
        self.running.leave(number);
    }

    /// Whether no session runs.
    pub fn over(&self) -> bool
        ensures { IsTrue result ↔ self.now.running ≡ [] }
    {
        self.running.is_empty()
    }
}
