//! What a crash now leaves of each device at home.
ghost use Rattle.kt_engine.specs.Moments.{LogLeavesSome, StoreLeavesEither};

use crate::engine::Engine;
use kt_base::Clock;
use kt_disk::Disk;

impl<L: Disk, D: Disk + Drop, C: Clock> Engine<L, D, C> {
    /// A crash now leaves of a log at home what is durable and some of the records that are out and queued, in their order, and of a store at home the
    /// published superblock or the one that is lent, with the files that it names.
    pub fn images(&self)
        ensures log { LogLeavesSome L.tells L.seen L.now L.leaves self.now }
        ensures store { StoreLeavesEither D.tells D.seen D.now D.leaves self.now }
    {
        // What is durable is what a crash leaves, and the store stands.
        let _ = self.log.durable();
        self.store.standing();
    }
}
