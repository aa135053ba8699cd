//! Laws of visits, and of the moments inside a call on a device.
ghost use Rattle.kt_engine.specs.Visits.{StepsAreOne};
ghost use Rattle.kt_engine.specs.Moments.{AppendsRecover, PublishesLeaveEither, WritesLeaveEither, EitherRecovers};

use kt_base::Clock;
use kt_disk::Disk;

/// Steps of which the first adds no line are one visit.
pub fn visit_law<L: Disk, D: Disk, C: Clock>()
    ensures { StepsAreOne L D C }
{}

/// A crash at any moment while a pass appends its batch leaves, with the store as it is then, the opened past with the run's writes up to a time, each
/// acknowledged one among them.
pub fn appending_law<L: Disk, D: Disk, C: Clock>()
    ensures { AppendsRecover L D C L.tells L.seen L.now L.leaves D.tells D.seen }
{}

/// At any moment while a pass publishes the superblock that it was lent the store has that one or the one before, and all files that it names. A crash then leaves,
/// with the log as it is, the opened past with the run's writes up to a time.
pub fn publishing_law<L: Disk, D: Disk, C: Clock>()
    ensures either { PublishesLeaveEither D D.tells D.seen D.now D.leaves D.faults }
    ensures recovers { EitherRecovers L D C L.tells L.seen D.tells D.seen D.now D.leaves }
{}

/// So has the store at any moment while a pass writes files of new numbers: the superblock from before, and all files that it names.
pub fn writing_law<D: Disk>()
    ensures { WritesLeaveEither D D.tells D.seen D.now D.leaves D.faults }
{}
