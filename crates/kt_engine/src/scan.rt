//! The life of a scan, the mark, and maintenance commands.
ghost use Rattle.std.specs.Prelude.{◌≡◌, IfOk, IfErr, OnErr, OnOk, Err, Some, false, true};
ghost use Rattle.kt_history.specs.declared.event.Event.TheVariants.{Chore};
ghost use Rattle.kt_history.specs.History.{Past};
ghost use Rattle.kt_diskrowset.specs.Page.{row_told};
ghost use Rattle.kt_histlaws.specs.Events.{answered};
ghost use Rattle.kt_tablet.specs.Visits.{MayLook, HasLooked, MayMark, HasMarked, MayAnswerChore};
ghost use Rattle.kt_tablet.specs.Reads.{MaySnapshot, HasRead, ShowsRun, IsCopied, IsNoRead, LeavesRead};
ghost use Rattle.kt_engine.specs.Engines.{IsFound, core_from};
ghost use Rattle.kt_base.specs.declared.chore.Chore.{Chore as MaintSpec};
ghost use Rattle.kt_history.specs.declared.command.Command.{Command};
ghost use Rattle.kt_history.specs.Machine.{command_at};
ghost use Rattle.kt_engine.specs.Calls.{IsThrough};
ghost use Rattle.kt_engine.specs.Jobs.{upkeep_at};
ghost use Rattle.kt_engine.specs.Visits.{IsVisit};

use crate::engine::Engine;
use kt_base::Clock;
use kt_disk::Disk;
use kt_diskrowset::RowSetView;
use kt_history::At;
use kt_tablet::{LookNo, Snap, SnapNo};
use std::alloc::Global;

impl<L: Disk, D: Disk + Drop, C: Clock> Engine<L, D, C> {
    /// Draws the time of a scan of the present.
    pub fn look(&mut self, number: u32, index: u32) -> Result<u64, LookNo>
        requires { self.old.tablet.core.stopped ≡ false → MayLook self.old.tablet.core number index }
        ensures visit { IsVisit number self.old self.new }
        ensures looked { IfOk result (λ t. HasLooked self.old.tablet.core self.new.tablet.core number index t) }
        ensures beside { self.new ≡ record self.old { tablet = record self.old.tablet { core = self.new.tablet.core; clock = self.new.tablet.clock } } }
        ensures same { OnErr result (self.new ≡ self.old) }
        ensures stopped { self.old.tablet.core.stopped ≡ true → result ≡ Err LookNo.Stopped }
        ensures goes { result ≡ Err LookNo.Stopped → self.old.tablet.core.stopped ≡ true }
    {
        self.tablet.look(number, index)
    }

    /// Answers a scan: what the stores in memory hold up to the time that it reads, copied, and what tells the rows of the disk
    /// rowsets up to it.
    pub fn snapshot(
        &mut self,
        alloc: Global,
        number: u32,
        index: u32,
        at: At,
    ) -> Result<Snap<RowSetView>, SnapNo>
        requires { self.old.tablet.core.stopped ≡ false → MaySnapshot self.old.tablet.core number index at }
        ensures visit { IsVisit number self.old self.new }
        ensures read { IfOk result (λ snap. HasRead self.old.tablet.core self.new.tablet.core number index at snap.t) }
        ensures mark { IfOk result (λ snap. snap.mark ≡ self.old.tablet.core.a) }
        ensures copied { IfOk result IsCopied }
        ensures shows { IfOk result (λ snap. (first : Past) → IsFound self.old first → ShowsRun row_told (core_from self.old first) snap) }
        ensures beside { self.new ≡ record self.old { tablet = record self.old.tablet { core = self.new.tablet.core } } }
        ensures stopped { self.old.tablet.core.stopped ≡ true → result ≡ Err SnapNo.Stopped }
        ensures refused { IfErr result (IsNoRead self.old.tablet.core number at) }
        ensures left { IfErr result (LeavesRead self.old.tablet self.new.tablet number index) }
    {
        self.tablet.snapshot(alloc, number, index, at)
    }

    /// Raises the ancient history mark towards a time, and no further than no write flies.
    pub fn mark(&mut self, number: u32, index: u32, to: u64) -> Result<u64, LookNo>
        requires { self.old.tablet.core.stopped ≡ false → MayMark self.old.tablet.core number index to }
        ensures visit { IsVisit number self.old self.new }
        ensures marked { IfOk result (λ a. HasMarked self.old.tablet.core self.new.tablet.core number index to a) }
        ensures beside { self.new ≡ record self.old { tablet = record self.old.tablet { core = self.new.tablet.core } } }
        ensures same { OnErr result (self.new ≡ self.old) }
        ensures stopped { self.old.tablet.core.stopped ≡ true → result ≡ Err LookNo.Stopped }
        ensures goes { result ≡ Err LookNo.Stopped → self.old.tablet.core.stopped ≡ true }
    {
        self.tablet.mark(number, index, to)
    }

    /// Answers a maintenance command. The last round of its pass was of this command, and nothing of it is left to do.
    pub fn chore_done(&mut self, number: u32, index: u32) -> Result<(), LookNo>
        requires may { self.old.tablet.core.stopped ≡ false → MayAnswerChore self.old.tablet.core number index }
        requires through { (chore : MaintSpec) → command_at self.old.tablet.core.work number index ≡ Some (Command.Chore chore) → IsThrough chore (upkeep_at number self.old.upkeep.passes) }
        ensures visit { IsVisit number self.old self.new }
        ensures answered { OnOk result (self.new ≡ record self.old { tablet = record self.old.tablet { core = answered self.old.tablet.core number index (Chore number index) } }) }
        ensures same { OnErr result (self.new ≡ self.old) }
        ensures stopped { self.old.tablet.core.stopped ≡ true → result ≡ Err LookNo.Stopped }
        ensures goes { result ≡ Err LookNo.Stopped → self.old.tablet.core.stopped ≡ true }
    {
        self.tablet.chore_done(number, index)
    }
}
