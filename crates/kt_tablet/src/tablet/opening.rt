//! The plan of a run, and what is left once it is over.
ghost use Rattle.std.specs.Prelude.{◌≡◌, ◌≤◌, length, [], false};
ghost use Rattle.kt_history.specs.Machine.{first_turns};
ghost use Rattle.kt_tablet.specs.Plans.{PlanKeeps};

use super::Tablet;
use kt_base::Clock;
use kt_history::{EventList, Plan};
use kt_stores::FileStore;
use std::snapshot::Snapshot;

impl<R: FileStore, C: Clock> Tablet<R, C> {
    /// Takes the plan of the run, which keeps the rules: no event asks for that again. It takes no memory.
    pub fn set_plan(&mut self, plan: &Plan)
        requires fresh { (self.old.core.trail ≡ []) × (self.old.core.aloft ≡ []) × (self.old.core.stopped ≡ false) }
        requires few { length plan.now ≤ 64 }
        requires keeps { PlanKeeps (record self.old.core.work { plan = plan.now }) }
        ensures { self.new ≡ record self.old { core = record self.old.core { work = record self.old.core.work { plan = plan.now }; turns = first_turns plan.now } } }
    {
        self.turns.begin(plan);
        self.plan = Snapshot::of(plan);
    }
}

impl<R: FileStore + Drop, C: Clock> Tablet<R, C> {
    /// The clock and the history, once all is over.
    pub fn take_apart(self) -> (C, EventList)
        ensures { (result.0 ≡ self.clock) × (result.1 ≡ self.core.trail) }
    {
        let Tablet { clock, trail, .. } = self;
        (clock, EventList::of(trail))
    }
}
