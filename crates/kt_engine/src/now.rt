//! The rows as they are now, without a line.
ghost use Rattle.std.specs.Prelude.{◌≡◌, [], IfOk};
ghost use Rattle.kt_history.specs.History.{Past};
ghost use Rattle.kt_diskrowset.specs.Page.{row_told};
ghost use Rattle.kt_tablet.specs.Reads.{ShowsRun, IsCopied};
ghost use Rattle.kt_engine.specs.Engines.{IsFound, core_from};

use crate::engine::Engine;
use kt_base::{Clock, NoMemory};
use kt_disk::Disk;
use kt_diskrowset::RowSetView;
use kt_tablet::Snap;
use std::alloc::Global;

impl<L: Disk, D: Disk + Drop, C: Clock> Engine<L, D, C> {
    /// What the stores hold up to the last timestamp. Where nothing flies, its views show what those of a snapshot at that time show: the rows of the run.
    /// It adds no line and changes nothing.
    pub fn rows_now(&self, alloc: Global) -> Result<Snap<RowSetView>, NoMemory>
        ensures time { IfOk result (λ snap. snap.t ≡ self.now.tablet.core.c) }
        ensures mark { IfOk result (λ snap. snap.mark ≡ self.now.tablet.core.a) }
        ensures copied { IfOk result IsCopied }
        ensures shows { IfOk result (λ snap. self.now.tablet.core.aloft ≡ [] → (first : Past) → IsFound self.now first → ShowsRun row_told (core_from self.now first) snap) }
    {
        self.tablet.rows_now(alloc)
    }
}
