//! The table of a run: that of its opening, and every write of its history.
ghost use Rattle.std.specs.Prelude.{◌≡◌, ◌<◌, ℕ, IfOk, OnOk};
ghost use Rattle.kt_history.specs.Machine.{Workload, State, Allowed, after, IsRun, start, state_after};
ghost use Rattle.kt_history.specs.History.{rows_at};
ghost use Rattle.kt_judge.specs.Works.{work_of};
ghost use Rattle.kt_judge.specs.Openings.{past_of, IsOpening};
ghost use Rattle.kt_judge.specs.Tables.{IsTable, IsTableOf};
ghost use Rattle.kt_judge.specs.Grown.{BeginsLater, Grows, end_of};
ghost use Rattle.kt_schema.specs.Columns.{fill_of};

use crate::follow::write_at;
use crate::keys::run_keys;
use crate::opening::{Opening, table_of};
use crate::versions::Versions;
use crate::writes::put_write;
use kt_base::{Cells, NoMemory, Octets};
use kt_history::Event;
use kt_script::Script;
use std::alloc::Global;

// What a line does to the table: a write that begins changes its rows.
fn put_line(
    alloc: Global,
    entries: &mut Vec<(Octets, Versions)>,
    script: &Script,
    fill: &Cells,
    event: &Event,
) -> Result<(), NoMemory>
    requires table { IsTable entries.old.items }
    requires later { BeginsLater event.now entries.old.items }
    requires fill { fill.now ≡ fill_of script.now.schema }
    ensures { OnOk result ((cells : ℕ) → Grows (work_of cells script.now) event.now entries.old.items entries.new.items) }
{
    if let Event::Begin { s, i, ts, .. } = *event {
        put_write(alloc, entries, fill, ts, write_at(&script.plan, s, i))?;
    }
    Ok(())
}

/// The table of a run of a script from an opening.
pub(crate) fn run_table(
    alloc: Global,
    opening: &Opening,
    script: &Script,
    cells: u32,
    events: &[Event],
) -> Result<Vec<(Octets, Versions)>, NoMemory>
    requires opening { IsOpening opening.now }
    requires run { IsRun (work_of cells script.now) (past_of opening.now) opening.now.c events.now }
    ensures { IfOk result (λ entries. IsTableOf (end_of (work_of cells script.now) (past_of opening.now) opening.now.c events.now).c (rows_at (end_of (work_of cells script.now) (past_of opening.now) opening.now.c events.now).past) entries.items) }
{
    let fill = script.schema.fill(alloc)?;
    let keys = run_keys(alloc, opening, script, events)?;
    let mut entries = table_of(alloc, opening, keys)?;
    for event in events {
        put_line(alloc, &mut entries, script, &fill, event)?;
    }
    Ok(entries)
}
