//! Making the tablet ready for a job: what waits for the log is durable, nothing flies, and both devices are at home.
ghost use Rattle.std.specs.Prelude.{◌≡◌, ◌⊎◌, [], None, Some, false};
ghost use Rattle.kt_engine.specs.Engines.{IsLent};
ghost use Rattle.kt_engine.specs.Visits.{IsVisit};
ghost use Rattle.kt_maint.specs.Runs.{is_pass, AppendsAs, SettlesAs, ReadyAs, HasNoDevice, StandsAs};

use kt_base::Clock;
use kt_disk::Disk;
use kt_engine::{Broken, Engine, LogNo};
use kt_journal::AppendNo;
use kt_loglaws::Batch;
use std::alloc::Global;

/// Whether a job can be run in this visit.
#[derive(Clone, Copy, PartialEq, Eq)]
pub enum Ready {
    Yes,
    /// Something is under way that another pass has.
    Wait,
    /// The tablet has stopped.
    Stopped,
    /// There was no memory for what waits for the log.
    Memory,
}

// Appends what was queued, and takes the log home.
fn append<L: Disk, D: Disk + Drop, C: Clock>(
    alloc: Global,
    engine: &mut Engine<L, D, C>,
    by: u32,
    mut batch: Batch<L>,
) -> Ready
    requires out { engine.old.log.holder ≡ Some by }
    requires journal { (batch.journal ≡ engine.old.log.known) × (batch.records ≡ engine.old.log.out) }
    requires queued { engine.old.log.queued ≡ [] }
    requires goes { engine.old.tablet.core.stopped ≡ false }
    requires lent { IsLent L.tells L.seen L.now L.leaves batch.journal batch.records }
    ensures visit { IsVisit by engine.old engine.new }
    ensures still { StandsAs by engine.old engine.new }
    ensures appends { AppendsAs by engine.old engine.new result }
{
    match batch.journal.append_batch(alloc, &batch.records) {
        Ok(()) => {
            engine.log_home(by, batch);
            Ready::Yes
        }
        Err(AppendNo::Memory) => {
            engine.log_back(by, batch);
            Ready::Memory
        }
        Err(AppendNo::Fault) => {
            engine.stop(by, Broken::Log(batch));
            Ready::Stopped
        }
    }
}

// Whether nothing is under way, once nothing waits for the log.
fn settle<L: Disk, D: Disk + Drop, C: Clock>(engine: &Engine<L, D, C>) -> Ready
    ensures yes { result ≡ Ready.Yes → (engine.now.tablet.core.aloft ≡ []) × (engine.now.log.holder ≡ None) × (engine.now.store.holder ≡ None) }
    ensures either { (result ≡ Ready.Yes) ⊎ (result ≡ Ready.Wait) }
{
    if engine.is_calm() {
        Ready::Yes
    } else {
        Ready::Wait
    }
}

/// Makes all that is queued durable, and takes the log home. It waits where another pass has the log out. After a fault the tablet is stopped.
pub fn append_waiting<L: Disk, D: Disk + Drop, C: Clock>(
    alloc: Global,
    engine: &mut Engine<L, D, C>,
    by: u32,
) -> Ready
    requires home { is_pass engine.old.log.holder by ≡ false }
    ensures visit { IsVisit by engine.old engine.new }
    ensures still { StandsAs by engine.old engine.new }
    ensures settles { SettlesAs by engine.old engine.new result }
{
    engine.standing();
    match engine.log_out(alloc, by) {
        Err(LogNo::Empty) => Ready::Yes,
        Ok(batch) => append(alloc, engine, by, batch),
        Err(LogNo::Stopped) => Ready::Stopped,
        Err(LogNo::Out { by: _ }) => Ready::Wait,
        Err(LogNo::Memory) => Ready::Memory,
    }
}

/// Makes all that is queued durable, and tells whether nothing is under way. After a fault the tablet is stopped.
pub fn make_ready<L: Disk, D: Disk + Drop, C: Clock>(
    alloc: Global,
    engine: &mut Engine<L, D, C>,
    by: u32,
) -> Ready
    requires home { HasNoDevice by engine.old }
    ensures visit { IsVisit by engine.old engine.new }
    ensures still { StandsAs by engine.old engine.new }
    ensures ready { ReadyAs by engine.old engine.new result }
{
    match append_waiting(alloc, engine, by) {
        Ready::Yes => settle(engine),
        Ready::Wait => Ready::Wait,
        Ready::Stopped => Ready::Stopped,
        Ready::Memory => Ready::Memory,
    }
}
