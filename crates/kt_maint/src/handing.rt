//! Handing the outputs of a job to the engine.
ghost use Rattle.std.specs.Prelude.{◌≡◌, [], None, Some, OnOk, IfOk, IsErr, replicate};
ghost use Rattle.std.specs.List.{AllByRecursion};
ghost use Rattle.kt_engine.specs.Jobs.{JobView, IsAtStage, job_of};
ghost use Rattle.kt_engine.specs.JobCalls.{ByWant, GivesOne};
ghost use Rattle.kt_engine.specs.declared.upkeep.Stage.TheVariants as stage;
ghost use Rattle.kt_maint.specs.Runs.{IsQuiet, IsReady, MayAbandon};
ghost use Rattle.kt_maint.specs.JobRuns.{HandsIn};

use kt_base::{Clock, NoMemory};
use kt_disk::Disk;
use kt_diskrowset::Outputs;
use kt_engine::Engine;
use kt_outputs::MissedFiles;
use std::alloc::Global;

// For each output of a job no file of missed changes.
fn no_files(alloc: Global, count: usize) -> Result<MissedFiles, NoMemory>
    ensures { IfOk result (λ files. files ≡ replicate count None) }
{
    let mut files = Vec::with_capacity(alloc, count)?;
    'files: for _ in 0..count {
        files.push_reserved(None);
    }
    Ok(MissedFiles::of(files))
}

/// Hands the outputs to the engine, which lack nothing. A job on the files of one disk rowset hands in that one, as it was written.
pub fn hand_in<L: Disk, D: Disk + Drop, C: Clock>(
    alloc: Global,
    engine: &mut Engine<L, D, C>,
    by: u32,
    outputs: Outputs,
) -> Result<(), NoMemory>
    requires read { (job : JobView) × IsAtStage engine.old.upkeep by stage.Read job }
    requires free { engine.old.upkeep.publishing ≡ None }
    requires calm { IsReady engine.old }
    requires fresh { AllByRecursion (λ d. d.fresh ≡ []) outputs.rowsets }
    requires rewritten { (job : JobView) → job_of by engine.old.upkeep ≡ Some job → ByWant job.want (Unit {0}) (λ rowset. GivesOne job.want engine.old.tablet.files outputs.rowsets) }
    ensures quiet { IsQuiet by engine.old engine.new }
    ensures beside { engine.new ≡ record engine.old { upkeep = engine.new.upkeep } }
    ensures written { OnOk result ((job : JobView) → job_of by engine.old.upkeep ≡ Some job → HandsIn by job outputs.rowsets engine.old engine.new) }
    ensures memory { IsErr result → MayAbandon engine.new by }
{
    let Ok(()) = engine.job_swap(alloc, by, outputs) else {
        return Err(NoMemory);
    };
    let Ok(missed) = engine.job_collect(alloc, by) else {
        return Err(NoMemory);
    };
    let files = no_files(alloc, missed.lists.len())?;
    let Ok(()) = engine.job_missed(by, files) else {
        return Err(NoMemory);
    };
    Ok(())
}
