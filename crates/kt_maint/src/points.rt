//! The points of a job, at which the gate of a run is called.
ghost use Rattle.std.specs.Prelude.{OnOk};

use kt_disk::{Gate, Point};
use kt_engine::MaintNo;

/// What the job does outside the lock is over: its outputs are written, unless that failed.
pub fn tell_written<G: Gate>(gate: &G, job: u32)
    ensures { G.came gate.now (Point.PhaseOne job) }
{
    gate.at(Point::PhaseOne { job });
}

/// The last visit of the job is over: where it is done, its outputs stand in the place of its inputs, and its superblock is published.
pub fn tell_ended<G: Gate>(gate: &G, job: u32, ended: &Result<(), MaintNo>)
    ensures swapped { OnOk ended.now (G.came gate.now (Point.Swapped job)) }
    ensures published { OnOk ended.now (G.came gate.now (Point.Published job)) }
{
    match ended {
        Ok(()) => {
            gate.at(Point::Swapped { job });
            gate.at(Point::Published { job });
        }
        Err(_) => {}
    }
}
