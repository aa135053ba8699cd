//! Maintenance of a run, by the jobs and the workers of kt_maint.
use kt_base::{Chore, Clock};
use kt_disk::{Disk, Gate};
use kt_engine::{Engine, MaintNo};
use kt_maint::run_chore;
use kt_maint::work::work;
use kt_seatlock::{Pass, SeatLock};
use kt_serve::Chores;
use std::alloc::Global;
use std::sync::Wait;

/// The jobs that a maintenance command asks for, and those that a worker picks. The gate is called at their points.
#[derive(Drop)]
pub struct Jobs<'g, G> {
    pub gate: &'g G,
    /// Where more cells are in use than these as a session begins, it makes room first.
    pub cells: u32,
}

impl<'g, L: Disk, D: Disk + Drop, C: Clock, G: Gate> Chores<L, D, C> for Jobs<'g, G> {
    fn most_cells(&self) -> u32 {
        self.cells
    }

    fn run<R: Wait>(
        &self,
        rt: &R,
        alloc: Global,
        lock: &SeatLock<Engine<L, D, C>>,
        pass: &mut Pass<Engine<L, D, C>>,
        chore: Chore,
    ) -> Result<(), MaintNo> {
        run_chore(rt, alloc, lock, pass, chore, self.gate)
    }

    fn work<R: Wait>(
        &self,
        rt: &R,
        alloc: Global,
        lock: &SeatLock<Engine<L, D, C>>,
        pass: &mut Pass<Engine<L, D, C>>,
    ) {
        work(rt, alloc, lock, pass, self.gate);
    }
}
