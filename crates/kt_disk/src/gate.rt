//! Points at which a test may hold a run.

/// A point that a run comes to.
#[derive(Clone, Copy, PartialEq, Eq)]
pub enum Point {
    Before { session: u32, index: u32 },
    Begun { session: u32, index: u32 },
    After { session: u32, index: u32 },
    PhaseOne { job: u32 },
    Swapped { job: u32 },
    Published { job: u32 },
    Device { mark: u32, change: u32 },
}

/// What a run calls at its points.
pub trait Gate {
    ghost use Rattle.kt_disk.specs.declared.gate.Point.{Point};

    /// It was called at this point.
    ghost came: { Self → Point → Type 0 };

    fn at(&self, point: Point)
        ensures { came self.now point };
}

/// Lets each run pass at once.
#[derive(Clone, Copy)]
pub struct PassGate;

impl Gate for PassGate {
    ghost came = { λ gate point. Unit {0} };

    fn at(&self, _point: Point) {}
}
