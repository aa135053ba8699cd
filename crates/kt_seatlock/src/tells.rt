//! What a pass tells at run time.
ghost use Rattle.std.specs.Prelude.{◌≡◌};
ghost use Rattle.kt_seatlock.specs.Passes.{number};

use crate::pass::Pass;
use crate::shared::Shared;

impl<T: Shared> Pass<T> {
    /// Its number, which no other pass of the lock has.
    pub fn number(&self) -> u32
        ensures { result ≡ number self.now }
    {
        self.number
    }
}
