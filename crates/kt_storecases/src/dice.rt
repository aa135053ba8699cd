//! Numbers that follow from a seed.
ghost use Rattle.std.specs.Prelude.{◌<◌};

/// Numbers that follow from a seed.
#[derive(Drop)]
pub struct Dice {
    state: u64,
}

impl Dice {
    /// The numbers of this seed.
    pub fn of(seed: u64) -> Dice {
        Dice {
            state: seed.wrapping_mul(0x9E37_79B9_7F4A_7C15),
        }
    }

    /// The next number, which is below a bound.
    pub fn below(&mut self, bound: u32) -> u32
        requires { 0 < bound }
        ensures { result < bound }
    {
        self.state = self
            .state
            .wrapping_mul(6_364_136_223_846_793_005)
            .wrapping_add(1_442_695_040_888_963_407);
        ((self.state >> 33) % u64::from(bound)) as u32
    }
}
