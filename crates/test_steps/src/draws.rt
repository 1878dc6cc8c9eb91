//! Numbers that look random, and are the same each time. They are this crate's own, so that it stands on no table.
ghost use Rattle.std.specs.Prelude.{◌<◌};

/// A sequence of numbers drawn by chance (Knuth's multiplier for 64 bits).
#[derive(Drop)]
pub struct Draws {
    state: u64,
}

impl Draws {
    /// The sequence of this seed.
    pub(crate) fn new(seed: u64) -> Draws {
        Draws { state: seed }
    }

    /// The next number, below the bound.
    pub(crate) fn below(&mut self, bound: u64) -> u64
        requires { 0 < bound }
        ensures { result < bound }
    {
        self.state = self
            .state
            .wrapping_mul(6_364_136_223_846_793_005)
            .wrapping_add(1_442_695_040_888_963_407);
        let upper = self.state >> 33;
        upper % bound
    }
}
