//! Numbers that look random.

ghost use Rattle.std.specs.Prelude.{◌<◌};

/// Numbers that look random (xorshift), the same ones each time.
#[derive(Debug, Drop)]
pub struct Draws {
    state: u64,
}

impl Draws {
    /// Draws from a seed, which isn't 0.
    pub fn new(seed: u64) -> Draws {
        Draws { state: seed }
    }

    /// The next number, below the bound; 0 where that is 0.
    pub fn below(&mut self, bound: u64) -> u64
        ensures { 0 < bound → result < bound }
    {
        self.state ^= self.state.wrapping_shl(13);
        self.state ^= self.state >> 7;
        self.state ^= self.state.wrapping_shl(17);
        self.state.checked_rem(bound).unwrap_or(0)
    }
}
