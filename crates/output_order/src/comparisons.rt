//! Counting of comparisons.

ghost use Rattle.std.specs.Prelude.{◌≡◌, ◌+◌, ◌<◌, ◌^◌};

use std::marker::Model;

/// How many pairs of units were compared.
#[derive(Debug, Drop)]
pub struct Comparisons {
    count: usize,
}

impl Model for Comparisons {
    ghost use Rattle.std.specs.Prelude.{ℕ};

    ghost Value = { ℕ };

    ghost view = { λ comparisons. comparisons.count };
}

impl Comparisons {
    /// No comparisons.
    pub fn new() -> Comparisons
        ensures { result ≡ 0 }
    {
        Comparisons { count: 0 }
    }

    /// How many there were.
    pub fn count(&self) -> usize
        ensures { result ≡ self.now }
    {
        self.count
    }

    /// One comparison more.
    pub(crate) fn raise(&mut self)
        requires { self.old + 1 < 2 ^ 64 }
        ensures { self.new ≡ self.old + 1 }
    {
        self.count += 1;
    }
}
