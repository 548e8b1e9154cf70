//! Counting of hashed bytes.

ghost use Rattle.std.specs.Prelude.{◌≡◌, ◌+◌, ◌<◌, ◌^◌};

use std::marker::Model;

/// How many bytes of slices were hashed.
#[derive(Debug, Drop)]
pub struct HashedBytes {
    count: usize,
}

impl Model for HashedBytes {
    ghost use Rattle.std.specs.Prelude.{ℕ};

    ghost Value = { ℕ };

    ghost view = { λ hashed. hashed.count };
}

impl HashedBytes {
    /// None.
    pub fn new() -> HashedBytes
        ensures { result ≡ 0 }
    {
        HashedBytes { count: 0 }
    }

    /// How many there were.
    pub fn count(&self) -> usize
        ensures { result ≡ self.now }
    {
        self.count
    }

    /// So many more.
    pub(crate) fn raise(&mut self, bytes: usize)
        requires { self.old + bytes < 2 ^ 64 }
        ensures { self.new ≡ self.old + bytes }
    {
        self.count += bytes;
    }
}
