//! Ids of access units.

ghost use Rattle.std.specs.Prelude.{◌≡◌, ◌*◌};

use std::marker::Model;

/// The id of an access unit of a stream: 1, 2, 3 and so on, in the order in which they were
/// accepted.
#[derive(Clone, Copy, Debug, PartialEq, Eq, PartialOrd, Ord, Hash, Drop)]
pub struct AuId {
    number: u32,
}

impl Model for AuId {
    ghost use Rattle.std.specs.Prelude.{ℕ};

    ghost Value = { ℕ };

    ghost view = { λ id. id.number };

    ghost inverse = { λ number. record { number = number } };
}

impl AuId {
    /// The id of this number.
    pub fn new(number: u32) -> AuId
        ensures { result ≡ number }
    {
        AuId { number }
    }

    /// Its number.
    pub fn number(self) -> u32
        ensures { result ≡ self }
    {
        self.number
    }

    /// The timestamp of the unit, in nanoseconds.
    pub fn timestamp(self) -> u64
        ensures { result ≡ 1000 * self }
    {
        1000 * u64::from(self.number)
    }
}
