//! The numbers of keys.

ghost use Rattle.std.specs.Prelude.{◌≡◌};

use std::marker::Model;

/// The number of a key, which `Keys::intern` gives.
#[derive(Clone, Copy, Debug, PartialEq, Eq, PartialOrd, Ord, Hash, Drop)]
pub struct KeyId {
    number: u64,
}

impl Model for KeyId {
    ghost use Rattle.std.specs.Prelude.{ℕ};

    ghost Value = { ℕ };

    ghost view = { λ id. id.number };

    ghost inverse = { λ number. record { number = number } };
}

impl KeyId {
    /// The key of this number.
    pub(crate) fn new(number: u64) -> KeyId
        ensures { result ≡ number }
    {
        KeyId { number }
    }

    /// Its number.
    pub fn number(self) -> u64
        ensures { result ≡ self }
    {
        self.number
    }
}
