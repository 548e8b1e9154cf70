//! Numbers with a greatest value.

ghost use Rattle.std.specs.Prelude.{◌≡◌, ℕ, ◌≤◌};

use std::marker::Model;

/// A number from 0 to `MOST`, as fields with a range hold it.
#[derive(Clone, Copy, Debug, PartialEq, Eq, Drop)]
pub struct AtMost<const MOST: u8> {
    value: u8,
}

impl<const MOST: u8> Model for AtMost<MOST> {
    ghost Value = { ℕ };

    ghost view = { λ number. number.value };

    ghost inverse = { λ number. record { value = number } };

    ghost invariant = { λ number. number.value ≤ MOST };
}

impl<const MOST: u8> AtMost<MOST> {
    /// This number, which is in range.
    pub fn new(value: u8) -> AtMost<MOST>
        requires { value ≤ MOST }
        ensures { result ≡ value }
    {
        AtMost { value }
    }

    /// The number.
    pub fn get(self) -> u8
        ensures value { result ≡ self.entry }
        ensures bound { result ≤ MOST }
    {
        self.value
    }
}
