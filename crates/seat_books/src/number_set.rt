//! Sets of numbers.

ghost use Rattle.std.specs.Prelude.{◌≡◌, ℕ, ◌==◌, OnOk, true, false, if◌then◌else◌};
ghost use Rattle.seat_books.specs.Sets.{has};

use std::alloc::{AllocError, Global};
use std::collections::BTreeSet;

/// Numbers, each once.
#[derive(Debug, Drop)]
pub struct NumberSet {
    numbers: BTreeSet<u64>,
}

impl NumberSet {
    /// No number.
    pub(crate) fn new(alloc: Global) -> NumberSet
        ensures { (number : ℕ) → has result number ≡ false }
    {
        NumberSet {
            numbers: BTreeSet::new(alloc),
        }
    }

    /// Whether a number is in the set.
    pub fn has(&self, number: u64) -> bool
        ensures { result ≡ has self.now number }
    {
        self.numbers.contains(&number)
    }

    /// Adds a number.
    pub(crate) fn add(&mut self, number: u64) -> Result<(), AllocError>
        ensures { OnOk result ((other : ℕ) → has self.new other
            ≡ (if number == other then true else has self.old other)) }
    {
        self.numbers.insert(number)?;
        Ok(())
    }

    /// Takes a number out.
    pub(crate) fn remove(&mut self, number: u64)
        ensures { (other : ℕ) → has self.new other
            ≡ (if number == other then false else has self.old other) }
    {
        self.numbers.remove(&number);
    }
}
