//! Sets of ids.

ghost use Rattle.std.specs.Prelude.{◌≡◌, ℕ, ◌==◌, ◌||◌, OnOk, false};
ghost use Rattle.unit_outcomes.specs.Sets.{has};

use h264_types::pictures::AuId;
use std::alloc::{AllocError, Global};
use std::collections::BTreeSet;

/// Ids, each once.
#[derive(Debug, Drop)]
pub(crate) struct IdSet {
    numbers: BTreeSet<u32>,
}

impl IdSet {
    /// No id.
    pub(crate) fn new(alloc: Global) -> IdSet
        ensures { (id : ℕ) → has result id ≡ false }
    {
        IdSet {
            numbers: BTreeSet::new(alloc),
        }
    }

    /// Whether an id is in the set.
    pub(crate) fn has(&self, id: AuId) -> bool
        ensures { result ≡ has self.now id }
    {
        self.numbers.contains(&id.number())
    }

    /// Adds an id.
    pub(crate) fn add(&mut self, id: AuId) -> Result<(), AllocError>
        ensures { OnOk result ((other : ℕ) → has self.new other
            ≡ ((id == other) || has self.old other)) }
    {
        self.numbers.insert(id.number())?;
        Ok(())
    }
}
