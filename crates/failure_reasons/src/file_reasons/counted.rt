//! How many access units a stream has, as far as it is read.

ghost use Rattle.std.specs.Prelude.{◌≡◌, length};

use access_unit::Unit;
use plan_stream::UnitFold;
use std::alloc::{AllocError, Global};

/// How many access units were read.
#[derive(Drop)]
pub(crate) struct Counted {
    count: usize,
}

impl Counted {
    /// None was.
    pub(crate) fn new() -> Counted
        ensures { result.count ≡ 0 }
    {
        Counted { count: 0 }
    }
}

impl UnitFold for Counted {
    ghost folds = { λ _ done counted. counted.count ≡ length done };

    ghost count = { λ counted. counted.count };

    fn len(&self) -> usize {
        self.count
    }

    fn add(&mut self, _alloc: Global, _unit: &Unit) -> Result<(), AllocError> {
        self.count += 1;
        Ok(())
    }
}
