//! What ends the planning of a unit.

ghost use Rattle.std.specs.Prelude.{◌≡◌};
ghost use Rattle.slice_reading.specs.declared.unplanned.Unplanned.TheVariants.{Memory};

use std::alloc::{AllocError, AllocFailed};
use unit_outcomes::ValidityFault;

/// What ends the planning of a unit.
#[derive(Clone, Copy, Debug, PartialEq, Eq, Drop)]
pub enum Unplanned {
    /// The unit shows this fault.
    Fault(ValidityFault),
    /// Memory ran out, which says nothing of the unit.
    Memory,
}

impl From<AllocError> for Unplanned {
    ghost from_gives = { λ _ e. e ≡ Memory };

    fn from(_e: AllocError) -> Unplanned {
        Unplanned::Memory
    }
}

impl<T: Drop> From<AllocFailed<T>> for Unplanned {
    ghost from_gives = { λ _ e. e ≡ Memory };

    fn from(_e: AllocFailed<T>) -> Unplanned {
        Unplanned::Memory
    }
}
