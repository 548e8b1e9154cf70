//! What an accepted edit changed.

ghost use Rattle.std.specs.Prelude.{◌≡◌, IfOk};
ghost use Rattle.edit_history.specs.Changes.{Changes};
ghost use Rattle.edit_history.specs.Texts.{Texts};

use bytes::Bytes;
use std::alloc::AllocError;

/// What an accepted edit changed. A place is that before which so many units stand.
#[derive(Debug, Drop)]
pub enum UnitChange {
    /// A unit of this text stands at the place.
    Inserted(usize, Bytes),
    /// The unit of this text that stood at the place is gone.
    Deleted(usize, Bytes),
    /// At the place a unit of the second text stands where one of the first stood.
    Replaced(usize, Bytes, Bytes),
}

impl UnitChange {
    /// The change once more; it shares the bytes.
    pub fn copy(&self) -> Result<UnitChange, AllocError>
        ensures { IfOk result (λ copy. copy ≡ self.now) }
    {
        match self {
            UnitChange::Inserted(at, text) => Ok(UnitChange::Inserted(*at, text.clone()?)),
            UnitChange::Deleted(at, text) => Ok(UnitChange::Deleted(*at, text.clone()?)),
            UnitChange::Replaced(at, former, text) => {
                Ok(UnitChange::Replaced(*at, former.clone()?, text.clone()?))
            }
        }
    }

    /// What takes the change back. It shares the bytes.
    pub(crate) fn inverse(&self) -> Result<UnitChange, AllocError>
        ensures { IfOk result (λ inverse. (old : Texts) (new : Texts)
            → Changes old self.now new → Changes new inverse old) }
    {
        match self {
            UnitChange::Inserted(at, text) => Ok(UnitChange::Deleted(*at, text.clone()?)),
            UnitChange::Deleted(at, text) => Ok(UnitChange::Inserted(*at, text.clone()?)),
            UnitChange::Replaced(at, former, text) => {
                Ok(UnitChange::Replaced(*at, text.clone()?, former.clone()?))
            }
        }
    }
}
