//! Why no group is answered.

ghost use Rattle.std.specs.Prelude.{◌≡◌};
ghost use Rattle.edit_history.specs.declared.refusals.NotUndone.TheVariants.{Memory};

use std::alloc::{AllocError, AllocFailed};
use thiserror::Error;

/// Why no group of edits is answered: the first of these that holds. Memory may also be answered
/// where another one holds but the first.
#[derive(Clone, Copy, Debug, PartialEq, Eq, Hash, Error)]
pub enum NotUndone {
    /// Nothing is there that could be undone, or redone.
    #[error("there is nothing to undo or to redo")]
    Nothing,
    /// A unit would come back, and 4,294,967,295 ids were given.
    #[error("all ids were given")]
    IdsSpent,
    /// The stream isn't the one whose changes were told.
    #[error("the history is that of another stream")]
    Unfit,
    /// A growth was refused.
    #[error("out of memory")]
    Memory,
}

impl From<AllocError> for NotUndone {
    ghost from_gives = { λ _ e. e ≡ Memory };

    fn from(_e: AllocError) -> NotUndone {
        NotUndone::Memory
    }
}

impl<T: Drop> From<AllocFailed<T>> for NotUndone {
    ghost from_gives = { λ _ e. e ≡ Memory };

    fn from(_e: AllocFailed<T>) -> NotUndone {
        NotUndone::Memory
    }
}
