//! Why edits aren't recorded.

ghost use Rattle.std.specs.Prelude.{◌≡◌};
ghost use Rattle.session_journal.specs.declared.unkept.Unkept.TheVariants.{Memory};
ghost use Rattle.session_journal.specs.SessionJournalKept.{unkept_of};

use edit_journal::JournalFault;
use std::alloc::{AllocError, AllocFailed};

/// Why edits aren't recorded, so that they aren't made.
#[derive(Clone, Copy, Debug, PartialEq, Eq)]
pub enum Unkept {
    /// The journal can't be written.
    Unwritten,
    /// A growth was refused.
    Memory,
}

impl From<JournalFault> for Unkept {
    ghost from_gives = { λ fault why. why ≡ unkept_of fault };

    fn from(fault: JournalFault) -> Unkept {
        match fault {
            JournalFault::Memory => Unkept::Memory,
            _ => Unkept::Unwritten,
        }
    }
}

impl From<AllocError> for Unkept {
    ghost from_gives = { λ _ why. why ≡ Memory };

    fn from(_e: AllocError) -> Unkept {
        Unkept::Memory
    }
}

impl<T: Drop> From<AllocFailed<T>> for Unkept {
    ghost from_gives = { λ _ why. why ≡ Memory };

    fn from(_e: AllocFailed<T>) -> Unkept {
        Unkept::Memory
    }
}
