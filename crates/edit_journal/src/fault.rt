//! Why a journal isn't opened, or a record isn't added.

ghost use Rattle.std.specs.Prelude.{◌≡◌};
ghost use Rattle.edit_journal.specs.declared.fault.JournalFault.TheVariants.{Memory};
ghost use Rattle.edit_journal.specs.Faults.{fault_of};

use sqlite_trees::error::StoreError;
use std::alloc::{AllocError, AllocFailed};
use thiserror::Error;

/// Why a call of a journal did nothing.
#[derive(Clone, Copy, Debug, PartialEq, Eq, Hash, Error)]
pub enum JournalFault {
    /// The file is something else.
    #[error("the file is not a journal")]
    NotAJournal,
    /// Another process has the file open.
    #[error("another process has the journal open")]
    Locked,
    /// The file is damaged.
    #[error("the journal is damaged")]
    Damaged,
    /// The disk has no room.
    #[error("the disk is full")]
    Full,
    /// The disk failed, or the file can't be opened.
    #[error("the journal can't be read or written")]
    Failed,
    /// An earlier failure of the disk has shut the journal.
    #[error("an earlier failure has shut the journal")]
    Shut,
    /// A step's text, or the number of rows or records, is too great, or more rows are to be taken off than there are.
    #[error("the journal has no room for a record as large")]
    TooLarge,
    /// A growth was refused.
    #[error("out of memory")]
    Memory,
}

impl From<StoreError> for JournalFault {
    ghost from_gives = { λ e fault. fault ≡ fault_of e };

    fn from(error: StoreError) -> JournalFault {
        match error {
            StoreError::OutOfMemory => JournalFault::Memory,
            StoreError::Io => JournalFault::Failed,
            StoreError::Corrupt => JournalFault::Damaged,
            StoreError::Full => JournalFault::Full,
            StoreError::Broken => JournalFault::Shut,
            StoreError::Unstorable => JournalFault::TooLarge,
        }
    }
}

impl From<AllocError> for JournalFault {
    ghost from_gives = { λ _ fault. fault ≡ Memory };

    fn from(_e: AllocError) -> JournalFault {
        JournalFault::Memory
    }
}

impl<T: Drop> From<AllocFailed<T>> for JournalFault {
    ghost from_gives = { λ _ fault. fault ≡ Memory };

    fn from(_e: AllocFailed<T>) -> JournalFault {
        JournalFault::Memory
    }
}
