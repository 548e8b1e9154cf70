//! Why a group of edits is refused.

ghost use Rattle.std.specs.Prelude.{◌≡◌};
ghost use Rattle.stream_edits.specs.declared.group_refused.GroupRefused.TheVariants.{Memory};
ghost use Rattle.stream_edits.specs.GroupRefusals.{name_of_group, number_of_group, refusal_at};

use crate::refusals::EditRefused;
use std::alloc::{AllocError, AllocFailed};
use thiserror::Error;

/// Why a group of edits is refused, and with it each of them: the first of these that holds, in
/// this order. Memory may also be answered where an edit is refused.
#[derive(Clone, Copy, Debug, PartialEq, Eq, Hash, Error)]
pub enum GroupRefused {
    /// It has no edit.
    #[error("the group has no edit")]
    Empty,
    /// It has more than 1,024 edits.
    #[error("the group has more than 1,024 edits")]
    TooLarge,
    /// The first of its edits that is refused, counted from 0, and why, which isn't for lack of
    /// memory.
    #[error("edit {index}: {refused}")]
    Edit { index: usize, refused: EditRefused },
    /// A growth was refused.
    #[error("out of memory")]
    Memory,
}

impl GroupRefused {
    /// The refusal of a group whose edit at this index is refused so.
    pub(crate) fn at(index: usize, refused: EditRefused) -> GroupRefused
        ensures { result ≡ refusal_at index refused }
    {
        match refused {
            EditRefused::Memory => GroupRefused::Memory,
            _ => GroupRefused::Edit { index, refused },
        }
    }

    /// The refusal's number: 20, 21, that of the edit's refusal, or 15.
    pub fn number(self) -> u8
        ensures { result ≡ number_of_group self }
    {
        match self {
            GroupRefused::Empty => 20,
            GroupRefused::TooLarge => 21,
            GroupRefused::Edit { refused, .. } => refused.number(),
            GroupRefused::Memory => 15,
        }
    }

    /// The refusal's name, as it is printed: of an edit's refusal, that one's.
    pub fn name(self) -> &'static str
        ensures { result.now ≡ name_of_group self }
    {
        match self {
            GroupRefused::Empty => "EmptyGroup",
            GroupRefused::TooLarge => "GroupTooLarge",
            GroupRefused::Edit { refused, .. } => refused.name(),
            GroupRefused::Memory => "Memory",
        }
    }
}

impl From<AllocError> for GroupRefused {
    ghost from_gives = { λ _ e. e ≡ Memory };

    fn from(_e: AllocError) -> GroupRefused {
        GroupRefused::Memory
    }
}

impl<T: Drop> From<AllocFailed<T>> for GroupRefused {
    ghost from_gives = { λ _ e. e ≡ Memory };

    fn from(_e: AllocFailed<T>) -> GroupRefused {
        GroupRefused::Memory
    }
}
