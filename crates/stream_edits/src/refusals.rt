//! Why an edit is refused.

ghost use Rattle.std.specs.Prelude.{◌≡◌};
ghost use Rattle.stream_edits.specs.declared.refusals.EditRefused.TheVariants.{Memory};
ghost use Rattle.stream_edits.specs.Names.{name_of};
ghost use Rattle.stream_edits.specs.Numbers.{number_of, refusal_of_text};

use access_unit::Refused;
use std::alloc::{AllocError, AllocFailed};
use thiserror::Error;

/// Why an edit is refused: the first of these that holds, in this order. Memory may also be
/// answered where another one holds, if it was refused before that one was looked for
/// (`change_of`).
#[derive(Clone, Copy, Debug, PartialEq, Eq, Hash, Error)]
pub enum EditRefused {
    /// The bytes aren't the text of an access unit.
    #[error("{0}")]
    Unit(Refused),
    /// No unit has the id that the edit names.
    #[error("no unit has the id")]
    NoSuchUnit,
    /// An insertion, and the stream has 65,536 units.
    #[error("the stream has 65,536 units")]
    StreamFull,
    /// An insertion, and 4,294,967,295 ids were given.
    #[error("all ids were given")]
    IdsSpent,
    /// A growth was refused.
    #[error("out of memory")]
    Memory,
}

impl EditRefused {
    /// The refusal's number: that of the text's refusal, 1 to 14, or 15 to 18.
    pub fn number(self) -> u8
        ensures { result ≡ number_of self }
    {
        match self {
            EditRefused::Unit(refused) => refused.number(),
            EditRefused::NoSuchUnit => 16,
            EditRefused::StreamFull => 17,
            EditRefused::IdsSpent => 18,
            EditRefused::Memory => 15,
        }
    }

    /// The refusal's name, as it is printed.
    pub fn name(self) -> &'static str
        ensures { result.now ≡ name_of self }
    {
        match self {
            EditRefused::Unit(refused) => refused.name(),
            EditRefused::NoSuchUnit => "NoSuchUnit",
            EditRefused::StreamFull => "StreamFull",
            EditRefused::IdsSpent => "IdsSpent",
            EditRefused::Memory => "Memory",
        }
    }
}

impl From<Refused> for EditRefused {
    ghost from_gives = { λ refused e. e ≡ refusal_of_text refused };

    fn from(refused: Refused) -> EditRefused {
        match refused {
            Refused::Memory => EditRefused::Memory,
            _ => EditRefused::Unit(refused),
        }
    }
}

impl From<AllocError> for EditRefused {
    ghost from_gives = { λ _ e. e ≡ Memory };

    fn from(_e: AllocError) -> EditRefused {
        EditRefused::Memory
    }
}

impl<T: Drop> From<AllocFailed<T>> for EditRefused {
    ghost from_gives = { λ _ e. e ≡ Memory };

    fn from(_e: AllocFailed<T>) -> EditRefused {
        EditRefused::Memory
    }
}
