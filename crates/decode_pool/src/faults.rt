//! Why a desk isn't finished.

ghost use Rattle.std.specs.Prelude.{◌≡◌};
ghost use Rattle.decode_pool.specs.declared.faults.FinishFault.TheVariants.{Memory};
ghost use Rattle.decode_pool.specs.Numbers.{number_of};

use crate::seat::Seat;
use crate::stand_in::Desk;
use stand_in_session::JournalEntry;
use std::alloc::AllocError;
use thiserror::Error;

/// Why a desk isn't finished.
#[derive(Clone, Copy, Debug, PartialEq, Eq, Hash, Error)]
pub enum FinishFault {
    /// The seats aren't those that the desk was opened with: a number is missing, is there twice or
    /// is none of theirs. Or, where the journal is handed back too, one of its edits or groups
    /// stands in no book.
    #[error("a seat is missing")]
    SeatMissing,
    /// This receipt is the first that doesn't agree with the journal, in the first book that has
    /// one. Both are counted from 1.
    #[error("receipt {number} of seat {seat} doesn't agree with the journal")]
    SeatDisagrees { seat: usize, number: usize },
    /// A growth was refused.
    #[error("out of memory")]
    Memory,
    /// The session began from a snapshot: books are audited from an empty stream on alone.
    #[error("the session began from a snapshot")]
    NotAudited,
}

impl FinishFault {
    /// The fault's number, from 1 in the order above.
    pub fn number(self) -> u8
        ensures { result ≡ number_of self }
    {
        match self {
            FinishFault::SeatMissing => 1,
            FinishFault::SeatDisagrees { .. } => 2,
            FinishFault::Memory => 3,
            FinishFault::NotAudited => 4,
        }
    }
}

/// A desk that isn't finished, with all that was handed in.
#[derive(Drop)]
pub struct Unfinished {
    pub desk: Desk,
    pub seats: Vec<Seat>,
    pub cause: FinishFault,
    /// The journal, where the cause speaks of it.
    pub journal: Option<Vec<JournalEntry>>,
}
