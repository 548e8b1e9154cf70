//! Why an audit isn't passed.

ghost use Rattle.std.specs.Prelude.{◌≡◌};
ghost use Rattle.seat_books.specs.declared.faults.AuditFault.TheVariants.{Memory};
ghost use Rattle.seat_books.specs.Numbers.{number_of};

use std::alloc::AllocError;
use thiserror::Error;

/// Why an audit isn't passed.
#[derive(Clone, Copy, Debug, PartialEq, Eq, Hash, Error)]
pub enum AuditFault {
    /// This receipt is the first that doesn't agree, in the first book that has one. Seats and
    /// receipts are counted from 1.
    #[error("receipt {number} of seat {seat} doesn't agree with the journal")]
    SeatDisagrees { seat: usize, number: usize },
    /// A growth was refused.
    #[error("out of memory")]
    Memory,
}

impl AuditFault {
    /// The fault's number, from 1 in the order above.
    pub fn number(self) -> u8
        ensures { result ≡ number_of self }
    {
        match self {
            AuditFault::SeatDisagrees { .. } => 1,
            AuditFault::Memory => 2,
        }
    }
}

impl From<AllocError> for AuditFault {
    ghost from_gives = { λ _ fault. fault ≡ Memory };

    fn from(_: AllocError) -> AuditFault {
        AuditFault::Memory
    }
}
