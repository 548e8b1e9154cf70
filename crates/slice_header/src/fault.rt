//! Why a slice header was not read.

ghost use Rattle.std.specs.Prelude.{◌≡◌};
ghost use Rattle.slice_header.specs.declared.fault.HeaderFault.TheVariants.{Memory};
ghost use Rattle.slice_header.specs.CodeFaults.{fault_of};

use expgolomb::CodeFault;
use std::alloc::{AllocError, AllocFailed};
use thiserror::Error;

/// Why a slice header was not read: what its first field shows that can't be read.
#[derive(Clone, Copy, Debug, PartialEq, Eq, Hash, Error)]
pub enum HeaderFault {
    /// The payload ends within a field.
    #[error("the payload ends within the slice header")]
    Cut = 1,
    /// A field is out of its range, or its code has more than 31 zeros.
    #[error("a field of the slice header is out of its range")]
    Value = 2,
    /// A growth was refused.
    #[error("out of memory")]
    Memory = 3,
}

impl HeaderFault {
    ghost use Rattle.std.specs.Prelude.{◌≡◌};
    ghost use Rattle.slice_header.specs.FaultNumbers.{number_of};

    /// The number, from 1 in the order above.
    pub fn number(self) -> u8
        ensures { result ≡ number_of self }
    {
        self as u8
    }
}

impl From<AllocError> for HeaderFault {
    ghost from_gives = { λ _ e. e ≡ Memory };

    fn from(_e: AllocError) -> HeaderFault {
        HeaderFault::Memory
    }
}

impl<T: Drop> From<AllocFailed<T>> for HeaderFault {
    ghost from_gives = { λ _ e. e ≡ Memory };

    fn from(_e: AllocFailed<T>) -> HeaderFault {
        HeaderFault::Memory
    }
}

/// A code with too many zeros is a value out of range.
impl From<CodeFault> for HeaderFault {
    ghost from_gives = { λ fault e. e ≡ fault_of fault };

    fn from(fault: CodeFault) -> HeaderFault {
        match fault {
            CodeFault::Cut => HeaderFault::Cut,
            CodeFault::TooLong => HeaderFault::Value,
        }
    }
}
