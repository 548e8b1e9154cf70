//! Why no code was read.

use thiserror::Error;

/// Why no code was read. The reader is where it was.
#[derive(Clone, Copy, Debug, PartialEq, Eq, Hash, Error)]
pub enum CodeFault {
    /// The bits end within the code.
    #[error("the bits end within a code")]
    Cut = 1,
    /// The code has more than 31 zeros at its front, so its value has more than 32 bits.
    #[error("a code has more than 31 zeros at its front")]
    TooLong = 2,
}

impl CodeFault {
    ghost use Rattle.std.specs.Prelude.{◌≡◌};
    ghost use Rattle.expgolomb.specs.FaultNumbers.{number_of};

    /// The number, from 1 in the order above.
    pub fn number(self) -> u8
        ensures { result ≡ number_of self }
    {
        self as u8
    }
}
