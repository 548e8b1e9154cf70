//! Why a text doesn't split.
ghost use Rattle.std.specs.Prelude.{◌≡◌};
ghost use Rattle.annexb.specs.SplitFault.{number_of};

use thiserror::Error;

/// What keeps a text from being split into units.
#[derive(Clone, Copy, Debug, PartialEq, Eq, Error)]
pub enum SplitFault {
    /// The text doesn't begin with zeros and a start code.
    #[error("no start code")]
    NoStartCode,
    /// A run of zeros that begins here may stand in no unit (7.4.1), and neither ends the text nor
    /// belongs to a start code.
    #[error("forbidden bytes at {at}")]
    ForbiddenBytes { at: usize },
    /// The start code that ends here has no unit after it.
    #[error("no unit at {at}")]
    EmptyUnit { at: usize },
    /// A growth was refused.
    #[error("out of memory")]
    Memory,
}

impl SplitFault {
    /// The fault's number, from 1 in the order above.
    pub fn number(self) -> u8
        ensures { result ≡ number_of self }
    {
        match self {
            SplitFault::NoStartCode => 1,
            SplitFault::ForbiddenBytes { .. } => 2,
            SplitFault::EmptyUnit { .. } => 3,
            SplitFault::Memory => 4,
        }
    }
}
