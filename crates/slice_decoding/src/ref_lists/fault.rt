//! Why a slice has no reference picture lists.

use thiserror::Error;

/// Why a slice has no reference picture lists.
#[derive(Clone, Copy, Debug, PartialEq, Eq, Hash, Error)]
pub enum ListFault {
    /// A short-term frame has the PicOrderCnt of another or of the picture, in a B slice.
    #[error("two pictures have one picture order count")]
    OrderTie = 1,
    /// No frame is marked, in a P or B slice.
    #[error("no reference picture")]
    NoReference = 2,
    /// A command names no marked frame.
    #[error("a modification names no reference picture")]
    BadModification = 3,
}

impl ListFault {
    ghost use Rattle.std.specs.Prelude.{◌≡◌};
    ghost use Rattle.slice_decoding.specs.RefListsFaultNumbers.{number_of};

    /// The number, from 1 in the order above.
    pub fn number(self) -> u8
        ensures { result ≡ number_of self }
    {
        self as u8
    }
}
