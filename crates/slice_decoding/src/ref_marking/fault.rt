//! Why a picture's marking can't be done.

use thiserror::Error;

/// Why a picture's marking can't be done. The marks are as they were.
#[derive(Clone, Copy, Debug, PartialEq, Eq, Hash, Error)]
pub enum MarkFault {
    /// An operation names a frame that isn't there, or an index above the greatest, or contradicts
    /// another.
    #[error("a marking operation names what isn't there, or contradicts another")]
    BadMarking = 1,
    /// The sliding window has to free a short-term frame, and there is none (8.2.5.3).
    #[error("the sliding window has no short-term frame to free")]
    NoShortTerm = 2,
    /// More frames are marked afterwards than max_num_ref_frames and one.
    #[error("more reference frames than max_num_ref_frames")]
    TooManyReferences = 3,
}

impl MarkFault {
    ghost use Rattle.std.specs.Prelude.{◌≡◌};
    ghost use Rattle.slice_decoding.specs.FaultNumbers.{number_of};

    /// The number, from 1 in the order above.
    pub fn number(self) -> u8
        ensures { result ≡ number_of self }
    {
        self as u8
    }
}
