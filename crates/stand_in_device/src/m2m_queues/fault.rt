//! Why a call of the queues is refused.

ghost use Rattle.std.specs.Prelude.{◌≡◌};
ghost use Rattle.stand_in_device.specs.declared.m2m_queues.fault.QueueFault.TheVariants.{Memory};
ghost use Rattle.stand_in_device.specs.FaultNumbers.{number_of};

use std::alloc::AllocError;
use thiserror::Error;

/// Why a call is refused. A refused call changes nothing.
#[derive(Clone, Copy, Debug, PartialEq, Eq, Error)]
pub enum QueueFault {
    /// The request is in use: queued, complete, or bound to a buffer already.
    #[error("the request is busy")]
    Busy,
    /// There is no such request, or the request has no buffer or no controls.
    #[error("no such request, or not all of it is there")]
    NoEntry,
    /// There is no such buffer, or it isn't free.
    #[error("no free buffer of this index")]
    Invalid,
    /// Nothing is there to run or to dequeue.
    #[error("nothing is ready")]
    Again,
    /// As many requests are there as there may be.
    #[error("no room for a request")]
    NoSlot,
    /// A growth was refused.
    #[error("out of memory")]
    Memory,
}

impl QueueFault {
    /// The fault's number, from 1 in the order above.
    pub fn number(self) -> u8
        ensures { result ≡ number_of self }
    {
        match self {
            QueueFault::Busy => 1,
            QueueFault::NoEntry => 2,
            QueueFault::Invalid => 3,
            QueueFault::Again => 4,
            QueueFault::NoSlot => 5,
            QueueFault::Memory => 6,
        }
    }
}

impl From<AllocError> for QueueFault {
    ghost from_gives = { λ _ fault. fault ≡ Memory };

    fn from(_: AllocError) -> QueueFault {
        QueueFault::Memory
    }
}
