//! Requests, and what is bound to them.

ghost use Rattle.std.specs.Prelude.{◌≡◌};
ghost use Rattle.stand_in_device.specs.Machine.{empty_request};

use bytes::Bytes;

/// How many requests there may be at a time.
pub const MOST_REQUESTS: usize = 64;

/// The name of a request. One that was freed may be given again.
#[derive(Clone, Copy, Debug, PartialEq, Eq)]
pub struct RequestId(pub usize);

/// How far a request is.
#[derive(Clone, Copy, Debug, PartialEq, Eq)]
pub enum RequestState {
    /// It is being made up.
    Idle,
    /// It waits for its turn.
    Queued,
    /// It was run.
    Complete,
}

/// An OUTPUT buffer as it was queued: a slice of a frame.
#[derive(Debug, Drop)]
pub struct Output {
    /// Which OUTPUT buffer it is.
    pub index: usize,
    /// The slice.
    pub bytes: Bytes,
    /// The frame's timestamp in nanoseconds.
    pub timestamp: u64,
    /// Whether further slices of the frame follow, so that the CAPTURE buffer is held.
    pub hold: bool,
}

/// A request, and what is bound to it. A complete one has neither controls nor a buffer.
#[derive(Debug, Drop)]
pub struct QueueRequest<C> {
    pub state: RequestState,
    /// The slice's controls.
    pub controls: Option<C>,
    /// The OUTPUT buffer that is queued with it.
    pub output: Option<Output>,
}

impl<C> QueueRequest<C> {
    /// A request to which nothing is bound.
    pub(crate) fn empty(state: RequestState) -> QueueRequest<C>
        ensures { result ≡ empty_request state }
    {
        QueueRequest {
            state,
            controls: None,
            output: None,
        }
    }
}
