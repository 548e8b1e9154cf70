//! The queues of a stateless memory-to-memory decoder, by the Linux media documentation.
//!
//! A request of the Request API binds controls to an OUTPUT buffer with a slice; queued requests
//! run in their order, and each writes to a CAPTURE buffer, which several slices of one frame may
//! hold. `Queues` keeps requests and buffers and says which slice is next and where it goes; the
//! work itself is a `SliceDecoder`, given by who uses them. What a slice's controls are is open.

mod buffers;
mod fault;
mod queues;
mod requests;
mod slice_decoder;

pub use buffers::{Buffer, BufferState, Dequeued, MOST_BUFFERS};
pub use fault::QueueFault;
pub use queues::Queues;
pub use requests::{MOST_REQUESTS, Output, QueueRequest, RequestId, RequestState};
pub use slice_decoder::{RunOne, SliceDecoder, Target};
