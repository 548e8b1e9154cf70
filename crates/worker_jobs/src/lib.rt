//! The jobs of a worker: which it takes first, and those that it has in hand.
//!
//! A `Wanted` has the ids of units in order of urgency: those of a list, of at most 64, and before
//! them those that threads wait for; `take_first` takes a job of a session for the first of them
//! that needs one, and `is_at_rest` says whether all that is wanted is done. A `WorkerQueue` has the jobs
//! that a worker took and the results that its `Decoder` made of them, until each is brought back,
//! and counts what became of them; pictures that came too late go back to the decoder. All of it is
//! over the pictures of any decoder. Below is stream_session, above decode_pool.
#![tactic(auto)]

mod decoder;
mod taking;
mod wanted;
mod worker_queue;

pub use decoder::{Decoder, Made};
pub use wanted::{MOST_WANTED, TooManyWanted, Wanted};
pub use worker_queue::{Worked, WorkerQueue};
