//! States along a stream of units, each stored at a place: what a fold over the stream had come to
//! past so many units.
//!
//! `Checkpoints` answers the stored state from which to fold on, and keeps the others at their
//! places where a range of the stream changes. What a state is is left to the crates above.
#![tactic(auto)]

mod checkpoints;
mod laws;
mod shifting;

pub use checkpoints::{Checkpoint, Checkpoints};
pub use laws::{
    can_shift_after_cut, can_shift_up, near_after_cut, near_after_put, near_after_shift,
    one_before, spaced_where_near, stored_after_cut, stored_after_put, stored_after_shift,
};
pub use shifting::LengthChange;
