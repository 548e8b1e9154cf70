//! Picture order counts of H.264 (ITU-T H.264, 8.2.1): the order in which pictures are shown.
//!
//! `count` answers the two counts of a picture, from its slice header, its sequence parameter set
//! and the `Anchor`, which is what counting keeps of the pictures before; `anchor_after` answers
//! the next one.

mod anchors;
mod counting;
mod frame_numbers;
mod type_one;
mod type_two;
mod type_zero;

pub use anchors::{Anchor, anchor_after};
pub use counting::{OrderRange, count};
pub use h264_types::pictures::{Counts, after_reset, resets};
