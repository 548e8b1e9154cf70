//! The parts of the standard's decoding process that need no samples: picture order counts,
//! reference marking and reference lists.
//!
//! Below it stands h264_types alone; request_core and stream_fold are made of it.
#![tactic(auto)]

pub mod order_count;
pub mod ref_lists;
pub mod ref_marking;
