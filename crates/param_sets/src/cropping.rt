//! The size of a frame after cropping (ITU-T H.264, 7.3.2.1.1 and 7.4.2.1.1).
//!
//! `read_sps` reads a sequence parameter set up to frame_cropping_flag. `cropped_size` skips the
//! codes of what it read, and reads the flag and the offsets behind them. Above is stream_check.

mod codes;
mod cropping;
mod size;
mod skipping;

pub use size::{Size, cropped_size};
