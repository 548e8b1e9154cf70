//! The controls of a stateless H.264 decoder that the parameter sets alone decide.
//!
//! SPS, PPS and SCALING_MATRIX are structs under their Linux names, with the members that Linux
//! gives them and a function `of` that fills them from the parsed sets. `SetControls` has the three
//! of a picture parameter set, and `sets_form` writes them as the bytes of which a picture's digest
//! is made, member by member as `words` writes them.
#![tactic(auto)]

mod set_controls;
mod v4l2_ctrl_h264_pps;
mod v4l2_ctrl_h264_scaling_matrix;
mod v4l2_ctrl_h264_sps;
pub mod words;

pub use set_controls::{SetControls, put_sets, sets_form};
pub use v4l2_ctrl_h264_pps::{PpsFlags, V4l2CtrlH264Pps};
pub use v4l2_ctrl_h264_scaling_matrix::V4l2CtrlH264ScalingMatrix;
pub use v4l2_ctrl_h264_sps::{SpsFlags, V4l2CtrlH264Sps};
