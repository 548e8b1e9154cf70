//! The controls of a request in the memory layout of the Linux kernel's structs, ready for its
//! Request API.
//!
//! A struct has the members, the order, the types and the size of the one of
//! <linux/v4l2-controls.h> that its line names, and a function `of` that fills it from the control.
//! The same structs are written as JSON by `serde`: members under their names, flags as the
//! kernel's names of those that are set, rising, joined by `|`; what is reserved is left out.

mod decode_params;
mod dpb_entry;
mod flag_names;
mod frame_controls;
mod pps;
mod pred_weights;
mod scaling_matrix;
mod slice_params;
mod sps;

pub use decode_params::DecodeParamsLayout;
pub use dpb_entry::DpbEntryLayout;
pub use frame_controls::FrameControlsLayout;
pub use pps::PpsLayout;
pub use pred_weights::{PredWeightsLayout, WeightFactorsLayout};
pub use scaling_matrix::ScalingMatrixLayout;
pub use slice_params::{ReferenceLayout, SliceParamsLayout};
pub use sps::SpsLayout;
