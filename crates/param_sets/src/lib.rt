//! Sequence and picture parameter sets of H.264 (ITU-T H.264, 7.3.2.1 and 7.3.2.2).
//!
//! `read_sps` and `read_pps` answer exactly the set of a payload, or what its first field shows
//! that can't be read. `cropping` reads the size of a frame. The sets and their scaling matrix are
//! values of h264_types. Below is expgolomb, which reads codes; above are access_unit and
//! stream_check.
#![tactic(auto)]

pub mod cropping;
mod fault;
pub mod laws;
mod pic_parameter_set;
mod scaling_list;
mod seq_parameter_set;
mod set_fields;

pub use fault::{SetFault, SetField};
pub use h264_types::param_sets::{
    ChromaFormat, Offsets, PicOrderCntType, Pps, ScalingList, ScalingLists, ScalingMatrix, Sps,
    WeightedBipred, resolve_matrix,
};
pub use pic_parameter_set::read_pps;
pub use seq_parameter_set::read_sps;
