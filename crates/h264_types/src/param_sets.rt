//! Parameter sets as values (ITU-T H.264, 7.4.2.1 and 7.4.2.2): the types of their fields, when two
//! sets agree, and the scaling matrix that two of them make (7.4.2.1.1.1, 7.4.2.2, 8.5.6 and
//! 8.5.7).
//!
//! The scaling matrix has what its two sets sent, the default lists, and what lists that weren't
//! sent fall back to, in raster order. The sets are read by `param_sets`; what follows from them,
//! counts, lists and controls, is left to the crates above, none of which needs to know how a set
//! is written.

mod fall_back;
mod offsets;
mod pps;
mod same_sets;
mod scale_steps;
mod scaling_entries;
mod scaling_lists;
mod scaling_matrix;
mod sps;

pub use offsets::Offsets;
pub use pps::{Pps, WeightedBipred};
pub use scale_steps::scale_after;
pub use scaling_lists::{ScalingList, ScalingLists};
pub use scaling_matrix::{ScalingMatrix, resolve_matrix};
pub use sps::{ChromaFormat, PicOrderCntType, Sps};
