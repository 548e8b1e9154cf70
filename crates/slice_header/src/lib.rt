//! Slice headers of H.264 (ITU-T H.264, 7.3.3).
//!
//! A header is read from a slice's NAL unit, or from the start of it, and the parameter sets that
//! it names, by the tables of `expgolomb`. It is a value of h264_types. A `Start` is the
//! unit with the first bytes of its payload, unescaped once: `read_from` reads the header from it,
//! and `peek_start` the first fields, which need no parameter sets, over the same rows and faults;
//! `peek` and `slice_type` read those from the unit, whatever follows. What the fields lead to is
//! left to the crates above.
#![tactic(auto)]

mod coding;
mod fault;
pub mod fields;
mod front;
pub mod front_laws;
mod headers;
pub mod laws;
mod marking_syntax;
mod modification_syntax;
mod picture_fields;
mod prediction;
mod reading;
mod starts;
mod weight_syntax;

pub use fault::HeaderFault;
pub use front::{HeaderFront, header_front, peek, peek_start, slice_type};
pub use h264_types::slice_headers::{
    DecRefPicMarking, MemoryManagementControlOperation, MemoryManagementControlOperations,
    PredWeight, PredWeightTable, PredWeights, RefPicListModification, RefPicListModifications,
    SliceHeader, SliceType,
};
pub use reading::{read, read_from};
pub use starts::Start;
