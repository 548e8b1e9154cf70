//! The byte stream of ITU-T H.264: NAL units and access units.
//!
//! A text is split into its units or refused with its first fault, and units are joined again. A
//! unit gives its payload, without emulation prevention, and a list of units is cut into access
//! units. What the bits of a payload mean is left to the crates above.
#![tactic(auto)]

mod access_units;
mod byte_stream;
mod emulation_prevention;
mod fault;
mod headers;
mod laws;
mod nal_unit;
mod search;

pub use access_units::cut_units;
pub use byte_stream::{START_CODE, join, split};
pub use emulation_prevention::{payload, payload_front};
pub use fault::SplitFault;
pub use headers::{
    begins_access_unit, begins_at_macroblock_zero, is_slice, nal_unit_type, precedes_slices,
};
pub use laws::{one_cut, one_payload, one_reading, units_of_joined};
pub use nal_unit::Nal;
pub use search::{Found, first_unit, unit_at};
