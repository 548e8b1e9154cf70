//! What tests of several crates build: parameter sets, headers, controls and requests of small
//! pictures, bits of units that no encoder writes, and drawn numbers. Tests alone use it. What a
//! picture's controls are here is put together by hand, from the standard and the documentation of
//! Linux, and not by the functions that fill them.
#![tactic(auto)]

mod bit_writer;
mod controls;
mod controls_of_sets;
mod draws;
mod headers;
mod requests;
mod sets;

pub use bit_writer::BitWriter;
pub use controls::{
    controls_of, idr_controls, idr_picture, list_of, p_controls, p_picture, slice_params,
};
pub use controls_of_sets::{small_pps_control, small_set_controls, small_sps_control};
pub use draws::Draws;
pub use headers::{p_header, p_header_with};
pub use requests::{request_of, shared};
pub use sets::{small_pps, small_sps};
