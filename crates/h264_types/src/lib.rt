//! The values that every layer uses: numbers and lists of a bounded length, parameter sets, slice
//! headers, and pictures with what refers to them, as the standard names them.
//!
//! No crate of this repository stands below it; every other one stands above it.
#![tactic(auto)]

pub mod base;
pub mod param_sets;
pub mod pictures;
pub mod slice_headers;
