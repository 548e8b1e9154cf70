//! The slices of a unit, read over the parameter sets that the stream has sent.
//!
//! `tables_with` puts a unit's sets into the tables, `read_slices` reads its slices against them,
//! and `slice_fault` tests whether they can be those of one picture. Of several slices' faults the
//! one of the lowest number is given (`Gathered`). Below are the crates that read units and
//! headers; above is request_core, which folds over units.
#![tactic(auto)]

mod checks;
mod entries;
mod gathered;
mod putting;
mod sets;
mod slices;
mod tables;
mod unplanned;

pub use checks::slice_fault;
pub use gathered::Gathered;
pub use putting::tables_with;
pub use slices::{Slice, read_slices};
pub use tables::Tables;
pub use unplanned::Unplanned;
