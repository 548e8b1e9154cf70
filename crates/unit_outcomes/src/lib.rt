//! The outcome of a unit of a stream: the requests of its slices, the fault that keeps it from
//! being decoded, or that it has no picture.
//!
//! A fault has a number, a name and a text; slice_reading finds those that the slices of a unit
//! show by themselves, request_core the others. The fold of `request_core` makes outcomes; output
//! order, keys and the lines that are printed are made of them. `doubts` tells which pictures follow
//! a damage.
#![tactic(auto)]

pub mod doubts;
mod outcome;
mod requests;
mod validity_fault;

pub use outcome::{Outcome, Plan};
pub use requests::Requests;
pub use validity_fault::ValidityFault;
