//! The fold over a stream: from the units before a unit to the requests of its slices, or to its
//! fault; a unit without slices has neither.
//!
//! `step` is one step of it, `scratch` all of it. `UnitRead::step` is a step that makes no
//! requests: it answers a picture, of which `step` makes them. Below are the crates that read
//! headers, count, mark and list; above, those that keep a stream under edits.
#![tactic(auto)]

mod checks;
mod picture;
mod planning;
mod reading;
mod requesting;
mod state;
mod stepping;
mod steps;

pub use picture::{Listed, PlannedPicture, StepResult};
pub use reading::UnitRead;
pub use state::State;
pub use stepping::{scratch, step};
pub use steps::Steps;
pub use unit_outcomes::{Outcome, Plan, Requests, ValidityFault};
