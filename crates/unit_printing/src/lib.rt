//! What is printed of units: lines for a reader, and JSON for a program.
//!
//! Below it stand the requests and the outcomes of units, above it plan_stream, the runs and cli.
#![tactic(auto)]

pub mod json;
pub mod lines;
