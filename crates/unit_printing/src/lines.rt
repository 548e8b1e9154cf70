//! The lines of an access unit, as docs/OUTPUT.md has them.
//!
//! `UnitLines` is a unit's outcome: its plan with a line for each request, its fault, or that it
//! has no picture. `UnitHead` has the lines up to the position, and `write_tail` writes those after
//! it, of what is found of a unit before requests are made. `RefusalLine` is why a stream is
//! refused. Each declares its text. Below is request_core, whose outcomes and findings they print;
//! above, plan_stream and script_run.

mod frames;
mod lines;
mod numbers;
mod references;
mod requests;
mod tails;

pub use lines::{UnitHead, UnitLines};
pub use tails::{RefusalLine, write_tail};
