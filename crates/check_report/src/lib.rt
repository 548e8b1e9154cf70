//! `preview check`: what is the matter with a file, for a person.
//!
//! `check_on` reads what a reader gives, has stream_check look at it, and prints what was found: in
//! lines of text by `Report`, or as an object by `json_of`. Above is cli.
#![tactic(auto)]

mod json;
mod report;
mod running;

pub use json::json_of;
pub use report::Report;
pub use running::{Form, check_on};
