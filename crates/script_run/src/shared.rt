//! Scripts that a seat runs while workers decode in threads.
//!
//! One seat of a desk runs the lines of a script, and each worker decodes by a gate in a thread of
//! its own. `script_with` writes what answers each line; `audit_with` writes no answers, but at the
//! end whether the seat's book agrees with the journal; `script_with_workers` and
//! `audit_with_workers` make the gates. Lines and faults are those of a script that runs alone.
//!
//! No clause names the session under the desk's lock. What is written is that of the answers that
//! the seat got, each of which is one of a session that its journal leads to.

mod audit;
mod commands;
mod ending;
mod loading;
mod nowhere;
mod run;
mod threads;

pub use audit::{audit_with, audit_with_workers};
pub use run::{script_with, script_with_workers};
