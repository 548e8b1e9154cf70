//! The command line of `preview`, and what is done with it on files, a standard input and two
//! outputs.
//!
//! `words` reads the process's words, and `parse` answers what they ask for, or clap's answer to
//! them: help, the version, or what is wrong (docs/OUTPUT.md has the forms). `run` does what the
//! process's words ask for, and `run_on` what given words ask for: a plan (plan_stream,
//! unit_printing), a stream mended (mend_run), a check (check_report), a drawing (draw_run), a
//! script in one thread or beside workers and an audit (script_run), or a server (serve_run).
//! `explain` says in words, behind a failure, why files and scripts weren't taken (failure_reasons).
//! What opens, is read and is written is generic. Above is preview, which has the process's own.
#![tactic(auto)]

mod explaining;
mod invocation;
mod named_texts;
mod parsing;
mod planning;
mod planning_args;
mod running;
mod serving;
mod serving_args;

pub use explaining::explain;
pub use invocation::{Invocation, MOST_WORKERS, Serving, Workers};
pub use parsing::{parse, words};
pub use running::{run, run_on};
