//! What standard error says in words behind a failure: why files and scripts weren't taken.
//!
//! `stream_lines`, `edited_lines` and `script_lines` open files once more, and say in a line each why
//! one can't be read, or why its stream or its script isn't taken; where nothing is known, or there is
//! no memory for it, they have no line. Files are opened by `Again`, which opens nothing that can't be
//! read twice. `Watched` notes whether a refusal was printed, of which there is something to say.
//! `Explain` says why a file isn't taken while a server goes on.
//! `file_reasons` and `script_reasons` have the words. Below are stream_reasons, plan_stream and
//! edit_script; above are serve_run and cli.
#![tactic(auto)]

mod explain;
pub mod file_reasons;
mod loads;
mod noted;
pub mod script_reasons;
mod scripts;
mod streams;
mod unread;
mod watched;

pub use crate::script_reasons::ScriptKind;
pub use explain::{Again, Explain};
pub use scripts::{edited_lines, script_lines};
pub use streams::stream_lines;
pub use watched::Watched;
