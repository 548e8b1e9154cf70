//! The journal of a session: its steps are recorded before they are made, and read again after a crash.
//!
//! `Records` is one who records the steps of a session: edits, groups and loads; `compact` puts a
//! snapshot of the stream in the place of all. A `SessionJournal` is
//! one over a journal of edit_journal, by which each step is a record that is committed and
//! synchronised, or isn't there. `Journals` opens them by names; HostRuntime's are files
//! (docs/JOURNAL.md). `steps` says what is kept of a step. Below are edit_journal and stream_edits;
//! above is serve_calls.
#![tactic(auto)]

mod last_step;
mod opening;
mod records;
mod session_journal;
pub mod steps;
mod unkept;

pub use crate::steps::{EditList, RecordedStep, Snapshot};
pub use edit_journal::JournalFault;
pub use opening::{Journals, SessionFile};
pub use records::Records;
pub use session_journal::SessionJournal;
pub use unkept::Unkept;
