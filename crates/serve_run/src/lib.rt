//! The server of `preview serve` over any reader and writer (docs/SERVER.md).
//!
//! `serve_alone`, `serve_with` and `serve_with_workers` read messages line by line, have serve_calls
//! do what each asks for, and answer it before they read the next one: with a session of its own in
//! one thread, or at a desk beside workers that decode, while a thread of its own tells of wanted
//! pictures as they become ready. Below are serve_calls, which does what messages ask for,
//! session_journal, in which edits are recorded, and decode_pool, which has the desk; above is cli.
#![tactic(auto)]

mod answers;
mod desk_backend;
mod end;
mod line_writer;
mod lines;
mod service;
mod serving;
mod threads;

pub use end::{ServeEnd, say_end, say_journal_fault};
pub use service::Service;
pub use serving::serve_alone;
pub use threads::{serve_with, serve_with_workers};
