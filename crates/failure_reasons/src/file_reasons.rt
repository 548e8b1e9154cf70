//! What standard error says in words of a file that isn't read as a stream: one line.
//!
//! `find_reason` reads a file through plan_stream's window, and says what kind of file it is and why
//! its stream is refused, if it is; `explain_file` says that in a line, for which it needs memory.
//! Below is stream_reasons, which has the words.

mod counted;
mod file_reason;
mod front;
mod refused_file;

pub use file_reason::{FileReason, find_reason};
pub use refused_file::{RefusedFile, explain_file};
