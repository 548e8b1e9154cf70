//! What standard error says in words of a script that isn't run: one line.
//!
//! `explain_script` reads a script once more, and says why its first wrong line is no command, as
//! far as the line's words tell; it needs memory for the line. Below is edit_script, which reads
//! scripts.

mod explaining;
mod forms;
mod reason;
mod wrong_line;

pub use explaining::{ScriptKind, explain_script, first_wrong};
pub use reason::{LineReason, line_reason};
pub use wrong_line::{WrongLine, say_wrong_line};
