//! Scripts of edits: a command a line, or a group of edits, as docs/OUTPUT.md has them.
//!
//! `read_session_script` answers the commands of a script that runs on a session alone, or the
//! first line that is wrong; `read_seat_script` those of one that a seat runs while workers decode,
//! and `read_edit_script` those of one that has edits alone. In each of them commands of the other
//! kinds are wrong: a session alone has no workers to tell what is wanted, and beside workers
//! nobody takes jobs. All rest on one reading of the text; by the law `one_reading` any other has
//! its commands and its wrong line in the same places. Below is stream_edits, whose edits the
//! commands are; above, script_run, which runs the first two, and
//! draw_run, which makes the third.
#![tactic(auto)]

mod commands;
mod edit_commands;
mod groups;
mod lines;
mod reading;
mod script;
mod seat_commands;
mod session_commands;

pub use commands::{Command, id_of_number};
pub use edit_commands::{EditCommand, read_edit_script};
pub use reading::one_reading;
pub use script::ScriptFault;
pub use seat_commands::{SeatCommand, read_seat_script};
pub use session_commands::{SessionCommand, read_session_script};
