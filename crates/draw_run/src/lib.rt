//! `preview draw`: a stream read, planned and drawn, as it is or after the edits of a script.
//!
//! `draw_on` has plan_stream read a byte stream to its end, folds each access unit once, and keeps
//! what is drawn alone; then it writes the document, or the line of the stream's refusal.
//! `draw_edited` makes a session of the stream with all its pictures held, marks the stream, makes
//! the script's edits on it, and writes the document of the stream that they leave: it shows of each
//! unit whether it is altered since, and whether its picture is held or pending. A unit in doubt is
//! shown so, and said to follow the fault that it follows. What is read and written is generic.
//! Below are stream_svg, plan_stream, edit_script and stand_in_session; above is cli.
#![tactic(auto)]

mod choice;
mod document;
mod doubt_line;
mod draw;
mod drawn;
mod drawn_fold;
mod edited;
mod edits;
mod fault;
mod loading;
mod settling;
mod shown;
pub mod unit_drawing;

pub use choice::{Choice, EditedChoice};
pub use draw::draw_on;
pub use edited::draw_edited;
pub use stream_svg::MOST_UNITS as MOST_DRAWN;
