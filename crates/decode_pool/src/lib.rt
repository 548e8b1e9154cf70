//! A session that several threads share: some edit and ask, and workers decode.
//!
//! A `DeskOf` has a session under a lock, over the pictures of any decoder. Each worker
//! (`work_with`) takes jobs, decodes them by its `Decoder` while nobody has the lock, and brings what
//! comes of them. What is wanted first, workers decode first. Pictures go back to the host as those
//! of a session do, and one that came too late goes back to the decoder that made it.
//!
//! A `Desk` is one at the stand-in, and has seats. Each `Seat` edits it and is shown its units, and
//! keeps a book of that; each `worker` decodes by a `Gate`. At the end `finish` looks whether the
//! books of all seats agree with the session's journal. Below are stream_session and worker_jobs,
//! stand_in_session and seat_books.
//!
//! What a call does to a session that is lent is its contract (`Seat::edit_in`,
//! `Seat::edit_group_in`, `Seat::show_in`). No clause names what lies under a lock, so of the calls
//! that take it the clauses say what they answer and note: that `Seat::edit`, `Seat::edit_group`
//! and `Seat::show` reach the desk's own session is known at `finish`, and by tests. A call that
//! answers nothing, as `DeskOf::close`, has no clause: it is a line that takes the lock, and a
//! function of what lies under it, which has one.
#![tactic(auto)]

mod appending;
mod desk;
mod faults;
mod finishing;
mod gate;
mod gathering;
mod group_note;
mod seat;
mod stand_in;
mod state;
mod status;
mod visiting;
mod wanting;
mod working;

pub use appending::Appended;
pub use desk::DeskOf;
pub use faults::{FinishFault, Unfinished};
pub use finishing::finish;
pub use gate::{Gate, worker};
pub use seat::Seat;
pub use stand_in::{Desk, drop_picture};
pub use state::Settled;
pub use worker_jobs::{Decoder, MOST_WANTED, Made, TooManyWanted, Worked};
pub use working::work_with;
