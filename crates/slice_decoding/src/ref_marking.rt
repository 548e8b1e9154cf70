//! Decoded reference picture marking (ITU-T H.264, 8.2.5).
//!
//! `mark` answers the frames that are marked as references after a picture, in decode order, or why
//! the picture's marking can't be done; `mark_in_place` changes the set of the frames before it.

mod contradictions;
mod fault;
mod freeing;
mod marking;
mod operations;
mod sliding_window;

pub use fault::MarkFault;
pub use h264_types::pictures::{AuId, Frame, Marks, Term};
pub use marking::{mark, mark_in_place};
