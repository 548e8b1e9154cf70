//! Construction of the reference picture lists of a slice (ITU-T H.264, 8.2.4).
//!
//! `lists` answers list 0 and list 1 of a slice, or why it has none: the marked frames in their
//! initial order, cut to the active entries and modified by the header's commands.

mod construction;
mod fault;
mod initial_lists;
mod modification;
mod reference_list;

pub use construction::lists;
pub use fault::ListFault;
pub use h264_types::pictures::List;
