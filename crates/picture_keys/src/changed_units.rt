//! What a change of a stream changed: the least range of places that has every unit that is new,
//! or becomes something else than before.
//!
//! A unit is compared by its id, by the key of its picture where it is valid, and else by its fault;
//! keys are compared by their numbers. `widen` goes over units one by one and widens a range by
//! those that changed. Above are picture_store, which knows the units of a changed stream and their
//! keys, and stream_edits, whose receipts tell the range.

mod changed;
mod columns;
mod finding;
mod widening;

pub use changed::Changed;
pub use columns::UnitColumns;
pub use widening::widen;
