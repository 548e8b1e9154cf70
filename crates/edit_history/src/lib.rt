//! What can be undone and redone, as a value beside a stream of access units.
//!
//! A `History` is told what each accepted edit, group or load changed, as `UnitChange`s: room is made
//! before the edit (`History::reserve`), so that one that is accepted is always taken in
//! (`History::changed`). `History::undo` answers the group of edits that takes the last of them back,
//! `History::redo` the group that makes it again. Once the group is made, `History::undone` or
//! `History::redone` is told so. Clauses say
//! what becomes of the units' texts, in their order: an undo leaves those before what it takes back,
//! whatever was undone and redone before. Ids may differ: a unit that comes back has a new one, so a
//! history names units by their places and finds the ids when a group is asked for. `undo_redo` keeps
//! the texts of the units beside it. Below is stream_edits, which says what a group of edits makes of
//! a stream; above is serve_calls.
#![tactic(auto)]

mod changes;
mod draft;
mod groups;
mod history;
mod refusals;
pub mod undo_redo;

pub use changes::UnitChange;
pub use groups::StepGroup;
pub use history::History;
pub use refusals::NotUndone;

#[cfg(test)]
mod tests;
