//! Undo and redo beside a stream of access units, as a value that follows its edits.
//!
//! An `UndoRedo` keeps the texts of the stream's units under their ids, and a history. Before an
//! edit is asked for, `begin` and `prepare` take the memory that is needed to take it in; once it is
//! accepted, `made` and `end` take it in without fail. An edit that is refused leaves no trace.
//! Several insertions between one `begin` and its `end`, as those of a load, are one step; a group
//! is one by `prepare_group` and `grouped`. `undo` and `redo` answer a group of edits, and `undone`
//! and `redone` take in that it was made. Clauses say that the stream then has the texts that it had
//! before the step that is taken back, whatever was undone and redone before. A stream can begin from
//! a snapshot, and `snapshot` answers that of the stream as it is. A `History` finds the edits that
//! take a step back; whoever edits a session stands above.

mod places;
mod prepared;
mod undo_redo;
mod unit_texts;

pub use crate::NotUndone;
pub use prepared::{OpenStep, PreparedEdit, PreparedGroup};
pub use undo_redo::UndoRedo;
pub use unit_texts::UnitTexts;
