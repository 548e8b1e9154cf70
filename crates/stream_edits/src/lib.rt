//! What an edit of a stream of access units is, and what it makes of the stream.
//!
//! `Edit::read` reads an edit's text, once. `change_of` finds the place of an edit that is read and
//! tests the limits: it answers the change by one unit that the edit comes to, or why the edit is
//! refused. `ReadGroup::read` and `change_of_group` do so for a group of edits, which comes to one
//! change. `Change::make` makes a change. `snapshots` has streams as they are written down. Below is
//! access_unit, which reads texts; beside this are the fold over a stream and the store of its
//! pictures; above are those that keep a stream under edits.
#![tactic(auto)]

mod accepting;
mod changes;
mod draft;
mod edits;
mod group_refused;
mod grouping;
mod journal_entry;
mod laws;
mod narrowing;
mod places;
mod read_edit;
mod read_group;
mod receipts;
mod refusals;
pub mod snapshots;

pub use accepting::{AcceptedEdit, AcceptedGroup, change_of};
pub use changes::Change;
pub use edits::{Edit, InsertionPoint};
pub use group_refused::GroupRefused;
pub use grouping::change_of_group;
pub use journal_entry::JournalEntry;
pub use laws::ids_differ;
pub use picture_keys::changed_units::Changed;
pub use places::place_of;
pub use read_edit::ReadEdit;
pub use read_group::{MOST_EDITS, ReadGroup};
pub use receipts::{GroupReceipt, Last, Receipt};
pub use refusals::EditRefused;

#[cfg(test)]
mod tests;
