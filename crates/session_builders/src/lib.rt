//! What tests of sessions share: edits as their tables have them, and what a session says of its
//! units held against the plain fold. Tests alone use it.
#![tactic(auto)]

mod folded;
mod told;

pub use folded::tells_each;
pub use told::{EditRow, are_ids, edit_of, edits_of};
