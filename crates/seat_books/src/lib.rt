//! Books of seats, and whether they agree with a journal.
//!
//! A seat is one user of a session. It keeps a `SeatBook`: a receipt of each edit and each group of
//! edits of its own that was accepted, of each unit that it was shown and of each picture that it
//! dropped, with the journal's length then. `audit` follows each book over the journal and finds
//! the first receipt that the journal doesn't bear out. Below is stand_in_session; above is the pool,
//! whose seats keep these books.
#![tactic(auto)]

mod auditing;
mod book;
mod comparing;
mod copying;
mod drop_table;
mod dropping;
mod faults;
mod making;
mod noted_group;
mod number_set;
mod receipts;
mod replay;
mod settling;

pub use auditing::audit;
pub use book::{SeatBook, noted_lengths};
pub use copying::{copy_of_edits, copy_of_entry};
pub use faults::AuditFault;
pub use noted_group::NotedGroup;
pub use number_set::NumberSet;
pub use receipts::SeatReceipt;
