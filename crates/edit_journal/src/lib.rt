//! A journal of edits: a SQLite database whose one table keeps a row for each edit.
//!
//! What one call of `Journal::append` is given is a record: the steps of one accepted edit, group or load. It stands
//! whole, or not at all: clauses say that a crash leaves the records of before, or the new one behind them.
//! `Journal::over` makes a journal in a store, or reads the one that is there. `Journal::rewrite` puts one record in the
//! place of all, and `Journal::shorten` takes the last steps of the last record off again. The store is one of the crate
//! sqlite, a file or memory; docs/JOURNAL.md says what other programs find in the file.
#![tactic(auto)]

mod fault;
mod first_page;
mod journal;
mod line;
mod opening;
mod reading;
mod rows;
mod table;
mod writing;

pub use fault::JournalFault;
pub use journal::Journal;
pub use line::{Kind, Line, RowStep};
pub use opening::{FileJournal, open};
pub use sqlite_disk::{Start, Wary};
