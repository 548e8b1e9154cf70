//! Why a file, an access unit, a parameter set or a unit's picture isn't what it should be, in
//! sentences.
//!
//! A `Reason` is made of a refusal of access_unit, of a fault of param_sets or of one of
//! unit_outcomes, with the numbers that it speaks of; printed, it is a sentence without its full
//! stop, with the section of ITU-T H.264. All sentences stand in one file. `file_kinds` says what
//! kind of file one is by its first bytes. Above are stream_check and failure_reasons.
#![tactic(auto)]

pub mod file_kinds;
mod reason;
mod sentences;

pub use reason::Reason;
