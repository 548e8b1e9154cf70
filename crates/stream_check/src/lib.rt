//! What is the matter with a file.
//!
//! `check` finds what a file is: of another kind, a stream that is refused, with what `mend` leaves
//! out of it, or a stream, with its parameter sets in words, what is counted of its units, each unit
//! with a fault and why, and the doubt_ranges in doubt. Below are file_kinds, stream_reasons,
//! stream_mending, doubts and the crates that plan; above is check_report, which prints it.
#![tactic(auto)]

mod check_result;
mod counts;
mod doubt_ranges;
mod folding;
mod problems;
mod set_words;
mod sets;
mod spans;
mod surfaces;
mod unread;

pub use check_result::{CheckResult, CheckedStream, RefusedStream, check};
pub use counts::StreamCounts;
pub use doubt_ranges::DoubtRange;
pub use problems::Problem;
pub use set_words::{Level, Profile, SetWords, chroma_words, profile_words};
pub use spans::{UnitSpan, longest};
pub use unread::{Unread, left_out};
