//! What a server answers, in JSON-RPC 2.0 (docs/SERVER.md).
//!
//! An `Answer` is made of what a session answers, or of what is asked of it, and has just the
//! members that are written. `result_text`, `failure_text` and `notification_text` write them, by
//! `serde_json`, and declare nothing of their text. No session is asked here. Below are
//! serve_requests, whose failures are answered too, stand_in_session, whose replies answers are made of,
//! stream_mending, for what is left out, and unit_printing, for what becomes of a unit; above is
//! serve_calls.
#![tactic(auto)]

mod answer;
mod introduction;
mod job_answers;
mod journal_answers;
mod left_out_answers;
mod replies;
mod reply;
mod unit_answers;
mod words;

pub use answer::{Answer, Appearance, ChangedUnit, FoundUnit, Picked, Stats, UnitRange, UnitState};
pub use introduction::{Introduction, Limits};
pub use job_answers::{JobAnswer, ReferenceAnswer, RequestAnswer};
pub use journal_answers::{EditAnswer, EntryAnswer};
pub use left_out_answers::{LeftOutAnswer, of_left_out};
pub use replies::{of_drop, of_edit, of_give_back, of_group, of_land, of_show, state_of};
pub use reply::{failure_text, notification_text, result_text};
pub use unit_answers::{PlanAnswer, UnitAnswer, UnitFlags};
pub use words::{Digits, Text, Word};
