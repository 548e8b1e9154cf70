//! A session over a stream of access units under edits, with the pictures of any decoder.
//!
//! `Session` keeps a stream; `edit` inserts, deletes and replaces units, given as bytes, and
//! answers a receipt or a refusal that changes nothing; `edit_group` makes several edits as one
//! step. What `outcome` and `position` answer is the plain fold over the stream as it is. `take`
//! gives a job to decode, and `take_for` one that a unit needs; `land` takes the result, late or
//! twice, and `show` answers the picture of a unit as the stream is now. Each picture that landed goes
//! back to the host once: by `drop_picture`, by `uncache`, or by `take_released`, where an edit let it go.
//! Below are decode_jobs, whose `Decoded` says what a decoder makes of what, stream_edits, which
//! says what an edit is, stream_fold, which keeps the stream folded and makes anew what an edit
//! changes, and from whose snapshots a session may begin, and picture_store, which keeps the
//! pictures; above are stand_in_session, at the stand-in, and c_calls.
#![tactic(auto)]

mod changing;
mod config;
mod doubting;
mod session;
mod showing;
mod splices;

pub use config::{Config, ConfigFault};
pub use session::Session;
pub use showing::{Dropped, NoSuchUnit, Shown};
pub use unit_outcomes::doubts::Doubt;
