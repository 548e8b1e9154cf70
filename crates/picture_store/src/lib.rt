//! The pictures of a stream's units: which are held, which wait, which are cached after their keys
//! went out of use, and the jobs that are out.
//!
//! `PictureStore` knows a stream by its units' ids and the outcome of each. `refit` makes a
//! splice of units, and finds the keys of these and of those after it whose keys may have
//! changed with it: a picture whose key stays in use stays held. `take` gives the job of the
//! earliest picture that can be decoded, `take_for` that of the earliest which a unit needs, `land`
//! takes its result, late or twice, `give_back` the job undone, and `picture` shows what is held.
//! Pictures go back to the host by `drop_picture`, `uncache` and `take_released`. `mark` remembers
//! the keys of the units, and `is_altered` tells where a unit has another one since. Below are
//! key_slots, picture_keys, which gives keys their numbers, and picture_cache; above is the
//! session.
#![tactic(auto)]

mod answers;
mod changing;
mod due;
mod filling;
mod inputs;
mod job_out;
mod mark;
mod naming;
mod recounting;
mod refitting;
mod rescheduling;
mod schedule;
mod store;
mod unreferred;

pub use answers::{JobAt, Landing, Returning, SpliceTaken, TakeRefused};
pub use changing::UnitSplice;
pub use due::something_is_due;
pub use held_pictures::picture_cache::MOST_CAPACITY;
pub use refitting::numbers_of;
pub use store::PictureStore;
